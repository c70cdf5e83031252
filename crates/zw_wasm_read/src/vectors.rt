// Vectors (5.1.3).
ghost use Rattle.std.specs.Prelude.{ℕ, List};
ghost use Rattle.zw_wasm.specs.ModuleBytes.{AreLimits, IsCode, IsDataSegment, IsElement, IsExport, IsFunctionImport, IsFunctionType, IsGlobal, IsLocalRun, IsU32, IsValueType, IsVector};
ghost use Rattle.zw_wasm_read.specs.Reads.{Reads};
ghost use Rattle.zw_wasm_read.specs.Uniqueness.{Sure};

use crate::bytes::read_u32;
use crate::entries::{
    read_code, read_data, read_element, read_export, read_global, read_import, read_local_run,
};
use crate::room::with_room;
use crate::types::{read_function_type, read_limits, read_table_type, read_value_type};
use crate::unread::Unread;
use sqlite_items::Items;
use std::alloc::Global;
use zw_wasm::{
    CodeBody, DataSegment, Element, ExportDef, FuncImport, FuncType, GlobalDef, Limits, ValType,
};

/// A thing that a vector has.
pub(crate) trait Decode: Drop + Sized {
    /// Which bytes spell it.
    ghost spells: { Self → List ℕ → Type 0 };

    /// The least number of bytes that spell one.
    const LEAST: usize;

    /// Reads it from the front of bytes.
    fn decode(alloc: Global, b: &[u8]) -> Result<(Self, &[u8]), Unread>
        ensures reads { Reads spells b.now result }
        ensures sure { Sure spells };
}

/// A vector.
pub(crate) fn read_vector<T: Decode>(alloc: Global, b: &[u8]) -> Result<(Items<T>, &[u8]), Unread>
    ensures { Reads (IsVector T.spells) b.now result }
{
    let (count, mut rest) = read_u32(b)?;
    let mut items = with_room(alloc, count as usize, rest.len(), T::LEAST)?;
    while items.len() < count as usize {
        let (item, behind) = T::decode(alloc, rest)?;
        items.push(item)?;
        rest = behind;
    }
    Ok((items, rest))
}

impl Decode for u32 {
    ghost spells = { IsU32 };

    const LEAST: usize = 1;

    fn decode(_alloc: Global, b: &[u8]) -> Result<(u32, &[u8]), Unread> {
        read_u32(b)
    }
}

impl Decode for ValType {
    ghost spells = { IsValueType };

    const LEAST: usize = 1;

    fn decode(_alloc: Global, b: &[u8]) -> Result<(ValType, &[u8]), Unread> {
        read_value_type(b)
    }
}

impl Decode for (u32, ValType) {
    ghost spells = { IsLocalRun };

    const LEAST: usize = 2;

    fn decode(_alloc: Global, b: &[u8]) -> Result<((u32, ValType), &[u8]), Unread> {
        read_local_run(b)
    }
}

impl Decode for FuncType {
    ghost spells = { IsFunctionType };

    const LEAST: usize = 3;

    fn decode(alloc: Global, b: &[u8]) -> Result<(FuncType, &[u8]), Unread> {
        read_function_type(alloc, b)
    }
}

impl Decode for FuncImport {
    ghost spells = { IsFunctionImport };

    const LEAST: usize = 4;

    fn decode(alloc: Global, b: &[u8]) -> Result<(FuncImport, &[u8]), Unread> {
        read_import(alloc, b)
    }
}

impl Decode for Limits {
    ghost spells = { AreLimits };

    const LEAST: usize = 2;

    fn decode(_alloc: Global, b: &[u8]) -> Result<(Limits, &[u8]), Unread> {
        read_limits(b)
    }
}

impl Decode for GlobalDef {
    ghost spells = { IsGlobal };

    const LEAST: usize = 3;

    fn decode(alloc: Global, b: &[u8]) -> Result<(GlobalDef, &[u8]), Unread> {
        read_global(alloc, b)
    }
}

impl Decode for ExportDef {
    ghost spells = { IsExport };

    const LEAST: usize = 3;

    fn decode(alloc: Global, b: &[u8]) -> Result<(ExportDef, &[u8]), Unread> {
        read_export(alloc, b)
    }
}

impl Decode for Element {
    ghost spells = { IsElement };

    const LEAST: usize = 3;

    fn decode(alloc: Global, b: &[u8]) -> Result<(Element, &[u8]), Unread> {
        read_element(alloc, b)
    }
}

impl Decode for CodeBody {
    ghost spells = { IsCode };

    const LEAST: usize = 3;

    fn decode(alloc: Global, b: &[u8]) -> Result<(CodeBody, &[u8]), Unread> {
        read_code(alloc, b)
    }
}

impl Decode for DataSegment {
    ghost spells = { IsDataSegment };

    const LEAST: usize = 3;

    fn decode(alloc: Global, b: &[u8]) -> Result<(DataSegment, &[u8]), Unread> {
        read_data(alloc, b)
    }
}

/// The type of a table, which has limits as the type of a memory has.
#[derive(Drop)]
pub(crate) struct TableType {
    pub limits: Limits,
}

impl Decode for TableType {
    ghost use Rattle.zw_wasm_read.specs.Tables.{IsTable};

    ghost spells = { IsTable };

    const LEAST: usize = 3;

    fn decode(_alloc: Global, b: &[u8]) -> Result<(TableType, &[u8]), Unread> {
        let (limits, b) = read_table_type(b)?;
        Ok((TableType { limits }, b))
    }
}
