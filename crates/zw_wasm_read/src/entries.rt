// The entries of sections (5.5).
ghost use Rattle.std.specs.Prelude.{◌<◌, ◌^◌, IsTrue, ◌↔◌};
ghost use Rattle.zw_wasm.specs.ModuleBytes.{IsCode, IsDataSegment, IsElement, IsExport, IsExportKind, IsFunctionImport, IsGlobal, IsLocalRun, local_count};
ghost use Rattle.zw_wasm_read.specs.Bodies.{ReadsBody};
ghost use Rattle.zw_wasm_read.specs.Reads.{Reads};

use crate::bytes::{pass_byte, read_byte, read_bytes, read_name, read_sized, read_u32};
use crate::expressions::{read_expression, read_place};
use crate::types::{read_mutability, read_value_type};
use crate::unread::Unread;
use crate::vectors::read_vector;
use std::alloc::Global;
use zw_wasm::{CodeBody, DataSegment, Element, ExportDef, FuncImport, GlobalDef, ValType};

/// An imported function (5.5.5).
pub(crate) fn read_import(alloc: Global, b: &[u8]) -> Result<(FuncImport, &[u8]), Unread>
    ensures { Reads IsFunctionImport b.now result }
{
    let (module, b) = read_name(alloc, b)?;
    let (field, b) = read_name(alloc, b)?;
    let b = pass_byte(0x00, b)?;
    let (ty, b) = read_u32(b)?;
    Ok((FuncImport { module, field, ty }, b))
}

/// A global (5.5.9).
pub(crate) fn read_global(alloc: Global, b: &[u8]) -> Result<(GlobalDef, &[u8]), Unread>
    ensures { Reads IsGlobal b.now result }
{
    let (ty, b) = read_value_type(b)?;
    let (mutable, b) = read_mutability(b)?;
    let (init, b) = read_expression(alloc, b)?;
    Ok((GlobalDef { ty, mutable, init }, b))
}

/// What an export is of.
fn read_export_kind(b: &[u8]) -> Result<(u8, &[u8]), Unread>
    ensures { Reads IsExportKind b.now result }
{
    let (kind, b) = read_byte(b)?;
    if kind > 3 {
        return Err(Unread::Unfit);
    }
    Ok((kind, b))
}

/// An export (5.5.10).
pub(crate) fn read_export(alloc: Global, b: &[u8]) -> Result<(ExportDef, &[u8]), Unread>
    ensures { Reads IsExport b.now result }
{
    let (name, b) = read_name(alloc, b)?;
    let (kind, b) = read_export_kind(b)?;
    let (index, b) = read_u32(b)?;
    Ok((ExportDef { name, kind, index }, b))
}

/// The functions that a part of a table begins with (5.5.12).
pub(crate) fn read_element(alloc: Global, b: &[u8]) -> Result<(Element, &[u8]), Unread>
    ensures { Reads IsElement b.now result }
{
    let (table, b) = read_u32(b)?;
    let (at, b) = read_place(alloc, b)?;
    let (funcs, b) = read_vector(alloc, b)?;
    Ok((Element { table, at, funcs }, b))
}

/// The bytes that a part of a memory begins with (5.5.14).
pub(crate) fn read_data(alloc: Global, b: &[u8]) -> Result<(DataSegment, &[u8]), Unread>
    ensures { Reads IsDataSegment b.now result }
{
    let (memory, b) = read_u32(b)?;
    let (at, b) = read_place(alloc, b)?;
    let (bytes, b) = read_bytes(alloc, b)?;
    Ok((DataSegment { memory, at, bytes }, b))
}

/// A run of locals of one type (5.5.13).
pub(crate) fn read_local_run(b: &[u8]) -> Result<((u32, ValType), &[u8]), Unread>
    ensures { Reads IsLocalRun b.now result }
{
    let (count, b) = read_u32(b)?;
    let (ty, b) = read_value_type(b)?;
    Ok(((count, ty), b))
}

/// The locals and the code of a function, after their size.
pub(crate) fn read_code(alloc: Global, b: &[u8]) -> Result<(CodeBody, &[u8]), Unread>
    ensures { Reads IsCode b.now result }
{
    let (content, rest) = read_sized(b)?;
    let body = read_body(alloc, content)?;
    Ok((body, rest))
}

/// The locals and the code of a function, of which these are all bytes.
fn read_body(alloc: Global, b: &[u8]) -> Result<CodeBody, Unread>
    ensures { ReadsBody b.now result }
{
    let (locals, b) = read_vector(alloc, b)?;
    let (instrs, b) = read_expression(alloc, b)?;
    if !b.is_empty() {
        return Err(Unread::Unfit);
    }
    if !are_few(locals.as_slice()) {
        return Err(Unread::Unfit);
    }
    Ok(CodeBody { locals, instrs })
}

/// Whether there are less than 2^32 locals.
fn are_few(runs: &[(u32, ValType)]) -> bool
    ensures { IsTrue result ↔ (local_count runs.now < 2 ^ 32) }
{
    let mut count = 0;
    for (run, _) in runs {
        count += u64::from(*run);
        if count > u64::from(u32::MAX) {
            return false;
        }
    }
    true
}
