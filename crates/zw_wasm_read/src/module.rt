// Whole modules (5.5.15).
ghost use Rattle.std.specs.Prelude.{◌≡◌, ◌≤◌, ◌<◌, ◌^◌, length, map, IfOk};
ghost use Rattle.zw_wasm.specs.ModuleBytes.{IsHeader};
ghost use Rattle.zw_wasm_read.specs.Reads.{Passes};
ghost use Rattle.zw_wasm_read.specs.Sections.{ReadsBack, ReadsFront, ReadsModule, module_of};

use crate::room::with_room;
use crate::sections::{pass_customs, read_optional, read_optional_start, stop};
use crate::stop::{BadCode, ReadErr};
use crate::unread::Unread;
use crate::vectors::TableType;
use sqlite_items::Items;
use std::alloc::Global;
use zw_base::Oom;
use zw_wasm::{
    CodeBody, DataSegment, Element, ExportDef, FuncImport, FuncType, GlobalDef, Limits, Module,
};

/// The sections before that of the function that runs first.
#[derive(Drop)]
pub(crate) struct Front {
    pub types: Items<FuncType>,
    pub imports: Items<FuncImport>,
    pub funcs: Items<u32>,
    pub tables: Items<Limits>,
    pub memories: Items<Limits>,
    pub globals: Items<GlobalDef>,
    pub exports: Items<ExportDef>,
}

/// That section and those behind it.
#[derive(Drop)]
pub(crate) struct Back {
    pub start: Option<u32>,
    pub elements: Items<Element>,
    pub codes: Items<CodeBody>,
    pub datas: Items<DataSegment>,
}

/// The magic number and the version.
const HEADER: [u8; 8] = [0x00, 0x61, 0x73, 0x6D, 0x01, 0x00, 0x00, 0x00];

/// A module from all its bytes, of which there are less than 2^32. Where they are no module, the answer is the first stop from
/// left to right.
pub fn read(alloc: Global, bytes: &[u8]) -> Result<Module, ReadErr>
    requires { length bytes.now < 2 ^ 32 }
    ensures { ReadsModule bytes.now result }
{
    let total = bytes.len();
    let rest = match pass_header(bytes) {
        Ok(rest) => rest,
        Err(Unread::Unfit) => return Err(stop(total, total, BadCode::Header)),
        Err(Unread::Oom) => return Err(ReadErr::Oom),
    };
    let (front, rest) = read_front(alloc, total, rest)?;
    let (back, _rest) = read_back(alloc, total, rest)?;
    if front.funcs.len() != back.codes.len() {
        return Err(stop(total, 0, BadCode::Counts));
    }
    Ok(joined(front, back))
}

/// The magic number and the version.
fn pass_header(b: &[u8]) -> Result<&[u8], Unread>
    ensures { Passes IsHeader b.now result }
{
    match b.strip_prefix(&HEADER) {
        Some(rest) => Ok(rest),
        None => Err(Unread::Unfit),
    }
}

/// The sections up to that of exports, with the custom sections around them.
fn read_front(alloc: Global, total: usize, b: &[u8]) -> Result<(Front, &[u8]), ReadErr>
    requires within { length b.now ≤ total }
    requires small { total < 2 ^ 32 }
    ensures { ReadsFront total b.now result }
{
    let b = pass_customs(total, 0, b)?;
    let (types, b) = read_optional(alloc, total, 1, b)?;
    let (imports, b) = read_optional(alloc, total, 2, b)?;
    let (funcs, b) = read_optional(alloc, total, 3, b)?;
    let (tables, b) = read_optional::<TableType>(alloc, total, 4, b)?;
    let tables = limits_of(alloc, tables.as_slice())?;
    let (memories, b) = read_optional(alloc, total, 5, b)?;
    let (globals, b) = read_optional(alloc, total, 6, b)?;
    let (exports, b) = read_optional(alloc, total, 7, b)?;
    let front = Front {
        types,
        imports,
        funcs,
        tables,
        memories,
        globals,
        exports,
    };
    Ok((front, b))
}

/// The limits of tables.
fn limits_of(alloc: Global, tables: &[TableType]) -> Result<Items<Limits>, Oom>
    ensures { IfOk result (λ limits. limits ≡ map (λ table. table.limits) tables.now) }
{
    let mut limits = with_room(alloc, tables.len(), tables.len(), 1)?;
    for table in tables {
        limits.push(table.limits)?;
    }
    Ok(limits)
}

/// The sections from that of the function that runs first on, with the custom sections behind them.
fn read_back(alloc: Global, total: usize, b: &[u8]) -> Result<(Back, &[u8]), ReadErr>
    requires within { length b.now ≤ total }
    requires small { total < 2 ^ 32 }
    ensures { ReadsBack total b.now result }
{
    let (start, b) = read_optional_start(total, b)?;
    let (elements, b) = read_optional(alloc, total, 9, b)?;
    let (codes, b) = read_optional(alloc, total, 10, b)?;
    let (datas, b) = read_optional(alloc, total, 11, b)?;
    let back = Back {
        start,
        elements,
        codes,
        datas,
    };
    Ok((back, b))
}

/// Both as one module.
fn joined(front: Front, back: Back) -> Module
    ensures { result ≡ module_of front back }
{
    Module {
        types: front.types,
        imports: front.imports,
        funcs: front.funcs,
        tables: front.tables,
        memories: front.memories,
        globals: front.globals,
        exports: front.exports,
        start: back.start,
        elements: back.elements,
        codes: back.codes,
        datas: back.datas,
    }
}
