// The entries of sections outside bodies: whether each may stand in its module (3.2, 3.4).
ghost use Rattle.std.specs.Prelude.{◌≡◌, nat_lt, length, option_copied, Some, None, if◌then◌else◌};
ghost use Rattle.std.specs.List.{list_all};
ghost use Rattle.zw_wasm.specs.Functions.{func_count, func_type};
ghost use Rattle.zw_wasm.specs.Validity.{Outside, at_most_pages, data_ok, element_ok, export_is_there, in_limits, is_start_type, memory_ok, start_section, start_violation};
ghost use Rattle.zw_wasm.specs.declared.module.FuncType.{FuncType};

use crate::constants::is_constant_of;
use zw_wasm::{DataSegment, Element, ExportDef, FuncType, Limits, Module, ValType, func_type};

/// The greatest number of pages in a memory.
const MAX_PAGES: u32 = 65_536;

/// Whether there is a type of this number.
pub fn is_type(m: &Module, ty: u32) -> bool
    ensures { result ≡ nat_lt ty (length m.now.types) }
{
    (ty as usize) < m.types.len()
}

/// Whether there is a function of this number, among the imported ones and those with a body.
pub fn is_function(m: &Module, func: u32) -> bool
    ensures { result ≡ nat_lt func (func_count m.now) }
{
    let func = func as usize;
    func < m.imports.len() || func - m.imports.len() < m.funcs.len()
}

/// Whether there is a function of each of these numbers.
fn are_functions(m: &Module, funcs: &[u32]) -> bool
    ensures { result ≡ list_all (λ f. nat_lt f (func_count m.now)) funcs.now }
{
    funcs.iter().all(|func| is_function(m, *func))
}

/// Whether the greatest size, where there is one, is at least the least.
pub fn are_in_order(limits: Limits) -> bool
    ensures { result ≡ in_limits limits.least limits.greatest }
{
    match limits.greatest {
        Some(greatest) => limits.least <= greatest,
        None => true,
    }
}

/// Whether a memory may have these limits, in pages.
pub fn are_pages(limits: Limits) -> bool
    ensures { result ≡ memory_ok limits }
{
    limits.least <= MAX_PAGES && are_at_most_pages(limits.greatest) && are_in_order(limits)
}

/// Whether a greatest size, where there is one, is of so many pages as a memory may have.
fn are_at_most_pages(greatest: Option<u32>) -> bool
    ensures { result ≡ at_most_pages greatest }
{
    match greatest {
        Some(greatest) => greatest <= MAX_PAGES,
        None => true,
    }
}

/// Whether what an export names is there.
pub fn is_there(m: &Module, export: &ExportDef) -> bool
    ensures { result ≡ export_is_there m.now export.now }
{
    let index = export.index as usize;
    match export.kind {
        ExportDef::FUNC => is_function(m, export.index),
        ExportDef::TABLE => index < m.tables.len(),
        ExportDef::MEMORY => index < m.memories.len(),
        ExportDef::GLOBAL => index < m.globals.len(),
        _ => false,
    }
}

/// Whether the function that runs first, where there is one, is there, and takes and gives nothing.
pub fn starts_right(m: &Module) -> bool
    ensures { start_violation m.now m.now.start ≡ (if result then None else Some (Outside start_section 0)) }
{
    match m.start {
        Some(func) => is_start_type(func_type(m, func as usize)),
        None => true,
    }
}

/// Whether a function's type, where it has one, takes and gives nothing.
fn is_start_type(ty: Option<&FuncType>) -> bool
    ensures { result ≡ is_start_type (option_copied ty.entry) }
{
    match ty {
        Some(ty) => ty.params.as_slice().is_empty() && ty.result.as_slice().is_empty(),
        None => false,
    }
}

/// Whether a part of a table may stand in the module: its table and functions are there, and its place is an `i32`.
pub fn fits_table(m: &Module, element: &Element) -> bool
    ensures { result ≡ element_ok m.now element.now }
{
    (element.table as usize) < m.tables.len()
        && is_constant_of(m.globals.as_slice(), ValType::I32, element.at.as_slice())
        && are_functions(m, element.funcs.as_slice())
}

/// Whether a part of a memory may stand in the module: its memory is there, and its place is an `i32`.
pub fn fits_memory(m: &Module, segment: &DataSegment) -> bool
    ensures { result ≡ data_ok m.now segment.now }
{
    (segment.memory as usize) < m.memories.len()
        && is_constant_of(m.globals.as_slice(), ValType::I32, segment.at.as_slice())
}
