// What stands outside bodies, in the order of sections and their entries (3.4.10).
ghost use Rattle.std.specs.Prelude.{◌≡◌, ◌<◌, ◌^◌, ◌&&◌, nat_eq, nat_lt, not, position, IfSome, length};
ghost use Rattle.zw_wasm.specs.Fits.{Fits};
ghost use Rattle.zw_wasm.specs.Validity.{data_ok, element_ok, first_refused, global_ok, in_limits, memory_ok, outside, outside_violation};
ghost use Rattle.zw_wasm.specs.WellFormed.{IsWellFormed};
ghost use Rattle.zw_wasm_check.specs.Check.{Finds};

use crate::constants::has_first_value;
use crate::entries::{are_in_order, are_pages, fits_memory, fits_table, is_type, starts_right};
use crate::exports::refused_export;
use crate::module::CheckErr;
use std::alloc::Global;
use zw_wasm::{Limits, Module};

/// Looks for the first violation outside bodies.
pub fn check_outside(alloc: Global, m: &Module) -> Result<(), CheckErr>
    requires fits { Fits m.now }
    requires formed { IsWellFormed m.now }
    ensures { Finds (outside_violation m.now) result }
{
    refuse(2, refused_import(m))?;
    refuse(3, refused_function(m))?;
    refuse(4, refused_table(m.tables.as_slice()))?;
    refuse(5, refused_memory(m.memories.as_slice()))?;
    refuse(6, refused_global(m))?;
    refuse(7, refused_export(alloc, m)?)?;
    if !starts_right(m) {
        return Err(CheckErr::Outside {
            section: 8,
            entry: 0,
        });
    }
    refuse(9, refused_element(m))?;
    refuse(11, refused_data(m))
}

/// An entry of a section that is refused is a violation, and none is none.
fn refuse(section: u8, entry: Option<usize>) -> Result<(), CheckErr>
    requires { IfSome entry (λ k. k < 2 ^ 32) }
    ensures { Finds (outside section entry) result }
{
    match entry {
        Some(entry) => Err(CheckErr::Outside {
            section,
            entry: entry as u32,
        }),
        None => Ok(()),
    }
}

/// The number of the first import whose type isn't there.
fn refused_import(m: &Module) -> Option<usize>
    ensures { result ≡ position (λ i. not (nat_lt i.ty (length m.now.types))) m.now.imports }
{
    m.imports
        .as_slice()
        .iter()
        .position(|import| !is_type(m, import.ty))
}

/// The number of the first function with a body whose type isn't there.
fn refused_function(m: &Module) -> Option<usize>
    ensures { result ≡ position (λ ty. not (nat_lt ty (length m.now.types))) m.now.funcs }
{
    m.funcs.as_slice().iter().position(|ty| !is_type(m, *ty))
}

/// The number of the first table that has wrong limits or is a second one.
fn refused_table(tables: &[Limits]) -> Option<usize>
    ensures { result ≡ first_refused (λ k l. nat_eq k 0 && in_limits l.least l.greatest) 0 tables.now }
{
    match tables {
        [] => None,
        [first, ..] if !are_in_order(*first) => Some(0),
        [_] => None,
        [_, ..] => Some(1),
    }
}

/// The number of the first memory that has wrong limits or is a second one.
fn refused_memory(memories: &[Limits]) -> Option<usize>
    ensures { result ≡ first_refused (λ k l. nat_eq k 0 && memory_ok l) 0 memories.now }
{
    match memories {
        [] => None,
        [first, ..] if !are_pages(*first) => Some(0),
        [_] => None,
        [_, ..] => Some(1),
    }
}

/// The number of the first global whose first value is no constant of its type.
fn refused_global(m: &Module) -> Option<usize>
    ensures { result ≡ position (λ g. not (global_ok g)) m.now.globals }
{
    m.globals
        .as_slice()
        .iter()
        .position(|global| !has_first_value(global))
}

/// The number of the first part of a table that may not stand here.
fn refused_element(m: &Module) -> Option<usize>
    ensures { result ≡ position (λ e. not (element_ok m.now e)) m.now.elements }
{
    m.elements
        .as_slice()
        .iter()
        .position(|element| !fits_table(m, element))
}

/// The number of the first part of a memory that may not stand here.
fn refused_data(m: &Module) -> Option<usize>
    ensures { result ≡ position (λ d. not (data_ok m.now d)) m.now.datas }
{
    m.datas
        .as_slice()
        .iter()
        .position(|segment| !fits_memory(m, segment))
}
