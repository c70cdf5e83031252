// The types of a body's locals beside the parameters, found by number (2.5.3).
ghost use Rattle.std.specs.Prelude.{◌≡◌, ◌^◌, ◌<◌, slice_get, IfOk};
ghost use Rattle.zw_wasm.specs.ModuleBytes.{local_count};
ghost use Rattle.zw_wasm.specs.Validity.{expanded};
ghost use Rattle.std.specs.List.Sorted.{IsNonDecreasingBy};
ghost use Rattle.zw_wasm_check.specs.Locals.{end_of, runs_between};

use sqlite_items::{Items, at};
use std::alloc::{AllocError, Global};
use std::marker::Model;
use zw_wasm::ValType;

/// Locals of one type that follow each other: the number of locals up to the last of them, and their type.
#[derive(Clone, Copy)]
pub struct Run {
    pub end: usize,
    pub ty: ValType,
}

/// The locals of a body. Contracts see the runs, each with how many locals it has.
#[derive(Drop)]
pub struct Locals {
    ends: Items<Run>,
}

impl Model for Locals {
    ghost use Rattle.std.specs.Prelude.{ℕ, List};
    ghost use Rattle.std.specs.List.Sorted.{IsNonDecreasingBy};
    ghost use Rattle.zw_wasm.specs.declared.module.ValType.{ValType};
    ghost use Rattle.zw_wasm_check.specs.Locals.{end_of, runs_between};

    ghost Value = { List (ℕ × ValType) };

    ghost view = { λ l. runs_between 0 l.ends };

    ghost invariant = { λ l. IsNonDecreasingBy end_of l.ends };
}

impl Locals {
    /// The locals of these runs.
    pub fn new(alloc: Global, runs: &[(u32, ValType)]) -> Result<Locals, AllocError>
        requires { local_count runs.now < 2 ^ 32 }
        ensures { IfOk result (λ locals. locals ≡ runs.now) }
    {
        let mut ends = Items::new(alloc);
        let mut total = 0usize;
        for (count, ty) in runs {
            total += *count as usize;
            ends.push(Run {
                end: total,
                ty: *ty,
            })?;
        }
        Ok(Locals { ends })
    }

    /// The type of a local, by its number among these, where it is there.
    pub fn type_of(&self, local: usize) -> Option<ValType>
        ensures { result ≡ slice_get (expanded self.now) local }
    {
        type_at(self.ends.as_slice(), local)
    }
}

/// The type of a local, by its number among runs that end so.
fn type_at(ends: &[Run], local: usize) -> Option<ValType>
    requires { IsNonDecreasingBy end_of ends.now }
    ensures { result ≡ slice_get (expanded (runs_between 0 ends.now)) local }
{
    let place = ends.partition_point(|run| run.end <= local);
    match at(ends, place) {
        Some(run) => Some(run.ty),
        None => None,
    }
}
