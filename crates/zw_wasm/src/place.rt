// The code of a segment's place.
ghost use Rattle.std.specs.Prelude.{◌≡◌};

use crate::module::Instr;
use sqlite_items::Items;
use std::marker::Model;
use std::slice;

/// Code as it is kept: one instruction, or a list.
#[derive(Debug, Drop)]
pub(crate) enum Kept {
    One(Instr),
    Many(Items<Instr>),
}

/// The code of a segment's place (2.5.7, 2.5.8), which ends with `Instr::End`. Contracts see the list of its instructions. Code of one
/// instruction has no list of its own, since a module that isn't valid may have millions of them.
#[derive(Debug, Drop)]
pub struct PlaceCode {
    kept: Kept,
}

impl Model for PlaceCode {
    ghost use Rattle.std.specs.Prelude.{List};
    ghost use Rattle.zw_wasm.specs.Places.{instrs_of};
    ghost use Rattle.zw_wasm.specs.declared.module.Instr.{Instr};

    ghost Value = { List Instr };

    ghost view = { λ p. instrs_of p.kept };
}

impl PlaceCode {
    /// This code.
    pub fn new(code: Items<Instr>) -> PlaceCode
        ensures { result ≡ code }
    {
        let mut code = code;
        if code.len() != 1 {
            return PlaceCode {
                kept: Kept::Many(code),
            };
        }
        match code.pop() {
            Some(instr) => PlaceCode {
                kept: Kept::One(instr),
            },
            None => PlaceCode {
                kept: Kept::Many(code),
            },
        }
    }

    /// Its instructions.
    pub fn as_slice(&self) -> &[Instr]
        ensures { result.now ≡ self.now }
    {
        match &self.kept {
            Kept::One(instr) => slice::from_ref(instr),
            Kept::Many(instrs) => instrs.as_slice(),
        }
    }
}
