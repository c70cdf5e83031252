// Whole modules (3.4.10).
ghost use Rattle.std.specs.Prelude.{◌≡◌};
ghost use Rattle.zw_wasm.specs.Fits.{Fits};
ghost use Rattle.zw_wasm.specs.Validity.{IsValid, bodies_violation};
ghost use Rattle.zw_wasm.specs.WellFormed.{IsWellFormed};
ghost use Rattle.zw_wasm_check.specs.Check.{Checks, Finds, HasBytes};

use crate::body::check_body;
use crate::outside::check_outside;
use std::alloc::{AllocError, Global};
use std::fmt;
use std::marker::Model;
use zw_wasm::Module;

/// Why a module isn't valid.
#[derive(Clone, Copy, Debug, PartialEq, Eq)]
pub enum CheckErr {
    /// The first violation stands outside bodies: the numbers of the section and of its entry, from 0.
    Outside { section: u8, entry: u32 },
    /// It stands in a body: the numbers of the body and of the instruction, from 0, and why: 1 where an index isn't there, 2
    /// where an operand has another type or a global isn't mutable, 3 where an alignment is past the natural one.
    Body { func: u32, at: u32, code: u8 },
    /// Memory ran out.
    Oom,
}

impl From<AllocError> for CheckErr {
    ghost use Rattle.std.specs.Prelude.{◌≡◌};
    ghost use Rattle.zw_wasm_check.specs.declared.module.CheckErr.TheVariants as error;

    ghost from_gives = { λ _ e. e ≡ error.Oom };

    fn from(_: AllocError) -> CheckErr {
        CheckErr::Oom
    }
}

impl fmt::Display for CheckErr {
    ghost use Rattle.std.specs.Prelude.{Some};
    ghost use Rattle.zw_wasm_check.specs.Texts.{text_of};

    ghost output = { λ e. Some (text_of e) };

    fn fmt<W: fmt::Write>(&self, f: &mut fmt::Formatter<W>) -> fmt::Result {
        match self {
            CheckErr::Outside { section, entry } => write!(f, "section {section}, entry {entry}"),
            CheckErr::Body { func, at, code } => {
                write!(f, "function {func}, instruction {at}, code {code}")
            }
            CheckErr::Oom => write!(f, "out of memory"),
        }
    }
}

/// A valid module. Contracts see the module.
#[derive(Drop)]
pub struct Checked {
    module: Module,
}

impl Model for Checked {
    ghost use Rattle.zw_wasm.specs.Validity.{IsValid};
    ghost use Rattle.zw_wasm.specs.declared.module.Module.{Module};

    ghost Value = { Module };

    ghost view = { λ c. c.module };

    ghost invariant = { λ c. IsValid c.module };
}

impl Checked {
    /// The module that was checked.
    pub fn module(&self) -> &Module
        ensures same { result.now ≡ self.now }
        ensures valid { IsValid result.now }
    {
        &self.module
    }
}

/// Checks a module that some bytes spell. What stands outside bodies comes first, by section and entry, then the bodies. The
/// answer is the module where it is valid, and else its first violation.
pub fn check(alloc: Global, m: Module) -> Result<Checked, CheckErr>
    requires { HasBytes m }
    ensures { Checks m result }
{
    check_outside(alloc, &m)?;
    check_bodies(alloc, &m)?;
    Ok(Checked { module: m })
}

/// Looks for the first violation in bodies.
fn check_bodies(alloc: Global, m: &Module) -> Result<(), CheckErr>
    requires fits { Fits m.now }
    requires formed { IsWellFormed m.now }
    ensures { Finds (bodies_violation m.now 0 m.now.codes) result }
{
    for (number, body) in m.codes.as_slice().iter().enumerate() {
        if let Some(place) = check_body(alloc, m, m.imports.len() + number, body)? {
            return Err(CheckErr::Body {
                func: number as u32,
                at: place.at as u32,
                code: place.fault.number(),
            });
        }
    }
    Ok(())
}
