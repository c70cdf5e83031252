// The code of a module, with the ends of its sequences and the names of its exports.
ghost use Rattle.std.specs.Prelude.{◌≡◌, ◌<◌, IfOk, length, option_copied};
ghost use Rattle.zw_names.specs.NameSets.{names_in};
ghost use Rattle.zw_wasm.specs.ModuleMachine.{export_in};
ghost use Rattle.zw_wasm.specs.Validity.{IsValid};
ghost use Rattle.zw_wasm_run.specs.Bodies.{body_of};
ghost use Rattle.zw_wasm_run.specs.Control.{AreEnds, HaveEnds};
ghost use Rattle.zw_wasm_run.specs.ExportNames.{export_names, of_kind};

use crate::control::{SequenceEnd, sequence_ends};
use indexmap::IndexSet;
use sqlite_items::{Items, at};
use std::alloc::{AllocError, Global};
use std::marker::Model;
use zw_names::{insert, number_in};
use zw_wasm::{CodeBody, ExportDef, Instr, Module};
use zw_wasm_check::Checked;

/// A valid module, for each of its bodies the ends of the sequences there, and the names of its exports, each with the number of
/// its export. Contracts see the module.
#[derive(Drop)]
pub struct Code {
    checked: Checked,
    ends: Items<Items<SequenceEnd>>,
    names: IndexSet<Vec<u8>>,
}

impl Model for Code {
    ghost use Rattle.std.specs.Prelude.{◌≡◌};
    ghost use Rattle.zw_names.specs.NameSets.{names_in};
    ghost use Rattle.zw_wasm.specs.declared.module.Module.{Module};
    ghost use Rattle.zw_wasm_run.specs.Control.{HaveEnds};
    ghost use Rattle.zw_wasm_run.specs.ExportNames.{export_names};

    ghost Value = { Module };

    ghost view = { λ c. c.checked };

    ghost invariant = { λ c. HaveEnds c.checked.codes c.ends × (names_in c.names ≡ export_names c.checked.exports) };
}

impl Code {
    /// The code of a module.
    pub fn new(alloc: Global, checked: Checked) -> Result<Code, AllocError>
        ensures { IfOk result (λ code. code ≡ checked) }
    {
        let ends = all_ends(alloc, checked.module().codes.as_slice())?;
        let names = names_of(alloc, checked.module())?;
        Ok(Code {
            checked,
            ends,
            names,
        })
    }

    /// The module.
    pub fn module(&self) -> &Module
        ensures { result.now ≡ self.now }
    {
        self.checked.module()
    }

    /// The module, as it was checked.
    pub fn checked(&self) -> &Checked
        ensures { result.now ≡ self.now }
    {
        &self.checked
    }

    /// The number of what the module exports as this kind under a name.
    pub fn export(&self, kind: u8, name: &[u8]) -> Option<u32>
        ensures { result ≡ export_in kind name.now self.now.exports }
    {
        let number = number_in(&self.names, name);
        of_kind(at(self.checked.module().exports.as_slice(), number), kind)
    }

    /// The instructions of a body, by its number; none where there is no such body.
    pub fn instrs(&self, body: usize) -> &[Instr]
        ensures { result.now ≡ body_of self.now body }
    {
        match at(self.checked.module().codes.as_slice(), body) {
            Some(code) => code.instrs.as_slice(),
            None => &[],
        }
    }

    /// Where the sequences of a body end.
    pub fn ends(&self, body: usize) -> &[SequenceEnd]
        requires { body < length self.now.codes }
        ensures { AreEnds (body_of self.now body) result.now }
    {
        self.ends.as_slice()[body].as_slice()
    }
}

/// The ends of the sequences of all bodies.
fn all_ends(alloc: Global, codes: &[CodeBody]) -> Result<Items<Items<SequenceEnd>>, AllocError>
    ensures { IfOk result (λ ends. HaveEnds codes.now ends) }
{
    let mut ends = Items::new(alloc);
    for body in codes {
        ends.push(Items::from_vec(sequence_ends(alloc, body.instrs.as_slice())?))?;
    }
    Ok(ends)
}

/// The names of a valid module's exports, in their order.
fn names_of(alloc: Global, m: &Module) -> Result<IndexSet<Vec<u8>>, AllocError>
    requires { IsValid m.now }
    ensures { IfOk result (λ names. names_in names ≡ export_names m.now.exports) }
{
    let mut names = IndexSet::new(alloc);
    for export in m.exports.as_slice() {
        insert(alloc, &mut names, export.name.as_slice())?;
    }
    Ok(names)
}

/// The number of what is exported, where it is there and of this kind.
fn of_kind(export: Option<&ExportDef>, kind: u8) -> Option<u32>
    ensures { result ≡ of_kind kind (option_copied export.entry) }
{
    match export {
        Some(export) if export.kind == kind => Some(export.index),
        _ => None,
    }
}
