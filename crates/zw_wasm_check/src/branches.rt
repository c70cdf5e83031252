// Branches: what they take, and where code goes on behind them.
ghost use Rattle.std.specs.Prelude.{◌≡◌, ◌∷◌, slice_get, is_some, IfOk};
ghost use Rattle.std.specs.List.{list_all};
ghost use Rattle.std.specs.Option.{option_to_list};
ghost use Rattle.zw_wasm.specs.Typing.{Context, branches_so, check_instr, same_types};
ghost use Rattle.zw_wasm_check.specs.Stacks.{ComesTo, control_of, outer_of};

use crate::operands::take;
use crate::stacks::{Fault, Stacks, Step};
use std::alloc::{AllocError, Global};
use zw_wasm::{Instr, ValType, same_type};

impl Stacks {
    /// A branch to a label.
    pub fn branch_always(&mut self, alloc: Global, label: u32) -> Step
        ensures { (x : Context) → ComesTo (check_instr x (Instr.Br label)) self.old result self.new }
    {
        match self.branch(label) {
            Some(ty) => self.jump(alloc, ty.as_slice()),
            None => Step::Refused(Fault::Index),
        }
    }

    /// A branch to a label where an `i32` isn't 0.
    pub fn branch_if(&mut self, label: u32) -> Result<Step, AllocError>
        ensures { (x : Context) → IfOk result (λ step. ComesTo (check_instr x (Instr.BrIf label)) self.old step self.new) }
    {
        let Some(ty) = self.branch(label) else {
            return Ok(Step::Refused(Fault::Index));
        };
        if !take(&mut self.operands, ValType::I32, self.control.unreachable) {
            return Ok(Step::Refused(Fault::Type));
        }
        self.replace(ty.as_slice(), ty)
    }

    /// A branch by a table of labels, which take the same as the default.
    pub fn branch_by(&mut self, alloc: Global, labels: &[u32], default: u32) -> Step
        ensures { (x : Context) → ComesTo (check_instr x (Instr.BrTable default labels.now)) self.old result self.new }
    {
        let Some(ty) = self.branch(default) else {
            return Step::Refused(Fault::Index);
        };
        if !self.labels_are_there(labels) {
            return Step::Refused(Fault::Index);
        }
        if !self.labels_take(labels, ty) {
            return Step::Refused(Fault::Type);
        }
        if !take(&mut self.operands, ValType::I32, self.control.unreachable) {
            return Step::Refused(Fault::Type);
        }
        self.jump(alloc, ty.as_slice())
    }

    /// Whether all of these labels are there.
    fn labels_are_there(&self, labels: &[u32]) -> bool
        ensures { result ≡ list_all (λ l. is_some (slice_get (control_of self.now.control ∷ outer_of self.now.outer) l)) labels.now }
    {
        for label in labels {
            if self.branch(*label).is_none() {
                return false;
            }
        }
        true
    }

    /// Whether all of these labels are there, and take this.
    fn labels_take(&self, labels: &[u32], ty: Option<ValType>) -> bool
        ensures { result ≡ list_all (λ l. branches_so (option_to_list ty) (slice_get (control_of self.now.control ∷ outer_of self.now.outer) l)) labels.now }
    {
        for label in labels {
            let Some(other) = self.branch(*label) else {
                return false;
            };
            if !same_results(ty, other) {
                return false;
            }
        }
        true
    }
}

/// Whether both have a type, and the same, or neither has one.
fn same_results(left: Option<ValType>, right: Option<ValType>) -> bool
    ensures { result ≡ same_types (option_to_list left) (option_to_list right) }
{
    match (left, right) {
        (None, None) => true,
        (Some(left), Some(right)) => same_type(left, right),
        _ => false,
    }
}
