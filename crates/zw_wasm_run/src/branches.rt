// Branches and returns (4.4.5.6 to 4.4.5.9), where the body's code ends at a place or before it. The frame's place is behind the
// instruction.
ghost use Rattle.std.specs.Prelude.{◌≤◌, length};
ghost use Rattle.zw_wasm.specs.declared.module.Instr.TheVariants as instr;
ghost use Rattle.zw_wasm_run.specs.Running.{body_of};
ghost use Rattle.zw_wasm_run.specs.Stores.{Executes};
ghost use Rattle.zw_wasm_run.specs.Rooms.{KeepsRoom};

use crate::execute::taken;
use crate::indirect::{branch_by, branch_if};
use crate::pause::Taken;
use crate::stacks::{Stacks, branch, give_back};
use crate::store::Store;
use zw_wasm::Module;

/// A branch to a label.
#[inline(always)]
pub fn jump_to(m: &Module, n: u32, end: usize, shared: &Store, stacks: &mut Stacks) -> Taken
    requires inside { stacks.old.frame.labels ≤ length stacks.old.labels.items }
    requires end { length (body_of m.now stacks.old.frame.body) ≤ end }
    ensures executes { Executes m.now (instr.Br n) shared.now stacks.old result shared.now stacks.new }
    ensures room { KeepsRoom stacks.old stacks.new }
{
    taken(branch(n as usize, end, stacks))
}

/// A branch where the last operand isn't 0.
#[inline(always)]
pub fn jump_if(m: &Module, n: u32, end: usize, shared: &Store, stacks: &mut Stacks) -> Taken
    requires inside { stacks.old.frame.labels ≤ length stacks.old.labels.items }
    requires end { length (body_of m.now stacks.old.frame.body) ≤ end }
    ensures executes { Executes m.now (instr.BrIf n) shared.now stacks.old result shared.now stacks.new }
    ensures room { KeepsRoom stacks.old stacks.new }
{
    taken(branch_if(m, n, end, stacks))
}

/// A branch by the last operand.
#[inline(always)]
pub fn jump_by(
    m: &Module,
    labels: &[u32],
    default: u32,
    end: usize,
    shared: &Store,
    stacks: &mut Stacks,
) -> Taken
    requires inside { stacks.old.frame.labels ≤ length stacks.old.labels.items }
    requires end { length (body_of m.now stacks.old.frame.body) ≤ end }
    ensures executes { Executes m.now (instr.BrTable default labels.now) shared.now stacks.old result shared.now stacks.new }
    ensures room { KeepsRoom stacks.old stacks.new }
{
    taken(branch_by(m, labels, default, end, stacks))
}

/// A return.
#[inline(always)]
pub fn return_from(m: &Module, end: usize, shared: &Store, stacks: &mut Stacks) -> Taken
    requires inside { stacks.old.frame.labels ≤ length stacks.old.labels.items }
    requires end { length (body_of m.now stacks.old.frame.body) ≤ end }
    ensures executes { Executes m.now instr.Return shared.now stacks.old result shared.now stacks.new }
    ensures room { KeepsRoom stacks.old stacks.new }
{
    taken(give_back(end, stacks))
}
