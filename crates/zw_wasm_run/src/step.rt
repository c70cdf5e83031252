// One step of a call.
ghost use Rattle.std.specs.Prelude.{◌≤◌, length, IfErr, IfOk};
ghost use Rattle.zw_wasm_run.specs.Rooms.{KeepsRoom, StepWants};
ghost use Rattle.zw_wasm_run.specs.Running.{body_of};
ghost use Rattle.zw_wasm_run.specs.Settling.{IsAt, IsStanding};
ghost use Rattle.zw_wasm_run.specs.Stores.{Steps};

use crate::code::Code;
use crate::execute::execute;
use crate::pause::Taken;
use crate::stacks::Stacks;
use crate::store::Store;
use std::alloc::AllocError;
use zw_wasm::Instr;

/// Takes the instruction that is due. The frame's place is put behind it first, so that what looks at it is one match.
#[inline(always)]
pub fn step(
    code: &Code,
    instr: &Instr,
    store: &mut Store,
    stacks: &mut Stacks,
) -> Result<Taken, AllocError>
    requires standing { IsStanding code.now stacks.old }
    requires due { IsAt code.now stacks.old instr.now }
    ensures takes { IfOk result (λ t. Steps code.now store.old stacks.old t store.new stacks.new) }
    ensures wants { IfErr result (λ e. StepWants code.now store.old stacks.old) }
    ensures room { KeepsRoom stacks.old stacks.new }
{
    let end = past(code, stacks.frame.body);
    stacks.frame.at += 1;
    let taken = execute(code, code.module(), instr, end, store, stacks)?;
    Ok(taken)
}

/// A place past the end of any body's code.
#[inline(always)]
fn past(code: &Code, body: usize) -> usize
    ensures { length (body_of code.now body) ≤ result }
{
    usize::MAX.max(code.instrs(body).len())
}
