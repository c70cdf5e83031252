// Calls of functions that have a body, on the stacks of a call (4.4.5.10, 4.4.7.1).
ghost use Rattle.std.specs.Prelude.{◌-◌, ◌≤◌, length, IfOk, IfErr};
ghost use Rattle.zw_wasm.specs.declared.module.Module.{Module};
ghost use Rattle.zw_wasm.specs.Functions.{func_type};
ghost use Rattle.zw_wasm.specs.Reduction.{called};
ghost use Rattle.zw_wasm_run.specs.Running.{ActsOnStacks};
ghost use Rattle.zw_wasm_run.specs.Rooms.{KeepsRoom, WantsForCall};

use crate::begin::results;
use crate::stacks::Stacks;
use sqlite_items::at;
use std::alloc::AllocError;
use zw_wasm::{Module, func_type};
use zw_wasm_words::{Effect, FRAMES, Frame, NO_RULE, push_locals};

/// How many frames may be active.
const MAX_FRAMES: usize = 2_100;

/// A call of a function that has a body takes its arguments from the operands. Its frame is the one that runs, unless too many
/// are active.
pub fn call(m: &Module, func: usize, stacks: &mut Stacks) -> Result<Effect, AllocError>
    requires own { length m.now.imports ≤ func }
    ensures acts { IfOk result (λ e. ActsOnStacks m.now (called m.now func (func_type m.now func)) stacks.old e stacks.new) }
    ensures wants { IfErr result (λ e. WantsForCall m.now func stacks.old) }
    ensures room { KeepsRoom stacks.old stacks.new }
{
    let Some(ty) = func_type(m, func) else {
        return Ok(Effect::Traps(NO_RULE));
    };
    if MAX_FRAMES <= stacks.frames.len() + 1 {
        return Ok(Effect::Traps(FRAMES));
    }
    let body = func - m.imports.len();
    let Some(code) = at(m.codes.as_slice(), body) else {
        return Ok(Effect::Traps(NO_RULE));
    };
    if stacks.words.len() < ty.params.len() {
        return Ok(Effect::Traps(NO_RULE));
    }
    let locals = stacks.words.len() - ty.params.len();
    push_locals(code.locals.as_slice(), &mut stacks.words)?;
    stacks.frames.push(stacks.frame)?;
    stacks.frame = Frame {
        body,
        arity: results(ty.result),
        at: 0,
        locals,
        operands: stacks.words.len(),
        labels: stacks.labels.len(),
    };
    Ok(Effect::Goes)
}
