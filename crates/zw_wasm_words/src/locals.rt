// Instructions on locals (4.4.3).
ghost use Rattle.std.specs.Prelude.{IfOk, slice_get, vec_capacity, IfErr, ◌≤◌};
ghost use Rattle.zw_wasm.specs.Reduction.{on_operand, with_local, with_local_too, with_operand};
ghost use Rattle.zw_wasm_words.specs.Frames.{ActsInFrame, LocalsFit};
ghost use Rattle.zw_wasm_words.specs.FullLists.{IsFullList};

use crate::effect::{Effect, NO_RULE};
use crate::frame::Frame;
use crate::operands::last;
use sqlite_items::at;
use std::alloc::AllocError;

/// The value of a parameter or local is an operand more.
#[inline(always)]
pub fn get(frame: &Frame, n: u32, stack: &mut Vec<u64>) -> Result<Effect, AllocError>
    requires { LocalsFit frame.now stack.old.items }
    ensures acts { IfOk result (λ e. ActsInFrame frame.now (λ c. with_operand (slice_get c.frame.locals n) c) stack.old.items e stack.new.items) }
    ensures wants { IfErr result (λ e. IsFullList stack.old) }
    ensures room { vec_capacity stack.old ≤ vec_capacity stack.new }
{
    let Some(word) = at(&stack[frame.locals..frame.operands], n as usize).copied() else {
        return Ok(Effect::Traps(NO_RULE));
    };
    stack.push(word)?;
    Ok(Effect::Goes)
}

/// The last operand is the value of a parameter or local.
#[inline(always)]
pub fn set(frame: &Frame, n: u32, stack: &mut Vec<u64>) -> Effect
    requires { LocalsFit frame.now stack.old.items }
    ensures acts { ActsInFrame frame.now (λ c. on_operand (with_local n) c.frame.operands c) stack.old.items result stack.new.items }
    ensures room { vec_capacity stack.old ≤ vec_capacity stack.new }
{
    let place = frame.locals + n as usize;
    let Some(word) = stack.pop() else {
        return Effect::Traps(NO_RULE);
    };
    if stack.len() <= place {
        return Effect::Traps(NO_RULE);
    }
    stack[place] = word;
    Effect::Goes
}

/// The same, and the operand stays.
#[inline(always)]
pub fn tee(frame: &Frame, n: u32, stack: &mut Vec<u64>) -> Effect
    requires { LocalsFit frame.now stack.old.items }
    ensures acts { ActsInFrame frame.now (λ c. on_operand (with_local_too n) c.frame.operands c) stack.old.items result stack.new.items }
    ensures room { vec_capacity stack.old ≤ vec_capacity stack.new }
{
    let place = frame.locals + n as usize;
    let Some(word) = last(stack) else {
        return Effect::Traps(NO_RULE);
    };
    if stack.len() <= place {
        return Effect::Traps(NO_RULE);
    }
    stack[place] = word;
    Effect::Goes
}
