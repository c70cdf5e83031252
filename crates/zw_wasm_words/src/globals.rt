// Instructions on globals (4.4.3).
ghost use Rattle.std.specs.Prelude.{IfOk, slice_get, vec_capacity, IfErr, ◌≤◌};
ghost use Rattle.zw_wasm.specs.Reduction.{with_operand};
ghost use Rattle.zw_wasm_words.specs.Operands.{ReadsGlobals, SetsGlobal};
ghost use Rattle.zw_wasm_words.specs.FullLists.{IsFullList};

use crate::effect::{Effect, NO_RULE};
use crate::words::low;
use sqlite_items::{Items, at};
use std::alloc::AllocError;
use zw_wasm::Num;

/// The value of a global is an operand more.
#[inline(always)]
pub fn get(globals: &[Num], n: u32, stack: &mut Vec<u64>) -> Result<Effect, AllocError>
    ensures acts { IfOk result (λ e. ReadsGlobals globals.now (λ c. with_operand (slice_get c.world.store.globals n) c) stack.old.items e stack.new.items) }
    ensures wants { IfErr result (λ e. IsFullList stack.old) }
    ensures room { vec_capacity stack.old ≤ vec_capacity stack.new }
{
    let Some(value) = at(globals, n as usize).copied() else {
        return Ok(Effect::Traps(NO_RULE));
    };
    let word = match value {
        Num::I32(bits) => u64::from(bits),
        Num::I64(bits) => bits,
    };
    stack.push(word)?;
    Ok(Effect::Goes)
}

/// The last operand is the value of a global, whose type it has.
#[inline(always)]
pub fn set(globals: &mut Items<Num>, n: u32, stack: &mut Vec<u64>) -> Effect
    ensures acts { SetsGlobal n globals.old globals.new stack.old.items result stack.new.items }
    ensures room { vec_capacity stack.old ≤ vec_capacity stack.new }
{
    let Some(word) = stack.pop() else {
        return Effect::Traps(NO_RULE);
    };
    let value = match at(globals.as_slice(), n as usize) {
        Some(Num::I32(_)) => Num::I32(low(word)),
        Some(Num::I64(_)) => Num::I64(word),
        None => return Effect::Traps(NO_RULE),
    };
    globals.set(n as usize, value);
    Effect::Goes
}
