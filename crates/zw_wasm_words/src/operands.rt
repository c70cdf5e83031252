// Instructions on the operands alone (4.4.1, 4.4.2, 4.4.4). The last word holds the last operand.
ghost use Rattle.std.specs.Prelude.{◌≡◌, ◌+◌, ◌-◌, ◌<◌, ◌≤◌, ◌^◌, [], ◌∷◌, ◌++◌, length, take, MatchOption, IfOk, vec_capacity, IfErr};
ghost use Rattle.zw_wasm.specs.declared.module.Instr.TheVariants as instr;
ghost use Rattle.zw_wasm.specs.Reduction.{Goes, compared, computed, converted, dropped, on_one, on_operand, on_two, operated, pushed, selected, tested};
ghost use Rattle.zw_wasm.specs.Typing.{converts_from};
ghost use Rattle.zw_wasm.specs.Numerics.{bit_width};
ghost use Rattle.zw_wasm.specs.Structure.{number, width_of};
ghost use Rattle.zw_wasm_words.specs.Operands.{ActsOnWords};
ghost use Rattle.zw_wasm_words.specs.FullLists.{IsFullList};

use crate::effect::{Effect, NO_RULE, OVERFLOW, ZERO_DIVISOR};
use crate::fault::Fault;
use crate::words;
use std::alloc::AllocError;
use zw_wasm::{BinaryOperator, Comparison, Conversion, UnaryOperator, ValType};

/// The last word.
#[inline(always)]
pub fn last(stack: &[u64]) -> Option<u64>
    ensures { MatchOption result (stack.now ≡ []) (λ x. stack.now ≡ take (length stack.now - 1) stack.now ++ x ∷ []) }
{
    stack.last().copied()
}

/// Puts another word in the place of the last one.
#[inline(always)]
pub fn replace_last(stack: &mut Vec<u64>, word: u64)
    requires { 0 < length stack.old.items }
    ensures items { stack.new.items ≡ take (length stack.old.items - 1) stack.old.items ++ word ∷ [] }
    ensures room { vec_capacity stack.old ≤ vec_capacity stack.new }
{
    let place = stack.len() - 1;
    stack[place] = word;
}

/// Whether the last operand is 0.
#[inline(always)]
pub fn is_zero(ty: ValType, stack: &mut Vec<u64>) -> Effect
    ensures acts { ActsOnWords (λ c. on_one ty tested c.frame.operands c) stack.old.items result stack.new.items }
    ensures room { vec_capacity stack.old ≤ vec_capacity stack.new }
{
    let Some(x) = last(stack) else {
        return Effect::Traps(NO_RULE);
    };
    replace_last(stack, words::is_zero(ty, x));
    Effect::Goes
}

/// An operator on the last operand.
#[inline(always)]
pub fn unary(ty: ValType, operator: UnaryOperator, stack: &mut Vec<u64>) -> Effect
    ensures acts { ActsOnWords (λ c. on_one ty (computed ty operator) c.frame.operands c) stack.old.items result stack.new.items }
    ensures room { vec_capacity stack.old ≤ vec_capacity stack.new }
{
    let Some(x) = last(stack) else {
        return Effect::Traps(NO_RULE);
    };
    replace_last(stack, words::unary(ty, operator, x));
    Effect::Goes
}

/// The last operand in the other width.
#[inline(always)]
pub fn convert(conversion: Conversion, stack: &mut Vec<u64>) -> Effect
    ensures acts { ActsOnWords (λ c. on_one (converts_from conversion) (converted conversion) c.frame.operands c) stack.old.items result stack.new.items }
    ensures room { vec_capacity stack.old ≤ vec_capacity stack.new }
{
    let Some(x) = last(stack) else {
        return Effect::Traps(NO_RULE);
    };
    replace_last(stack, words::convert(conversion, x));
    Effect::Goes
}

/// How the last two operands are related.
#[inline(always)]
pub fn compare(ty: ValType, comparison: Comparison, stack: &mut Vec<u64>) -> Effect
    ensures acts { ActsOnWords (λ c. on_two ty (compared ty comparison) c.frame.operands c) stack.old.items result stack.new.items }
    ensures room { vec_capacity stack.old ≤ vec_capacity stack.new }
{
    let (Some(y), Some(x)) = (stack.pop(), last(stack)) else {
        return Effect::Traps(NO_RULE);
    };
    replace_last(stack, words::compare(ty, comparison, x, y));
    Effect::Goes
}

/// An operator on the last two operands.
#[inline(always)]
pub fn binary(ty: ValType, operator: BinaryOperator, stack: &mut Vec<u64>) -> Effect
    ensures acts { ActsOnWords (λ c. on_two ty (operated ty operator) c.frame.operands c) stack.old.items result stack.new.items }
    ensures room { vec_capacity stack.old ≤ vec_capacity stack.new }
{
    let (Some(y), Some(x)) = (stack.pop(), last(stack)) else {
        return Effect::Traps(NO_RULE);
    };
    match words::binary(ty, operator, x, y) {
        Ok(word) => replace_last(stack, word),
        Err(Fault::DividesByZero) => return Effect::Traps(ZERO_DIVISOR),
        Err(Fault::Overflows) => return Effect::Traps(OVERFLOW),
    }
    Effect::Goes
}

/// Takes the last operand away.
#[inline(always)]
pub fn drop_last(stack: &mut Vec<u64>) -> Effect
    ensures acts { ActsOnWords (λ c. on_operand dropped c.frame.operands c) stack.old.items result stack.new.items }
    ensures room { vec_capacity stack.old ≤ vec_capacity stack.new }
{
    match stack.pop() {
        Some(_) => Effect::Goes,
        None => Effect::Traps(NO_RULE),
    }
}

/// Of the two operands below the last one the first where that isn't 0, else the second.
#[inline(always)]
pub fn select(stack: &mut Vec<u64>) -> Effect
    ensures acts { ActsOnWords (λ c. selected c.frame.operands c) stack.old.items result stack.new.items }
    ensures room { vec_capacity stack.old ≤ vec_capacity stack.new }
{
    let Some(choice) = stack.pop() else {
        return Effect::Traps(NO_RULE);
    };
    let (Some(y), Some(x)) = (stack.pop(), last(stack)) else {
        return Effect::Traps(NO_RULE);
    };
    let word = if words::low(choice) == 0 { y } else { x };
    replace_last(stack, word);
    Effect::Goes
}

/// A number more, of this type and with these bits.
#[inline(always)]
pub fn constant(ty: ValType, bits: u64, stack: &mut Vec<u64>) -> Result<Effect, AllocError>
    requires { bits < 2 ^ bit_width (width_of ty) }
    ensures acts { IfOk result (λ e. ActsOnWords (λ c. Goes (pushed (number ty bits) c)) stack.old.items e stack.new.items) }
    ensures wants { IfErr result (λ e. IsFullList stack.old) }
    ensures room { vec_capacity stack.old ≤ vec_capacity stack.new }
{
    stack.push(bits)?;
    Ok(Effect::Goes)
}
