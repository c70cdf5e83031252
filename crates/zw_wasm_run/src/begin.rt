// How blocks, loops and choices begin, on the stacks of a call (4.4.5.3 to 4.4.5.5). The frame's place is that of the
// instruction.
ghost use Rattle.std.specs.Prelude.{◌≡◌, ◌%◌, ◌^◌, Some, IfOk, if◌then◌else◌, nat_eq, length, slice_get, IfErr};
ghost use Rattle.std.specs.Option.{option_to_list};
ghost use Rattle.zw_wasm.specs.declared.module.Module.{Module};
ghost use Rattle.zw_wasm.specs.declared.module.Instr.TheVariants as instr;
ghost use Rattle.zw_wasm_words.specs.FullLists.{IsFullList};
ghost use Rattle.zw_wasm_run.specs.Control.{AreEnds};
ghost use Rattle.zw_wasm_run.specs.Running.{TakesStep, body_of};
ghost use Rattle.zw_wasm_run.specs.Rooms.{KeepsRoom};

use crate::control::{Arms, SequenceEnd, arms_at};
use crate::stacks::Stacks;
use std::alloc::AllocError;
use zw_wasm::{Instr, ValType};
use zw_wasm_words::{Effect, Label, NO_RULE, low};

/// A block begins under a label, past which a branch goes.
#[inline(always)]
pub fn block(
    ty: Option<ValType>,
    instrs: &[Instr],
    ends: &[SequenceEnd],
    stacks: &mut Stacks,
) -> Result<Effect, AllocError>
    requires here { slice_get instrs.now stacks.old.frame.at ≡ Some (instr.Block ty) }
    requires ends { AreEnds instrs.now ends.now }
    ensures takes { IfOk result (λ e. (m : Module) → instrs.now ≡ body_of m stacks.old.frame.body → TakesStep m stacks.old e stacks.new) }
    ensures wants { IfErr result (λ e. IsFullList stacks.old.labels) }
    ensures room { KeepsRoom stacks.old stacks.new }
{
    let inner = stacks.frame.at + 1;
    let follows = ends[inner].next;
    let label = Label {
        arity: results(ty),
        target: follows,
        follows,
        height: stacks.words.len(),
    };
    stacks.labels.push(label)?;
    stacks.frame.at = inner;
    Ok(Effect::Goes)
}

/// A loop begins under a label, with a branch to which it begins anew.
#[inline(always)]
pub fn repeat(
    ty: Option<ValType>,
    instrs: &[Instr],
    ends: &[SequenceEnd],
    stacks: &mut Stacks,
) -> Result<Effect, AllocError>
    requires here { slice_get instrs.now stacks.old.frame.at ≡ Some (instr.Loop ty) }
    requires ends { AreEnds instrs.now ends.now }
    ensures takes { IfOk result (λ e. (m : Module) → instrs.now ≡ body_of m stacks.old.frame.body → TakesStep m stacks.old e stacks.new) }
    ensures wants { IfErr result (λ e. IsFullList stacks.old.labels) }
    ensures room { KeepsRoom stacks.old stacks.new }
{
    let place = stacks.frame.at;
    let label = Label {
        arity: 0,
        target: place,
        follows: ends[place + 1].next,
        height: stacks.words.len(),
    };
    stacks.labels.push(label)?;
    stacks.frame.at = place + 1;
    Ok(Effect::Goes)
}

/// An `if` takes its operand and begins one of its codes as a block.
#[inline(always)]
pub fn choice(
    ty: Option<ValType>,
    instrs: &[Instr],
    ends: &[SequenceEnd],
    stacks: &mut Stacks,
) -> Result<Effect, AllocError>
    requires here { slice_get instrs.now stacks.old.frame.at ≡ Some (instr.If ty) }
    requires ends { AreEnds instrs.now ends.now }
    ensures takes { IfOk result (λ e. (m : Module) → instrs.now ≡ body_of m stacks.old.frame.body → TakesStep m stacks.old e stacks.new) }
    ensures wants { IfErr result (λ e. IsFullList stacks.old.labels) }
    ensures room { KeepsRoom stacks.old stacks.new }
{
    let arms = arms_at(instrs, ends, stacks.frame.at);
    let Some(word) = stacks.words.pop() else {
        return Ok(Effect::Traps(NO_RULE));
    };
    let label = Label {
        arity: results(ty),
        target: arms.follows,
        follows: arms.follows,
        height: stacks.words.len(),
    };
    stacks.labels.push(label)?;
    stacks.frame.at = arm(&arms, word);
    Ok(Effect::Goes)
}

/// The place of the code that an `if` chooses by its operand.
#[inline(always)]
fn arm(arms: &Arms, word: u64) -> usize
    ensures { result ≡ if nat_eq (word % 2 ^ 32) 0 then arms.now.else_code else arms.now.then_code }
{
    if low(word) == 0 {
        arms.else_code
    } else {
        arms.then_code
    }
}

/// How many results the code of a block has.
#[inline(always)]
pub fn results(ty: Option<ValType>) -> usize
    ensures { result ≡ length (option_to_list ty) }
{
    match ty {
        Some(_) => 1,
        None => 0,
    }
}
