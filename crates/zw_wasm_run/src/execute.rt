// Instructions by what they are. The frame's place is behind the instruction.
ghost use Rattle.std.specs.Prelude.{◌≡◌, ◌≤◌, length, IfOk, IfErr};
ghost use Rattle.zw_wasm_words.specs.Frames.{LocalsFit};
ghost use Rattle.zw_wasm_run.specs.Running.{body_of};
ghost use Rattle.zw_wasm_run.specs.Settling.{IsAt};
ghost use Rattle.zw_wasm_run.specs.Stores.{taken_of};
ghost use Rattle.zw_wasm_run.specs.Performing.{PerformWants, Performs, back};
ghost use Rattle.zw_wasm_run.specs.Rooms.{KeepsRoom};

use crate::branches::{jump_by, jump_if, jump_to, return_from};
use crate::code::Code;
use crate::indirect::{call_any, call_by};
use crate::operands::{
    binary, compare, convert, drop_last, is_zero, local_get, local_set, local_tee, narrow_constant,
    nop, select, unary, unreachable, wide_constant,
};
use crate::pause::Taken;
use crate::sequences::{enter_block, enter_choice, enter_loop};
use crate::shared::{global_get, global_set, load_word, memory_grow, memory_size, store_word};
use crate::stacks::Stacks;
use crate::store::Store;
use std::alloc::AllocError;
use zw_wasm::{Instr, Module};
use zw_wasm_words::{Effect, NO_RULE};

/// Executes an instruction, where the body's code ends at this place or before it: one match, whatever the instruction is.
#[inline(always)]
pub fn execute(
    code: &Code,
    m: &Module,
    instr: &Instr,
    end: usize,
    shared: &mut Store,
    stacks: &mut Stacks,
) -> Result<Taken, AllocError>
    requires same { m.now ≡ code.now }
    requires due { IsAt code.now (back stacks.old) instr.now }
    requires inside { stacks.old.frame.labels ≤ length stacks.old.labels.items }
    requires fit { LocalsFit stacks.old.frame stacks.old.words.items }
    requires end { length (body_of m.now stacks.old.frame.body) ≤ end }
    requires behind { 1 ≤ stacks.old.frame.at }
    ensures performs { IfOk result (λ t. Performs m.now instr.now shared.old stacks.old t shared.new stacks.new) }
    ensures wants { IfErr result (λ e. PerformWants m.now instr.now shared.old stacks.old) }
    ensures room { KeepsRoom stacks.old stacks.new }
{
    match instr {
        Instr::Unreachable => Ok(unreachable(m, shared, stacks)),
        Instr::Nop => Ok(nop(m, shared, stacks)),
        Instr::Br(n) => Ok(jump_to(m, *n, end, shared, stacks)),
        Instr::BrIf(n) => Ok(jump_if(m, *n, end, shared, stacks)),
        Instr::BrTable { default, labels } => {
            let labels = labels.get().as_slice();
            Ok(jump_by(m, labels, *default, end, shared, stacks))
        }
        Instr::Return => Ok(return_from(m, end, shared, stacks)),
        Instr::Call(func) => call_any(m, *func, stacks),
        Instr::CallIndirect(ty) => call_by(m, *ty, shared, stacks),
        Instr::Drop => Ok(drop_last(m, shared, stacks)),
        Instr::Select => Ok(select(m, shared, stacks)),
        Instr::LocalGet(n) => local_get(m, *n, shared, stacks),
        Instr::LocalSet(n) => Ok(local_set(m, *n, shared, stacks)),
        Instr::LocalTee(n) => Ok(local_tee(m, *n, shared, stacks)),
        Instr::GlobalGet(n) => global_get(m, *n, shared, stacks),
        Instr::GlobalSet(n) => Ok(global_set(m, *n, shared, stacks)),
        Instr::Load(kind, place) => Ok(load_word(m, *kind, *place, shared, stacks)),
        Instr::Store(kind, place) => Ok(store_word(m, *kind, *place, shared, stacks)),
        Instr::MemorySize => memory_size(m, shared, stacks),
        Instr::MemoryGrow => memory_grow(m, shared, stacks),
        Instr::I32Const(z) => narrow_constant(m, *z, shared, stacks),
        Instr::I64Const(z) => wide_constant(m, *z, shared, stacks),
        Instr::IsZero(ty) => Ok(is_zero(m, *ty, shared, stacks)),
        Instr::Compare(ty, comparison) => Ok(compare(m, *ty, *comparison, shared, stacks)),
        Instr::Unary(ty, operator) => Ok(unary(m, *ty, *operator, shared, stacks)),
        Instr::Binary(ty, operator) => Ok(binary(m, *ty, *operator, shared, stacks)),
        Instr::Convert(conversion) => Ok(convert(m, *conversion, shared, stacks)),
        Instr::Block(ty) => enter_block(code, m, *ty, shared, stacks),
        Instr::Loop(ty) => enter_loop(code, m, *ty, shared, stacks),
        Instr::If(ty) => enter_choice(code, m, *ty, shared, stacks),
        Instr::Else | Instr::End => Ok(Taken::Traps(NO_RULE)),
    }
}

/// An effect as what a step comes to.
#[inline(always)]
pub fn taken(effect: Effect) -> Taken
    ensures { result ≡ taken_of effect }
{
    match effect {
        Effect::Goes => Taken::Goes,
        Effect::Traps(cause) => Taken::Traps(cause),
    }
}
