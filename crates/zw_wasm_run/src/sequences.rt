// Blocks, loops and choices, where the frame's place is behind their instruction: it is put back to where that stands first.
ghost use Rattle.std.specs.Prelude.{◌≡◌, ◌≤◌, IfOk, IfErr};
ghost use Rattle.zw_wasm.specs.declared.module.Instr.TheVariants as instr;
ghost use Rattle.zw_wasm_words.specs.FullLists.{IsFullList};
ghost use Rattle.zw_wasm_run.specs.Settling.{IsAt};
ghost use Rattle.zw_wasm_run.specs.Performing.{Performs, back};
ghost use Rattle.zw_wasm_run.specs.Rooms.{KeepsRoom};

use crate::begin::{block, choice, repeat};
use crate::code::Code;
use crate::execute::taken;
use crate::pause::Taken;
use crate::stacks::Stacks;
use crate::store::Store;
use std::alloc::AllocError;
use zw_wasm::{Module, ValType};

/// A block begins.
#[inline(always)]
pub fn enter_block(
    code: &Code,
    m: &Module,
    ty: Option<ValType>,
    shared: &Store,
    stacks: &mut Stacks,
) -> Result<Taken, AllocError>
    requires same { m.now ≡ code.now }
    requires due { IsAt code.now (back stacks.old) (instr.Block ty) }
    requires behind { 1 ≤ stacks.old.frame.at }
    ensures performs { IfOk result (λ t. Performs m.now (instr.Block ty) shared.now stacks.old t shared.now stacks.new) }
    ensures wants { IfErr result (λ e. IsFullList stacks.old.labels) }
    ensures room { KeepsRoom stacks.old stacks.new }
{
    stacks.frame.at -= 1;
    let body = stacks.frame.body;
    let effect = block(ty, code.instrs(body), code.ends(body), stacks)?;
    Ok(taken(effect))
}

/// A loop begins.
#[inline(always)]
pub fn enter_loop(
    code: &Code,
    m: &Module,
    ty: Option<ValType>,
    shared: &Store,
    stacks: &mut Stacks,
) -> Result<Taken, AllocError>
    requires same { m.now ≡ code.now }
    requires due { IsAt code.now (back stacks.old) (instr.Loop ty) }
    requires behind { 1 ≤ stacks.old.frame.at }
    ensures performs { IfOk result (λ t. Performs m.now (instr.Loop ty) shared.now stacks.old t shared.now stacks.new) }
    ensures wants { IfErr result (λ e. IsFullList stacks.old.labels) }
    ensures room { KeepsRoom stacks.old stacks.new }
{
    stacks.frame.at -= 1;
    let body = stacks.frame.body;
    let effect = repeat(ty, code.instrs(body), code.ends(body), stacks)?;
    Ok(taken(effect))
}

/// An `if` takes its operand and begins one of its codes.
#[inline(always)]
pub fn enter_choice(
    code: &Code,
    m: &Module,
    ty: Option<ValType>,
    shared: &Store,
    stacks: &mut Stacks,
) -> Result<Taken, AllocError>
    requires same { m.now ≡ code.now }
    requires due { IsAt code.now (back stacks.old) (instr.If ty) }
    requires behind { 1 ≤ stacks.old.frame.at }
    ensures performs { IfOk result (λ t. Performs m.now (instr.If ty) shared.now stacks.old t shared.now stacks.new) }
    ensures wants { IfErr result (λ e. IsFullList stacks.old.labels) }
    ensures room { KeepsRoom stacks.old stacks.new }
{
    stacks.frame.at -= 1;
    let body = stacks.frame.body;
    let effect = choice(ty, code.instrs(body), code.ends(body), stacks)?;
    Ok(taken(effect))
}
