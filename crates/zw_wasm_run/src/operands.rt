// Instructions on operands and on locals, on the stacks of a call (4.4.1 to 4.4.3). The frame's place is behind the instruction.
ghost use Rattle.std.specs.Prelude.{◌<◌, ◌^◌, length, IfOk, IfErr};
ghost use Rattle.zw_wasm.specs.declared.module.Instr.TheVariants as instr;
ghost use Rattle.zw_wasm_words.specs.Frames.{LocalsFit};
ghost use Rattle.zw_wasm_words.specs.FullLists.{IsFullList};
ghost use Rattle.zw_wasm_run.specs.Stores.{Executes};
ghost use Rattle.zw_wasm_run.specs.Rooms.{KeepsRoom};

use crate::execute::taken;
use crate::pause::Taken;
use crate::stacks::Stacks;
use crate::store::Store;
use std::alloc::AllocError;
use zw_wasm::{BinaryOperator, Comparison, Conversion, Module, UnaryOperator, ValType};
use zw_wasm_words::{Effect, UNREACHABLE, locals, operands};

/// Traps.
#[inline(always)]
pub fn unreachable(m: &Module, shared: &Store, stacks: &mut Stacks) -> Taken
    ensures executes { Executes m.now instr.Unreachable shared.now stacks.old result shared.now stacks.new }
    ensures room { KeepsRoom stacks.old stacks.new }
{
    taken(Effect::Traps(UNREACHABLE))
}

/// Does nothing.
#[inline(always)]
pub fn nop(m: &Module, shared: &Store, stacks: &mut Stacks) -> Taken
    ensures executes { Executes m.now instr.Nop shared.now stacks.old result shared.now stacks.new }
    ensures room { KeepsRoom stacks.old stacks.new }
{
    taken(Effect::Goes)
}

/// Takes the last operand away.
#[inline(always)]
pub fn drop_last(m: &Module, shared: &Store, stacks: &mut Stacks) -> Taken
    ensures executes { Executes m.now instr.Drop shared.now stacks.old result shared.now stacks.new }
    ensures room { KeepsRoom stacks.old stacks.new }
{
    taken(operands::drop_last(&mut stacks.words))
}

/// Of the two operands below the last one the first where that isn't 0, else the second.
#[inline(always)]
pub fn select(m: &Module, shared: &Store, stacks: &mut Stacks) -> Taken
    ensures executes { Executes m.now instr.Select shared.now stacks.old result shared.now stacks.new }
    ensures room { KeepsRoom stacks.old stacks.new }
{
    taken(operands::select(&mut stacks.words))
}

/// A number of 32 bits more.
#[inline(always)]
pub fn narrow_constant(
    m: &Module,
    z: i32,
    shared: &Store,
    stacks: &mut Stacks,
) -> Result<Taken, AllocError>
    ensures executes { IfOk result (λ t. Executes m.now (instr.I32Const z) shared.now stacks.old t shared.now stacks.new) }
    ensures wants { IfErr result (λ e. IsFullList stacks.old.words) }
    ensures room { KeepsRoom stacks.old stacks.new }
{
    let effect = operands::constant(
        ValType::I32,
        u64::from(z.cast_unsigned()),
        &mut stacks.words,
    )?;
    Ok(taken(effect))
}

/// A number of 64 bits more.
#[inline(always)]
pub fn wide_constant(
    m: &Module,
    z: i64,
    shared: &Store,
    stacks: &mut Stacks,
) -> Result<Taken, AllocError>
    ensures executes { IfOk result (λ t. Executes m.now (instr.I64Const z) shared.now stacks.old t shared.now stacks.new) }
    ensures wants { IfErr result (λ e. IsFullList stacks.old.words) }
    ensures room { KeepsRoom stacks.old stacks.new }
{
    let effect = operands::constant(ValType::I64, z.cast_unsigned(), &mut stacks.words)?;
    Ok(taken(effect))
}

/// Whether the last operand is 0.
#[inline(always)]
pub fn is_zero(m: &Module, ty: ValType, shared: &Store, stacks: &mut Stacks) -> Taken
    ensures executes { Executes m.now (instr.IsZero ty) shared.now stacks.old result shared.now stacks.new }
    ensures room { KeepsRoom stacks.old stacks.new }
{
    taken(operands::is_zero(ty, &mut stacks.words))
}

/// How the last two operands are related.
#[inline(always)]
pub fn compare(
    m: &Module,
    ty: ValType,
    comparison: Comparison,
    shared: &Store,
    stacks: &mut Stacks,
) -> Taken
    ensures executes { Executes m.now (instr.Compare ty comparison) shared.now stacks.old result shared.now stacks.new }
    ensures room { KeepsRoom stacks.old stacks.new }
{
    taken(operands::compare(ty, comparison, &mut stacks.words))
}

/// An operator on the last operand.
#[inline(always)]
pub fn unary(
    m: &Module,
    ty: ValType,
    operator: UnaryOperator,
    shared: &Store,
    stacks: &mut Stacks,
) -> Taken
    ensures executes { Executes m.now (instr.Unary ty operator) shared.now stacks.old result shared.now stacks.new }
    ensures room { KeepsRoom stacks.old stacks.new }
{
    taken(operands::unary(ty, operator, &mut stacks.words))
}

/// An operator on the last two operands.
#[inline(always)]
pub fn binary(
    m: &Module,
    ty: ValType,
    operator: BinaryOperator,
    shared: &Store,
    stacks: &mut Stacks,
) -> Taken
    ensures executes { Executes m.now (instr.Binary ty operator) shared.now stacks.old result shared.now stacks.new }
    ensures room { KeepsRoom stacks.old stacks.new }
{
    taken(operands::binary(ty, operator, &mut stacks.words))
}

/// The last operand in the other width.
#[inline(always)]
pub fn convert(m: &Module, conversion: Conversion, shared: &Store, stacks: &mut Stacks) -> Taken
    ensures executes { Executes m.now (instr.Convert conversion) shared.now stacks.old result shared.now stacks.new }
    ensures room { KeepsRoom stacks.old stacks.new }
{
    taken(operands::convert(conversion, &mut stacks.words))
}

/// The value of a parameter or local is an operand more.
#[inline(always)]
pub fn local_get(
    m: &Module,
    n: u32,
    shared: &Store,
    stacks: &mut Stacks,
) -> Result<Taken, AllocError>
    requires fit { LocalsFit stacks.old.frame stacks.old.words.items }
    ensures executes { IfOk result (λ t. Executes m.now (instr.LocalGet n) shared.now stacks.old t shared.now stacks.new) }
    ensures wants { IfErr result (λ e. IsFullList stacks.old.words) }
    ensures room { KeepsRoom stacks.old stacks.new }
{
    let frame = stacks.frame;
    let effect = locals::get(&frame, n, &mut stacks.words)?;
    Ok(taken(effect))
}

/// The last operand is the value of a parameter or local.
#[inline(always)]
pub fn local_set(m: &Module, n: u32, shared: &Store, stacks: &mut Stacks) -> Taken
    requires fit { LocalsFit stacks.old.frame stacks.old.words.items }
    ensures executes { Executes m.now (instr.LocalSet n) shared.now stacks.old result shared.now stacks.new }
    ensures room { KeepsRoom stacks.old stacks.new }
{
    let frame = stacks.frame;
    taken(locals::set(&frame, n, &mut stacks.words))
}

/// The same, and the operand stays.
#[inline(always)]
pub fn local_tee(m: &Module, n: u32, shared: &Store, stacks: &mut Stacks) -> Taken
    requires fit { LocalsFit stacks.old.frame stacks.old.words.items }
    ensures executes { Executes m.now (instr.LocalTee n) shared.now stacks.old result shared.now stacks.new }
    ensures room { KeepsRoom stacks.old stacks.new }
{
    let frame = stacks.frame;
    taken(locals::tee(&frame, n, &mut stacks.words))
}
