// The code of operators on types of at most 32 bits.
ghost use Rattle.std.specs.Prelude.{◌≡◌, ◌≤◌, ◌-◌, ◌/◌, ◌^◌, ◌++◌, pos, OnOk};
ghost use Rattle.zw_num.specs.Arithmetic.{width};
ghost use Rattle.zw_safety_narrow.specs.Code.{add_code, sub_code, kept, less, if_panics};
ghost use Rattle.zw_safety_narrow.specs.NarrowCode.{extension, above_least, extended, in_range_or, exact_code_or, narrowed, lifted, masked, moved, wrapped_code, fitted, is_u32, sum_code, difference_code};
ghost use Rattle.zw_safety_narrow.specs.WordCode.{word_code, not_code};
ghost use Rattle.zw_safety_narrow.specs.Operators.{IsNarrow};
ghost use Rattle.zw_num.specs.declared.int_ty.IntTy.TheVariants.{Sized};
ghost use Rattle.zw_safety_narrow.specs.declared.setting.TheConstants.{GREATEST_SCRATCH};

use crate::setting::Setting;
use std::alloc::AllocError;
use zw_num::IntTy;
use zw_wasm::{BinaryOperator, Comparison, Conversion, Instr, ValType};

/// The cause of a panic where the exact result isn't in the type.
pub const INTEGER_OVERFLOW: u8 = 1;

/// Appends an operator on 32 bits.
pub fn push_word(operator: BinaryOperator, out: &mut Vec<Instr>) -> Result<(), AllocError>
    ensures { OnOk result (out.new.items ≡ out.old.items ++ word_code operator) }
{
    out.push(Instr::Binary(ValType::I32, operator))?;
    Ok(())
}

/// Appends the test whether an operand is 0.
pub fn push_is_zero(out: &mut Vec<Instr>) -> Result<(), AllocError>
    ensures { OnOk result (out.new.items ≡ out.old.items ++ not_code) }
{
    out.push(Instr::IsZero(ValType::I32))?;
    Ok(())
}

/// Appends the code of `+`.
pub fn push_sum(setting: Setting, out: &mut Vec<Instr>) -> Result<(), AllocError>
    requires narrow { IsNarrow setting.to }
    requires scratch { setting.scratch ≤ GREATEST_SCRATCH }
    ensures { OnOk result (out.new.items ≡ out.old.items ++ sum_code setting.left setting.right setting.to setting.scratch) }
{
    if is_u32(setting.left) && is_u32(setting.right) && is_u32(setting.to) {
        push_add(setting.scratch, out)
    } else {
        push_exact(INTEGER_OVERFLOW, BinaryOperator::Add, setting, out)
    }
}

/// Appends the code of `-`.
pub fn push_difference(setting: Setting, out: &mut Vec<Instr>) -> Result<(), AllocError>
    requires narrow { IsNarrow setting.to }
    requires scratch { setting.scratch ≤ GREATEST_SCRATCH }
    ensures { OnOk result (out.new.items ≡ out.old.items ++ difference_code setting.left setting.right setting.to setting.scratch) }
{
    if is_u32(setting.left) && is_u32(setting.right) && is_u32(setting.to) {
        push_sub(setting.scratch, out)
    } else {
        push_exact(INTEGER_OVERFLOW, BinaryOperator::Sub, setting, out)
    }
}

/// Whether the type is `u32`.
fn is_u32(ty: IntTy) -> bool
    ensures { result ≡ is_u32 ty }
{
    match ty {
        IntTy::Sized {
            signed: false,
            bits,
        } => bits == 32,
        _ => false,
    }
}

/// Appends the code of an operator whose result is exact in 64 bits; it panics with this cause where the type doesn't have it.
pub fn push_exact(
    cause: u8,
    operator: BinaryOperator,
    setting: Setting,
    out: &mut Vec<Instr>,
) -> Result<(), AllocError>
    requires narrow { IsNarrow setting.to }
    requires scratch { setting.scratch ≤ GREATEST_SCRATCH }
    ensures { OnOk result (out.new.items ≡ out.old.items ++ exact_code_or cause operator setting.left setting.right setting.to setting.scratch) }
{
    push_extended(setting.left, setting.right, setting.scratch, out)?;
    out.push(Instr::Binary(ValType::I64, operator))?;
    out.push(Instr::LocalSet(setting.scratch + 4))?;
    out.push(Instr::LocalGet(setting.scratch + 4))?;
    push_in_range(cause, setting.to, out)?;
    out.push(Instr::LocalGet(setting.scratch + 4))?;
    out.push(Instr::Convert(Conversion::Wrap))?;
    Ok(())
}

/// Appends code that takes both operands to 64 bits.
pub fn push_extended(
    left: IntTy,
    right: IntTy,
    scratch: u32,
    out: &mut Vec<Instr>,
) -> Result<(), AllocError>
    requires { scratch ≤ GREATEST_SCRATCH }
    ensures { OnOk result (out.new.items ≡ out.old.items ++ extended left right scratch) }
{
    out.push(Instr::Convert(extension(right)))?;
    out.push(Instr::LocalSet(scratch + 4))?;
    out.push(Instr::Convert(extension(left)))?;
    out.push(Instr::LocalGet(scratch + 4))?;
    Ok(())
}

/// How a value of the type goes from 32 to 64 bits.
pub fn extension(ty: IntTy) -> Conversion
    ensures { result ≡ extension ty }
{
    match ty {
        IntTy::Sized { signed: true, .. } => Conversion::ExtendS,
        _ => Conversion::ExtendU,
    }
}

/// Appends code that panics with this cause where its operand of 64 bits isn't a value of the type.
pub fn push_in_range(cause: u8, to: IntTy, out: &mut Vec<Instr>) -> Result<(), AllocError>
    requires narrow { IsNarrow to }
    ensures { OnOk result (out.new.items ≡ out.old.items ++ in_range_or cause to) }
{
    push_above_least(to, out)?;
    out.push(Instr::I64Const(span(to)))?;
    out.push(Instr::Compare(ValType::I64, Comparison::GtU))?;
    push_if_panics(cause, out)
}

/// Appends code that takes the least value of a signed type away.
fn push_above_least(to: IntTy, out: &mut Vec<Instr>) -> Result<(), AllocError>
    requires narrow { IsNarrow to }
    ensures { OnOk result (out.new.items ≡ out.old.items ++ above_least to) }
{
    if let IntTy::Sized { signed: true, .. } = to {
        out.push(Instr::I64Const(half(to)))?;
        out.push(Instr::Binary(ValType::I64, BinaryOperator::Add))?;
    }
    Ok(())
}

/// How far the greatest value of the type lies above the least.
fn span(ty: IntTy) -> i64
    requires narrow { IsNarrow ty }
    ensures { result ≡ pos (2 ^ width ty - 1) }
{
    match ty {
        IntTy::Sized { bits, .. } => (1i64 << bits) - 1,
        IntTy::Comptime => 0,
    }
}

/// How far the least value of a signed type lies below 0.
fn half(ty: IntTy) -> i64
    requires narrow { IsNarrow ty }
    ensures { result ≡ pos (2 ^ width ty / 2) }
{
    match ty {
        IntTy::Sized { bits, .. } => (1i64 << bits) / 2,
        IntTy::Comptime => 0,
    }
}

/// Appends the code of an operator whose result wraps around.
pub fn push_wrapped(
    operator: BinaryOperator,
    to: IntTy,
    out: &mut Vec<Instr>,
) -> Result<(), AllocError>
    requires narrow { IsNarrow to }
    ensures { OnOk result (out.new.items ≡ out.old.items ++ wrapped_code operator to) }
{
    out.push(Instr::Binary(ValType::I32, operator))?;
    push_fitted(to, out)
}

/// Appends code that leaves the value of the type with the lowest bits of its operand.
pub fn push_fitted(to: IntTy, out: &mut Vec<Instr>) -> Result<(), AllocError>
    requires narrow { IsNarrow to }
    ensures { OnOk result (out.new.items ≡ out.old.items ++ fitted to) }
{
    match to {
        IntTy::Sized { signed, bits } if bits < 32 => push_narrowed(signed, bits, out),
        _ => Ok(()),
    }
}

/// Appends code that leaves the value of a type of so many bits with the lowest bits of its operand.
pub fn push_narrowed(signed: bool, bits: u8, out: &mut Vec<Instr>) -> Result<(), AllocError>
    requires { bits ≤ 31 }
    ensures { OnOk result (out.new.items ≡ out.old.items ++ narrowed (Sized signed bits)) }
{
    if signed {
        push_signed(half_power(bits), mask(bits), out)
    } else {
        push_masked(mask(bits), out)
    }
}

/// Appends code that goes up by half of a power of two, takes the lowest bits, and goes down again.
fn push_signed(half: i32, mask: i32, out: &mut Vec<Instr>) -> Result<(), AllocError>
    ensures { OnOk result (out.new.items ≡ out.old.items ++ lifted half mask) }
{
    push_moved(half, BinaryOperator::Add, out)?;
    push_masked(mask, out)?;
    push_moved(half, BinaryOperator::Sub, out)?;
    Ok(())
}

/// Appends an operator with a constant as its right operand, as to go up or down by so much.
pub fn push_moved(
    half: i32,
    operator: BinaryOperator,
    out: &mut Vec<Instr>,
) -> Result<(), AllocError>
    ensures { OnOk result (out.new.items ≡ out.old.items ++ moved half operator) }
{
    out.push(Instr::I32Const(half))?;
    out.push(Instr::Binary(ValType::I32, operator))?;
    Ok(())
}

/// Appends code that takes the lowest bits.
fn push_masked(mask: i32, out: &mut Vec<Instr>) -> Result<(), AllocError>
    ensures { OnOk result (out.new.items ≡ out.old.items ++ masked mask) }
{
    out.push(Instr::I32Const(mask))?;
    out.push(Instr::Binary(ValType::I32, BinaryOperator::And))?;
    Ok(())
}

/// Half of a power of two.
pub fn half_power(bits: u8) -> i32
    requires { bits ≤ 31 }
    ensures { result ≡ pos (2 ^ bits / 2) }
{
    ((1i64 << bits) / 2) as i32
}

/// So many bits that are 1.
pub fn mask(bits: u8) -> i32
    requires { bits ≤ 31 }
    ensures { result ≡ pos (2 ^ bits - 1) }
{
    ((1i64 << bits) - 1) as i32
}

/// Appends the code of `+` on `u32`.
fn push_add(scratch: u32, out: &mut Vec<Instr>) -> Result<(), AllocError>
    requires { scratch ≤ GREATEST_SCRATCH }
    ensures { OnOk result (out.new.items ≡ out.old.items ++ add_code scratch) }
{
    push_kept(scratch, out)?;
    out.push(Instr::Binary(ValType::I32, BinaryOperator::Add))?;
    out.push(Instr::LocalSet(scratch))?;
    push_less(scratch, scratch + 1, out)?;
    push_if_panics(INTEGER_OVERFLOW, out)?;
    out.push(Instr::LocalGet(scratch))?;
    Ok(())
}

/// Appends the code of `-` on `u32`.
fn push_sub(scratch: u32, out: &mut Vec<Instr>) -> Result<(), AllocError>
    requires { scratch ≤ GREATEST_SCRATCH }
    ensures { OnOk result (out.new.items ≡ out.old.items ++ sub_code scratch) }
{
    push_kept(scratch, out)?;
    out.push(Instr::Compare(ValType::I32, Comparison::LtU))?;
    push_if_panics(INTEGER_OVERFLOW, out)?;
    out.push(Instr::LocalGet(scratch + 1))?;
    out.push(Instr::LocalGet(scratch))?;
    out.push(Instr::Binary(ValType::I32, BinaryOperator::Sub))?;
    Ok(())
}

/// Appends code that keeps both operands, and leaves them.
fn push_kept(scratch: u32, out: &mut Vec<Instr>) -> Result<(), AllocError>
    requires { scratch ≤ GREATEST_SCRATCH }
    ensures { OnOk result (out.new.items ≡ out.old.items ++ kept scratch) }
{
    out.push(Instr::LocalSet(scratch))?;
    out.push(Instr::LocalSet(scratch + 1))?;
    out.push(Instr::LocalGet(scratch + 1))?;
    out.push(Instr::LocalGet(scratch))?;
    Ok(())
}

/// Appends code that compares a local with another one.
fn push_less(local: u32, other: u32, out: &mut Vec<Instr>) -> Result<(), AllocError>
    ensures { OnOk result (out.new.items ≡ out.old.items ++ less local other) }
{
    out.push(Instr::LocalGet(local))?;
    out.push(Instr::LocalGet(other))?;
    out.push(Instr::Compare(ValType::I32, Comparison::LtU))?;
    Ok(())
}

/// Appends code that panics with this cause and no message where its operand isn't 0.
pub fn push_if_panics(cause: u8, out: &mut Vec<Instr>) -> Result<(), AllocError>
    ensures { OnOk result (out.new.items ≡ out.old.items ++ if_panics cause) }
{
    out.push(Instr::If(None))?;
    out.push(Instr::I32Const(i32::from(cause)))?;
    out.push(Instr::GlobalSet(0))?;
    out.push(Instr::I32Const(0))?;
    out.push(Instr::GlobalSet(1))?;
    out.push(Instr::I32Const(0))?;
    out.push(Instr::GlobalSet(2))?;
    out.push(Instr::Unreachable)?;
    out.push(Instr::End)?;
    Ok(())
}
