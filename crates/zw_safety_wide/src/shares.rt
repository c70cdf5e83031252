// The code of quotients and rests where a type has more than 32 bits.
ghost use Rattle.std.specs.Prelude.{◌≡◌, ◌≤◌, ◌++◌, true, OnOk};
ghost use Rattle.zw_num.specs.Arithmetic.{least};
ghost use Rattle.zw_num.specs.declared.int_ty.IntTy.TheVariants.{Sized};
ghost use Rattle.zw_safety_narrow.specs.Code.{if_panics};
ghost use Rattle.zw_safety_narrow.specs.Operators.{IsStored};
ghost use Rattle.zw_safety_narrow.specs.declared.setting.TheConstants.{GREATEST_SCRATCH};
ghost use Rattle.zw_safety_wide.specs.WideSignedCode.{are_signed_shares, are_wide_shares, quotient_of, remainder_of, lacking, lacking_tested, shared, wide_quotient_code, wide_rest_code, across, floored_rest, floored_quotient, wide_modulo_code, wide_floor_code, left_tested, wide_exact_quotient_code};
ghost use Rattle.zw_safety_words.specs.WideCode.{settled};
ghost use Rattle.zw_session.specs.Causes.{integer_overflow};

use crate::casts::greatest_signed;
use std::alloc::AllocError;
use zw_num::IntTy;
use zw_safety_narrow::{INTEGER_OVERFLOW, Setting, holds, push_if_panics, width};
use zw_safety_words::{
    both_fit, both_unsigned, is_signed, push_both_got, push_settled, push_spread, push_zero_tested,
};
use zw_wasm::{BinaryOperator, Comparison, Conversion, Instr, ValType};

/// The cause of a panic where an exact quotient leaves a rest.
const REMAINDER_LEFT: u8 = 8;

/// Appends the code of `/` and `@divTrunc`.
pub fn push_wide_quotient(setting: Setting, out: &mut Vec<Instr>) -> Result<(), AllocError>
    requires to_stored { IsStored setting.to }
    requires scratch { setting.scratch ≤ GREATEST_SCRATCH }
    ensures { OnOk result (out.new.items ≡ out.old.items ++ wide_quotient_code setting.left setting.right setting.to setting.scratch) }
{
    push_spread(setting, out)?;
    push_zero_tested(setting.scratch, out)?;
    push_lacking_tested(setting, out)?;
    push_shared(
        quotient_of(setting.left, setting.right),
        setting.scratch,
        out,
    )?;
    push_settled(setting.to, out)?;
    Ok(())
}

/// Appends the code of `%` and `@rem`.
pub fn push_wide_rest(setting: Setting, out: &mut Vec<Instr>) -> Result<(), AllocError>
    requires { setting.scratch ≤ GREATEST_SCRATCH }
    ensures { OnOk result (out.new.items ≡ out.old.items ++ wide_rest_code setting.left setting.right setting.to setting.scratch) }
{
    push_spread(setting, out)?;
    push_zero_tested(setting.scratch, out)?;
    push_shared(
        remainder_of(setting.left, setting.right),
        setting.scratch,
        out,
    )?;
    push_settled(setting.to, out)?;
    Ok(())
}

/// Appends the code of `@mod`.
pub fn push_wide_modulo(setting: Setting, out: &mut Vec<Instr>) -> Result<(), AllocError>
    requires { setting.scratch ≤ GREATEST_SCRATCH }
    ensures { OnOk result (out.new.items ≡ out.old.items ++ wide_modulo_code setting.left setting.right setting.to setting.scratch) }
{
    push_spread(setting, out)?;
    push_zero_tested(setting.scratch, out)?;
    if both_unsigned(setting.left, setting.right) {
        push_shared(BinaryOperator::RemU, setting.scratch, out)?;
        return push_settled(setting.to, out);
    }
    push_floored_rest(setting.scratch, out)?;
    push_settled(setting.to, out)
}

/// Appends the code of `@divFloor`.
pub fn push_wide_floor(setting: Setting, out: &mut Vec<Instr>) -> Result<(), AllocError>
    requires to_stored { IsStored setting.to }
    requires scratch { setting.scratch ≤ GREATEST_SCRATCH }
    ensures { OnOk result (out.new.items ≡ out.old.items ++ wide_floor_code setting.left setting.right setting.to setting.scratch) }
{
    push_spread(setting, out)?;
    push_zero_tested(setting.scratch, out)?;
    push_lacking_tested(setting, out)?;
    if both_unsigned(setting.left, setting.right) {
        push_shared(BinaryOperator::DivU, setting.scratch, out)?;
        return push_settled(setting.to, out);
    }
    push_floored_quotient(setting.scratch, out)?;
    push_settled(setting.to, out)
}

/// Appends the code of `@divExact`.
pub fn push_wide_exact_quotient(setting: Setting, out: &mut Vec<Instr>) -> Result<(), AllocError>
    requires to_stored { IsStored setting.to }
    requires scratch { setting.scratch ≤ GREATEST_SCRATCH }
    ensures { OnOk result (out.new.items ≡ out.old.items ++ wide_exact_quotient_code setting.left setting.right setting.to setting.scratch) }
{
    push_spread(setting, out)?;
    push_zero_tested(setting.scratch, out)?;
    push_lacking_tested(setting, out)?;
    push_whole_quotient(setting, out)?;
    Ok(())
}

/// Appends code that leaves a quotient, or panics where a rest is left.
fn push_whole_quotient(setting: Setting, out: &mut Vec<Instr>) -> Result<(), AllocError>
    requires { setting.scratch ≤ GREATEST_SCRATCH }
    ensures { OnOk result (out.new.items ≡ out.old.items ++ (left_tested (remainder_of setting.left setting.right) setting.scratch ++ (shared (quotient_of setting.left setting.right) setting.scratch ++ settled setting.to))) }
{
    push_left_tested(
        remainder_of(setting.left, setting.right),
        setting.scratch,
        out,
    )?;
    push_shared(
        quotient_of(setting.left, setting.right),
        setting.scratch,
        out,
    )?;
    push_settled(setting.to, out)?;
    Ok(())
}

/// The operator of a quotient, on all bits or on numbers with a sign.
fn quotient_of(left: IntTy, right: IntTy) -> BinaryOperator
    ensures { result ≡ quotient_of left right }
{
    if both_unsigned(left, right) {
        BinaryOperator::DivU
    } else {
        BinaryOperator::DivS
    }
}

/// The operator of a rest, on all bits or on numbers with a sign.
fn remainder_of(left: IntTy, right: IntTy) -> BinaryOperator
    ensures { result ≡ remainder_of left right }
{
    if both_unsigned(left, right) {
        BinaryOperator::RemU
    } else {
        BinaryOperator::RemS
    }
}

/// Whether quotients and rests are served on the types of operands and result.
pub fn are_wide_shares(left: IntTy, right: IntTy, to: IntTy) -> bool
    ensures { result ≡ are_wide_shares left right to }
{
    holds(to, left) && (both_unsigned(left, right) || are_signed_shares(left, right, to))
}

/// Whether both operands are values of an `i64`, and the result's type is signed and has a value beside 0.
fn are_signed_shares(left: IntTy, right: IntTy, to: IntTy) -> bool
    ensures { result ≡ are_signed_shares left right to }
{
    both_fit(left, right) && is_signed(to) && 0 < width(to)
}

/// Appends an operator on both operands from their locals.
pub fn push_shared(
    operator: BinaryOperator,
    scratch: u32,
    out: &mut Vec<Instr>,
) -> Result<(), AllocError>
    requires { scratch ≤ GREATEST_SCRATCH }
    ensures { OnOk result (out.new.items ≡ out.old.items ++ shared operator scratch) }
{
    push_both_got(scratch, out)?;
    out.push(Instr::Binary(ValType::I64, operator))?;
    Ok(())
}

/// Appends code that panics where the type lacks the quotient of signed numbers.
fn push_lacking_tested(setting: Setting, out: &mut Vec<Instr>) -> Result<(), AllocError>
    requires to_stored { IsStored setting.to }
    requires scratch { setting.scratch ≤ GREATEST_SCRATCH }
    ensures { OnOk result (out.new.items ≡ out.old.items ++ lacking_tested setting.left setting.right setting.to setting.scratch) }
{
    if both_unsigned(setting.left, setting.right) {
        Ok(())
    } else {
        push_lacking_panics(setting.to, setting.scratch, out)
    }
}

/// Appends that test, and the panic.
fn push_lacking_panics(to: IntTy, scratch: u32, out: &mut Vec<Instr>) -> Result<(), AllocError>
    requires to_stored { IsStored to }
    requires scratch { scratch ≤ GREATEST_SCRATCH }
    ensures { OnOk result (out.new.items ≡ out.old.items ++ (lacking to scratch ++ if_panics integer_overflow)) }
{
    push_lacking(to, scratch, out)?;
    push_if_panics(INTEGER_OVERFLOW, out)?;
    Ok(())
}

/// Appends the test for the least value of the type by -1.
fn push_lacking(to: IntTy, scratch: u32, out: &mut Vec<Instr>) -> Result<(), AllocError>
    requires to_stored { IsStored to }
    requires scratch { scratch ≤ GREATEST_SCRATCH }
    ensures { OnOk result (out.new.items ≡ out.old.items ++ lacking to scratch) }
{
    out.push(Instr::LocalGet(scratch + 5))?;
    out.push(Instr::I64Const(least_long(to)))?;
    out.push(Instr::Compare(ValType::I64, Comparison::Eq))?;
    out.push(Instr::LocalGet(scratch + 4))?;
    out.push(Instr::I64Const(-1))?;
    out.push(Instr::Compare(ValType::I64, Comparison::Eq))?;
    out.push(Instr::Binary(ValType::I32, BinaryOperator::And))?;
    Ok(())
}

/// The least value of a type.
pub fn least_long(ty: IntTy) -> i64
    requires { IsStored ty }
    ensures { result ≡ least ty }
{
    match ty {
        IntTy::Sized { signed: true, bits } => least_of_bits(bits),
        _ => 0,
    }
}

/// The least value of a signed type of so many bits.
fn least_of_bits(bits: u8) -> i64
    requires { bits ≤ 64 }
    ensures { result ≡ least (Sized true bits) }
{
    if bits == 0 {
        0
    } else {
        -greatest_signed(bits) - 1
    }
}

/// Appends the test whether the rest in its local lies on the other side of 0 than the divisor.
fn push_across(scratch: u32, out: &mut Vec<Instr>) -> Result<(), AllocError>
    requires { scratch ≤ GREATEST_SCRATCH }
    ensures { OnOk result (out.new.items ≡ out.old.items ++ across scratch) }
{
    out.push(Instr::LocalGet(scratch + 6))?;
    out.push(Instr::LocalGet(scratch + 4))?;
    out.push(Instr::Binary(ValType::I64, BinaryOperator::Xor))?;
    out.push(Instr::I64Const(0))?;
    out.push(Instr::Compare(ValType::I64, Comparison::LtS))?;
    out.push(Instr::LocalGet(scratch + 6))?;
    out.push(Instr::I64Const(0))?;
    out.push(Instr::Compare(ValType::I64, Comparison::Ne))?;
    out.push(Instr::Binary(ValType::I32, BinaryOperator::And))?;
    Ok(())
}

/// Appends code that leaves the rest of a quotient that is rounded down.
fn push_floored_rest(scratch: u32, out: &mut Vec<Instr>) -> Result<(), AllocError>
    requires { scratch ≤ GREATEST_SCRATCH }
    ensures { OnOk result (out.new.items ≡ out.old.items ++ floored_rest scratch) }
{
    push_shared(BinaryOperator::RemS, scratch, out)?;
    out.push(Instr::LocalTee(scratch + 6))?;
    out.push(Instr::LocalGet(scratch + 4))?;
    out.push(Instr::Binary(ValType::I64, BinaryOperator::Add))?;
    out.push(Instr::LocalGet(scratch + 6))?;
    push_across(scratch, out)?;
    out.push(Instr::Select)?;
    Ok(())
}

/// Appends code that leaves a quotient that is rounded down.
fn push_floored_quotient(scratch: u32, out: &mut Vec<Instr>) -> Result<(), AllocError>
    requires { scratch ≤ GREATEST_SCRATCH }
    ensures { OnOk result (out.new.items ≡ out.old.items ++ floored_quotient scratch) }
{
    push_shared(BinaryOperator::RemS, scratch, out)?;
    out.push(Instr::LocalSet(scratch + 6))?;
    push_shared(BinaryOperator::DivS, scratch, out)?;
    push_across(scratch, out)?;
    out.push(Instr::Convert(Conversion::ExtendU))?;
    out.push(Instr::Binary(ValType::I64, BinaryOperator::Sub))?;
    Ok(())
}

/// Appends code that panics where a rest is left.
fn push_left_tested(
    operator: BinaryOperator,
    scratch: u32,
    out: &mut Vec<Instr>,
) -> Result<(), AllocError>
    requires { scratch ≤ GREATEST_SCRATCH }
    ensures { OnOk result (out.new.items ≡ out.old.items ++ left_tested operator scratch) }
{
    push_shared(operator, scratch, out)?;
    out.push(Instr::I64Const(0))?;
    out.push(Instr::Compare(ValType::I64, Comparison::Ne))?;
    push_if_panics(REMAINDER_LEFT, out)
}
