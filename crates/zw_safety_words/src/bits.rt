// The code of operators on bits, of shifts, and of operators of one operand where a type has more than 32 bits.
ghost use Rattle.std.specs.Prelude.{◌≡◌, ◌≤◌, ◌++◌, OnOk};
ghost use Rattle.zw_num.specs.Arithmetic.{width};
ghost use Rattle.zw_safety_narrow.specs.declared.setting.TheConstants.{GREATEST_SCRATCH};
ghost use Rattle.zw_safety_words.specs.WideBitCode.{bitwise_by, wide_word_code, wide_code_of_bitwise, both_got, are_wide_amounts, far_tested, wide_amount, wide_left_code, wide_right_code, wide_minus_one, wide_same_code, wide_truncated_code, zero_spread, wide_opposite_code, zero_tested};

use crate::ranges::push_tested;
use crate::sums::push_difference_test;
use crate::widths::{push_both_widened, push_settled, push_spread, push_wide_fitted, push_widened};
use std::alloc::AllocError;
use zw_num::{Bitwise, IntTy};
use zw_safety_narrow::{Setting, holds, push_if_panics, right_operator, width};
use zw_wasm::{BinaryOperator, Comparison, Instr, ValType};

/// The cause of a panic where an amount isn't below the width.
const SHIFT_AMOUNT: u8 = 9;

/// The cause of a panic where the divisor is 0.
const DIVIDE_BY_ZERO: u8 = 7;

/// Appends the code of `&`, `|` or `^`.
pub fn push_wide_bitwise(
    operator: Bitwise,
    setting: Setting,
    out: &mut Vec<Instr>,
) -> Result<(), AllocError>
    requires { setting.scratch ≤ GREATEST_SCRATCH }
    ensures { OnOk result (out.new.items ≡ out.old.items ++ wide_code_of_bitwise operator setting) }
{
    push_wide_word(bitwise_by(operator), setting, out)
}

/// The operator on the bits of two numbers.
fn bitwise_by(operator: Bitwise) -> BinaryOperator
    ensures { result ≡ bitwise_by operator }
{
    match operator {
        Bitwise::And => BinaryOperator::And,
        Bitwise::Or => BinaryOperator::Or,
        Bitwise::Xor => BinaryOperator::Xor,
    }
}

/// Appends the code of an operator on the bits of both operands.
fn push_wide_word(
    operator: BinaryOperator,
    setting: Setting,
    out: &mut Vec<Instr>,
) -> Result<(), AllocError>
    requires { setting.scratch ≤ GREATEST_SCRATCH }
    ensures { OnOk result (out.new.items ≡ out.old.items ++ wide_word_code operator setting.left setting.right setting.to setting.scratch) }
{
    push_both_widened(setting, out)?;
    out.push(Instr::Binary(ValType::I64, operator))?;
    push_settled(setting.to, out)?;
    Ok(())
}

/// Appends the code of `<<`.
pub fn push_wide_left(setting: Setting, out: &mut Vec<Instr>) -> Result<(), AllocError>
    requires { setting.scratch ≤ GREATEST_SCRATCH }
    ensures { OnOk result (out.new.items ≡ out.old.items ++ wide_left_code setting.left setting.right setting.to setting.scratch) }
{
    push_wide_amount(setting, out)?;
    out.push(Instr::Binary(ValType::I64, BinaryOperator::Shl))?;
    push_wide_fitted(setting.to, out)?;
    Ok(())
}

/// Appends the code of `>>`.
pub fn push_wide_right(setting: Setting, out: &mut Vec<Instr>) -> Result<(), AllocError>
    requires { setting.scratch ≤ GREATEST_SCRATCH }
    ensures { OnOk result (out.new.items ≡ out.old.items ++ wide_right_code setting.left setting.right setting.to setting.scratch) }
{
    push_wide_amount(setting, out)?;
    out.push(Instr::Binary(ValType::I64, right_operator(setting.left)))?;
    push_settled(setting.to, out)?;
    Ok(())
}

/// Appends code that takes both operands to 64 bits, and panics where the right one isn't below the width.
fn push_wide_amount(setting: Setting, out: &mut Vec<Instr>) -> Result<(), AllocError>
    requires { setting.scratch ≤ GREATEST_SCRATCH }
    ensures { OnOk result (out.new.items ≡ out.old.items ++ wide_amount setting.left setting.right (width setting.to) setting.scratch) }
{
    let bits = width(setting.to);
    if are_wide_amounts(setting.right, bits) {
        push_both_widened(setting, out)
    } else {
        push_spread(setting, out)?;
        push_far_tested(bits, setting.scratch, out)?;
        push_both_got(setting.scratch, out)?;
        Ok(())
    }
}

/// Appends code that panics where the right operand, which is in a local, isn't below the width.
pub fn push_far_tested(width: u8, scratch: u32, out: &mut Vec<Instr>) -> Result<(), AllocError>
    requires { scratch ≤ GREATEST_SCRATCH }
    ensures { OnOk result (out.new.items ≡ out.old.items ++ far_tested width scratch) }
{
    out.push(Instr::LocalGet(scratch + 4))?;
    out.push(Instr::I64Const(i64::from(width)))?;
    out.push(Instr::Compare(ValType::I64, Comparison::GeU))?;
    push_if_panics(SHIFT_AMOUNT, out)
}

/// Appends code that panics where the right operand, which is in a local, is 0.
pub fn push_zero_tested(scratch: u32, out: &mut Vec<Instr>) -> Result<(), AllocError>
    requires { scratch ≤ GREATEST_SCRATCH }
    ensures { OnOk result (out.new.items ≡ out.old.items ++ zero_tested scratch) }
{
    out.push(Instr::LocalGet(scratch + 4))?;
    out.push(Instr::IsZero(ValType::I64))?;
    push_if_panics(DIVIDE_BY_ZERO, out)
}

/// Appends code that leaves both operands from their locals.
pub fn push_both_got(scratch: u32, out: &mut Vec<Instr>) -> Result<(), AllocError>
    requires { scratch ≤ GREATEST_SCRATCH }
    ensures { OnOk result (out.new.items ≡ out.old.items ++ both_got scratch) }
{
    out.push(Instr::LocalGet(scratch + 5))?;
    out.push(Instr::LocalGet(scratch + 4))?;
    Ok(())
}

/// Whether each value of the type is below the width.
pub fn are_wide_amounts(ty: IntTy, width: u8) -> bool
    ensures { result ≡ are_wide_amounts ty width }
{
    match ty {
        IntTy::Sized {
            signed: false,
            bits,
        } => bits < 7 && (1u8 << bits) <= width,
        _ => false,
    }
}

/// Appends the code of an operator whose right operand is -1.
pub fn push_wide_minus_one(
    operator: BinaryOperator,
    from: IntTy,
    to: IntTy,
    out: &mut Vec<Instr>,
) -> Result<(), AllocError>
    ensures { OnOk result (out.new.items ≡ out.old.items ++ wide_minus_one operator from to) }
{
    push_widened(from, out)?;
    out.push(Instr::I64Const(-1))?;
    out.push(Instr::Binary(ValType::I64, operator))?;
    push_wide_fitted(to, out)?;
    Ok(())
}

/// Appends code that leaves the same number in another type.
pub fn push_wide_same(from: IntTy, to: IntTy, out: &mut Vec<Instr>) -> Result<(), AllocError>
    ensures { OnOk result (out.new.items ≡ out.old.items ++ wide_same_code from to) }
{
    push_widened(from, out)?;
    push_settled(to, out)?;
    Ok(())
}

/// Appends the code of `@truncate` and `@bitCast`.
pub fn push_wide_truncated(from: IntTy, to: IntTy, out: &mut Vec<Instr>) -> Result<(), AllocError>
    ensures { OnOk result (out.new.items ≡ out.old.items ++ wide_truncated_code from to) }
{
    push_widened(from, out)?;
    if holds(to, from) {
        push_settled(to, out)
    } else {
        push_wide_fitted(to, out)
    }
}

/// Appends the code of `-` of one operand.
pub fn push_wide_opposite(setting: Setting, out: &mut Vec<Instr>) -> Result<(), AllocError>
    requires { setting.scratch ≤ GREATEST_SCRATCH }
    ensures { OnOk result (out.new.items ≡ out.old.items ++ wide_opposite_code setting.left setting.to setting.scratch) }
{
    push_zero_spread(setting.left, setting.scratch, out)?;
    let negated = Setting {
        right: setting.left,
        ..setting
    };
    push_difference_test(negated, out)?;
    push_tested(setting.to, setting.scratch, out)?;
    Ok(())
}

/// Appends code that puts the operand and 0 into the locals of a difference.
fn push_zero_spread(from: IntTy, scratch: u32, out: &mut Vec<Instr>) -> Result<(), AllocError>
    requires { scratch ≤ GREATEST_SCRATCH }
    ensures { OnOk result (out.new.items ≡ out.old.items ++ zero_spread from scratch) }
{
    push_widened(from, out)?;
    out.push(Instr::LocalSet(scratch + 4))?;
    out.push(Instr::I64Const(0))?;
    out.push(Instr::LocalSet(scratch + 5))?;
    Ok(())
}
