// The code of exact quotients and shifts.
ghost use Rattle.std.specs.Prelude.{◌≡◌, ◌≤◌, ◌++◌, ◌&&◌, OnOk};
ghost use Rattle.zw_safety_narrow.specs.ExactCode.{exact_short, kept_quotient, no_rest, quotient_word, exact_long, exact_quotient_code, left_exact_code, none_dropped_code, right_exact_code};
ghost use Rattle.zw_safety_narrow.specs.Operators.{IsNarrow};
ghost use Rattle.zw_safety_narrow.specs.declared.setting.TheConstants.{GREATEST_SCRATCH};

use crate::casts::holds;
use crate::compare::push_doubled;
use crate::division::{are_unsigned, push_both_kept, push_divisor_tested};
use crate::operators::{INTEGER_OVERFLOW, push_exact, push_if_panics, push_in_range};
use crate::setting::Setting;
use crate::shifts::{push_amount_tested, right_operator, width};
use std::alloc::AllocError;
use zw_num::IntTy;
use zw_wasm::{BinaryOperator, Comparison, Conversion, Instr, ValType};

/// The cause of a panic where an exact division leaves a rest.
const REMAINDER_LEFT: u8 = 8;

/// The cause of a panic where an exact shift loses bits that count.
const BITS_LOST: u8 = 10;

/// Appends the code of `@divExact`.
pub fn push_exact_quotient(setting: Setting, out: &mut Vec<Instr>) -> Result<(), AllocError>
    requires narrow { IsNarrow setting.to }
    requires scratch { setting.scratch ≤ GREATEST_SCRATCH }
    ensures { OnOk result (out.new.items ≡ out.old.items ++ exact_quotient_code setting.left setting.right setting.to setting.scratch) }
{
    push_divisor_tested(setting.scratch, out)?;
    if are_unsigned(setting.left, setting.right) && holds(setting.to, setting.left) {
        push_exact_short(setting.scratch, out)
    } else {
        push_exact_long(setting, out)
    }
}

/// Appends code that panics where a quotient leaves a rest, and else leaves it.
fn push_exact_short(scratch: u32, out: &mut Vec<Instr>) -> Result<(), AllocError>
    requires { scratch ≤ GREATEST_SCRATCH }
    ensures { OnOk result (out.new.items ≡ out.old.items ++ exact_short scratch) }
{
    push_doubled(scratch, out)?;
    out.push(Instr::Binary(ValType::I32, BinaryOperator::RemU))?;
    push_if_panics(REMAINDER_LEFT, out)?;
    out.push(Instr::Binary(ValType::I32, BinaryOperator::DivU))?;
    Ok(())
}

/// Appends the same in 64 bits, where a quotient that the type doesn't have panics first.
fn push_exact_long(setting: Setting, out: &mut Vec<Instr>) -> Result<(), AllocError>
    requires narrow { IsNarrow setting.to }
    requires scratch { setting.scratch ≤ GREATEST_SCRATCH }
    ensures { OnOk result (out.new.items ≡ out.old.items ++ exact_long setting.left setting.right setting.to setting.scratch) }
{
    push_both_kept(setting.left, setting.right, setting.scratch, out)?;
    push_kept_quotient(setting.scratch, out)?;
    push_in_range(INTEGER_OVERFLOW, setting.to, out)?;
    push_no_rest(setting.scratch, out)?;
    push_quotient_word(setting.scratch, out)?;
    Ok(())
}

/// Appends code that divides in 64 bits, into a local too.
fn push_kept_quotient(scratch: u32, out: &mut Vec<Instr>) -> Result<(), AllocError>
    requires { scratch ≤ GREATEST_SCRATCH }
    ensures { OnOk result (out.new.items ≡ out.old.items ++ kept_quotient scratch) }
{
    out.push(Instr::Binary(ValType::I64, BinaryOperator::DivS))?;
    out.push(Instr::LocalTee(scratch + 6))?;
    Ok(())
}

/// Appends code that panics where its operand leaves a rest by the number in a local.
fn push_no_rest(scratch: u32, out: &mut Vec<Instr>) -> Result<(), AllocError>
    requires { scratch ≤ GREATEST_SCRATCH }
    ensures { OnOk result (out.new.items ≡ out.old.items ++ no_rest scratch) }
{
    out.push(Instr::LocalGet(scratch + 4))?;
    out.push(Instr::Binary(ValType::I64, BinaryOperator::RemS))?;
    out.push(Instr::Convert(Conversion::Wrap))?;
    push_if_panics(REMAINDER_LEFT, out)
}

/// Appends code that leaves the quotient in a local.
fn push_quotient_word(scratch: u32, out: &mut Vec<Instr>) -> Result<(), AllocError>
    requires { scratch ≤ GREATEST_SCRATCH }
    ensures { OnOk result (out.new.items ≡ out.old.items ++ quotient_word scratch) }
{
    out.push(Instr::LocalGet(scratch + 6))?;
    out.push(Instr::Convert(Conversion::Wrap))?;
    Ok(())
}

/// Appends the code of `@shlExact`.
pub fn push_left_exact(setting: Setting, out: &mut Vec<Instr>) -> Result<(), AllocError>
    requires narrow { IsNarrow setting.to }
    requires scratch { setting.scratch ≤ GREATEST_SCRATCH }
    ensures { OnOk result (out.new.items ≡ out.old.items ++ left_exact_code setting.left setting.right setting.to setting.scratch) }
{
    push_amount_tested(width(setting.to), setting.right, setting.scratch, out)?;
    push_exact(BITS_LOST, BinaryOperator::Shl, setting, out)
}

/// Appends the code of `@shrExact`.
pub fn push_right_exact(setting: Setting, out: &mut Vec<Instr>) -> Result<(), AllocError>
    requires { setting.scratch ≤ GREATEST_SCRATCH }
    ensures { OnOk result (out.new.items ≡ out.old.items ++ right_exact_code setting.left setting.right setting.to setting.scratch) }
{
    push_amount_tested(width(setting.to), setting.right, setting.scratch, out)?;
    push_doubled(setting.scratch, out)?;
    push_none_dropped(right_operator(setting.left), setting.scratch, out)?;
    out.push(Instr::Binary(ValType::I32, right_operator(setting.left)))?;
    Ok(())
}

/// Appends code that panics where a shift to the right drops a bit that is 1, by the operands that are in locals.
fn push_none_dropped(
    operator: BinaryOperator,
    scratch: u32,
    out: &mut Vec<Instr>,
) -> Result<(), AllocError>
    requires { scratch ≤ GREATEST_SCRATCH }
    ensures { OnOk result (out.new.items ≡ out.old.items ++ none_dropped_code operator scratch) }
{
    out.push(Instr::Binary(ValType::I32, operator))?;
    out.push(Instr::LocalGet(scratch))?;
    out.push(Instr::Binary(ValType::I32, BinaryOperator::Shl))?;
    out.push(Instr::LocalGet(scratch + 1))?;
    out.push(Instr::Compare(ValType::I32, Comparison::Ne))?;
    push_if_panics(BITS_LOST, out)
}
