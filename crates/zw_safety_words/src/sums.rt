// The code of sums and differences of 64 bits: two words, and the tests by one comparison.
ghost use Rattle.std.specs.Prelude.{◌≡◌, ◌≤◌, ◌++◌, OnOk};
ghost use Rattle.zw_safety_words.specs.WideCode.{raised, low_word, carry, sum_words, difference_words, long_less, crossed, sum_test, difference_test};
ghost use Rattle.zw_safety_narrow.specs.declared.setting.TheConstants.{GREATEST_SCRATCH};

use crate::ranges::{push_high_of, push_outside, push_sign};
use crate::widths::{all_signed, all_unsigned};
use std::alloc::AllocError;
use zw_num::IntTy;
use zw_safety_narrow::Setting;
use zw_wasm::{BinaryOperator, Comparison, Conversion, Instr, ValType};

/// Appends code that puts the low word of a sum into a local, and tells whether the sum isn't a value of the type.
pub fn push_sum_test(setting: Setting, out: &mut Vec<Instr>) -> Result<(), AllocError>
    requires { setting.scratch ≤ GREATEST_SCRATCH }
    ensures { OnOk result (out.new.items ≡ out.old.items ++ sum_test setting.left setting.right setting.to setting.scratch) }
{
    if all_unsigned(setting) {
        push_low_word(BinaryOperator::Add, setting.scratch, out)?;
        push_long_less(setting.scratch + 6, setting.scratch + 4, out)
    } else if all_signed(setting) {
        push_low_word(BinaryOperator::Add, setting.scratch, out)?;
        push_crossed(Comparison::LtS, setting.scratch, out)
    } else {
        push_sum_words(setting, out)?;
        push_outside(setting.to, setting.scratch + 6, out)
    }
}

/// Appends code that puts the low word of a difference into a local, and tells whether the difference isn't a value of the type.
pub fn push_difference_test(setting: Setting, out: &mut Vec<Instr>) -> Result<(), AllocError>
    requires { setting.scratch ≤ GREATEST_SCRATCH }
    ensures { OnOk result (out.new.items ≡ out.old.items ++ difference_test setting.left setting.right setting.to setting.scratch) }
{
    if all_unsigned(setting) {
        push_low_word(BinaryOperator::Sub, setting.scratch, out)?;
        push_long_less(setting.scratch + 5, setting.scratch + 4, out)
    } else if all_signed(setting) {
        push_low_word(BinaryOperator::Sub, setting.scratch, out)?;
        push_crossed(Comparison::GtS, setting.scratch, out)
    } else {
        push_difference_words(setting, out)?;
        push_outside(setting.to, setting.scratch + 6, out)
    }
}

/// Appends code that puts the low word of a sum into a local, and leaves the high one.
pub fn push_sum_words(setting: Setting, out: &mut Vec<Instr>) -> Result<(), AllocError>
    requires { setting.scratch ≤ GREATEST_SCRATCH }
    ensures { OnOk result (out.new.items ≡ out.old.items ++ sum_words setting.left setting.right setting.scratch) }
{
    push_low_word(BinaryOperator::Add, setting.scratch, out)?;
    push_carry(setting.scratch + 6, setting.scratch + 4, out)?;
    push_raised(BinaryOperator::Add, setting.left, setting.scratch + 5, out)?;
    push_raised(BinaryOperator::Add, setting.right, setting.scratch + 4, out)
}

/// Appends code that puts the low word of a difference into a local, and leaves the high one.
pub fn push_difference_words(setting: Setting, out: &mut Vec<Instr>) -> Result<(), AllocError>
    requires { setting.scratch ≤ GREATEST_SCRATCH }
    ensures { OnOk result (out.new.items ≡ out.old.items ++ difference_words setting.left setting.right setting.scratch) }
{
    push_low_word(BinaryOperator::Sub, setting.scratch, out)?;
    push_high_of(setting.left, setting.scratch + 5, out)?;
    push_carry(setting.scratch + 5, setting.scratch + 4, out)?;
    out.push(Instr::Binary(ValType::I64, BinaryOperator::Sub))?;
    push_raised(BinaryOperator::Sub, setting.right, setting.scratch + 4, out)
}

/// Appends code that adds the high word of the number in a local, a value of the type, or takes it away.
fn push_raised(
    operator: BinaryOperator,
    ty: IntTy,
    local: u32,
    out: &mut Vec<Instr>,
) -> Result<(), AllocError>
    ensures { OnOk result (out.new.items ≡ out.old.items ++ raised operator ty local) }
{
    if let IntTy::Sized { signed: true, .. } = ty {
        push_sign(local, out)?;
        out.push(Instr::Binary(ValType::I64, operator))?;
    }
    Ok(())
}

/// Appends code that puts the low word of the result into a local.
pub fn push_low_word(
    operator: BinaryOperator,
    scratch: u32,
    out: &mut Vec<Instr>,
) -> Result<(), AllocError>
    requires { scratch ≤ GREATEST_SCRATCH }
    ensures { OnOk result (out.new.items ≡ out.old.items ++ low_word operator scratch) }
{
    out.push(Instr::LocalGet(scratch + 5))?;
    out.push(Instr::LocalGet(scratch + 4))?;
    out.push(Instr::Binary(ValType::I64, operator))?;
    out.push(Instr::LocalSet(scratch + 6))?;
    Ok(())
}

/// Appends code that leaves 1 in 64 bits where a local is less than another one, and else 0.
fn push_carry(local: u32, other: u32, out: &mut Vec<Instr>) -> Result<(), AllocError>
    ensures { OnOk result (out.new.items ≡ out.old.items ++ carry local other) }
{
    out.push(Instr::LocalGet(local))?;
    out.push(Instr::LocalGet(other))?;
    out.push(Instr::Compare(ValType::I64, Comparison::LtU))?;
    out.push(Instr::Convert(Conversion::ExtendU))?;
    Ok(())
}

/// Appends code that compares a local with another one.
pub fn push_long_less(local: u32, other: u32, out: &mut Vec<Instr>) -> Result<(), AllocError>
    ensures { OnOk result (out.new.items ≡ out.old.items ++ long_less local other) }
{
    out.push(Instr::LocalGet(local))?;
    out.push(Instr::LocalGet(other))?;
    out.push(Instr::Compare(ValType::I64, Comparison::LtU))?;
    Ok(())
}

/// Appends code that tells whether the low word, read with its sign, is less than the left operand exactly where it shouldn't be.
pub fn push_crossed(
    comparison: Comparison,
    scratch: u32,
    out: &mut Vec<Instr>,
) -> Result<(), AllocError>
    requires { scratch ≤ GREATEST_SCRATCH }
    ensures { OnOk result (out.new.items ≡ out.old.items ++ crossed comparison scratch) }
{
    out.push(Instr::LocalGet(scratch + 4))?;
    out.push(Instr::I64Const(0))?;
    out.push(Instr::Compare(ValType::I64, comparison))?;
    out.push(Instr::LocalGet(scratch + 6))?;
    out.push(Instr::LocalGet(scratch + 5))?;
    out.push(Instr::Compare(ValType::I64, Comparison::LtS))?;
    out.push(Instr::Compare(ValType::I32, Comparison::Ne))?;
    Ok(())
}
