// The code of exact shifts, and of the shift that stops at the bounds of its type, where a type has more than 32 bits.
ghost use Rattle.std.specs.Prelude.{◌≡◌, ◌+◌, ◌≤◌, ◌∷◌, [], ◌++◌, OnOk};
ghost use Rattle.zw_num.specs.Arithmetic.{width};
ghost use Rattle.zw_safety_narrow.specs.Operators.{IsStored};
ghost use Rattle.zw_safety_narrow.specs.declared.setting.TheConstants.{GREATEST_SCRATCH};
ghost use Rattle.zw_safety_wide.specs.WideShiftCode.{amount_tested, moved_left, unlike, lost_tested, low_settled, wide_left_exact_code, wide_right_exact_code, far_besides, wide_left_sat_code};
ghost use Rattle.zw_safety_words.specs.WideCode.{settled};
ghost use Rattle.zw_wasm.specs.declared.module.Instr.TheVariants.{LocalGet, LocalSet, Select};

use crate::saturating::push_bound;
use crate::shares::push_shared;
use std::alloc::AllocError;
use zw_num::IntTy;
use zw_safety_narrow::{Setting, is_unsigned, push_if_panics, right_operator, width};
use zw_safety_words::{
    are_wide_amounts, push_far_tested, push_if_shorter, push_settled, push_spread,
};
use zw_wasm::{BinaryOperator, Comparison, Instr, ValType};

/// The cause of a panic where an exact shift loses bits.
const SHIFT_BITS: u8 = 10;

/// Appends the code of `@shlExact`.
pub fn push_wide_left_exact(setting: Setting, out: &mut Vec<Instr>) -> Result<(), AllocError>
    requires { setting.scratch ≤ GREATEST_SCRATCH }
    ensures { OnOk result (out.new.items ≡ out.old.items ++ wide_left_exact_code setting.left setting.right setting.to setting.scratch) }
{
    push_spread(setting, out)?;
    push_amount_tested(setting, out)?;
    push_moved_left(setting.to, setting.scratch, out)?;
    push_lost_tested(right_operator(setting.to), setting.scratch, out)?;
    push_low_settled(setting.to, setting.scratch, out)?;
    Ok(())
}

/// Appends the code of `@shrExact`.
pub fn push_wide_right_exact(setting: Setting, out: &mut Vec<Instr>) -> Result<(), AllocError>
    requires { setting.scratch ≤ GREATEST_SCRATCH }
    ensures { OnOk result (out.new.items ≡ out.old.items ++ wide_right_exact_code setting.left setting.right setting.to setting.scratch) }
{
    push_spread(setting, out)?;
    push_amount_tested(setting, out)?;
    push_shared(right_operator(setting.left), setting.scratch, out)?;
    push_lost_tested(BinaryOperator::Shl, setting.scratch, out)?;
    push_low_settled(setting.to, setting.scratch, out)?;
    Ok(())
}

/// Appends the code of `<<|`.
pub fn push_wide_left_sat(setting: Setting, out: &mut Vec<Instr>) -> Result<(), AllocError>
    requires to_stored { IsStored setting.to }
    requires scratch { setting.scratch ≤ GREATEST_SCRATCH }
    ensures { OnOk result (out.new.items ≡ out.old.items ++ wide_left_sat_code setting.left setting.right setting.to setting.scratch) }
{
    push_spread(setting, out)?;
    push_moved_kept(setting.to, setting.scratch, out)?;
    push_bound(
        is_unsigned(setting.left),
        setting.to,
        setting.scratch + 5,
        out,
    )?;
    push_kept_unlike(right_operator(setting.to), setting.scratch, out)?;
    push_far_besides(setting, out)?;
    push_chosen(setting.to, out)?;
    Ok(())
}

/// Appends code that chooses by the bit on the operands, and gives the number the width of the result's values.
fn push_chosen(to: IntTy, out: &mut Vec<Instr>) -> Result<(), AllocError>
    ensures { OnOk result (out.new.items ≡ out.old.items ++ (Select ∷ settled to)) }
{
    out.push(Instr::Select)?;
    push_settled(to, out)?;
    Ok(())
}

/// Appends code that panics where the amount isn't below the width, if its type doesn't tell.
fn push_amount_tested(setting: Setting, out: &mut Vec<Instr>) -> Result<(), AllocError>
    requires { setting.scratch ≤ GREATEST_SCRATCH }
    ensures { OnOk result (out.new.items ≡ out.old.items ++ amount_tested setting.right (width setting.to) setting.scratch) }
{
    let bits = width(setting.to);
    if are_wide_amounts(setting.right, bits) {
        Ok(())
    } else {
        push_far_tested(bits, setting.scratch, out)
    }
}

/// Appends code that moves the left operand's bits to the left.
fn push_moved_left(to: IntTy, scratch: u32, out: &mut Vec<Instr>) -> Result<(), AllocError>
    requires { scratch ≤ GREATEST_SCRATCH }
    ensures { OnOk result (out.new.items ≡ out.old.items ++ moved_left to scratch) }
{
    push_shared(BinaryOperator::Shl, scratch, out)?;
    push_if_shorter(to, out)?;
    Ok(())
}

/// Appends the same, with the number into the local of the low word.
fn push_moved_kept(to: IntTy, scratch: u32, out: &mut Vec<Instr>) -> Result<(), AllocError>
    requires { scratch ≤ GREATEST_SCRATCH }
    ensures { OnOk result (out.new.items ≡ out.old.items ++ (moved_left to scratch ++ LocalSet (scratch + 6) ∷ [])) }
{
    push_moved_left(to, scratch, out)?;
    out.push(Instr::LocalSet(scratch + 6))?;
    Ok(())
}

/// Appends the test whether a number that is shifted back isn't the left operand.
fn push_unlike(
    operator: BinaryOperator,
    scratch: u32,
    out: &mut Vec<Instr>,
) -> Result<(), AllocError>
    requires { scratch ≤ GREATEST_SCRATCH }
    ensures { OnOk result (out.new.items ≡ out.old.items ++ unlike operator scratch) }
{
    out.push(Instr::LocalGet(scratch + 4))?;
    out.push(Instr::Binary(ValType::I64, operator))?;
    out.push(Instr::LocalGet(scratch + 5))?;
    out.push(Instr::Compare(ValType::I64, Comparison::Ne))?;
    Ok(())
}

/// Appends the number in the local of the low word, and that test of it.
fn push_kept_unlike(
    operator: BinaryOperator,
    scratch: u32,
    out: &mut Vec<Instr>,
) -> Result<(), AllocError>
    requires { scratch ≤ GREATEST_SCRATCH }
    ensures { OnOk result (out.new.items ≡ out.old.items ++ (LocalGet (scratch + 6) ∷ LocalGet (scratch + 6) ∷ unlike operator scratch)) }
{
    out.push(Instr::LocalGet(scratch + 6))?;
    out.push(Instr::LocalGet(scratch + 6))?;
    push_unlike(operator, scratch, out)?;
    Ok(())
}

/// Appends code that keeps a number, and panics where it is another one when it is shifted back.
fn push_lost_tested(
    operator: BinaryOperator,
    scratch: u32,
    out: &mut Vec<Instr>,
) -> Result<(), AllocError>
    requires { scratch ≤ GREATEST_SCRATCH }
    ensures { OnOk result (out.new.items ≡ out.old.items ++ lost_tested operator scratch) }
{
    out.push(Instr::LocalTee(scratch + 6))?;
    push_unlike(operator, scratch, out)?;
    push_if_panics(SHIFT_BITS, out)
}

/// Appends the number in the local of the low word, as a value of the result.
fn push_low_settled(to: IntTy, scratch: u32, out: &mut Vec<Instr>) -> Result<(), AllocError>
    requires { scratch ≤ GREATEST_SCRATCH }
    ensures { OnOk result (out.new.items ≡ out.old.items ++ low_settled to scratch) }
{
    out.push(Instr::LocalGet(scratch + 6))?;
    push_settled(to, out)?;
    Ok(())
}

/// Appends the test whether besides the amount isn't below the width and the left operand isn't 0, if the amount's type
/// doesn't tell.
fn push_far_besides(setting: Setting, out: &mut Vec<Instr>) -> Result<(), AllocError>
    requires { setting.scratch ≤ GREATEST_SCRATCH }
    ensures { OnOk result (out.new.items ≡ out.old.items ++ far_besides setting.right (width setting.to) setting.scratch) }
{
    let bits = width(setting.to);
    if are_wide_amounts(setting.right, bits) {
        return Ok(());
    }
    out.push(Instr::LocalGet(setting.scratch + 4))?;
    out.push(Instr::I64Const(i64::from(bits)))?;
    out.push(Instr::Compare(ValType::I64, Comparison::GeU))?;
    out.push(Instr::LocalGet(setting.scratch + 5))?;
    out.push(Instr::I64Const(0))?;
    out.push(Instr::Compare(ValType::I64, Comparison::Ne))?;
    out.push(Instr::Binary(ValType::I32, BinaryOperator::And))?;
    out.push(Instr::Binary(ValType::I32, BinaryOperator::Or))?;
    Ok(())
}
