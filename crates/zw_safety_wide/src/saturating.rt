// The code of operators that stop at the bounds of their type, where a type has more than 32 bits.
ghost use Rattle.std.specs.Prelude.{◌≡◌, ◌+◌, ◌≤◌, ◌∷◌, ◌++◌, false, OnOk};
ghost use Rattle.zw_num.specs.declared.int_ty.IntTy.TheVariants.{Sized};
ghost use Rattle.zw_safety_narrow.specs.Operators.{IsStored};
ghost use Rattle.zw_safety_narrow.specs.declared.setting.TheConstants.{GREATEST_SCRATCH};
ghost use Rattle.zw_safety_wide.specs.WideSaturatingCode.{greatest_long, bound, nearest, sum_nearest, difference_nearest, wide_sum_sat_code, wide_difference_sat_code, wide_product_sat_code};
ghost use Rattle.zw_safety_words.specs.WideCode.{settled, long_less, crossed};
ghost use Rattle.zw_wasm.specs.declared.module.Instr.TheVariants.{LocalGet, Select};

use crate::casts::greatest_signed;
use crate::shares::least_long;
use std::alloc::AllocError;
use zw_num::IntTy;
use zw_safety_narrow::Setting;
use zw_safety_words::{
    all_signed, all_unsigned, both_unsigned, long_mask, push_crossed, push_difference_words,
    push_long_less, push_low_word, push_outside, push_product_words, push_settled, push_spread,
    push_sum_words,
};
use zw_wasm::{BinaryOperator, Comparison, Instr, ValType};

/// Appends the code of `+|`.
pub fn push_wide_sum_sat(setting: Setting, out: &mut Vec<Instr>) -> Result<(), AllocError>
    requires to_stored { IsStored setting.to }
    requires scratch { setting.scratch ≤ GREATEST_SCRATCH }
    ensures { OnOk result (out.new.items ≡ out.old.items ++ wide_sum_sat_code setting.left setting.right setting.to setting.scratch) }
{
    push_spread(setting, out)?;
    push_sum_nearest(setting, out)?;
    Ok(())
}

/// Appends code that takes the sum of both operands, which are in their locals, to the nearest value of the type.
fn push_sum_nearest(setting: Setting, out: &mut Vec<Instr>) -> Result<(), AllocError>
    requires to_stored { IsStored setting.to }
    requires scratch { setting.scratch ≤ GREATEST_SCRATCH }
    ensures { OnOk result (out.new.items ≡ out.old.items ++ sum_nearest setting.left setting.right setting.to setting.scratch) }
{
    if all_unsigned(setting) {
        push_low_word(BinaryOperator::Add, setting.scratch, out)?;
        push_bound(true, setting.to, setting.scratch + 5, out)?;
        push_less_chosen(
            setting.scratch + 6,
            setting.scratch + 4,
            setting.to,
            setting.scratch,
            out,
        )?;
        Ok(())
    } else if all_signed(setting) {
        push_low_word(BinaryOperator::Add, setting.scratch, out)?;
        push_bound(false, setting.to, setting.scratch + 5, out)?;
        push_crossed_chosen(Comparison::LtS, setting.to, setting.scratch, out)?;
        Ok(())
    } else {
        push_sum_words(setting, out)?;
        push_nearest(
            both_unsigned(setting.left, setting.right),
            setting.to,
            setting.scratch,
            out,
        )?;
        Ok(())
    }
}

/// Appends code that leaves the low word, or the bound below it where a local is less than another one.
fn push_less_chosen(
    local: u32,
    other: u32,
    to: IntTy,
    scratch: u32,
    out: &mut Vec<Instr>,
) -> Result<(), AllocError>
    requires { scratch ≤ GREATEST_SCRATCH }
    ensures { OnOk result (out.new.items ≡ out.old.items ++ (LocalGet (scratch + 6) ∷ (long_less local other ++ (Select ∷ settled to)))) }
{
    out.push(Instr::LocalGet(scratch + 6))?;
    push_long_less(local, other, out)?;
    out.push(Instr::Select)?;
    push_settled(to, out)?;
    Ok(())
}

/// Appends code that leaves the low word, or the bound below it where the low word lies on the wrong side of the left operand.
fn push_crossed_chosen(
    comparison: Comparison,
    to: IntTy,
    scratch: u32,
    out: &mut Vec<Instr>,
) -> Result<(), AllocError>
    requires { scratch ≤ GREATEST_SCRATCH }
    ensures { OnOk result (out.new.items ≡ out.old.items ++ (LocalGet (scratch + 6) ∷ (crossed comparison scratch ++ (Select ∷ settled to)))) }
{
    out.push(Instr::LocalGet(scratch + 6))?;
    push_crossed(comparison, scratch, out)?;
    out.push(Instr::Select)?;
    push_settled(to, out)?;
    Ok(())
}

/// Appends the code of `-|`.
pub fn push_wide_difference_sat(setting: Setting, out: &mut Vec<Instr>) -> Result<(), AllocError>
    requires to_stored { IsStored setting.to }
    requires scratch { setting.scratch ≤ GREATEST_SCRATCH }
    ensures { OnOk result (out.new.items ≡ out.old.items ++ wide_difference_sat_code setting.left setting.right setting.to setting.scratch) }
{
    push_spread(setting, out)?;
    push_difference_nearest(setting, out)?;
    Ok(())
}

/// Appends code that takes the difference of both operands, which are in their locals, to the nearest value of the type.
fn push_difference_nearest(setting: Setting, out: &mut Vec<Instr>) -> Result<(), AllocError>
    requires to_stored { IsStored setting.to }
    requires scratch { setting.scratch ≤ GREATEST_SCRATCH }
    ensures { OnOk result (out.new.items ≡ out.old.items ++ difference_nearest setting.left setting.right setting.to setting.scratch) }
{
    if all_unsigned(setting) {
        push_low_word(BinaryOperator::Sub, setting.scratch, out)?;
        out.push(Instr::I64Const(0))?;
        push_less_chosen(
            setting.scratch + 5,
            setting.scratch + 4,
            setting.to,
            setting.scratch,
            out,
        )?;
        Ok(())
    } else if all_signed(setting) {
        push_low_word(BinaryOperator::Sub, setting.scratch, out)?;
        push_bound(false, setting.to, setting.scratch + 5, out)?;
        push_crossed_chosen(Comparison::GtS, setting.to, setting.scratch, out)?;
        Ok(())
    } else {
        push_difference_words(setting, out)?;
        push_nearest(false, setting.to, setting.scratch, out)?;
        Ok(())
    }
}

/// Appends the code of `*|`.
pub fn push_wide_product_sat(setting: Setting, out: &mut Vec<Instr>) -> Result<(), AllocError>
    requires to_stored { IsStored setting.to }
    requires scratch { setting.scratch ≤ GREATEST_SCRATCH }
    ensures { OnOk result (out.new.items ≡ out.old.items ++ wide_product_sat_code setting.left setting.right setting.to setting.scratch) }
{
    push_spread(setting, out)?;
    push_product_words(setting, out)?;
    push_nearest(
        both_unsigned(setting.left, setting.right),
        setting.to,
        setting.scratch,
        out,
    )?;
    Ok(())
}

/// The greatest value of a type by its 64 bits, read with a sign.
fn greatest_long(ty: IntTy) -> i64
    requires { IsStored ty }
    ensures { result ≡ greatest_long ty }
{
    match ty {
        IntTy::Sized { signed: true, bits } => greatest_signed(bits),
        IntTy::Sized {
            signed: false,
            bits,
        } => unsigned_greatest(bits),
        IntTy::Comptime => 0,
    }
}

/// The greatest value of an unsigned type of so many bits, by its 64 bits, read with a sign.
fn unsigned_greatest(bits: u8) -> i64
    requires { bits ≤ 64 }
    ensures { result ≡ greatest_long (Sized false bits) }
{
    if bits < 64 { long_mask(bits) } else { -1 }
}

/// Appends code that leaves the bound on the side of 0 on which the number in a local is.
pub fn push_bound(
    never_negative: bool,
    to: IntTy,
    local: u32,
    out: &mut Vec<Instr>,
) -> Result<(), AllocError>
    requires { IsStored to }
    ensures { OnOk result (out.new.items ≡ out.old.items ++ bound never_negative to local) }
{
    if never_negative {
        out.push(Instr::I64Const(greatest_long(to)))?;
        return Ok(());
    }
    out.push(Instr::I64Const(least_long(to)))?;
    out.push(Instr::I64Const(greatest_long(to)))?;
    out.push(Instr::LocalGet(local))?;
    out.push(Instr::I64Const(0))?;
    out.push(Instr::Compare(ValType::I64, Comparison::LtS))?;
    out.push(Instr::Select)?;
    Ok(())
}

/// Appends code that takes two words to the nearest value of the type.
fn push_nearest(
    never_negative: bool,
    to: IntTy,
    scratch: u32,
    out: &mut Vec<Instr>,
) -> Result<(), AllocError>
    requires to_stored { IsStored to }
    requires scratch { scratch ≤ GREATEST_SCRATCH }
    ensures { OnOk result (out.new.items ≡ out.old.items ++ nearest never_negative to scratch) }
{
    out.push(Instr::LocalSet(scratch + 7))?;
    push_bound(never_negative, to, scratch + 7, out)?;
    out.push(Instr::LocalGet(scratch + 6))?;
    out.push(Instr::LocalGet(scratch + 7))?;
    push_outside(to, scratch + 6, out)?;
    out.push(Instr::Select)?;
    push_settled(to, out)?;
    Ok(())
}
