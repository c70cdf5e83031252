// The code of sums, differences and products that stop at the bounds of their type.
ghost use Rattle.std.specs.Prelude.{◌≡◌, ◌≤◌, ◌++◌, OnOk};
ghost use Rattle.zw_num.specs.Arithmetic.{least, greatest};
ghost use Rattle.zw_safety_narrow.specs.Operators.{IsNarrow};
ghost use Rattle.zw_safety_narrow.specs.SaturatingCode.{bounded, saturated_code, natural_code, saturated_product_code, bounded_amount, saturated_left_code};
ghost use Rattle.zw_safety_narrow.specs.declared.setting.TheConstants.{GREATEST_SCRATCH};

use crate::compare::is_unsigned;
use crate::counts::push_at_most;
use crate::division::are_unsigned;
use crate::operators::push_extended;
use crate::setting::Setting;
use crate::shifts::width;
use std::alloc::AllocError;
use zw_num::IntTy;
use zw_wasm::{BinaryOperator, Comparison, Conversion, Instr, ValType};

/// Appends the code of an operator whose exact result in 64 bits has a sign.
pub fn push_saturated(
    operator: BinaryOperator,
    setting: Setting,
    out: &mut Vec<Instr>,
) -> Result<(), AllocError>
    requires narrow { IsNarrow setting.to }
    requires scratch { setting.scratch ≤ GREATEST_SCRATCH }
    ensures { OnOk result (out.new.items ≡ out.old.items ++ saturated_code operator setting.left setting.right setting.to setting.scratch) }
{
    push_extended(setting.left, setting.right, setting.scratch, out)?;
    out.push(Instr::Binary(ValType::I64, operator))?;
    push_topped(Comparison::LtS, setting.to, setting.scratch, out)?;
    push_bottomed(setting.to, setting.scratch, out)?;
    out.push(Instr::Convert(Conversion::Wrap))?;
    Ok(())
}

/// Appends the code of `*|`.
pub fn push_saturated_product(setting: Setting, out: &mut Vec<Instr>) -> Result<(), AllocError>
    requires narrow { IsNarrow setting.to }
    requires scratch { setting.scratch ≤ GREATEST_SCRATCH }
    ensures { OnOk result (out.new.items ≡ out.old.items ++ saturated_product_code setting.left setting.right setting.to setting.scratch) }
{
    if are_unsigned(setting.left, setting.right) {
        push_natural(BinaryOperator::Mul, setting, out)
    } else {
        push_saturated(BinaryOperator::Mul, setting, out)
    }
}

/// Appends the code of `<<|`.
pub fn push_saturated_left(setting: Setting, out: &mut Vec<Instr>) -> Result<(), AllocError>
    requires narrow { IsNarrow setting.to }
    requires scratch { setting.scratch ≤ GREATEST_SCRATCH }
    ensures { OnOk result (out.new.items ≡ out.old.items ++ saturated_left_code setting.left setting.right setting.to setting.scratch) }
{
    push_bounded_amount(setting.right, setting.scratch, out)?;
    if is_unsigned(setting.left) {
        push_natural(BinaryOperator::Shl, setting, out)
    } else {
        push_saturated(BinaryOperator::Shl, setting, out)
    }
}

/// Appends code that leaves an amount from 0 on, or 32 where it is more.
fn push_bounded_amount(right: IntTy, scratch: u32, out: &mut Vec<Instr>) -> Result<(), AllocError>
    ensures { OnOk result (out.new.items ≡ out.old.items ++ bounded_amount right scratch) }
{
    if width(right) < 6 {
        Ok(())
    } else {
        push_at_most(32, scratch, out)
    }
}

/// Appends the code of an operator whose exact result in 64 bits isn't negative.
fn push_natural(
    operator: BinaryOperator,
    setting: Setting,
    out: &mut Vec<Instr>,
) -> Result<(), AllocError>
    requires narrow { IsNarrow setting.to }
    requires scratch { setting.scratch ≤ GREATEST_SCRATCH }
    ensures { OnOk result (out.new.items ≡ out.old.items ++ natural_code operator setting.left setting.right setting.to setting.scratch) }
{
    push_extended(setting.left, setting.right, setting.scratch, out)?;
    out.push(Instr::Binary(ValType::I64, operator))?;
    push_topped(Comparison::LtU, setting.to, setting.scratch, out)?;
    out.push(Instr::Convert(Conversion::Wrap))?;
    Ok(())
}

/// Appends code that leaves its operand, or the greatest value of the type where it isn't less.
fn push_topped(
    comparison: Comparison,
    to: IntTy,
    scratch: u32,
    out: &mut Vec<Instr>,
) -> Result<(), AllocError>
    requires narrow { IsNarrow to }
    requires scratch { scratch ≤ GREATEST_SCRATCH }
    ensures { OnOk result (out.new.items ≡ out.old.items ++ bounded comparison (greatest to) scratch) }
{
    out.push(Instr::LocalTee(scratch + 4))?;
    out.push(Instr::I64Const(greatest(to)))?;
    out.push(Instr::LocalGet(scratch + 4))?;
    out.push(Instr::I64Const(greatest(to)))?;
    out.push(Instr::Compare(ValType::I64, comparison))?;
    out.push(Instr::Select)?;
    Ok(())
}

/// Appends code that leaves its operand, or the least value of the type where it isn't greater.
fn push_bottomed(to: IntTy, scratch: u32, out: &mut Vec<Instr>) -> Result<(), AllocError>
    requires narrow { IsNarrow to }
    requires scratch { scratch ≤ GREATEST_SCRATCH }
    ensures { OnOk result (out.new.items ≡ out.old.items ++ bounded Comparison.GtS (least to) scratch) }
{
    out.push(Instr::LocalTee(scratch + 4))?;
    out.push(Instr::I64Const(least(to)))?;
    out.push(Instr::LocalGet(scratch + 4))?;
    out.push(Instr::I64Const(least(to)))?;
    out.push(Instr::Compare(ValType::I64, Comparison::GtS))?;
    out.push(Instr::Select)?;
    Ok(())
}

/// The greatest value of the type.
fn greatest(ty: IntTy) -> i64
    requires { IsNarrow ty }
    ensures { result ≡ greatest ty }
{
    match ty {
        IntTy::Sized { signed: true, bits } => ((1i64 << bits) - 1) / 2,
        IntTy::Sized { bits, .. } => (1i64 << bits) - 1,
        IntTy::Comptime => 0,
    }
}

/// The least value of the type.
fn least(ty: IntTy) -> i64
    requires { IsNarrow ty }
    ensures { result ≡ least ty }
{
    match ty {
        IntTy::Sized { signed: true, bits } => -((1i64 << bits) / 2),
        _ => 0,
    }
}
