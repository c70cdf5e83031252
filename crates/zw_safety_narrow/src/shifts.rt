// The code of shifts.
ghost use Rattle.std.specs.Prelude.{◌≡◌, ◌++◌, OnOk};
ghost use Rattle.zw_num.specs.Arithmetic.{width};
ghost use Rattle.zw_safety_narrow.specs.CastCode.{tested};
ghost use Rattle.zw_safety_narrow.specs.Operators.{IsNarrow};
ghost use Rattle.zw_safety_narrow.specs.ShiftCode.{are_amounts, too_far, amount_tested, left_code, right_operator, right_code};

use crate::operators::{push_fitted, push_if_panics};
use crate::setting::Setting;
use std::alloc::AllocError;
use zw_num::IntTy;
use zw_wasm::{BinaryOperator, Comparison, Instr, ValType};

/// The cause of a panic where an amount isn't below the width.
const SHIFT_AMOUNT: u8 = 9;

/// Appends the code of `<<`.
pub fn push_left(
    right: IntTy,
    to: IntTy,
    scratch: u32,
    out: &mut Vec<Instr>,
) -> Result<(), AllocError>
    requires { IsNarrow to }
    ensures { OnOk result (out.new.items ≡ out.old.items ++ left_code right to scratch) }
{
    push_amount_tested(width(to), right, scratch, out)?;
    out.push(Instr::Binary(ValType::I32, BinaryOperator::Shl))?;
    push_fitted(to, out)
}

/// Appends the code of `>>`.
pub fn push_right(setting: Setting, out: &mut Vec<Instr>) -> Result<(), AllocError>
    ensures { OnOk result (out.new.items ≡ out.old.items ++ right_code setting.left setting.right setting.to setting.scratch) }
{
    push_amount_tested(width(setting.to), setting.right, setting.scratch, out)?;
    out.push(Instr::Binary(ValType::I32, right_operator(setting.left)))?;
    Ok(())
}

/// Appends code that panics where its operand, which stays, isn't below the width.
pub fn push_amount_tested(
    width: u8,
    right: IntTy,
    scratch: u32,
    out: &mut Vec<Instr>,
) -> Result<(), AllocError>
    ensures { OnOk result (out.new.items ≡ out.old.items ++ amount_tested width right scratch) }
{
    if are_amounts(right, width) {
        Ok(())
    } else {
        push_tested_for(width, scratch, out)
    }
}

/// Appends the test itself.
fn push_tested_for(width: u8, scratch: u32, out: &mut Vec<Instr>) -> Result<(), AllocError>
    ensures { OnOk result (out.new.items ≡ out.old.items ++ tested (too_far width) 9 scratch) }
{
    out.push(Instr::LocalTee(scratch))?;
    out.push(Instr::I32Const(i32::from(width)))?;
    out.push(Instr::Compare(ValType::I32, Comparison::GeU))?;
    push_if_panics(SHIFT_AMOUNT, out)?;
    out.push(Instr::LocalGet(scratch))?;
    Ok(())
}

/// Whether each value of the type is below the width.
fn are_amounts(ty: IntTy, width: u8) -> bool
    ensures { result ≡ are_amounts ty width }
{
    match ty {
        IntTy::Sized {
            signed: false,
            bits,
        } => bits < 6 && (1u8 << bits) <= width,
        _ => false,
    }
}

/// How the bits of a value of the type go down: with copies of the sign above, or with zeros.
pub fn right_operator(ty: IntTy) -> BinaryOperator
    ensures { result ≡ right_operator ty }
{
    match ty {
        IntTy::Sized { signed: true, .. } => BinaryOperator::ShrS,
        _ => BinaryOperator::ShrU,
    }
}

/// The bits of a sized type.
pub fn width(ty: IntTy) -> u8
    ensures { result ≡ width ty }
{
    match ty {
        IntTy::Sized { bits, .. } => bits,
        IntTy::Comptime => 0,
    }
}
