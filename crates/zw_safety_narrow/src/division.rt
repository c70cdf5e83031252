// The code of quotients and rests.
ghost use Rattle.std.specs.Prelude.{◌≡◌, ◌≤◌, ◌++◌, ◌&&◌, OnOk};
ghost use Rattle.zw_safety_narrow.specs.CastCode.{holds};
ghost use Rattle.zw_safety_narrow.specs.CompareCode.{is_unsigned};
ghost use Rattle.zw_safety_narrow.specs.DivisionCode.{divisor_tested, are_unsigned, quotient_code, rest_code};
ghost use Rattle.zw_safety_narrow.specs.FloorCode.{floored_rest, modulo_code, both_kept, whole_quotient, floor_long, floor_code};
ghost use Rattle.zw_safety_narrow.specs.Operators.{IsNarrow};
ghost use Rattle.zw_safety_narrow.specs.declared.setting.TheConstants.{GREATEST_SCRATCH};

use crate::casts::holds;
use crate::compare::is_unsigned;
use crate::operators::{
    INTEGER_OVERFLOW, extension, push_exact, push_extended, push_if_panics, push_in_range,
};
use crate::setting::Setting;
use std::alloc::AllocError;
use zw_num::IntTy;
use zw_wasm::{BinaryOperator, Conversion, Instr, ValType};

/// The cause of a panic where the divisor is 0.
const DIVIDE_BY_ZERO: u8 = 7;

/// Appends the code of a quotient rounded toward zero.
pub fn push_quotient(setting: Setting, out: &mut Vec<Instr>) -> Result<(), AllocError>
    requires narrow { IsNarrow setting.to }
    requires scratch { setting.scratch ≤ GREATEST_SCRATCH }
    ensures { OnOk result (out.new.items ≡ out.old.items ++ quotient_code setting.left setting.right setting.to setting.scratch) }
{
    push_divisor_tested(setting.scratch, out)?;
    if are_unsigned(setting.left, setting.right) && holds(setting.to, setting.left) {
        out.push(Instr::Binary(ValType::I32, BinaryOperator::DivU))?;
    } else {
        push_exact(INTEGER_OVERFLOW, BinaryOperator::DivS, setting, out)?;
    }
    Ok(())
}

/// Appends the code of what a quotient rounded toward zero leaves.
pub fn push_rest(
    left: IntTy,
    right: IntTy,
    scratch: u32,
    out: &mut Vec<Instr>,
) -> Result<(), AllocError>
    requires { scratch ≤ GREATEST_SCRATCH }
    ensures { OnOk result (out.new.items ≡ out.old.items ++ rest_code left right scratch) }
{
    push_divisor_tested(scratch, out)?;
    if are_unsigned(left, right) {
        out.push(Instr::Binary(ValType::I32, BinaryOperator::RemU))?;
    } else {
        push_extended(left, right, scratch, out)?;
        out.push(Instr::Binary(ValType::I64, BinaryOperator::RemS))?;
        out.push(Instr::Convert(Conversion::Wrap))?;
    }
    Ok(())
}

/// Appends the code of what a quotient rounded down leaves.
pub fn push_modulo(
    left: IntTy,
    right: IntTy,
    scratch: u32,
    out: &mut Vec<Instr>,
) -> Result<(), AllocError>
    requires { scratch ≤ GREATEST_SCRATCH }
    ensures { OnOk result (out.new.items ≡ out.old.items ++ modulo_code left right scratch) }
{
    push_divisor_tested(scratch, out)?;
    push_extended(left, right, scratch, out)?;
    push_floored_rest(scratch + 4, out)?;
    out.push(Instr::Convert(Conversion::Wrap))?;
    Ok(())
}

/// Appends the code of a quotient rounded down.
pub fn push_floor(setting: Setting, out: &mut Vec<Instr>) -> Result<(), AllocError>
    requires narrow { IsNarrow setting.to }
    requires scratch { setting.scratch ≤ GREATEST_SCRATCH }
    ensures { OnOk result (out.new.items ≡ out.old.items ++ floor_code setting.left setting.right setting.to setting.scratch) }
{
    push_divisor_tested(setting.scratch, out)?;
    if are_unsigned(setting.left, setting.right) && holds(setting.to, setting.left) {
        out.push(Instr::Binary(ValType::I32, BinaryOperator::DivU))?;
    } else {
        push_floor_long(setting, out)?;
    }
    Ok(())
}

/// Appends the code of a quotient rounded down, in 64 bits.
fn push_floor_long(setting: Setting, out: &mut Vec<Instr>) -> Result<(), AllocError>
    requires narrow { IsNarrow setting.to }
    requires scratch { setting.scratch ≤ GREATEST_SCRATCH }
    ensures { OnOk result (out.new.items ≡ out.old.items ++ floor_long setting.left setting.right setting.to setting.scratch) }
{
    push_both_kept(setting.left, setting.right, setting.scratch, out)?;
    push_floored_rest(setting.scratch + 4, out)?;
    push_whole_quotient(setting.scratch + 4, out)?;
    push_in_range(INTEGER_OVERFLOW, setting.to, out)?;
    out.push(Instr::LocalGet(setting.scratch + 4))?;
    out.push(Instr::Convert(Conversion::Wrap))?;
    Ok(())
}

/// Appends code that takes both operands to 64 bits, keeps them, and leaves the left one twice and the right one.
pub fn push_both_kept(
    left: IntTy,
    right: IntTy,
    scratch: u32,
    out: &mut Vec<Instr>,
) -> Result<(), AllocError>
    requires { scratch ≤ GREATEST_SCRATCH }
    ensures { OnOk result (out.new.items ≡ out.old.items ++ both_kept left right scratch) }
{
    out.push(Instr::Convert(extension(right)))?;
    out.push(Instr::LocalSet(scratch + 4))?;
    out.push(Instr::Convert(extension(left)))?;
    out.push(Instr::LocalTee(scratch + 5))?;
    out.push(Instr::LocalGet(scratch + 5))?;
    out.push(Instr::LocalGet(scratch + 4))?;
    Ok(())
}

/// Appends code that divides a number without its rest by the number in a local, into that local.
fn push_whole_quotient(local: u32, out: &mut Vec<Instr>) -> Result<(), AllocError>
    ensures { OnOk result (out.new.items ≡ out.old.items ++ whole_quotient local) }
{
    out.push(Instr::Binary(ValType::I64, BinaryOperator::Sub))?;
    out.push(Instr::LocalGet(local))?;
    out.push(Instr::Binary(ValType::I64, BinaryOperator::DivS))?;
    out.push(Instr::LocalSet(local))?;
    out.push(Instr::LocalGet(local))?;
    Ok(())
}

/// Appends code that leaves the rest of a quotient by the number in a local, rounded down.
fn push_floored_rest(local: u32, out: &mut Vec<Instr>) -> Result<(), AllocError>
    ensures { OnOk result (out.new.items ≡ out.old.items ++ floored_rest local) }
{
    out.push(Instr::Binary(ValType::I64, BinaryOperator::RemS))?;
    out.push(Instr::LocalGet(local))?;
    out.push(Instr::Binary(ValType::I64, BinaryOperator::Add))?;
    out.push(Instr::LocalGet(local))?;
    out.push(Instr::Binary(ValType::I64, BinaryOperator::RemS))?;
    Ok(())
}

/// Appends code that panics where its operand, which stays, is 0.
pub fn push_divisor_tested(scratch: u32, out: &mut Vec<Instr>) -> Result<(), AllocError>
    ensures { OnOk result (out.new.items ≡ out.old.items ++ divisor_tested scratch) }
{
    out.push(Instr::LocalTee(scratch))?;
    out.push(Instr::IsZero(ValType::I32))?;
    push_if_panics(DIVIDE_BY_ZERO, out)?;
    out.push(Instr::LocalGet(scratch))?;
    Ok(())
}

/// Whether both types are unsigned.
pub fn are_unsigned(left: IntTy, right: IntTy) -> bool
    ensures { result ≡ are_unsigned left right }
{
    is_unsigned(left) && is_unsigned(right)
}
