// The code of counts of bits.
ghost use Rattle.std.specs.Prelude.{◌≡◌, ◌++◌, true, OnOk};
ghost use Rattle.zw_num.specs.declared.int_ty.IntTy.TheVariants.{Sized};
ghost use Rattle.zw_safety_narrow.specs.CountCode.{own_bits, ones_code, leading_code, at_most, trailing_code};

use crate::operators::mask;
use crate::shifts::width;
use std::alloc::AllocError;
use zw_num::IntTy;
use zw_wasm::{BinaryOperator, Comparison, Instr, UnaryOperator, ValType};

/// Appends the code of `@popCount`.
pub fn push_ones(from: IntTy, out: &mut Vec<Instr>) -> Result<(), AllocError>
    ensures { OnOk result (out.new.items ≡ out.old.items ++ ones_code from) }
{
    push_own_bits(from, out)?;
    out.push(Instr::Unary(ValType::I32, UnaryOperator::Popcnt))?;
    Ok(())
}

/// Appends the code of `@clz`.
pub fn push_leading(from: IntTy, out: &mut Vec<Instr>) -> Result<(), AllocError>
    ensures { OnOk result (out.new.items ≡ out.old.items ++ leading_code from) }
{
    push_own_bits(from, out)?;
    out.push(Instr::Unary(ValType::I32, UnaryOperator::Clz))?;
    let bits = width(from);
    if bits < 32 {
        out.push(Instr::I32Const(i32::from(32 - bits)))?;
        out.push(Instr::Binary(ValType::I32, BinaryOperator::Sub))?;
    }
    Ok(())
}

/// Appends the code of `@ctz`.
pub fn push_trailing(from: IntTy, scratch: u32, out: &mut Vec<Instr>) -> Result<(), AllocError>
    ensures { OnOk result (out.new.items ≡ out.old.items ++ trailing_code from scratch) }
{
    push_own_bits(from, out)?;
    out.push(Instr::Unary(ValType::I32, UnaryOperator::Ctz))?;
    let bits = width(from);
    if bits < 32 {
        push_at_most(bits, scratch, out)?;
    }
    Ok(())
}

/// Appends code that leaves its operand, or this number where it isn't less.
pub fn push_at_most(top: u8, scratch: u32, out: &mut Vec<Instr>) -> Result<(), AllocError>
    ensures { OnOk result (out.new.items ≡ out.old.items ++ at_most top scratch) }
{
    out.push(Instr::LocalTee(scratch))?;
    out.push(Instr::I32Const(i32::from(top)))?;
    out.push(Instr::LocalGet(scratch))?;
    out.push(Instr::I32Const(i32::from(top)))?;
    out.push(Instr::Compare(ValType::I32, Comparison::LtU))?;
    out.push(Instr::Select)?;
    Ok(())
}

/// Appends code that leaves the bits of the type alone.
fn push_own_bits(from: IntTy, out: &mut Vec<Instr>) -> Result<(), AllocError>
    ensures { OnOk result (out.new.items ≡ out.old.items ++ own_bits from) }
{
    if let IntTy::Sized { signed: true, bits } = from {
        push_low_bits(bits, out)?;
    }
    Ok(())
}

/// Appends code that leaves the lowest bits of its operand, where they aren't all.
fn push_low_bits(bits: u8, out: &mut Vec<Instr>) -> Result<(), AllocError>
    ensures { OnOk result (out.new.items ≡ out.old.items ++ own_bits (Sized true bits)) }
{
    if bits < 32 {
        out.push(Instr::I32Const(mask(bits)))?;
        out.push(Instr::Binary(ValType::I32, BinaryOperator::And))?;
    }
    Ok(())
}
