// The code of tests that a number in two words is a value of a type.
ghost use Rattle.std.specs.Prelude.{◌≡◌, ◌≤◌, ◌++◌, true, OnOk};
ghost use Rattle.zw_num.specs.declared.int_ty.IntTy.TheVariants.{Sized};
ghost use Rattle.zw_safety_narrow.specs.NarrowCode.{above_least};
ghost use Rattle.zw_safety_words.specs.WideCode.{high_of, beyond, outside, tested};
ghost use Rattle.zw_safety_narrow.specs.declared.setting.TheConstants.{GREATEST_SCRATCH};

use crate::widths::{long_half, long_mask, push_long_moved, push_settled};
use std::alloc::AllocError;
use zw_num::IntTy;
use zw_safety_narrow::{INTEGER_OVERFLOW, push_if_panics};
use zw_wasm::{BinaryOperator, Comparison, Instr, ValType};

/// Appends code that tells whether the number with this low word and the high word on the operands isn't a value of the type.
pub fn push_outside(to: IntTy, local: u32, out: &mut Vec<Instr>) -> Result<(), AllocError>
    ensures { OnOk result (out.new.items ≡ out.old.items ++ outside to local) }
{
    push_high_of(to, local, out)?;
    out.push(Instr::Compare(ValType::I64, Comparison::Ne))?;
    match to {
        IntTy::Sized { signed, bits } if bits < 64 => push_beyond(signed, bits, local, out),
        IntTy::Sized { .. } => Ok(()),
        IntTy::Comptime => push_beyond(false, 0, local, out),
    }
}

/// Appends code that panics where its operand isn't 0, and else leaves the low word as a value of the type.
pub fn push_tested(to: IntTy, scratch: u32, out: &mut Vec<Instr>) -> Result<(), AllocError>
    requires { scratch ≤ GREATEST_SCRATCH }
    ensures { OnOk result (out.new.items ≡ out.old.items ++ tested to scratch) }
{
    push_if_panics(INTEGER_OVERFLOW, out)?;
    out.push(Instr::LocalGet(scratch + 6))?;
    push_settled(to, out)?;
    Ok(())
}

/// Appends code that leaves the high word of the number in a local, as a value of the type.
pub fn push_high_of(ty: IntTy, local: u32, out: &mut Vec<Instr>) -> Result<(), AllocError>
    ensures { OnOk result (out.new.items ≡ out.old.items ++ high_of ty local) }
{
    if let IntTy::Sized { signed: true, .. } = ty {
        push_sign(local, out)
    } else {
        out.push(Instr::I64Const(0))?;
        Ok(())
    }
}

/// Appends code that leaves copies of a local's highest bit.
pub fn push_sign(local: u32, out: &mut Vec<Instr>) -> Result<(), AllocError>
    ensures { OnOk result (out.new.items ≡ out.old.items ++ high_of (Sized true 64) local) }
{
    out.push(Instr::LocalGet(local))?;
    out.push(Instr::I64Const(63))?;
    out.push(Instr::Binary(ValType::I64, BinaryOperator::ShrS))?;
    Ok(())
}

/// Appends code that tells besides whether a local lies too far above the least value of a type.
fn push_beyond(signed: bool, bits: u8, local: u32, out: &mut Vec<Instr>) -> Result<(), AllocError>
    requires { bits ≤ 63 }
    ensures { OnOk result (out.new.items ≡ out.old.items ++ beyond (Sized signed bits) local) }
{
    out.push(Instr::LocalGet(local))?;
    push_long_above(signed, bits, out)?;
    out.push(Instr::I64Const(long_mask(bits)))?;
    out.push(Instr::Compare(ValType::I64, Comparison::GtU))?;
    out.push(Instr::Binary(ValType::I32, BinaryOperator::Or))?;
    Ok(())
}

/// Appends code that takes the least value of a signed type away.
fn push_long_above(signed: bool, bits: u8, out: &mut Vec<Instr>) -> Result<(), AllocError>
    requires { bits ≤ 63 }
    ensures { OnOk result (out.new.items ≡ out.old.items ++ above_least (Sized signed bits)) }
{
    if signed {
        push_long_moved(long_half(bits), BinaryOperator::Add, out)
    } else {
        Ok(())
    }
}
