// The code of `@intCast`, and of how far a number is from 0, where a type has more than 32 bits.
ghost use Rattle.std.specs.Prelude.{◌≡◌, ◌≤◌, ◌-◌, ◌/◌, ◌^◌, ◌++◌, true, false, pos, OnOk};
ghost use Rattle.zw_num.specs.declared.int_ty.IntTy.TheVariants.{Sized};
ghost use Rattle.zw_safety_narrow.specs.Operators.{IsStored};
ghost use Rattle.zw_safety_narrow.specs.declared.setting.TheConstants.{GREATEST_SCRATCH};
ghost use Rattle.zw_safety_wide.specs.WideCastCode.{long_tested, long_above, long_outside, long_negative, long_cast, wide_cast_code, long_distance, wide_distance_code};

use std::alloc::AllocError;
use zw_num::IntTy;
use zw_safety_narrow::{Setting, push_if_panics};
use zw_safety_words::{long_half, long_mask, push_settled, push_widened};
use zw_wasm::{BinaryOperator, Comparison, Instr, ValType};

/// The cause of a panic where a cast's number is too great, or too far below 0.
const CAST_TRUNCATED: u8 = 11;

/// The cause of a panic where a cast's number is negative, and its type unsigned.
const NEGATIVE_TO_UNSIGNED: u8 = 12;

/// Appends the code of `@intCast`.
pub fn push_wide_int_cast(setting: Setting, out: &mut Vec<Instr>) -> Result<(), AllocError>
    requires from_stored { IsStored setting.left }
    requires to_stored { IsStored setting.to }
    requires scratch { setting.scratch ≤ GREATEST_SCRATCH }
    ensures { OnOk result (out.new.items ≡ out.old.items ++ wide_cast_code setting.left setting.to setting.scratch) }
{
    push_widened(setting.left, out)?;
    push_long_cast(setting, out)?;
    push_settled(setting.to, out)?;
    Ok(())
}

/// Appends the tests of a cast.
fn push_long_cast(setting: Setting, out: &mut Vec<Instr>) -> Result<(), AllocError>
    requires from_stored { IsStored setting.left }
    requires to_stored { IsStored setting.to }
    requires scratch { setting.scratch ≤ GREATEST_SCRATCH }
    ensures { OnOk result (out.new.items ≡ out.old.items ++ long_cast setting.left setting.to setting.scratch) }
{
    let (
        IntTy::Sized {
            signed: from_signed,
            bits: from_bits,
        },
        IntTy::Sized { signed, bits },
    ) = (setting.left, setting.to)
    else {
        return Ok(());
    };
    match (from_signed, signed) {
        (true, true) => push_signed_cast(from_bits, bits, setting.scratch, out),
        (false, true) => push_cast_to_signed(from_bits, bits, setting.scratch, out),
        (false, false) => push_unsigned_cast(from_bits, bits, setting.scratch, out),
        (true, false) => push_cast_to_unsigned(from_bits, bits, setting.scratch, out),
    }
}

/// Appends the test of a cast between signed types of so many bits.
fn push_signed_cast(from: u8, to: u8, scratch: u32, out: &mut Vec<Instr>) -> Result<(), AllocError>
    requires from_stored { from ≤ 64 }
    requires scratch { scratch ≤ GREATEST_SCRATCH }
    ensures { OnOk result (out.new.items ≡ out.old.items ++ long_cast (Sized true from) (Sized true to) scratch) }
{
    if from > to {
        out.push(Instr::LocalTee(scratch + 4))?;
        push_outside(to, out)?;
        push_if_panics(CAST_TRUNCATED, out)?;
        out.push(Instr::LocalGet(scratch + 4))?;
    }
    Ok(())
}

/// Appends code that tells whether its operand isn't a value of the signed type of so many bits.
fn push_outside(bits: u8, out: &mut Vec<Instr>) -> Result<(), AllocError>
    requires { bits ≤ 63 }
    ensures { OnOk result (out.new.items ≡ out.old.items ++ long_outside bits) }
{
    out.push(Instr::I64Const(long_half(bits)))?;
    out.push(Instr::Binary(ValType::I64, BinaryOperator::Add))?;
    out.push(Instr::I64Const(long_mask(bits)))?;
    out.push(Instr::Compare(ValType::I64, Comparison::GtU))?;
    Ok(())
}

/// Appends the test of a cast from an unsigned type to a signed one.
fn push_cast_to_signed(
    from: u8,
    to: u8,
    scratch: u32,
    out: &mut Vec<Instr>,
) -> Result<(), AllocError>
    requires from_stored { from ≤ 64 }
    requires scratch { scratch ≤ GREATEST_SCRATCH }
    ensures { OnOk result (out.new.items ≡ out.old.items ++ long_cast (Sized false from) (Sized true to) scratch) }
{
    if from >= to {
        out.push(Instr::LocalTee(scratch + 4))?;
        out.push(Instr::I64Const(greatest_signed(to)))?;
        out.push(Instr::Compare(ValType::I64, Comparison::GtU))?;
        push_if_panics(CAST_TRUNCATED, out)?;
        out.push(Instr::LocalGet(scratch + 4))?;
    }
    Ok(())
}

/// Appends the test of a cast between unsigned types.
fn push_unsigned_cast(
    from: u8,
    to: u8,
    scratch: u32,
    out: &mut Vec<Instr>,
) -> Result<(), AllocError>
    requires from_stored { from ≤ 64 }
    requires scratch { scratch ≤ GREATEST_SCRATCH }
    ensures { OnOk result (out.new.items ≡ out.old.items ++ long_cast (Sized false from) (Sized false to) scratch) }
{
    if from > to {
        push_top_tested(to, scratch, out)?;
    }
    Ok(())
}

/// Appends the tests of a cast from a signed type to an unsigned one.
fn push_cast_to_unsigned(
    from: u8,
    to: u8,
    scratch: u32,
    out: &mut Vec<Instr>,
) -> Result<(), AllocError>
    requires from_stored { from ≤ 64 }
    requires scratch { scratch ≤ GREATEST_SCRATCH }
    ensures { OnOk result (out.new.items ≡ out.old.items ++ long_cast (Sized true from) (Sized false to) scratch) }
{
    push_sign_tested(scratch, out)?;
    if from > to && from - to > 1 {
        push_top_tested(to, scratch, out)?;
    }
    Ok(())
}

/// Appends code that panics where its operand, which stays, is negative.
fn push_sign_tested(scratch: u32, out: &mut Vec<Instr>) -> Result<(), AllocError>
    requires { scratch ≤ GREATEST_SCRATCH }
    ensures { OnOk result (out.new.items ≡ out.old.items ++ long_tested long_negative 12 scratch) }
{
    out.push(Instr::LocalTee(scratch + 4))?;
    push_negative(out)?;
    push_if_panics(NEGATIVE_TO_UNSIGNED, out)?;
    out.push(Instr::LocalGet(scratch + 4))?;
    Ok(())
}

/// Appends code that tells whether its operand is negative.
fn push_negative(out: &mut Vec<Instr>) -> Result<(), AllocError>
    ensures { OnOk result (out.new.items ≡ out.old.items ++ long_negative) }
{
    out.push(Instr::I64Const(0))?;
    out.push(Instr::Compare(ValType::I64, Comparison::LtS))?;
    Ok(())
}

/// Appends code that panics where its operand, which stays, has more than so many bits.
fn push_top_tested(bits: u8, scratch: u32, out: &mut Vec<Instr>) -> Result<(), AllocError>
    requires few { bits ≤ 63 }
    requires scratch { scratch ≤ GREATEST_SCRATCH }
    ensures { OnOk result (out.new.items ≡ out.old.items ++ long_tested (long_above (2 ^ bits - 1)) 11 scratch) }
{
    out.push(Instr::LocalTee(scratch + 4))?;
    out.push(Instr::I64Const(long_mask(bits)))?;
    out.push(Instr::Compare(ValType::I64, Comparison::GtU))?;
    push_if_panics(CAST_TRUNCATED, out)?;
    out.push(Instr::LocalGet(scratch + 4))?;
    Ok(())
}

/// The greatest value of the signed type of so many bits.
pub fn greatest_signed(bits: u8) -> i64
    requires { bits ≤ 64 }
    ensures { result ≡ pos ((2 ^ bits - 1) / 2) }
{
    if bits == 64 {
        i64::MAX
    } else {
        long_mask(bits) / 2
    }
}

/// Appends the code of `@abs`.
pub fn push_wide_distance(setting: Setting, out: &mut Vec<Instr>) -> Result<(), AllocError>
    requires { setting.scratch ≤ GREATEST_SCRATCH }
    ensures { OnOk result (out.new.items ≡ out.old.items ++ wide_distance_code setting.left setting.to setting.scratch) }
{
    push_widened(setting.left, out)?;
    push_long_distance(setting.left, setting.scratch, out)?;
    push_settled(setting.to, out)?;
    Ok(())
}

/// Appends code that leaves how far its operand is from 0.
fn push_long_distance(from: IntTy, scratch: u32, out: &mut Vec<Instr>) -> Result<(), AllocError>
    requires { scratch ≤ GREATEST_SCRATCH }
    ensures { OnOk result (out.new.items ≡ out.old.items ++ long_distance from scratch) }
{
    if let IntTy::Sized { signed: true, .. } = from {
        push_signed_distance(scratch, out)?;
    }
    Ok(())
}

/// Appends the same of an operand with a sign.
fn push_signed_distance(scratch: u32, out: &mut Vec<Instr>) -> Result<(), AllocError>
    requires { scratch ≤ GREATEST_SCRATCH }
    ensures { OnOk result (out.new.items ≡ out.old.items ++ long_distance (Sized true 64) scratch) }
{
    out.push(Instr::LocalTee(scratch + 4))?;
    out.push(Instr::I64Const(-1))?;
    out.push(Instr::Binary(ValType::I64, BinaryOperator::Mul))?;
    out.push(Instr::LocalGet(scratch + 4))?;
    out.push(Instr::LocalGet(scratch + 4))?;
    push_negative(out)?;
    out.push(Instr::Select)?;
    Ok(())
}
