// The code of operators of one operand.
ghost use Rattle.std.specs.Prelude.{◌≡◌, ◌≤◌, ◌-◌, ◌/◌, ◌^◌, ◌++◌, true, false, pos, OnOk};
ghost use Rattle.zw_num.specs.declared.int_ty.IntTy.TheVariants.{Sized};
ghost use Rattle.zw_safety_narrow.specs.CastCode.{tested, above, outside, negative, cast_code, holds, truncated_code, negated, negated_code, opposite_code, turned_code, distance, distance_code};
ghost use Rattle.zw_safety_narrow.specs.Operators.{IsNarrow};
ghost use Rattle.zw_safety_narrow.specs.declared.setting.TheConstants.{GREATEST_SCRATCH};

use crate::operators::{
    INTEGER_OVERFLOW, extension, half_power, mask, push_fitted, push_if_panics, push_in_range,
};
use std::alloc::AllocError;
use zw_num::IntTy;
use zw_wasm::{BinaryOperator, Comparison, Conversion, Instr, ValType};

/// The cause of a panic where a cast's number is too great, or too far below 0.
const CAST_TRUNCATED: u8 = 11;

/// The cause of a panic where a cast's number is negative, and its type unsigned.
const NEGATIVE_TO_UNSIGNED: u8 = 12;

/// Appends the code of `@intCast`.
pub fn push_cast(
    from: IntTy,
    to: IntTy,
    scratch: u32,
    out: &mut Vec<Instr>,
) -> Result<(), AllocError>
    requires from_narrow { IsNarrow from }
    requires to_narrow { IsNarrow to }
    ensures { OnOk result (out.new.items ≡ out.old.items ++ cast_code from to scratch) }
{
    let (
        IntTy::Sized {
            signed: from_signed,
            bits: from_bits,
        },
        IntTy::Sized { signed, bits },
    ) = (from, to)
    else {
        return Ok(());
    };
    match (from_signed, signed) {
        (true, true) => push_signed_cast(from_bits, bits, scratch, out),
        (false, true) => push_cast_to_signed(from_bits, bits, scratch, out),
        (false, false) => push_unsigned_cast(from_bits, bits, scratch, out),
        (true, false) => push_cast_to_unsigned(from_bits, bits, scratch, out),
    }
}

/// Appends the code of a cast between signed types of so many bits.
fn push_signed_cast(from: u8, to: u8, scratch: u32, out: &mut Vec<Instr>) -> Result<(), AllocError>
    requires { from ≤ 32 }
    ensures { OnOk result (out.new.items ≡ out.old.items ++ cast_code (Sized true from) (Sized true to) scratch) }
{
    if from > to {
        out.push(Instr::LocalTee(scratch))?;
        push_outside(to, out)?;
        push_if_panics(CAST_TRUNCATED, out)?;
        out.push(Instr::LocalGet(scratch))?;
    }
    Ok(())
}

/// Appends code that tells whether its operand isn't a value of the signed type of so many bits.
fn push_outside(bits: u8, out: &mut Vec<Instr>) -> Result<(), AllocError>
    requires { bits ≤ 31 }
    ensures { OnOk result (out.new.items ≡ out.old.items ++ outside bits) }
{
    out.push(Instr::I32Const(half_power(bits)))?;
    out.push(Instr::Binary(ValType::I32, BinaryOperator::Add))?;
    out.push(Instr::I32Const(mask(bits)))?;
    out.push(Instr::Compare(ValType::I32, Comparison::GtU))?;
    Ok(())
}

/// Appends the code of a cast from an unsigned type to a signed one.
fn push_cast_to_signed(
    from: u8,
    to: u8,
    scratch: u32,
    out: &mut Vec<Instr>,
) -> Result<(), AllocError>
    requires { from ≤ 32 }
    ensures { OnOk result (out.new.items ≡ out.old.items ++ cast_code (Sized false from) (Sized true to) scratch) }
{
    if from >= to {
        out.push(Instr::LocalTee(scratch))?;
        out.push(Instr::I32Const(greatest_signed(to)))?;
        out.push(Instr::Compare(ValType::I32, Comparison::GtU))?;
        push_if_panics(CAST_TRUNCATED, out)?;
        out.push(Instr::LocalGet(scratch))?;
    }
    Ok(())
}

/// Appends the code of a cast between unsigned types.
fn push_unsigned_cast(
    from: u8,
    to: u8,
    scratch: u32,
    out: &mut Vec<Instr>,
) -> Result<(), AllocError>
    requires { from ≤ 32 }
    ensures { OnOk result (out.new.items ≡ out.old.items ++ cast_code (Sized false from) (Sized false to) scratch) }
{
    if from > to {
        push_top_tested(to, scratch, out)?;
    }
    Ok(())
}

/// Appends the code of a cast from a signed type to an unsigned one.
fn push_cast_to_unsigned(
    from: u8,
    to: u8,
    scratch: u32,
    out: &mut Vec<Instr>,
) -> Result<(), AllocError>
    requires { from ≤ 32 }
    ensures { OnOk result (out.new.items ≡ out.old.items ++ cast_code (Sized true from) (Sized false to) scratch) }
{
    push_sign_tested(scratch, out)?;
    if from > to && from - to > 1 {
        push_top_tested(to, scratch, out)?;
    }
    Ok(())
}

/// Appends code that panics where its operand, which stays, is negative.
fn push_sign_tested(scratch: u32, out: &mut Vec<Instr>) -> Result<(), AllocError>
    ensures { OnOk result (out.new.items ≡ out.old.items ++ tested negative 12 scratch) }
{
    out.push(Instr::LocalTee(scratch))?;
    push_negative(out)?;
    push_if_panics(NEGATIVE_TO_UNSIGNED, out)?;
    out.push(Instr::LocalGet(scratch))?;
    Ok(())
}

/// Appends code that panics where its operand, which stays, has more than so many bits.
fn push_top_tested(bits: u8, scratch: u32, out: &mut Vec<Instr>) -> Result<(), AllocError>
    requires { bits ≤ 31 }
    ensures { OnOk result (out.new.items ≡ out.old.items ++ tested (above (2 ^ bits - 1)) 11 scratch) }
{
    out.push(Instr::LocalTee(scratch))?;
    out.push(Instr::I32Const(mask(bits)))?;
    out.push(Instr::Compare(ValType::I32, Comparison::GtU))?;
    push_if_panics(CAST_TRUNCATED, out)?;
    out.push(Instr::LocalGet(scratch))?;
    Ok(())
}

/// Appends code that tells whether its operand is negative.
fn push_negative(out: &mut Vec<Instr>) -> Result<(), AllocError>
    ensures { OnOk result (out.new.items ≡ out.old.items ++ negative) }
{
    out.push(Instr::I32Const(0))?;
    out.push(Instr::Compare(ValType::I32, Comparison::LtS))?;
    Ok(())
}

/// The greatest value of the signed type of so many bits.
fn greatest_signed(bits: u8) -> i32
    requires { bits ≤ 32 }
    ensures { result ≡ pos ((2 ^ bits - 1) / 2) }
{
    (((1i64 << bits) - 1) / 2) as i32
}

/// Appends the code of `@truncate` and `@bitCast`: none where each value is one of the type as it stands.
pub fn push_truncated(from: IntTy, to: IntTy, out: &mut Vec<Instr>) -> Result<(), AllocError>
    requires narrow { IsNarrow to }
    ensures { OnOk result (out.new.items ≡ out.old.items ++ truncated_code from to) }
{
    if holds(to, from) {
        Ok(())
    } else {
        push_fitted(to, out)
    }
}

/// Whether the first type has all values of the second.
pub fn holds(to: IntTy, from: IntTy) -> bool
    ensures { result ≡ holds to from }
{
    match (to, from) {
        (
            IntTy::Sized { signed: true, bits },
            IntTy::Sized {
                signed: true,
                bits: from,
            },
        ) => from <= bits,
        (
            IntTy::Sized { signed: true, bits },
            IntTy::Sized {
                signed: false,
                bits: from,
            },
        ) => from < bits,
        (
            IntTy::Sized {
                signed: false,
                bits,
            },
            IntTy::Sized {
                signed: false,
                bits: from,
            },
        ) => from <= bits,
        _ => false,
    }
}

/// Appends code that takes its operand to the other side of 0.
fn push_negated(out: &mut Vec<Instr>) -> Result<(), AllocError>
    ensures { OnOk result (out.new.items ≡ out.old.items ++ negated) }
{
    out.push(Instr::I32Const(-1))?;
    out.push(Instr::Binary(ValType::I32, BinaryOperator::Mul))?;
    Ok(())
}

/// Appends the code of `-%` of one operand.
pub fn push_negated_wrapped(to: IntTy, out: &mut Vec<Instr>) -> Result<(), AllocError>
    requires narrow { IsNarrow to }
    ensures { OnOk result (out.new.items ≡ out.old.items ++ negated_code to) }
{
    push_negated(out)?;
    push_fitted(to, out)
}

/// Appends the code of `@abs`.
pub fn push_distance(from: IntTy, scratch: u32, out: &mut Vec<Instr>) -> Result<(), AllocError>
    ensures { OnOk result (out.new.items ≡ out.old.items ++ distance_code from scratch) }
{
    if let IntTy::Sized { signed: true, .. } = from {
        push_signed_distance(scratch, out)?;
    }
    Ok(())
}

/// Appends code that leaves how far its operand is from 0.
fn push_signed_distance(scratch: u32, out: &mut Vec<Instr>) -> Result<(), AllocError>
    ensures { OnOk result (out.new.items ≡ out.old.items ++ distance scratch) }
{
    out.push(Instr::LocalTee(scratch))?;
    push_negated(out)?;
    out.push(Instr::LocalGet(scratch))?;
    out.push(Instr::LocalGet(scratch))?;
    push_negative(out)?;
    out.push(Instr::Select)?;
    Ok(())
}

/// Appends the code of `-` of one operand.
pub fn push_opposite(
    from: IntTy,
    to: IntTy,
    scratch: u32,
    out: &mut Vec<Instr>,
) -> Result<(), AllocError>
    requires narrow { IsNarrow to }
    requires scratch { scratch ≤ GREATEST_SCRATCH }
    ensures { OnOk result (out.new.items ≡ out.old.items ++ opposite_code from to scratch) }
{
    out.push(Instr::Convert(extension(from)))?;
    out.push(Instr::I64Const(-1))?;
    out.push(Instr::Binary(ValType::I64, BinaryOperator::Mul))?;
    out.push(Instr::LocalSet(scratch + 4))?;
    out.push(Instr::LocalGet(scratch + 4))?;
    push_in_range(INTEGER_OVERFLOW, to, out)?;
    out.push(Instr::LocalGet(scratch + 4))?;
    out.push(Instr::Convert(Conversion::Wrap))?;
    Ok(())
}

/// Appends the code of `~`.
pub fn push_turned(to: IntTy, out: &mut Vec<Instr>) -> Result<(), AllocError>
    requires narrow { IsNarrow to }
    ensures { OnOk result (out.new.items ≡ out.old.items ++ turned_code to) }
{
    out.push(Instr::I32Const(-1))?;
    out.push(Instr::Binary(ValType::I32, BinaryOperator::Xor))?;
    push_fitted(to, out)
}
