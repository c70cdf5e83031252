// How operands and results stand in 32 and in 64 bits.
ghost use Rattle.std.specs.Prelude.{◌≡◌, ◌≤◌, ◌-◌, ◌/◌, ◌^◌, ◌++◌, ◌∷◌, [], nat_lt, nat_eq, pos, if◌then◌else◌, OnOk};
ghost use Rattle.zw_num.specs.Arithmetic.{width};
ghost use Rattle.zw_num.specs.declared.int_ty.IntTy.TheVariants.{Sized};
ghost use Rattle.zw_safety_narrow.specs.NarrowCode.{narrowed};
ghost use Rattle.zw_safety_narrow.specs.Operators.{fills_word, fill_words};
ghost use Rattle.zw_safety_words.specs.WideCode.{widened, settled, left_widened, both_widened, spread, narrowed_long, wide_fitted, is_signed, all_unsigned, all_signed};
ghost use Rattle.zw_wasm.specs.declared.module.Instr.TheVariants.{I64Const, Binary};
ghost use Rattle.zw_wasm.specs.declared.module.ValType.TheVariants.{I64};
ghost use Rattle.zw_safety_narrow.specs.declared.setting.TheConstants.{GREATEST_SCRATCH};

use std::alloc::AllocError;
use zw_num::IntTy;
use zw_safety_narrow::{Setting, extension, push_narrowed};
use zw_wasm::{BinaryOperator, Conversion, Instr, ValType};

/// Whether the values of three types fill an `i32`.
pub fn fill_words(left: IntTy, right: IntTy, to: IntTy) -> bool
    ensures { result ≡ fill_words left right to }
{
    fills_word(left) && fills_word(right) && fills_word(to)
}

/// Whether the values of a type fill an `i32`.
pub fn fills_word(ty: IntTy) -> bool
    ensures { result ≡ fills_word ty }
{
    match ty {
        IntTy::Sized { bits, .. } => bits <= 32,
        IntTy::Comptime => true,
    }
}

/// Whether a type is signed.
pub fn is_signed(ty: IntTy) -> bool
    ensures { result ≡ is_signed ty }
{
    match ty {
        IntTy::Sized { signed, .. } => signed,
        IntTy::Comptime => false,
    }
}

/// Whether a type has 64 bits.
fn is_long(ty: IntTy) -> bool
    ensures { result ≡ nat_eq (width ty) 64 }
{
    match ty {
        IntTy::Sized { bits, .. } => bits == 64,
        IntTy::Comptime => false,
    }
}

/// Whether operands and result are unsigned, and the result has 64 bits.
pub fn all_unsigned(setting: Setting) -> bool
    ensures { result ≡ all_unsigned setting.left setting.right setting.to }
{
    !is_signed(setting.left)
        && !is_signed(setting.right)
        && !is_signed(setting.to)
        && is_long(setting.to)
}

/// Whether operands and result are signed, and the result has 64 bits.
pub fn all_signed(setting: Setting) -> bool
    ensures { result ≡ all_signed setting.left setting.right setting.to }
{
    is_signed(setting.left)
        && is_signed(setting.right)
        && is_signed(setting.to)
        && is_long(setting.to)
}

/// Appends code that takes an operand to 64 bits.
pub fn push_widened(ty: IntTy, out: &mut Vec<Instr>) -> Result<(), AllocError>
    ensures { OnOk result (out.new.items ≡ out.old.items ++ widened ty) }
{
    if fills_word(ty) {
        out.push(Instr::Convert(extension(ty)))?;
    }
    Ok(())
}

/// Appends code that gives a number of 64 bits the width of a type's values.
pub fn push_settled(ty: IntTy, out: &mut Vec<Instr>) -> Result<(), AllocError>
    ensures { OnOk result (out.new.items ≡ out.old.items ++ settled ty) }
{
    if fills_word(ty) {
        out.push(Instr::Convert(Conversion::Wrap))?;
    }
    Ok(())
}

/// Appends code that takes the left operand, below one of 64 bits, to 64 bits.
fn push_left_widened(ty: IntTy, scratch: u32, out: &mut Vec<Instr>) -> Result<(), AllocError>
    requires { scratch ≤ GREATEST_SCRATCH }
    ensures { OnOk result (out.new.items ≡ out.old.items ++ left_widened ty scratch) }
{
    if fills_word(ty) {
        out.push(Instr::LocalSet(scratch + 4))?;
        out.push(Instr::Convert(extension(ty)))?;
        out.push(Instr::LocalGet(scratch + 4))?;
    }
    Ok(())
}

/// Appends code that takes both operands to 64 bits.
pub fn push_both_widened(setting: Setting, out: &mut Vec<Instr>) -> Result<(), AllocError>
    requires { setting.scratch ≤ GREATEST_SCRATCH }
    ensures { OnOk result (out.new.items ≡ out.old.items ++ both_widened setting.left setting.right setting.scratch) }
{
    push_widened(setting.right, out)?;
    push_left_widened(setting.left, setting.scratch, out)
}

/// Appends code that puts both operands in 64 bits into locals.
pub fn push_spread(setting: Setting, out: &mut Vec<Instr>) -> Result<(), AllocError>
    requires { setting.scratch ≤ GREATEST_SCRATCH }
    ensures { OnOk result (out.new.items ≡ out.old.items ++ spread setting.left setting.right setting.scratch) }
{
    push_widened(setting.right, out)?;
    out.push(Instr::LocalSet(setting.scratch + 4))?;
    push_widened(setting.left, out)?;
    out.push(Instr::LocalSet(setting.scratch + 5))?;
    Ok(())
}

/// Appends code that leaves the value of a type with the lowest bits of a number of 64 bits.
pub fn push_wide_fitted(to: IntTy, out: &mut Vec<Instr>) -> Result<(), AllocError>
    ensures { OnOk result (out.new.items ≡ out.old.items ++ wide_fitted to) }
{
    if fills_word(to) {
        out.push(Instr::Convert(Conversion::Wrap))?;
        push_if_narrower(to, out)
    } else {
        push_if_shorter(to, out)
    }
}

/// Appends the same in 32 bits, where the type has fewer.
fn push_if_narrower(to: IntTy, out: &mut Vec<Instr>) -> Result<(), AllocError>
    ensures { OnOk result (out.new.items ≡ out.old.items ++ (if nat_lt (width to) 32 then narrowed to else [])) }
{
    match to {
        IntTy::Sized { signed, bits } if bits < 32 => push_narrowed(signed, bits, out),
        _ => Ok(()),
    }
}

/// Appends the same in 64 bits, where the type has fewer.
pub fn push_if_shorter(to: IntTy, out: &mut Vec<Instr>) -> Result<(), AllocError>
    ensures { OnOk result (out.new.items ≡ out.old.items ++ (if nat_lt (width to) 64 then narrowed_long to else [])) }
{
    match to {
        IntTy::Sized { signed, bits } if bits < 64 => push_narrowed_long(signed, bits, out),
        _ => Ok(()),
    }
}

/// Appends code that leaves the value of a type of so many bits with the lowest bits of its operand.
fn push_narrowed_long(signed: bool, bits: u8, out: &mut Vec<Instr>) -> Result<(), AllocError>
    requires { bits ≤ 63 }
    ensures { OnOk result (out.new.items ≡ out.old.items ++ narrowed_long (Sized signed bits)) }
{
    if signed {
        push_long_moved(long_half(bits), BinaryOperator::Add, out)?;
        push_long_moved(long_mask(bits), BinaryOperator::And, out)?;
        push_long_moved(long_half(bits), BinaryOperator::Sub, out)
    } else {
        push_long_moved(long_mask(bits), BinaryOperator::And, out)
    }
}

/// Appends an operator with a constant as its right operand.
pub fn push_long_moved(
    number: i64,
    operator: BinaryOperator,
    out: &mut Vec<Instr>,
) -> Result<(), AllocError>
    ensures { OnOk result (out.new.items ≡ out.old.items ++ (I64Const number ∷ Binary I64 operator ∷ [])) }
{
    out.push(Instr::I64Const(number))?;
    out.push(Instr::Binary(ValType::I64, operator))?;
    Ok(())
}

/// Half of a power of two.
pub fn long_half(bits: u8) -> i64
    requires { bits ≤ 63 }
    ensures { result ≡ pos (2 ^ bits / 2) }
{
    ((1u64 << bits) / 2) as i64
}

/// So many bits that are 1.
pub fn long_mask(bits: u8) -> i64
    requires { bits ≤ 63 }
    ensures { result ≡ pos (2 ^ bits - 1) }
{
    ((1u64 << bits) - 1) as i64
}
