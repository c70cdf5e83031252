// The code of comparisons, and of the lesser and the greater of two numbers.
ghost use Rattle.std.specs.Prelude.{◌≡◌, ◌≤◌, ◌++◌, OnOk};
ghost use Rattle.zw_safety_narrow.specs.CompareCode.{fits_signed, is_unsigned, comparison_code, doubled, choice_code};
ghost use Rattle.zw_safety_narrow.specs.declared.setting.TheConstants.{GREATEST_SCRATCH};

use crate::operators::push_extended;
use std::alloc::AllocError;
use zw_num::IntTy;
use zw_wasm::{Comparison, Instr, ValType};

/// Appends code that compares two operands, with their sign or without one as their types ask for.
pub fn push_comparison(
    signed: Comparison,
    unsigned: Comparison,
    left: IntTy,
    right: IntTy,
    scratch: u32,
    out: &mut Vec<Instr>,
) -> Result<(), AllocError>
    requires { scratch ≤ GREATEST_SCRATCH }
    ensures { OnOk result (out.new.items ≡ out.old.items ++ comparison_code signed unsigned left right scratch) }
{
    if fits_signed(left) && fits_signed(right) {
        out.push(Instr::Compare(ValType::I32, signed))?;
    } else if is_unsigned(left) && is_unsigned(right) {
        out.push(Instr::Compare(ValType::I32, unsigned))?;
    } else {
        push_extended(left, right, scratch, out)?;
        out.push(Instr::Compare(ValType::I64, signed))?;
    }
    Ok(())
}

/// Appends code that leaves the left operand where it compares so with the right one, and else the right one.
pub fn push_choice(
    signed: Comparison,
    unsigned: Comparison,
    left: IntTy,
    right: IntTy,
    scratch: u32,
    out: &mut Vec<Instr>,
) -> Result<(), AllocError>
    requires { scratch ≤ GREATEST_SCRATCH }
    ensures { OnOk result (out.new.items ≡ out.old.items ++ choice_code signed unsigned left right scratch) }
{
    push_doubled(scratch, out)?;
    push_comparison(signed, unsigned, left, right, scratch, out)?;
    out.push(Instr::Select)?;
    Ok(())
}

/// Appends code that keeps both operands, and leaves both twice.
pub fn push_doubled(scratch: u32, out: &mut Vec<Instr>) -> Result<(), AllocError>
    requires { scratch ≤ GREATEST_SCRATCH }
    ensures { OnOk result (out.new.items ≡ out.old.items ++ doubled scratch) }
{
    out.push(Instr::LocalSet(scratch))?;
    out.push(Instr::LocalTee(scratch + 1))?;
    out.push(Instr::LocalGet(scratch))?;
    out.push(Instr::LocalGet(scratch + 1))?;
    out.push(Instr::LocalGet(scratch))?;
    Ok(())
}

/// Whether the values of the type are those of the `i32` that they fill, read with its sign.
fn fits_signed(ty: IntTy) -> bool
    ensures { result ≡ fits_signed ty }
{
    match ty {
        IntTy::Sized { signed: true, .. } => true,
        IntTy::Sized { bits, .. } => bits < 32,
        IntTy::Comptime => false,
    }
}

/// Whether the type is unsigned.
pub fn is_unsigned(ty: IntTy) -> bool
    ensures { result ≡ is_unsigned ty }
{
    matches!(ty, IntTy::Sized { signed: false, .. })
}
