// The code of counts of bits where a type has more than 32 bits.
ghost use Rattle.std.specs.Prelude.{◌≡◌, ◌≤◌, ◌++◌, ◌∷◌, [], true, OnOk};
ghost use Rattle.zw_num.specs.declared.int_ty.IntTy.TheVariants.{Sized};
ghost use Rattle.zw_safety_narrow.specs.declared.setting.TheConstants.{GREATEST_SCRATCH};
ghost use Rattle.zw_safety_wide.specs.WideCastCode.{own_long, less_zeros, long_at_most, counted_in, wide_code_of_count};
ghost use Rattle.zw_wasm.specs.declared.module.Instr.TheVariants.{Unary};
ghost use Rattle.zw_wasm.specs.declared.module.ValType.TheVariants.{I64};

use std::alloc::AllocError;
use zw_num::{Count, IntTy};
use zw_safety_narrow::{Setting, width};
use zw_safety_words::{long_mask, push_settled, push_widened};
use zw_wasm::{BinaryOperator, Comparison, Instr, UnaryOperator, ValType};

/// Appends the code of a count of the operand's bits.
pub fn push_wide_count(
    operator: Count,
    setting: Setting,
    out: &mut Vec<Instr>,
) -> Result<(), AllocError>
    requires { setting.scratch ≤ GREATEST_SCRATCH }
    ensures { OnOk result (out.new.items ≡ out.old.items ++ wide_code_of_count operator setting) }
{
    push_widened(setting.left, out)?;
    push_own_long(setting.left, out)?;
    push_counted(operator, setting.left, setting.scratch, out)?;
    push_settled(setting.to, out)?;
    Ok(())
}

/// Appends the count of a number's 64 bits, and what makes it that of the type's bits.
fn push_counted(
    operator: Count,
    from: IntTy,
    scratch: u32,
    out: &mut Vec<Instr>,
) -> Result<(), AllocError>
    requires { scratch ≤ GREATEST_SCRATCH }
    ensures { OnOk result (out.new.items ≡ out.old.items ++ counted_in operator from scratch) }
{
    match operator {
        Count::PopCount => push_counting(UnaryOperator::Popcnt, out),
        Count::Clz => {
            push_counting(UnaryOperator::Clz, out)?;
            push_less_zeros(from, out)
        }
        Count::Ctz => {
            push_counting(UnaryOperator::Ctz, out)?;
            push_long_at_most(from, scratch, out)
        }
    }
}

/// Appends a count of a number's 64 bits.
fn push_counting(operator: UnaryOperator, out: &mut Vec<Instr>) -> Result<(), AllocError>
    ensures { OnOk result (out.new.items ≡ out.old.items ++ Unary I64 operator ∷ []) }
{
    out.push(Instr::Unary(ValType::I64, operator))?;
    Ok(())
}

/// Appends code that leaves the bits of the type alone.
fn push_own_long(from: IntTy, out: &mut Vec<Instr>) -> Result<(), AllocError>
    ensures { OnOk result (out.new.items ≡ out.old.items ++ own_long from) }
{
    if let IntTy::Sized { signed: true, bits } = from {
        push_low_bits(bits, out)?;
    }
    Ok(())
}

/// Appends code that leaves the lowest bits of its operand, where they aren't all.
fn push_low_bits(bits: u8, out: &mut Vec<Instr>) -> Result<(), AllocError>
    ensures { OnOk result (out.new.items ≡ out.old.items ++ own_long (Sized true bits)) }
{
    if bits < 64 {
        out.push(Instr::I64Const(long_mask(bits)))?;
        out.push(Instr::Binary(ValType::I64, BinaryOperator::And))?;
    }
    Ok(())
}

/// Appends code that takes the zeros above the type's bits away.
fn push_less_zeros(from: IntTy, out: &mut Vec<Instr>) -> Result<(), AllocError>
    ensures { OnOk result (out.new.items ≡ out.old.items ++ less_zeros from) }
{
    let bits = width(from);
    if bits < 64 {
        out.push(Instr::I64Const(i64::from(64 - bits)))?;
        out.push(Instr::Binary(ValType::I64, BinaryOperator::Sub))?;
    }
    Ok(())
}

/// Appends code that leaves its operand, or the bits of the type where it isn't less.
fn push_long_at_most(from: IntTy, scratch: u32, out: &mut Vec<Instr>) -> Result<(), AllocError>
    requires { scratch ≤ GREATEST_SCRATCH }
    ensures { OnOk result (out.new.items ≡ out.old.items ++ long_at_most from scratch) }
{
    let bits = width(from);
    if bits < 64 {
        out.push(Instr::LocalTee(scratch + 4))?;
        out.push(Instr::I64Const(i64::from(bits)))?;
        out.push(Instr::LocalGet(scratch + 4))?;
        out.push(Instr::I64Const(i64::from(bits)))?;
        out.push(Instr::Compare(ValType::I64, Comparison::LtU))?;
        out.push(Instr::Select)?;
    }
    Ok(())
}
