// The code of comparisons, and of the lesser and the greater of two numbers, where a type has more than 32 bits.
ghost use Rattle.std.specs.Prelude.{◌≡◌, ◌≤◌, ◌++◌, OnOk};
ghost use Rattle.zw_safety_narrow.specs.declared.setting.TheConstants.{GREATEST_SCRATCH};
ghost use Rattle.zw_safety_words.specs.WideOrderCode.{compared_by, chosen_by, wide_code_of_comparison, wide_code_of_extreme, fits_signed_long, both_fit, both_unsigned, signed_local, below_zero, mixed_code, relation_code, compared_code, wide_comparison_code, wide_choice_code};

use crate::bits::push_both_got;
use crate::widths::{fills_word, is_signed, push_both_widened, push_settled, push_spread};
use std::alloc::AllocError;
use zw_num::{Extreme, IntTy};
use zw_safety_narrow::{Setting, is_unsigned};
use zw_wasm::{Comparison, Conversion, Instr, ValType};

/// A comparison: of numbers that are read with their sign, of numbers that are read without one, and what it gives where the left
/// operand alone is negative, and where the right one alone is.
#[derive(Clone, Copy)]
pub struct Compared {
    pub signed: Comparison,
    pub unsigned: Comparison,
    pub left_below: bool,
    pub right_below: bool,
}

const COMPARED_EQUAL: Compared = Compared {
    signed: Comparison::Eq,
    unsigned: Comparison::Eq,
    left_below: false,
    right_below: false,
};

const COMPARED_NOT_EQUAL: Compared = Compared {
    signed: Comparison::Ne,
    unsigned: Comparison::Ne,
    left_below: true,
    right_below: true,
};

const COMPARED_LESS: Compared = Compared {
    signed: Comparison::LtS,
    unsigned: Comparison::LtU,
    left_below: true,
    right_below: false,
};

const COMPARED_LESS_OR_EQUAL: Compared = Compared {
    signed: Comparison::LeS,
    unsigned: Comparison::LeU,
    left_below: true,
    right_below: false,
};

const COMPARED_GREATER: Compared = Compared {
    signed: Comparison::GtS,
    unsigned: Comparison::GtU,
    left_below: false,
    right_below: true,
};

const COMPARED_GREATER_OR_EQUAL: Compared = Compared {
    signed: Comparison::GeS,
    unsigned: Comparison::GeU,
    left_below: false,
    right_below: true,
};

/// Appends the code of a comparison.
pub fn push_wide_comparison(
    operator: zw_num::Comparison,
    setting: Setting,
    out: &mut Vec<Instr>,
) -> Result<(), AllocError>
    requires { setting.scratch ≤ GREATEST_SCRATCH }
    ensures { OnOk result (out.new.items ≡ out.old.items ++ wide_code_of_comparison operator setting) }
{
    push_wide_compared(compared_by(operator), setting, out)
}

/// What a comparison is in code.
fn compared_by(operator: zw_num::Comparison) -> Compared
    ensures { result ≡ compared_by operator }
{
    match operator {
        zw_num::Comparison::Equal => COMPARED_EQUAL,
        zw_num::Comparison::NotEqual => COMPARED_NOT_EQUAL,
        zw_num::Comparison::Less => COMPARED_LESS,
        zw_num::Comparison::LessOrEqual => COMPARED_LESS_OR_EQUAL,
        zw_num::Comparison::Greater => COMPARED_GREATER,
        zw_num::Comparison::GreaterOrEqual => COMPARED_GREATER_OR_EQUAL,
    }
}

/// Appends the code of `@min` or `@max` of two operands.
pub fn push_wide_extreme(
    operator: Extreme,
    setting: Setting,
    out: &mut Vec<Instr>,
) -> Result<(), AllocError>
    requires { setting.scratch ≤ GREATEST_SCRATCH }
    ensures { OnOk result (out.new.items ≡ out.old.items ++ wide_code_of_extreme operator setting) }
{
    push_wide_choice(chosen_by(operator), setting, out)
}

/// The comparison by which one of two operands is chosen.
fn chosen_by(operator: Extreme) -> Compared
    ensures { result ≡ chosen_by operator }
{
    match operator {
        Extreme::Min => COMPARED_LESS,
        Extreme::Max => COMPARED_GREATER,
    }
}

/// Appends the code of a comparison, whose truth value is one of the type.
fn push_wide_compared(o: Compared, setting: Setting, out: &mut Vec<Instr>) -> Result<(), AllocError>
    requires { setting.scratch ≤ GREATEST_SCRATCH }
    ensures { OnOk result (out.new.items ≡ out.old.items ++ wide_comparison_code o setting.left setting.right setting.to setting.scratch) }
{
    push_compared(o, setting, out)?;
    if !fills_word(setting.to) {
        out.push(Instr::Convert(Conversion::ExtendU))?;
    }
    Ok(())
}

/// Appends code that compares two operands.
fn push_compared(o: Compared, setting: Setting, out: &mut Vec<Instr>) -> Result<(), AllocError>
    requires { setting.scratch ≤ GREATEST_SCRATCH }
    ensures { OnOk result (out.new.items ≡ out.old.items ++ compared_code o setting.left setting.right setting.scratch) }
{
    if both_fit(setting.left, setting.right) {
        push_both_widened(setting, out)?;
        out.push(Instr::Compare(ValType::I64, o.signed))?;
        Ok(())
    } else if both_unsigned(setting.left, setting.right) {
        push_both_widened(setting, out)?;
        out.push(Instr::Compare(ValType::I64, o.unsigned))?;
        Ok(())
    } else {
        push_spread(setting, out)?;
        push_both_got(setting.scratch, out)?;
        push_mixed(o, setting.left, setting.scratch, out)?;
        Ok(())
    }
}

/// Appends the code of the lesser or the greater of two: the left operand where it compares so with the right one, and else that.
fn push_wide_choice(o: Compared, setting: Setting, out: &mut Vec<Instr>) -> Result<(), AllocError>
    requires { setting.scratch ≤ GREATEST_SCRATCH }
    ensures { OnOk result (out.new.items ≡ out.old.items ++ wide_choice_code o setting.left setting.right setting.to setting.scratch) }
{
    push_spread(setting, out)?;
    push_both_got(setting.scratch, out)?;
    push_both_got(setting.scratch, out)?;
    push_relation(o, setting, out)?;
    out.push(Instr::Select)?;
    push_settled(setting.to, out)?;
    Ok(())
}

/// Appends code that compares operands in 64 bits, which are in their locals too.
fn push_relation(o: Compared, setting: Setting, out: &mut Vec<Instr>) -> Result<(), AllocError>
    requires { setting.scratch ≤ GREATEST_SCRATCH }
    ensures { OnOk result (out.new.items ≡ out.old.items ++ relation_code o setting.left setting.right setting.scratch) }
{
    if both_fit(setting.left, setting.right) {
        out.push(Instr::Compare(ValType::I64, o.signed))?;
        Ok(())
    } else if both_unsigned(setting.left, setting.right) {
        out.push(Instr::Compare(ValType::I64, o.unsigned))?;
        Ok(())
    } else {
        push_mixed(o, setting.left, setting.scratch, out)
    }
}

/// Appends code that compares a number of all 64 bits with one that has a sign.
fn push_mixed(
    o: Compared,
    left: IntTy,
    scratch: u32,
    out: &mut Vec<Instr>,
) -> Result<(), AllocError>
    requires { scratch ≤ GREATEST_SCRATCH }
    ensures { OnOk result (out.new.items ≡ out.old.items ++ mixed_code o left scratch) }
{
    out.push(Instr::Compare(ValType::I64, o.unsigned))?;
    out.push(Instr::I32Const(below_zero(o, left)))?;
    out.push(Instr::LocalGet(signed_local(left, scratch)))?;
    out.push(Instr::I64Const(0))?;
    out.push(Instr::Compare(ValType::I64, Comparison::GeS))?;
    out.push(Instr::Select)?;
    Ok(())
}

/// What a comparison gives where the signed operand is negative.
fn below_zero(o: Compared, left: IntTy) -> i32
    ensures { result ≡ below_zero o left }
{
    let below = if is_signed(left) {
        o.left_below
    } else {
        o.right_below
    };
    if below { 1 } else { 0 }
}

/// The local of the signed operand.
fn signed_local(left: IntTy, scratch: u32) -> u32
    requires { scratch ≤ GREATEST_SCRATCH }
    ensures { result ≡ signed_local left scratch }
{
    if is_signed(left) {
        scratch + 5
    } else {
        scratch + 4
    }
}

/// Whether the values of both types are those of an `i64`, read with its sign.
pub fn both_fit(left: IntTy, right: IntTy) -> bool
    ensures { result ≡ both_fit left right }
{
    fits_signed_long(left) && fits_signed_long(right)
}

/// Whether the values of the type are those of an `i64`, read with its sign.
fn fits_signed_long(ty: IntTy) -> bool
    ensures { result ≡ fits_signed_long ty }
{
    match ty {
        IntTy::Sized { signed: true, .. } => true,
        IntTy::Sized { bits, .. } => bits < 64,
        IntTy::Comptime => false,
    }
}

/// Whether both types are unsigned.
pub fn both_unsigned(left: IntTy, right: IntTy) -> bool
    ensures { result ≡ both_unsigned left right }
{
    is_unsigned(left) && is_unsigned(right)
}
