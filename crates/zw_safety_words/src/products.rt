// The code of products of 64 bits: two words, of which the high one is made of four products of halves.
ghost use Rattle.std.specs.Prelude.{◌≡◌, ◌≤◌, ◌++◌, ◌∷◌, [], OnOk};
ghost use Rattle.zw_safety_words.specs.WideCode.{upper, lower, times, middle, going_up, high_product, corrected, product_words};
ghost use Rattle.zw_wasm.specs.declared.module.Instr.TheVariants.{Binary};
ghost use Rattle.zw_wasm.specs.declared.module.ValType.TheVariants.{I64};
ghost use Rattle.zw_safety_narrow.specs.declared.setting.TheConstants.{GREATEST_SCRATCH};

use crate::ranges::push_sign;
use crate::sums::push_low_word;
use crate::widths::push_long_moved;
use std::alloc::AllocError;
use zw_num::IntTy;
use zw_safety_narrow::Setting;
use zw_wasm::{BinaryOperator, Instr, ValType};

/// Appends code that puts the low word of a product into a local, and leaves the high one.
pub fn push_product_words(setting: Setting, out: &mut Vec<Instr>) -> Result<(), AllocError>
    requires { setting.scratch ≤ GREATEST_SCRATCH }
    ensures { OnOk result (out.new.items ≡ out.old.items ++ product_words setting.left setting.right setting.scratch) }
{
    push_low_word(BinaryOperator::Mul, setting.scratch, out)?;
    push_middle(setting.scratch, out)?;
    push_high_product(setting.scratch, out)?;
    push_corrected(setting.left, setting.scratch + 5, setting.scratch + 4, out)?;
    push_corrected(setting.right, setting.scratch + 4, setting.scratch + 5, out)
}

/// Appends code that puts the middle of a product into a local: what the lower half of the right operand gives, without its
/// lowest 32 bits.
fn push_middle(scratch: u32, out: &mut Vec<Instr>) -> Result<(), AllocError>
    requires { scratch ≤ GREATEST_SCRATCH }
    ensures { OnOk result (out.new.items ≡ out.old.items ++ middle scratch) }
{
    push_upper_times_lower(scratch + 5, scratch + 4, out)?;
    push_lower_times_lower(scratch + 5, scratch + 4, out)?;
    push_long_moved(32, BinaryOperator::ShrU, out)?;
    push_long(BinaryOperator::Add, out)?;
    out.push(Instr::LocalSet(scratch + 7))?;
    Ok(())
}

/// Appends code that leaves the high word of the product of two low words.
fn push_high_product(scratch: u32, out: &mut Vec<Instr>) -> Result<(), AllocError>
    requires { scratch ≤ GREATEST_SCRATCH }
    ensures { OnOk result (out.new.items ≡ out.old.items ++ high_product scratch) }
{
    push_lower_times_upper(scratch + 5, scratch + 4, out)?;
    push_going_up(scratch, out)?;
    push_upper_times_upper(scratch + 5, scratch + 4, out)?;
    push_long(BinaryOperator::Add, out)
}

/// Appends code that leaves what goes up from the middle of a product and one more product.
fn push_going_up(scratch: u32, out: &mut Vec<Instr>) -> Result<(), AllocError>
    requires { scratch ≤ GREATEST_SCRATCH }
    ensures { OnOk result (out.new.items ≡ out.old.items ++ going_up scratch) }
{
    push_lower(scratch + 7, out)?;
    push_long(BinaryOperator::Add, out)?;
    push_long_moved(32, BinaryOperator::ShrU, out)?;
    push_upper(scratch + 7, out)?;
    push_long(BinaryOperator::Add, out)
}

/// Appends code that takes a local away where the number in another one, a value of the type, is negative.
fn push_corrected(ty: IntTy, local: u32, other: u32, out: &mut Vec<Instr>) -> Result<(), AllocError>
    ensures { OnOk result (out.new.items ≡ out.old.items ++ corrected ty local other) }
{
    if let IntTy::Sized { signed: true, .. } = ty {
        push_sign(local, out)?;
        out.push(Instr::LocalGet(other))?;
        push_long(BinaryOperator::And, out)?;
        push_long(BinaryOperator::Sub, out)?;
    }
    Ok(())
}

/// Appends code that leaves the product of the upper halves of two locals.
fn push_upper_times_upper(local: u32, other: u32, out: &mut Vec<Instr>) -> Result<(), AllocError>
    ensures { OnOk result (out.new.items ≡ out.old.items ++ times (upper local) (upper other)) }
{
    push_upper(local, out)?;
    push_upper(other, out)?;
    push_long(BinaryOperator::Mul, out)
}

/// Appends code that leaves the product of a local's upper half and another one's lower half.
fn push_upper_times_lower(local: u32, other: u32, out: &mut Vec<Instr>) -> Result<(), AllocError>
    ensures { OnOk result (out.new.items ≡ out.old.items ++ times (upper local) (lower other)) }
{
    push_upper(local, out)?;
    push_lower(other, out)?;
    push_long(BinaryOperator::Mul, out)
}

/// Appends code that leaves the product of a local's lower half and another one's upper half.
fn push_lower_times_upper(local: u32, other: u32, out: &mut Vec<Instr>) -> Result<(), AllocError>
    ensures { OnOk result (out.new.items ≡ out.old.items ++ times (lower local) (upper other)) }
{
    push_lower(local, out)?;
    push_upper(other, out)?;
    push_long(BinaryOperator::Mul, out)
}

/// Appends code that leaves the product of the lower halves of two locals.
fn push_lower_times_lower(local: u32, other: u32, out: &mut Vec<Instr>) -> Result<(), AllocError>
    ensures { OnOk result (out.new.items ≡ out.old.items ++ times (lower local) (lower other)) }
{
    push_lower(local, out)?;
    push_lower(other, out)?;
    push_long(BinaryOperator::Mul, out)
}

/// Appends code that leaves the upper half of a local.
fn push_upper(local: u32, out: &mut Vec<Instr>) -> Result<(), AllocError>
    ensures { OnOk result (out.new.items ≡ out.old.items ++ upper local) }
{
    out.push(Instr::LocalGet(local))?;
    push_long_moved(32, BinaryOperator::ShrU, out)
}

/// Appends code that leaves the lower half of a local.
fn push_lower(local: u32, out: &mut Vec<Instr>) -> Result<(), AllocError>
    ensures { OnOk result (out.new.items ≡ out.old.items ++ lower local) }
{
    out.push(Instr::LocalGet(local))?;
    push_long_moved(0xffff_ffff, BinaryOperator::And, out)
}

/// Appends an operator on 64 bits.
fn push_long(operator: BinaryOperator, out: &mut Vec<Instr>) -> Result<(), AllocError>
    ensures { OnOk result (out.new.items ≡ out.old.items ++ (Binary I64 operator ∷ [])) }
{
    out.push(Instr::Binary(ValType::I64, operator))?;
    Ok(())
}
