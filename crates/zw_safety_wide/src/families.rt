// The code of operators by family.
ghost use Rattle.std.specs.Prelude.{◌≡◌, ◌≤◌, ◌++◌, OnOk};
ghost use Rattle.zw_safety_narrow.specs.Operators.{IsStored};
ghost use Rattle.zw_safety_narrow.specs.declared.setting.TheConstants.{GREATEST_SCRATCH};
ghost use Rattle.zw_safety_wide.specs.WideFamilies.{wide_code_of_arithmetic, wide_code_of_division, wide_code_of_shift, wide_code_of_unary, wide_code_of_cast, wide_code_of_logic, wide_operator_code};

use crate::casts::{push_wide_distance, push_wide_int_cast};
use crate::counts::push_wide_count;
use crate::exact::{push_wide_left_exact, push_wide_left_sat, push_wide_right_exact};
use crate::reversal::{push_wide_bit_reverse, push_wide_byte_swap};
use crate::saturating::{push_wide_difference_sat, push_wide_product_sat, push_wide_sum_sat};
use crate::shares::{
    push_wide_exact_quotient, push_wide_floor, push_wide_modulo, push_wide_quotient, push_wide_rest,
};
use std::alloc::AllocError;
use zw_num::{Arithmetic, Cast, Division, Logic, Operator, Shift, Unary};
use zw_safety_narrow::Setting;
use zw_safety_words::{
    push_wide_bitwise, push_wide_comparison, push_wide_difference, push_wide_extreme,
    push_wide_left, push_wide_minus_one, push_wide_not, push_wide_opposite, push_wide_product,
    push_wide_right, push_wide_same, push_wide_sum, push_wide_truncated, push_wide_wrapped,
};
use zw_wasm::{BinaryOperator, Instr};

/// Appends the code of an operator where a type has more than 32 bits; an operator of one operand has that of the left type. The code
/// writes no local but the last four of the eight from `scratch` on.
pub fn push_wide(
    operator: Operator,
    setting: Setting,
    out: &mut Vec<Instr>,
) -> Result<(), AllocError>
    requires from_stored { IsStored setting.left }
    requires to_stored { IsStored setting.to }
    requires scratch { setting.scratch ≤ GREATEST_SCRATCH }
    ensures { OnOk result (out.new.items ≡ out.old.items ++ wide_operator_code operator setting) }
{
    match operator {
        Operator::Arithmetic(operator) => push_wide_arithmetic(operator, setting, out),
        Operator::Division(operator) => push_wide_division(operator, setting, out),
        Operator::Bitwise(operator) => push_wide_bitwise(operator, setting, out),
        Operator::Shift(operator) => push_wide_shift(operator, setting, out),
        Operator::Comparison(operator) => push_wide_comparison(operator, setting, out),
        Operator::Extreme(operator) => push_wide_extreme(operator, setting, out),
        Operator::Unary(operator) => push_wide_unary(operator, setting, out),
        Operator::Count(operator) => push_wide_count(operator, setting, out),
        Operator::Cast(operator) => push_wide_cast(operator, setting, out),
        Operator::Logic(operator) => push_wide_logic(operator, setting, out),
        Operator::Measure(_) => Ok(()),
    }
}

/// Appends the code of `!` on the left operand. `and` and `or` have none, since they choose what is computed.
fn push_wide_logic(
    operator: Logic,
    setting: Setting,
    out: &mut Vec<Instr>,
) -> Result<(), AllocError>
    ensures { OnOk result (out.new.items ≡ out.old.items ++ wide_code_of_logic operator setting) }
{
    match operator {
        Logic::Not => push_wide_not(setting.left, setting.to, out),
        Logic::And | Logic::Or => Ok(()),
    }
}

/// Appends the code of a sum, a difference or a product.
pub fn push_wide_arithmetic(
    operator: Arithmetic,
    setting: Setting,
    out: &mut Vec<Instr>,
) -> Result<(), AllocError>
    requires to_stored { IsStored setting.to }
    requires scratch { setting.scratch ≤ GREATEST_SCRATCH }
    ensures { OnOk result (out.new.items ≡ out.old.items ++ wide_code_of_arithmetic operator setting) }
{
    match operator {
        Arithmetic::Add => push_wide_sum(setting, out),
        Arithmetic::Sub => push_wide_difference(setting, out),
        Arithmetic::Mul => push_wide_product(setting, out),
        Arithmetic::AddWrap => push_wide_wrapped(BinaryOperator::Add, setting, out),
        Arithmetic::SubWrap => push_wide_wrapped(BinaryOperator::Sub, setting, out),
        Arithmetic::MulWrap => push_wide_wrapped(BinaryOperator::Mul, setting, out),
        Arithmetic::AddSat => push_wide_sum_sat(setting, out),
        Arithmetic::SubSat => push_wide_difference_sat(setting, out),
        Arithmetic::MulSat => push_wide_product_sat(setting, out),
    }
}

/// Appends the code of a quotient or a rest.
pub fn push_wide_division(
    operator: Division,
    setting: Setting,
    out: &mut Vec<Instr>,
) -> Result<(), AllocError>
    requires to_stored { IsStored setting.to }
    requires scratch { setting.scratch ≤ GREATEST_SCRATCH }
    ensures { OnOk result (out.new.items ≡ out.old.items ++ wide_code_of_division operator setting) }
{
    match operator {
        Division::Div | Division::DivTrunc => push_wide_quotient(setting, out),
        Division::Rem | Division::RemTrunc => push_wide_rest(setting, out),
        Division::DivFloor => push_wide_floor(setting, out),
        Division::DivExact => push_wide_exact_quotient(setting, out),
        Division::Mod => push_wide_modulo(setting, out),
    }
}

/// Appends the code of a shift.
pub fn push_wide_shift(
    operator: Shift,
    setting: Setting,
    out: &mut Vec<Instr>,
) -> Result<(), AllocError>
    requires to_stored { IsStored setting.to }
    requires scratch { setting.scratch ≤ GREATEST_SCRATCH }
    ensures { OnOk result (out.new.items ≡ out.old.items ++ wide_code_of_shift operator setting) }
{
    match operator {
        Shift::Shl => push_wide_left(setting, out),
        Shift::Shr => push_wide_right(setting, out),
        Shift::ShlSat => push_wide_left_sat(setting, out),
        Shift::ShlExact => push_wide_left_exact(setting, out),
        Shift::ShrExact => push_wide_right_exact(setting, out),
    }
}

/// Appends the code of an operator of one integer, whose type is that of the left operand.
pub fn push_wide_unary(
    operator: Unary,
    setting: Setting,
    out: &mut Vec<Instr>,
) -> Result<(), AllocError>
    requires { setting.scratch ≤ GREATEST_SCRATCH }
    ensures { OnOk result (out.new.items ≡ out.old.items ++ wide_code_of_unary operator setting) }
{
    match operator {
        Unary::Neg => push_wide_opposite(setting, out),
        Unary::NegWrap => push_wide_minus_one(BinaryOperator::Mul, setting.left, setting.to, out),
        Unary::BitNot => push_wide_minus_one(BinaryOperator::Xor, setting.left, setting.to, out),
        Unary::ByteSwap => push_wide_byte_swap(setting, out),
        Unary::BitReverse => push_wide_bit_reverse(setting, out),
        Unary::Abs => push_wide_distance(setting, out),
    }
}

/// Appends the code of a cast from the type of the left operand.
pub fn push_wide_cast(
    operator: Cast,
    setting: Setting,
    out: &mut Vec<Instr>,
) -> Result<(), AllocError>
    requires from_stored { IsStored setting.left }
    requires to_stored { IsStored setting.to }
    requires scratch { setting.scratch ≤ GREATEST_SCRATCH }
    ensures { OnOk result (out.new.items ≡ out.old.items ++ wide_code_of_cast operator setting) }
{
    match operator {
        Cast::As | Cast::IntFromBool => push_wide_same(setting.left, setting.to, out),
        Cast::IntCast => push_wide_int_cast(setting, out),
        Cast::Truncate | Cast::BitCast => push_wide_truncated(setting.left, setting.to, out),
    }
}
