// The code of each family of operators.
ghost use Rattle.std.specs.Prelude.{◌≡◌, ◌≤◌, ◌++◌, OnOk};
ghost use Rattle.zw_safety_narrow.specs.Families.{code_of_arithmetic, code_of_division, code_of_bitwise, code_of_shift, code_of_comparison, code_of_extreme, code_of_unary, code_of_count, code_of_cast, code_of_logic, narrow_code};
ghost use Rattle.zw_safety_narrow.specs.Operators.{IsNarrow};
ghost use Rattle.zw_safety_narrow.specs.declared.setting.TheConstants.{GREATEST_SCRATCH};

use crate::casts::{
    push_cast, push_distance, push_negated_wrapped, push_opposite, push_truncated, push_turned,
};
use crate::compare::{push_choice, push_comparison};
use crate::counts::{push_leading, push_ones, push_trailing};
use crate::division::{push_floor, push_modulo, push_quotient, push_rest};
use crate::exact::{push_exact_quotient, push_left_exact, push_right_exact};
use crate::operators::{
    INTEGER_OVERFLOW, push_difference, push_exact, push_is_zero, push_sum, push_word, push_wrapped,
};
use crate::reversal::{push_bit_reverse, push_byte_swap};
use crate::saturating::{push_saturated, push_saturated_left, push_saturated_product};
use crate::setting::Setting;
use crate::shifts::{push_left, push_right};
use std::alloc::AllocError;
use zw_num::{
    Arithmetic, Bitwise, Cast, Comparison, Count, Division, Extreme, Logic, Operator, Shift, Unary,
};
use zw_wasm::{BinaryOperator, Comparison as WasmComparison, Instr};

/// Appends the code of an operator whose operands and result are of types of at most 32 bits; an operator of one operand has that of
/// the left type. The code writes no local but the eight from `scratch` on.
pub fn push_narrow(
    operator: Operator,
    setting: Setting,
    out: &mut Vec<Instr>,
) -> Result<(), AllocError>
    requires from_narrow { IsNarrow setting.left }
    requires to_narrow { IsNarrow setting.to }
    requires scratch { setting.scratch ≤ GREATEST_SCRATCH }
    ensures { OnOk result (out.new.items ≡ out.old.items ++ narrow_code operator setting) }
{
    match operator {
        Operator::Arithmetic(operator) => push_arithmetic(operator, setting, out),
        Operator::Division(operator) => push_division(operator, setting, out),
        Operator::Bitwise(operator) => push_bitwise(operator, out),
        Operator::Shift(operator) => push_shift(operator, setting, out),
        Operator::Comparison(operator) => push_compared(operator, setting, out),
        Operator::Extreme(operator) => push_extreme(operator, setting, out),
        Operator::Unary(operator) => push_unary(operator, setting, out),
        Operator::Count(operator) => push_count(operator, setting, out),
        Operator::Cast(operator) => push_converted(operator, setting, out),
        Operator::Logic(operator) => push_logic(operator, out),
        Operator::Measure(_) => Ok(()),
    }
}

/// Appends the code of a sum, a difference or a product.
fn push_arithmetic(
    operator: Arithmetic,
    setting: Setting,
    out: &mut Vec<Instr>,
) -> Result<(), AllocError>
    requires to_narrow { IsNarrow setting.to }
    requires scratch { setting.scratch ≤ GREATEST_SCRATCH }
    ensures { OnOk result (out.new.items ≡ out.old.items ++ code_of_arithmetic operator setting) }
{
    match operator {
        Arithmetic::Add => push_sum(setting, out),
        Arithmetic::Sub => push_difference(setting, out),
        Arithmetic::Mul => push_exact(INTEGER_OVERFLOW, BinaryOperator::Mul, setting, out),
        Arithmetic::AddWrap => push_wrapped(BinaryOperator::Add, setting.to, out),
        Arithmetic::SubWrap => push_wrapped(BinaryOperator::Sub, setting.to, out),
        Arithmetic::MulWrap => push_wrapped(BinaryOperator::Mul, setting.to, out),
        Arithmetic::AddSat => push_saturated(BinaryOperator::Add, setting, out),
        Arithmetic::SubSat => push_saturated(BinaryOperator::Sub, setting, out),
        Arithmetic::MulSat => push_saturated_product(setting, out),
    }
}

/// Appends the code of a quotient or a rest.
fn push_division(
    operator: Division,
    setting: Setting,
    out: &mut Vec<Instr>,
) -> Result<(), AllocError>
    requires to_narrow { IsNarrow setting.to }
    requires scratch { setting.scratch ≤ GREATEST_SCRATCH }
    ensures { OnOk result (out.new.items ≡ out.old.items ++ code_of_division operator setting) }
{
    match operator {
        Division::Div => push_quotient(setting, out),
        Division::Rem => push_rest(setting.left, setting.right, setting.scratch, out),
        Division::DivTrunc => push_quotient(setting, out),
        Division::DivFloor => push_floor(setting, out),
        Division::DivExact => push_exact_quotient(setting, out),
        Division::RemTrunc => push_rest(setting.left, setting.right, setting.scratch, out),
        Division::Mod => push_modulo(setting.left, setting.right, setting.scratch, out),
    }
}

/// Appends the code of an operator on the bits of both operands.
fn push_bitwise(operator: Bitwise, out: &mut Vec<Instr>) -> Result<(), AllocError>
    ensures { OnOk result (out.new.items ≡ out.old.items ++ code_of_bitwise operator) }
{
    match operator {
        Bitwise::And => push_word(BinaryOperator::And, out),
        Bitwise::Or => push_word(BinaryOperator::Or, out),
        Bitwise::Xor => push_word(BinaryOperator::Xor, out),
    }
}

/// Appends the code of a shift.
fn push_shift(operator: Shift, setting: Setting, out: &mut Vec<Instr>) -> Result<(), AllocError>
    requires to_narrow { IsNarrow setting.to }
    requires scratch { setting.scratch ≤ GREATEST_SCRATCH }
    ensures { OnOk result (out.new.items ≡ out.old.items ++ code_of_shift operator setting) }
{
    match operator {
        Shift::Shl => push_left(setting.right, setting.to, setting.scratch, out),
        Shift::Shr => push_right(setting, out),
        Shift::ShlSat => push_saturated_left(setting, out),
        Shift::ShlExact => push_left_exact(setting, out),
        Shift::ShrExact => push_right_exact(setting, out),
    }
}

/// Appends the code of a comparison.
fn push_compared(
    operator: Comparison,
    setting: Setting,
    out: &mut Vec<Instr>,
) -> Result<(), AllocError>
    requires { setting.scratch ≤ GREATEST_SCRATCH }
    ensures { OnOk result (out.new.items ≡ out.old.items ++ code_of_comparison operator setting) }
{
    match operator {
        Comparison::Equal => push_comparison(
            WasmComparison::Eq,
            WasmComparison::Eq,
            setting.left,
            setting.right,
            setting.scratch,
            out,
        ),
        Comparison::NotEqual => push_comparison(
            WasmComparison::Ne,
            WasmComparison::Ne,
            setting.left,
            setting.right,
            setting.scratch,
            out,
        ),
        Comparison::Less => push_comparison(
            WasmComparison::LtS,
            WasmComparison::LtU,
            setting.left,
            setting.right,
            setting.scratch,
            out,
        ),
        Comparison::LessOrEqual => push_comparison(
            WasmComparison::LeS,
            WasmComparison::LeU,
            setting.left,
            setting.right,
            setting.scratch,
            out,
        ),
        Comparison::Greater => push_comparison(
            WasmComparison::GtS,
            WasmComparison::GtU,
            setting.left,
            setting.right,
            setting.scratch,
            out,
        ),
        Comparison::GreaterOrEqual => push_comparison(
            WasmComparison::GeS,
            WasmComparison::GeU,
            setting.left,
            setting.right,
            setting.scratch,
            out,
        ),
    }
}

/// Appends the code of the lesser or the greater of two.
fn push_extreme(operator: Extreme, setting: Setting, out: &mut Vec<Instr>) -> Result<(), AllocError>
    requires { setting.scratch ≤ GREATEST_SCRATCH }
    ensures { OnOk result (out.new.items ≡ out.old.items ++ code_of_extreme operator setting) }
{
    match operator {
        Extreme::Min => push_choice(
            WasmComparison::LtS,
            WasmComparison::LtU,
            setting.left,
            setting.right,
            setting.scratch,
            out,
        ),
        Extreme::Max => push_choice(
            WasmComparison::GtS,
            WasmComparison::GtU,
            setting.left,
            setting.right,
            setting.scratch,
            out,
        ),
    }
}

/// Appends the code of an operator of one integer.
fn push_unary(operator: Unary, setting: Setting, out: &mut Vec<Instr>) -> Result<(), AllocError>
    requires to_narrow { IsNarrow setting.to }
    requires scratch { setting.scratch ≤ GREATEST_SCRATCH }
    ensures { OnOk result (out.new.items ≡ out.old.items ++ code_of_unary operator setting) }
{
    match operator {
        Unary::Neg => push_opposite(setting.left, setting.to, setting.scratch, out),
        Unary::NegWrap => push_negated_wrapped(setting.to, out),
        Unary::BitNot => push_turned(setting.to, out),
        Unary::ByteSwap => push_byte_swap(setting.left, setting.to, setting.scratch, out),
        Unary::BitReverse => push_bit_reverse(setting.left, setting.to, setting.scratch, out),
        Unary::Abs => push_distance(setting.left, setting.scratch, out),
    }
}

/// Appends the code of a count of bits.
fn push_count(operator: Count, setting: Setting, out: &mut Vec<Instr>) -> Result<(), AllocError>
    ensures { OnOk result (out.new.items ≡ out.old.items ++ code_of_count operator setting) }
{
    match operator {
        Count::Clz => push_leading(setting.left, out),
        Count::Ctz => push_trailing(setting.left, setting.scratch, out),
        Count::PopCount => push_ones(setting.left, out),
    }
}

/// Appends the code of a cast.
fn push_converted(operator: Cast, setting: Setting, out: &mut Vec<Instr>) -> Result<(), AllocError>
    requires from_narrow { IsNarrow setting.left }
    requires to_narrow { IsNarrow setting.to }
    ensures { OnOk result (out.new.items ≡ out.old.items ++ code_of_cast operator setting) }
{
    match operator {
        Cast::As => Ok(()),
        Cast::IntCast => push_cast(setting.left, setting.to, setting.scratch, out),
        Cast::Truncate => push_truncated(setting.left, setting.to, out),
        Cast::BitCast => push_truncated(setting.left, setting.to, out),
        Cast::IntFromBool => Ok(()),
    }
}

/// Appends the code of `!`.
fn push_logic(operator: Logic, out: &mut Vec<Instr>) -> Result<(), AllocError>
    ensures { OnOk result (out.new.items ≡ out.old.items ++ code_of_logic operator) }
{
    match operator {
        Logic::And => Ok(()),
        Logic::Or => Ok(()),
        Logic::Not => push_is_zero(out),
    }
}
