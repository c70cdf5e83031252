// The code of checked operators by family.
ghost use Rattle.std.specs.Prelude.{◌≡◌, ◌↔◌, ◌≤◌, ◌++◌, IsTrue, OnOk};
ghost use Rattle.zw_safety.specs.Families.{IsServed, is_served, serves_in_32, serves_in_64, has_at_most, fit_in, amount_fits, bytes_fit, types_fit, is_kept_shift, last_type, goes_wide, stored_code};
ghost use Rattle.zw_safety_narrow.specs.Operators.{IsRight, has_code, has_two, has_one, is_not, is_wrapping_sum, writes_locals};
ghost use Rattle.zw_safety_narrow.specs.declared.setting.TheConstants.{GREATEST_SCRATCH};

use std::alloc::AllocError;
use zw_num::{Arithmetic, IntTy, Logic, Operator, Shift, Unary};
use zw_safety_narrow::{Setting, holds, is_unsigned, push_narrow, width};
use zw_safety_wide::{are_wide_shares, push_wide};
use zw_safety_words::fill_words;
use zw_wasm::Instr;

/// Appends the code of an operator, which takes the operands, the right one from the top, and leaves the operator's value (Zig Language
/// Reference 0.13.0, Operators and Builtin Functions); or it sets the globals 0 to 2 to the cause of a panic without a message and traps.
/// A value fills its `i32`, or where its type has more than 32 bits its `i64`, with copies of its sign. The code takes at most 128
/// instructions, and writes no local but the eight from the setting's scratch on, of which four are `i32` and the next four `i64`; for
/// `+%` on types of at most 32 bits it writes none.
#[tactic(auto, using(crate::proofs::FamiliesServed::left_stays_narrow, crate::proofs::FamiliesServed::stays_narrow, crate::proofs::FamiliesServed::left_goes_stored, crate::proofs::FamiliesServed::goes_stored))]
pub fn push_checked(
    operator: Operator,
    setting: Setting,
    out: &mut Vec<Instr>,
) -> Result<(), AllocError>
    requires served { IsServed operator setting }
    requires scratch { setting.scratch ≤ GREATEST_SCRATCH }
    ensures code { OnOk result (out.new.items ≡ out.old.items ++ stored_code operator setting) }
    ensures right { IsRight operator setting (stored_code operator setting) }
{
    if goes_wide(operator, setting) {
        push_wide(operator, setting, out)
    } else {
        push_narrow(operator, setting, out)
    }
}

/// Whether the code of an operator writes locals.
pub fn writes_locals(operator: Operator, setting: Setting) -> bool
    ensures { result ≡ writes_locals operator setting }
{
    !is_wrapping_sum(operator) || !fill_words(setting.left, setting.right, setting.to)
}

/// Whether it is `+%`.
fn is_wrapping_sum(operator: Operator) -> bool
    ensures { result ≡ is_wrapping_sum operator }
{
    matches!(operator, Operator::Arithmetic(Arithmetic::AddWrap))
}

/// Whether an `i64` is among operands and result.
fn goes_wide(operator: Operator, setting: Setting) -> bool
    ensures { result ≡ goes_wide operator setting }
{
    (has_two(operator) || has_one(operator))
        && !fill_words(setting.left, last_type(operator, setting), setting.to)
}

/// The type of the last operand.
fn last_type(operator: Operator, setting: Setting) -> IntTy
    ensures { result ≡ last_type operator setting }
{
    if has_one(operator) {
        setting.left
    } else {
        setting.right
    }
}

/// Whether code takes two operands.
fn has_two(operator: Operator) -> bool
    ensures { result ≡ has_two operator }
{
    match operator {
        Operator::Arithmetic(_)
        | Operator::Division(_)
        | Operator::Bitwise(_)
        | Operator::Shift(_)
        | Operator::Comparison(_)
        | Operator::Extreme(_) => true,
        Operator::Unary(_)
        | Operator::Count(_)
        | Operator::Cast(_)
        | Operator::Logic(_)
        | Operator::Measure(_) => false,
    }
}

/// Whether code takes one operand.
fn has_one(operator: Operator) -> bool
    ensures { result ≡ has_one operator }
{
    match operator {
        Operator::Unary(_) | Operator::Count(_) | Operator::Cast(_) => true,
        Operator::Logic(logic) => is_not(logic),
        Operator::Arithmetic(_)
        | Operator::Division(_)
        | Operator::Bitwise(_)
        | Operator::Shift(_)
        | Operator::Comparison(_)
        | Operator::Extreme(_)
        | Operator::Measure(_) => false,
    }
}

/// Whether it is `!`.
fn is_not(logic: Logic) -> bool
    ensures { result ≡ is_not logic }
{
    match logic {
        Logic::Not => true,
        Logic::And | Logic::Or => false,
    }
}

/// Whether `push_checked` has code for an operator in this setting. Of an operator of one operand, which is the left one, the right type
/// may be any.
pub fn has_checked(operator: Operator, setting: Setting) -> bool
    ensures { IsTrue result ↔ IsServed operator setting }
{
    is_served(operator, setting)
}

/// The same, by a test.
fn is_served(operator: Operator, setting: Setting) -> bool
    ensures { result ≡ is_served operator setting }
{
    serves_in_32(operator, setting) || serves_in_64(operator, setting)
}

/// Whether an operator is served on types of at most 32 bits.
fn serves_in_32(operator: Operator, setting: Setting) -> bool
    ensures { result ≡ serves_in_32 operator setting }
{
    has_code(operator)
        && fit_in(32, operator, setting)
        && amount_fits(operator, setting.right)
        && bytes_fit(operator, setting.left)
}

/// Whether an operator is served on types of at most 64 bits.
fn serves_in_64(operator: Operator, setting: Setting) -> bool
    ensures { result ≡ serves_in_64 operator setting }
{
    has_code(operator)
        && fit_in(64, operator, setting)
        && types_fit(operator, setting)
        && bytes_fit(operator, setting.left)
}

/// Whether operands and result have at most so many bits.
fn fit_in(most: u8, operator: Operator, setting: Setting) -> bool
    ensures { result ≡ fit_in most operator setting }
{
    has_at_most(most, setting.left)
        && (!has_two(operator) || has_at_most(most, setting.right))
        && has_at_most(most, setting.to)
}

/// Whether a sized type has at most so many bits.
fn has_at_most(most: u8, ty: IntTy) -> bool
    ensures { result ≡ has_at_most most ty }
{
    match ty {
        IntTy::Sized { bits, .. } => bits <= most,
        IntTy::Comptime => false,
    }
}

/// Whether a shift takes amounts of the type, if the operator is `<<|`.
fn amount_fits(operator: Operator, right: IntTy) -> bool
    ensures { result ≡ amount_fits operator right }
{
    !matches!(operator, Operator::Shift(Shift::ShlSat)) || is_unsigned(right)
}

/// Whether the operand has whole bytes, if the operator is `@byteSwap`.
fn bytes_fit(operator: Operator, left: IntTy) -> bool
    ensures { result ≡ bytes_fit operator left }
{
    !matches!(operator, Operator::Unary(Unary::ByteSwap)) || width(left) % 8 == 0
}

/// Whether the types are what the operator asks where one has more than 32 bits.
fn types_fit(operator: Operator, setting: Setting) -> bool
    ensures { result ≡ types_fit operator setting }
{
    (!matches!(operator, Operator::Division(_))
        || are_wide_shares(setting.left, setting.right, setting.to))
        && (!is_kept_shift(operator) || holds(setting.to, setting.left))
        && amount_fits(operator, setting.right)
}

/// Whether it is a shift to the left that loses no bits.
fn is_kept_shift(operator: Operator) -> bool
    ensures { result ≡ is_kept_shift operator }
{
    matches!(operator, Operator::Shift(Shift::ShlExact | Shift::ShlSat))
}

/// Whether there is code.
fn has_code(operator: Operator) -> bool
    ensures { result ≡ has_code operator }
{
    has_two(operator) || has_one(operator)
}
