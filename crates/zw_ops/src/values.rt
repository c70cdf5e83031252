// Operators on values: a number in the place of an integer, and else an operand that is undefined.
ghost use Rattle.std.specs.Prelude.{◌≡◌, List, Some, Ok};
ghost use Rattle.zw_num.specs.Arithmetic.{IsType, IsSized, IsIn};
ghost use Rattle.zw_num.specs.Meanings as meaning;
ghost use Rattle.zw_num.specs.Meanings.{IsAmountFor, IsOperandOf};
ghost use Rattle.zw_types.specs.TypeTrees.{TypeTree};
ghost use Rattle.zw_types.specs.Readings.{value_tree};
ghost use Rattle.zw_values.specs.Applied as operation;
ghost use Rattle.zw_ops.specs.Answers.{outcome_of_result};
ghost use Rattle.zw_ops.specs.Operands.{IfHasNumber};

use crate::cause::{Cause, cause_of};
use zw_num::{
    Arithmetic, Bitwise, Cast, Count, Division, IntTy, NumFault, Shift, Unary, arithmetic, bitwise,
    converted, counted, division, shift, unary,
};
use zw_types::Value;

/// `+`, `-` and `*` of two values of an integer type, which is the result's.
pub(crate) fn arithmetic_value(
    op: Arithmetic,
    ty: IntTy,
    a: &Value,
    b: &Value,
) -> Result<Value, Cause>
    requires is_type { IsType ty }
    requires a_fits { IfHasNumber (IsIn ty) a.now }
    requires b_fits { IfHasNumber (IsIn ty) b.now }
    ensures { (types : List TypeTree) → outcome_of_result types result ≡
        Some (operation.of_two_numbers ty (meaning.arithmetic op ty) (value_tree types a.now) (value_tree types b.now)) }
{
    match (a, b) {
        (Value::Number(a), Value::Number(b)) => answer(ty, arithmetic(op, ty, *a, *b)),
        _ => Err(Cause::Wild),
    }
}

/// A quotient or remainder of two values of an integer type, which is the result's.
pub(crate) fn division_value(op: Division, ty: IntTy, a: &Value, b: &Value) -> Result<Value, Cause>
    requires is_type { IsType ty }
    requires a_fits { IfHasNumber (IsIn ty) a.now }
    requires b_fits { IfHasNumber (IsIn ty) b.now }
    ensures { (types : List TypeTree) → outcome_of_result types result ≡
        Some (operation.of_two_numbers ty (meaning.division op ty) (value_tree types a.now) (value_tree types b.now)) }
{
    match (a, b) {
        (Value::Number(a), Value::Number(b)) => answer(ty, division(op, ty, *a, *b)),
        _ => Err(Cause::Wild),
    }
}

/// `&`, `|` and `^` of two values of an integer type, which is the result's.
pub(crate) fn bitwise_value(op: Bitwise, ty: IntTy, a: &Value, b: &Value) -> Result<Value, Cause>
    requires is_type { IsType ty }
    requires a_fits { IfHasNumber (IsIn ty) a.now }
    requires b_fits { IfHasNumber (IsIn ty) b.now }
    ensures { (types : List TypeTree) → outcome_of_result types result ≡
        Some (operation.of_two_numbers ty (λ x y. Ok (meaning.bitwise op x y)) (value_tree types a.now) (value_tree types b.now)) }
{
    match (a, b) {
        (Value::Number(a), Value::Number(b)) => answer(ty, Ok(bitwise(op, ty, *a, *b))),
        _ => Err(Cause::Wild),
    }
}

/// A shift of a value of an integer type, which is the result's, by an amount.
pub(crate) fn shift_value(op: Shift, ty: IntTy, a: &Value, b: &Value) -> Result<Value, Cause>
    requires is_type { IsType ty }
    requires a_fits { IfHasNumber (IsIn ty) a.now }
    requires b_fits { IfHasNumber (IsAmountFor op) b.now }
    ensures { (types : List TypeTree) → outcome_of_result types result ≡
        Some (operation.of_two_numbers ty (meaning.shift op ty) (value_tree types a.now) (value_tree types b.now)) }
{
    match (a, b) {
        (Value::Number(a), Value::Number(b)) => answer(ty, shift(op, ty, *a, *b)),
        _ => Err(Cause::Wild),
    }
}

/// An operator of a value of the type `own`, with a result of the type `ty`.
pub(crate) fn unary_value(op: Unary, own: IntTy, ty: IntTy, a: &Value) -> Result<Value, Cause>
    requires own_is_type { IsType own }
    requires is_type { IsType ty }
    requires fits { IfHasNumber (IsOperandOf op own ty) a.now }
    ensures { (types : List TypeTree) → outcome_of_result types result ≡
        Some (operation.of_number ty (meaning.unary op own ty) (value_tree types a.now)) }
{
    match a {
        Value::Number(a) => answer(ty, unary(op, own, ty, *a)),
        _ => Err(Cause::Wild),
    }
}

/// A cast of a value of an integer type to another.
pub(crate) fn cast_value(op: Cast, ty: IntTy, a: &Value) -> Result<Value, Cause>
    requires { IsType ty }
    ensures { (types : List TypeTree) → outcome_of_result types result ≡
        Some (operation.of_number ty (meaning.converted op ty) (value_tree types a.now)) }
{
    match a {
        Value::Number(a) => answer(ty, converted(op, ty, *a)),
        _ => Err(Cause::Wild),
    }
}

/// A count of the bits of a value of the type `own`.
pub(crate) fn count_value(op: Count, own: IntTy, a: &Value) -> Result<Value, Cause>
    requires is_type { IsType own }
    requires sized { IsSized own }
    requires fits { IfHasNumber (IsIn own) a.now }
    ensures { (types : List TypeTree) → outcome_of_result types result ≡
        Some (operation.count_on_value op own (value_tree types a.now)) }
{
    match a {
        Value::Number(a) => Ok(Value::Number(counted(op, own, *a))),
        _ => Err(Cause::Wild),
    }
}

/// A number that an operation came to, or the cause.
fn answer(ty: IntTy, came: Result<i128, NumFault>) -> Result<Value, Cause>
    ensures { (types : List TypeTree) → outcome_of_result types result ≡ Some (operation.outcome_of ty came) }
{
    match came {
        Ok(number) => Ok(Value::Number(number)),
        Err(fault) => Err(cause_of(ty, fault)),
    }
}
