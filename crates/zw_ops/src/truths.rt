// Comparisons, and operators on truth values.
ghost use Rattle.std.specs.Prelude.{◌≡◌, length, List, Some};
ghost use Rattle.zw_types.specs.TypeTrees.{TypeTree};
ghost use Rattle.zw_types.specs.Readings.{value_tree};
ghost use Rattle.zw_values.specs.Applied as operation;
ghost use Rattle.zw_ops.specs.Answers.{outcome_of_result, IfAnswered};
ghost use Rattle.zw_ops.specs.Applied.{IsHeld};

use crate::cause::Cause;
use std::alloc::Global;
use zw_num::{Comparison, compared};
use zw_types::{Types, Value};
use zw_values::is_same;

/// A comparison of two integers, truth values or types.
pub(crate) fn compare(types: &Types, op: Comparison, a: &Value, b: &Value) -> Result<Value, Cause>
    requires a_held { IsHeld (length types.now.trees) a.now }
    requires b_held { IsHeld (length types.now.trees) b.now }
    ensures { outcome_of_result types.now.trees result ≡
        Some (operation.compared_values op (value_tree types.now.trees a.now) (value_tree types.now.trees b.now)) }
{
    match (a, b) {
        (Value::Number(a), Value::Number(b)) => Ok(Value::Truth(compared(op, *a, *b))),
        (Value::Truth(a), Value::Truth(b)) => equality(op, *a == *b),
        (Value::OfType(a), Value::OfType(b)) => equality(op, is_same(types, *a, *b)),
        _ => Err(Cause::Wild),
    }
}

/// What `==` and `!=` say of two things that are the same or not; the other comparisons don't hold for them.
fn equality(op: Comparison, is_same: bool) -> Result<Value, Cause>
    ensures { (types : List TypeTree) → outcome_of_result types result ≡ Some (operation.equality op is_same) }
{
    match op {
        Comparison::Equal => Ok(Value::Truth(is_same)),
        Comparison::NotEqual => Ok(Value::Truth(!is_same)),
        Comparison::Less
        | Comparison::LessOrEqual
        | Comparison::Greater
        | Comparison::GreaterOrEqual => Err(Cause::Wild),
    }
}

/// `!`.
pub(crate) fn negation(a: &Value) -> Result<Value, Cause>
    ensures { (types : List TypeTree) → outcome_of_result types result ≡ Some (operation.negated (value_tree types a.now)) }
{
    match a {
        Value::Truth(truth) => Ok(Value::Truth(!*truth)),
        _ => Err(Cause::Wild),
    }
}

/// `@intFromBool`.
pub(crate) fn truth_number(a: &Value) -> Result<Value, Cause>
    ensures { (types : List TypeTree) → outcome_of_result types result ≡ Some (operation.int_from_bool (value_tree types a.now)) }
{
    match a {
        Value::Truth(true) => Ok(Value::Number(1)),
        Value::Truth(false) => Ok(Value::Number(0)),
        _ => Err(Cause::Wild),
    }
}

/// `and`: the second operand is the result where the first one holds.
pub(crate) fn both(alloc: Global, a: &Value, b: &Value) -> Result<Value, Cause>
    ensures { (types : List TypeTree) → IfAnswered types result (λ outcome. outcome ≡ operation.both (value_tree types a.now) (value_tree types b.now)) }
{
    match a {
        Value::Truth(true) => Ok(b.copy(alloc)?),
        Value::Truth(false) => Ok(Value::Truth(false)),
        _ => Err(Cause::Wild),
    }
}

/// `or`: the second operand is the result where the first one doesn't hold.
pub(crate) fn either(alloc: Global, a: &Value, b: &Value) -> Result<Value, Cause>
    ensures { (types : List TypeTree) → IfAnswered types result (λ outcome. outcome ≡ operation.either (value_tree types a.now) (value_tree types b.now)) }
{
    match a {
        Value::Truth(false) => Ok(b.copy(alloc)?),
        Value::Truth(true) => Ok(Value::Truth(true)),
        _ => Err(Cause::Wild),
    }
}
