// `@min` and `@max`.
ghost use Rattle.std.specs.Prelude.{◌≡◌, List, Some, map};
ghost use Rattle.zw_types.specs.TypeTrees.{TypeTree};
ghost use Rattle.zw_types.specs.Readings.{value_tree};
ghost use Rattle.zw_values.specs.Applied as operation;
ghost use Rattle.zw_ops.specs.Answers.{outcome_of_result};

use crate::cause::Cause;
use zw_num::{Extreme, extreme};
use zw_types::Value;

/// The least or the greatest of one integer or more.
pub(crate) fn extreme_of(op: Extreme, args: &[Value]) -> Result<Value, Cause>
    ensures { (types : List TypeTree) → outcome_of_result types result ≡
        Some (operation.extreme_of op (map (value_tree types) args.now)) }
{
    let Some((first, rest)) = args.split_first() else {
        return Err(Cause::Wild);
    };
    let Some(first) = number(first) else {
        return Err(Cause::Wild);
    };
    extreme_from(op, first, rest)
}

/// The least or the greatest of a number and of the integers behind it.
fn extreme_from(op: Extreme, first: i128, rest: &[Value]) -> Result<Value, Cause>
    ensures { (types : List TypeTree) → outcome_of_result types result ≡
        Some (operation.extreme_from op first (map (value_tree types) rest.now)) }
{
    let mut chosen = first;
    for value in rest {
        let Some(number) = number(value) else {
            return Err(Cause::Wild);
        };
        chosen = extreme(op, chosen, number);
    }
    Ok(Value::Number(chosen))
}

/// The number that a value is.
fn number(value: &Value) -> Option<i128>
    ensures { (types : List TypeTree) → result ≡ operation.number_in (value_tree types value.now) }
{
    match value {
        Value::Number(number) => Some(*number),
        _ => None,
    }
}
