// Comparisons, casts, and operators on truth values, by their operands.
ghost use Rattle.std.specs.Prelude.{◌≡◌, ◌<◌, length, All, List, Some, [], map};
ghost use Rattle.zw_num.specs.declared.operator.Operator.TheVariants as family;
ghost use Rattle.zw_types.specs.TypeTrees.{TypeTree, VoidType};
ghost use Rattle.zw_types.specs.Readings.{type_at, value_tree};
ghost use Rattle.zw_values.specs.Applied.{applied, on_one, on_two, negated, both, either, int_from_bool, Gives};
ghost use Rattle.zw_ops.specs.Answers.{outcome_of_result, IfAnswered};
ghost use Rattle.zw_ops.specs.Applied.{IsHeld};

use crate::cause::Cause;
use crate::operands::{one, two};
use crate::truths::{both, compare, either, negation, truth_number};
use crate::typed::cast_of;
use std::alloc::Global;
use zw_num::{Cast, Comparison, Logic};
use zw_types::{TypeId, Types, Value};

/// A comparison.
pub(crate) fn comparison_of(types: &Types, op: Comparison, args: &[Value]) -> Result<Value, Cause>
    requires { All (IsHeld (length types.now.trees)) args.now }
    ensures { outcome_of_result types.now.trees result ≡ Some (applied (family.Comparison op) [] VoidType (map (value_tree types.now.trees) args.now)) }
{
    let Some((a, b)) = two(args) else {
        return Err(Cause::Wild);
    };
    compare(types, op, a, b)
}

/// An operator on truth values.
pub(crate) fn logic_of(alloc: Global, op: Logic, args: &[Value]) -> Result<Value, Cause>
    ensures { (types : List TypeTree) → IfAnswered types result (λ outcome. outcome ≡ applied (family.Logic op) [] VoidType (map (value_tree types) args.now)) }
{
    match op {
        Logic::And => both_of(alloc, args),
        Logic::Or => either_of(alloc, args),
        Logic::Not => negated(args),
    }
}

/// `and`.
fn both_of(alloc: Global, args: &[Value]) -> Result<Value, Cause>
    ensures { (types : List TypeTree) → IfAnswered types result (λ outcome. outcome ≡ on_two both (map (value_tree types) args.now)) }
{
    let Some((a, b)) = two(args) else {
        return Err(Cause::Wild);
    };
    both(alloc, a, b)
}

/// `or`.
fn either_of(alloc: Global, args: &[Value]) -> Result<Value, Cause>
    ensures { (types : List TypeTree) → IfAnswered types result (λ outcome. outcome ≡ on_two either (map (value_tree types) args.now)) }
{
    let Some((a, b)) = two(args) else {
        return Err(Cause::Wild);
    };
    either(alloc, a, b)
}

/// `!`.
fn negated(args: &[Value]) -> Result<Value, Cause>
    ensures { (types : List TypeTree) → outcome_of_result types result ≡ Some (on_one negated (map (value_tree types) args.now)) }
{
    let Some(a) = one(args) else {
        return Err(Cause::Wild);
    };
    negation(a)
}

/// A cast.
pub(crate) fn converted_of(
    alloc: Global,
    types: &Types,
    op: Cast,
    from: &[TypeId],
    args: &[Value],
    to: TypeId,
) -> Result<Value, Cause>
    requires from_held { All (λ id. id.0 < length types.now.trees) from.now }
    requires to_held { to.0 < length types.now.trees }
    ensures { IfAnswered types.now.trees result (λ outcome. outcome ≡
        applied (family.Cast op) (map (type_at types.now.trees) from.now) (type_at types.now.trees to) (map (value_tree types.now.trees) args.now)) }
{
    match op {
        Cast::As => coerced(alloc, args),
        Cast::IntFromBool => number_of_truth(args),
        Cast::IntCast => cast_of(types, Cast::IntCast, from, args, to),
        Cast::Truncate => cast_of(types, Cast::Truncate, from, args, to),
        Cast::BitCast => cast_of(types, Cast::BitCast, from, args, to),
    }
}

/// `@intFromBool`.
fn number_of_truth(args: &[Value]) -> Result<Value, Cause>
    ensures { (types : List TypeTree) → outcome_of_result types result ≡ Some (on_one int_from_bool (map (value_tree types) args.now)) }
{
    let Some(a) = one(args) else {
        return Err(Cause::Wild);
    };
    truth_number(a)
}

/// `@as`: a type, and a value that becomes one of it. A value of one of the types so far stays as it is.
fn coerced(alloc: Global, args: &[Value]) -> Result<Value, Cause>
    ensures { (types : List TypeTree) → IfAnswered types result (λ outcome. outcome ≡ on_two (λ ty v. Gives v) (map (value_tree types) args.now)) }
{
    let Some((_, value)) = two(args) else {
        return Err(Cause::Wild);
    };
    Ok(value.copy(alloc)?)
}
