// Operators on integers of the types that a table has.
ghost use Rattle.std.specs.Prelude.{◌≡◌, ◌<◌, length, All, Some, [], map, MatchOption};
ghost use Rattle.zw_num.specs.declared.operator.Operator.TheVariants as family;
ghost use Rattle.zw_num.specs.Arithmetic.{IsType};
ghost use Rattle.zw_num.specs.Meanings as meaning;
ghost use Rattle.zw_types.specs.TypeTrees.{VoidType};
ghost use Rattle.zw_types.specs.Readings.{type_at, value_tree};
ghost use Rattle.zw_values.specs.Applied as operation;
ghost use Rattle.zw_values.specs.Applied.{applied};
ghost use Rattle.zw_ops.specs.Answers.{outcome_of_result};
ghost use Rattle.zw_ops.specs.Operands.{IsReady};

use crate::cause::Cause;
use crate::operands::{one, two};
use crate::values::{
    arithmetic_value, bitwise_value, cast_value, count_value, division_value, shift_value,
    unary_value,
};
use zw_num::{Arithmetic, Bitwise, Cast, Count, Division, IntTy, Shift, Unary};
use zw_types::{TypeId, Types, Value};
use zw_values::integer_type;

/// `+`, `-` and `*` of two integers of the result's type.
pub(crate) fn arithmetic_of(
    types: &Types,
    op: Arithmetic,
    args: &[Value],
    to: TypeId,
) -> Result<Value, Cause>
    requires to_held { to.0 < length types.now.trees }
    requires ready { IsReady (family.Arithmetic op) [] (type_at types.now.trees to) (map (value_tree types.now.trees) args.now) }
    ensures { outcome_of_result types.now.trees result ≡
        Some (applied (family.Arithmetic op) [] (type_at types.now.trees to) (map (value_tree types.now.trees) args.now)) }
{
    let Some(ty) = integer_type(types, to) else {
        return Err(Cause::Wild);
    };
    let Some((a, b)) = two(args) else {
        return Err(Cause::Wild);
    };
    arithmetic_value(op, ty, a, b)
}

/// A quotient or remainder of two integers of the result's type.
pub(crate) fn division_of(
    types: &Types,
    op: Division,
    args: &[Value],
    to: TypeId,
) -> Result<Value, Cause>
    requires to_held { to.0 < length types.now.trees }
    requires ready { IsReady (family.Division op) [] (type_at types.now.trees to) (map (value_tree types.now.trees) args.now) }
    ensures { outcome_of_result types.now.trees result ≡
        Some (applied (family.Division op) [] (type_at types.now.trees to) (map (value_tree types.now.trees) args.now)) }
{
    let Some(ty) = integer_type(types, to) else {
        return Err(Cause::Wild);
    };
    let Some((a, b)) = two(args) else {
        return Err(Cause::Wild);
    };
    division_value(op, ty, a, b)
}

/// `&`, `|` and `^` of two integers of the result's type.
pub(crate) fn bitwise_of(
    types: &Types,
    op: Bitwise,
    args: &[Value],
    to: TypeId,
) -> Result<Value, Cause>
    requires to_held { to.0 < length types.now.trees }
    requires ready { IsReady (family.Bitwise op) [] (type_at types.now.trees to) (map (value_tree types.now.trees) args.now) }
    ensures { outcome_of_result types.now.trees result ≡
        Some (applied (family.Bitwise op) [] (type_at types.now.trees to) (map (value_tree types.now.trees) args.now)) }
{
    let Some(ty) = integer_type(types, to) else {
        return Err(Cause::Wild);
    };
    let Some((a, b)) = two(args) else {
        return Err(Cause::Wild);
    };
    bitwise_value(op, ty, a, b)
}

/// A shift of an integer of the result's type.
pub(crate) fn shift_of(types: &Types, op: Shift, args: &[Value], to: TypeId) -> Result<Value, Cause>
    requires to_held { to.0 < length types.now.trees }
    requires ready { IsReady (family.Shift op) [] (type_at types.now.trees to) (map (value_tree types.now.trees) args.now) }
    ensures { outcome_of_result types.now.trees result ≡
        Some (applied (family.Shift op) [] (type_at types.now.trees to) (map (value_tree types.now.trees) args.now)) }
{
    let Some(ty) = integer_type(types, to) else {
        return Err(Cause::Wild);
    };
    let Some((a, b)) = two(args) else {
        return Err(Cause::Wild);
    };
    shift_value(op, ty, a, b)
}

/// An operator of one integer.
pub(crate) fn unary_of(
    types: &Types,
    op: Unary,
    from: &[TypeId],
    args: &[Value],
    to: TypeId,
) -> Result<Value, Cause>
    requires from_held { All (λ id. id.0 < length types.now.trees) from.now }
    requires to_held { to.0 < length types.now.trees }
    requires ready { IsReady (family.Unary op) (map (type_at types.now.trees) from.now) (type_at types.now.trees to) (map (value_tree types.now.trees) args.now) }
    ensures { outcome_of_result types.now.trees result ≡
        Some (applied (family.Unary op) (map (type_at types.now.trees) from.now) (type_at types.now.trees to) (map (value_tree types.now.trees) args.now)) }
{
    let Some(own) = first_integers(types, from) else {
        return Err(Cause::Wild);
    };
    let Some(ty) = integer_type(types, to) else {
        return Err(Cause::Wild);
    };
    let Some(a) = one(args) else {
        return Err(Cause::Wild);
    };
    unary_value(op, own, ty, a)
}

/// A cast of one integer.
pub(crate) fn cast_of(
    types: &Types,
    op: Cast,
    from: &[TypeId],
    args: &[Value],
    to: TypeId,
) -> Result<Value, Cause>
    requires from_held { All (λ id. id.0 < length types.now.trees) from.now }
    requires to_held { to.0 < length types.now.trees }
    ensures { outcome_of_result types.now.trees result ≡
        Some (operation.on_integer (λ own. meaning.converted op) (map (type_at types.now.trees) from.now) (type_at types.now.trees to) (map (value_tree types.now.trees) args.now)) }
{
    if first_integers(types, from).is_none() {
        return Err(Cause::Wild);
    }
    let Some(ty) = integer_type(types, to) else {
        return Err(Cause::Wild);
    };
    let Some(a) = one(args) else {
        return Err(Cause::Wild);
    };
    cast_value(op, ty, a)
}

/// A count of the bits of one integer.
pub(crate) fn count_of(
    types: &Types,
    op: Count,
    from: &[TypeId],
    args: &[Value],
) -> Result<Value, Cause>
    requires from_held { All (λ id. id.0 < length types.now.trees) from.now }
    requires ready { IsReady (family.Count op) (map (type_at types.now.trees) from.now) VoidType (map (value_tree types.now.trees) args.now) }
    ensures { outcome_of_result types.now.trees result ≡
        Some (applied (family.Count op) (map (type_at types.now.trees) from.now) VoidType (map (value_tree types.now.trees) args.now)) }
{
    let Some(own) = first_integers(types, from) else {
        return Err(Cause::Wild);
    };
    let Some(a) = one(args) else {
        return Err(Cause::Wild);
    };
    count_value(op, own, a)
}

/// The integers of the first of these types.
pub(crate) fn first_integers(types: &Types, from: &[TypeId]) -> Option<IntTy>
    requires { All (λ id. id.0 < length types.now.trees) from.now }
    ensures integers { result ≡ operation.first_integers (map (type_at types.now.trees) from.now) }
    ensures is_type { MatchOption result (Unit {0}) IsType }
{
    match from {
        [ty, ..] => integer_type(types, *ty),
        [] => None,
    }
}
