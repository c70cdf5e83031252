// Operators and builtins by their families.
ghost use Rattle.std.specs.Prelude.{◌≡◌, ◌<◌, length, All, map};
ghost use Rattle.zw_types.specs.Readings.{type_at, value_tree};
ghost use Rattle.zw_ops.specs.Answers.{IfAnswered};
ghost use Rattle.zw_ops.specs.Operands.{IsReady};
ghost use Rattle.zw_ops.specs.Applied.{IsHeld, IsOutcome};

use crate::cause::Cause;
use crate::extremes::extreme_of;
use crate::measures::measure;
use crate::plain::{comparison_of, converted_of, logic_of};
use crate::typed::{arithmetic_of, bitwise_of, count_of, division_of, shift_of, unary_of};
use std::alloc::Global;
use zw_num::Operator;
use zw_types::{TypeId, Types, Value};

/// What an operator or builtin gives (Zig Language Reference 0.13.0, Operators and Builtin Functions), on operands `args` of the
/// types `from`, with a result of the type `to`. The types were checked: the numbers
/// among the operands are values of the type that the operator works in. Exactly the panic, the illegal behaviour and the limit
/// that are due; memory is wanting only where a value is copied.
pub fn apply(
    alloc: Global,
    types: &Types,
    op: Operator,
    from: &[TypeId],
    args: &[Value],
    to: TypeId,
) -> Result<Value, Cause>
    requires from_held { All (λ id. id.0 < length types.now.trees) from.now }
    requires to_held { to.0 < length types.now.trees }
    requires args_held { All (IsHeld (length types.now.trees)) args.now }
    requires checked { IsReady op (map (type_at types.now.trees) from.now) (type_at types.now.trees to) (map (value_tree types.now.trees) args.now) }
    ensures { IfAnswered types.now.trees result
        (IsOutcome types.now op (map (type_at types.now.trees) from.now) (type_at types.now.trees to) (map (value_tree types.now.trees) args.now)) }
{
    match op {
        Operator::Arithmetic(op) => arithmetic_of(types, op, args, to),
        Operator::Division(op) => division_of(types, op, args, to),
        Operator::Bitwise(op) => bitwise_of(types, op, args, to),
        Operator::Shift(op) => shift_of(types, op, args, to),
        Operator::Comparison(op) => comparison_of(types, op, args),
        Operator::Extreme(op) => extreme_of(op, args),
        Operator::Unary(op) => unary_of(types, op, from, args, to),
        Operator::Count(op) => count_of(types, op, from, args),
        Operator::Cast(op) => converted_of(alloc, types, op, from, args, to),
        Operator::Logic(op) => logic_of(alloc, op, args),
        Operator::Measure(op) => measure(types, op, args),
    }
}
