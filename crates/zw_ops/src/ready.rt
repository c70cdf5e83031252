// Whether operands are ready for an operator: a test of what `apply` asks for.
ghost use Rattle.std.specs.Prelude.{◌≡◌, ◌<◌, length, All, List, map, true, IsTrue, MatchOption};
ghost use Rattle.zw_num.specs.declared.operator.Operator.TheVariants as family;
ghost use Rattle.zw_types.specs.TypeTrees.{TypeTree};
ghost use Rattle.zw_types.specs.Readings.{type_at, value_tree, form_tree};
ghost use Rattle.zw_layout.specs.Sizes.{is_simple};
ghost use Rattle.zw_ops.specs.Operands.{AreOfResult, IsReady, IsMeasurable, asked_type};
ghost use Rattle.zw_ops.specs.Applied.{IsHeld};

use crate::fits::{are_numbers_of, are_shifted, are_unary_operands, is_sized};
use crate::operands::{one, two};
use crate::typed::first_integers;
use zw_num::{Count, Measure, Operator, Shift, Unary};
use zw_types::{TypeForm, TypeId, Types, Value};
use zw_values::integer_type;

/// Whether the types that a value mentions are those of the table, where the value has no parts.
fn is_held(types: &Types, value: &Value) -> bool
    ensures { result ≡ true → IsHeld (length types.now.trees) value.now }
{
    match value {
        Value::Number(_) | Value::Truth(_) | Value::Undefined => true,
        Value::OfType(ty) => types.holds(*ty),
        _ => false,
    }
}

/// The same of one or two operands.
fn are_held(types: &Types, args: &[Value]) -> bool
    ensures { result ≡ true → All (IsHeld (length types.now.trees)) args.now }
{
    if let Some(a) = one(args) {
        return is_held(types, a);
    }
    match two(args) {
        Some((a, b)) => is_held(types, a) && is_held(types, b),
        None => false,
    }
}

/// Whether the operands are such as an operator on two integers takes.
fn are_two_ready(types: &Types, args: &[Value], to: TypeId) -> bool
    requires { to.0 < length types.now.trees }
    ensures { result ≡ true → AreOfResult (type_at types.now.trees to) (map (value_tree types.now.trees) args.now) }
{
    match integer_type(types, to) {
        Some(ty) => are_numbers_of(ty, args),
        None => false,
    }
}

/// Whether the operands are such as a shift takes.
fn is_shift_ready(types: &Types, op: Shift, args: &[Value], to: TypeId) -> bool
    requires { to.0 < length types.now.trees }
    ensures { result ≡ true → (from : List TypeTree) → IsReady (family.Shift op) from (type_at types.now.trees to) (map (value_tree types.now.trees) args.now) }
{
    match integer_type(types, to) {
        Some(ty) => are_shifted(op, ty, args),
        None => false,
    }
}

/// Whether the operands are such as an operator of one integer takes.
fn is_one_ready(types: &Types, op: Unary, from: &[TypeId], args: &[Value], to: TypeId) -> bool
    requires from_held { All (λ id. id.0 < length types.now.trees) from.now }
    requires to_held { to.0 < length types.now.trees }
    ensures { result ≡ true → IsReady (family.Unary op) (map (type_at types.now.trees) from.now) (type_at types.now.trees to) (map (value_tree types.now.trees) args.now) }
{
    let Some(own) = first_integers(types, from) else {
        return false;
    };
    let Some(ty) = integer_type(types, to) else {
        return false;
    };
    are_unary_operands(op, own, ty, args)
}

/// Whether the operand is such as a count of bits takes.
fn is_count_ready(types: &Types, op: Count, from: &[TypeId], args: &[Value]) -> bool
    requires { All (λ id. id.0 < length types.now.trees) from.now }
    ensures { result ≡ true → (to : TypeTree) → IsReady (family.Count op) (map (type_at types.now.trees) from.now) to (map (value_tree types.now.trees) args.now) }
{
    match first_integers(types, from) {
        Some(own) => is_sized(own) && are_numbers_of(own, args),
        None => false,
    }
}

/// Whether the operands are such as the operator takes.
fn is_ready(types: &Types, op: Operator, from: &[TypeId], args: &[Value], to: TypeId) -> bool
    requires from_held { All (λ id. id.0 < length types.now.trees) from.now }
    requires to_held { to.0 < length types.now.trees }
    ensures { result ≡ true → IsReady op (map (type_at types.now.trees) from.now) (type_at types.now.trees to) (map (value_tree types.now.trees) args.now) }
{
    match op {
        Operator::Arithmetic(_) => are_two_ready(types, args, to),
        Operator::Division(_) => are_two_ready(types, args, to),
        Operator::Bitwise(_) => are_two_ready(types, args, to),
        Operator::Shift(op) => is_shift_ready(types, op, args, to),
        Operator::Comparison(_) => true,
        Operator::Extreme(_) => true,
        Operator::Unary(op) => is_one_ready(types, op, from, args, to),
        Operator::Count(op) => is_count_ready(types, op, from, args),
        Operator::Cast(_) => true,
        Operator::Logic(_) => true,
        Operator::Measure(op) => is_measurable(types, op, args),
    }
}

/// Whether the one operand is a type that can be measured so.
fn is_measurable(types: &Types, op: Measure, args: &[Value]) -> bool
    ensures { result ≡ true → MatchOption (asked_type (map (value_tree types.now.trees) args.now)) (Unit {0}) (IsMeasurable op) }
{
    match op {
        Measure::SizeOf => is_simple_type(types, args),
        Measure::AlignOf => is_simple_type(types, args),
        Measure::BitSizeOf => true,
    }
}

/// Whether the one operand is a type without parts.
fn is_simple_type(types: &Types, args: &[Value]) -> bool
    ensures { result ≡ true → MatchOption (asked_type (map (value_tree types.now.trees) args.now)) (Unit {0}) (λ ty. IsTrue (is_simple ty)) }
{
    match one(args) {
        Some(Value::OfType(ty)) => types.holds(*ty) && is_simple_form(types.get(*ty)),
        _ => false,
    }
}

/// Whether a type of this form has no parts.
fn is_simple_form(form: &TypeForm) -> bool
    ensures { result ≡ true → (trees : List TypeTree) → IsTrue (is_simple (form_tree trees form.now)) }
{
    matches!(
        form,
        TypeForm::Int { .. }
            | TypeForm::ComptimeInt
            | TypeForm::Bool
            | TypeForm::Void
            | TypeForm::NoReturn
            | TypeForm::TypeType
            | TypeForm::Undefined
            | TypeForm::AnyError
    )
}

/// Whether the table has these types, of which there is one or there are two.
fn are_types(types: &Types, ids: &[TypeId]) -> bool
    ensures { result ≡ true → All (λ id. id.0 < length types.now.trees) ids.now }
{
    match ids {
        [a] => types.holds(*a),
        [a, b] => types.holds(*a) && types.holds(*b),
        _ => false,
    }
}

/// Whether `apply` takes these types and operands, of which there is one or there are two. It says no for some that `apply` takes: values
/// with parts, and operands that give no value by its contract since the types aren't integers.
pub fn is_applicable(
    types: &Types,
    op: Operator,
    from: &[TypeId],
    args: &[Value],
    to: TypeId,
) -> bool
    ensures from_held { result ≡ true → All (λ id. id.0 < length types.now.trees) from.now }
    ensures to_held { result ≡ true → to.0 < length types.now.trees }
    ensures args_held { result ≡ true → All (IsHeld (length types.now.trees)) args.now }
    ensures checked { result ≡ true → IsReady op (map (type_at types.now.trees) from.now) (type_at types.now.trees to) (map (value_tree types.now.trees) args.now) }
{
    if !types.holds(to) || !are_types(types, from) || !are_held(types, args) {
        return false;
    }
    is_ready(types, op, from, args, to)
}
