// Builtins that ask for the size of a type.
ghost use Rattle.std.specs.Prelude.{◌≡◌, ◌<◌, length, List, Some, All, map, MatchOption};
ghost use Rattle.zw_types.specs.TypeTrees.{TypeTree};
ghost use Rattle.zw_types.specs.Readings.{value_tree, form_tree, type_at};
ghost use Rattle.zw_values.specs.Applied as operation;
ghost use Rattle.zw_ops.specs.Answers.{outcome_of_result, IfAnswered};
ghost use Rattle.zw_ops.specs.Operands.{asked_type, IsMeasurable};
ghost use Rattle.zw_ops.specs.Applied.{IsHeld, IsMeasure, size_outcome, align_outcome};

use crate::cause::Cause;
use crate::operands::one;
use zw_layout::{align, size};
use zw_num::Measure;
use zw_types::{TypeForm, TypeId, Types, Value};

/// The bits of an integer type, and of `bool`.
fn bits_of(form: &TypeForm) -> Option<u8>
    ensures { (trees : List TypeTree) → result ≡ operation.bit_size (form_tree trees form.now) }
{
    match form {
        TypeForm::Int { bits, .. } => Some(*bits),
        TypeForm::Bool => Some(1),
        _ => None,
    }
}

/// What a type measures, of the type that is the one operand.
pub(crate) fn measure(types: &Types, op: Measure, args: &[Value]) -> Result<Value, Cause>
    requires held { All (IsHeld (length types.now.trees)) args.now }
    requires simple { MatchOption (asked_type (map (value_tree types.now.trees) args.now)) (Unit {0}) (IsMeasurable op) }
    ensures { IfAnswered types.now.trees result (λ outcome.
        MatchOption (asked_type (map (value_tree types.now.trees) args.now)) (outcome ≡ operation.IsWild) (λ ty. IsMeasure types.now op ty outcome)) }
{
    let Some(operand) = one(args) else {
        return Err(Cause::Wild);
    };
    let Value::OfType(ty) = operand else {
        return Err(Cause::Wild);
    };
    measure_of(types, op, *ty)
}

/// What a type measures.
fn measure_of(types: &Types, op: Measure, ty: TypeId) -> Result<Value, Cause>
    requires held { ty.0 < length types.now.trees }
    requires simple { IsMeasurable op (type_at types.now.trees ty) }
    ensures { IfAnswered types.now.trees result (IsMeasure types.now op (type_at types.now.trees ty)) }
{
    match op {
        Measure::SizeOf => size_value(size(types, ty)),
        Measure::AlignOf => align_value(align(types, ty)),
        Measure::BitSizeOf => bits_value(bits_of(types.get(ty))),
    }
}

/// A size as a number, which ends where `comptime_int` does.
fn size_value(size: Option<u128>) -> Result<Value, Cause>
    ensures { (types : List TypeTree) → outcome_of_result types result ≡ Some (size_outcome size) }
{
    match size {
        None => Ok(Value::Number(0)),
        Some(bytes) if bytes < 1 << 127 => Ok(Value::Number(bytes as i128)),
        Some(_) => Err(Cause::Limit(9)),
    }
}

/// An alignment as a number.
fn align_value(align: Option<u32>) -> Result<Value, Cause>
    ensures { (types : List TypeTree) → outcome_of_result types result ≡ Some (align_outcome align) }
{
    match align {
        Some(align) => Ok(Value::Number(i128::from(align))),
        None => Err(Cause::Wild),
    }
}

/// A number of bits as a number.
fn bits_value(bits: Option<u8>) -> Result<Value, Cause>
    ensures { (types : List TypeTree) → outcome_of_result types result ≡ Some (operation.number_or_wild bits) }
{
    match bits {
        Some(bits) => Ok(Value::Number(i128::from(bits))),
        None => Err(Cause::Wild),
    }
}
