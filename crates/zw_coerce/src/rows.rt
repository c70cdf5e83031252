// Coercions, by the rows of their table.
ghost use Rattle.std.specs.Prelude.{◌≡◌, ◌<◌, length, List, Option};
ghost use Rattle.std.specs.Option.{option_map, option_copied};
ghost use Rattle.zw_num.specs.Arithmetic.{IsType};
ghost use Rattle.zw_types.specs.TypeTrees.{TypeTree};
ghost use Rattle.zw_types.specs.Readings.{type_at, form_tree, value_tree};
ghost use Rattle.zw_values.specs.Coercions.{has_no_value, has_all, known_row, coercion};
ghost use Rattle.zw_coerce.specs.Answers.{IsStep, row_answer};

use crate::answers::{Code, Step};
use crate::integers::has_all;
use std::alloc::Global;
use zw_num::IntTy;
use zw_types::{TypeForm, TypeId, Types, Value};
use zw_values::{integer_type, is_same};

/// The error of a type that doesn't become the other one.
const TYPE_MISMATCH: u16 = 14;
/// The error of a known number that the other type doesn't have.
const OUT_OF_RANGE: u16 = 15;

/// The row by which a value of one type becomes one of another (Zig Language Reference 0.13.0, Type Coercion). Error 15 where
/// both are integer types and the value is known as a number that the other doesn't have, and else 14 where no row applies.
/// It takes no memory so far, and adds no type.
pub fn coerce(
    _alloc: Global,
    types: &mut Types,
    from: TypeId,
    known: Option<&Value>,
    to: TypeId,
) -> Result<Step, Code>
    requires from_held { from.0 < length types.old.trees }
    requires to_held { to.0 < length types.old.trees }
    ensures answer { IsStep result (coercion (type_at types.old.trees from) (option_map (value_tree types.old.trees) (option_copied known.entry)) (type_at types.old.trees to)) }
    ensures same { types.new ≡ types.old }
{
    match row(types, from, known, to) {
        Ok(row) => Ok(Step { row, inner: None }),
        Err(error) => Err(Code::Error(error)),
    }
}

/// The row that applies, or the error.
fn row(types: &Types, from: TypeId, known: Option<&Value>, to: TypeId) -> Result<u8, u16>
    requires from_held { from.0 < length types.now.trees }
    requires to_held { to.0 < length types.now.trees }
    ensures { result ≡ coercion (type_at types.now.trees from) (option_map (value_tree types.now.trees) (option_copied known.entry)) (type_at types.now.trees to) }
{
    if is_same(types, from, to) || has_no_value(types.get(from)) {
        return Ok(1);
    }
    match (integer_type(types, from), integer_type(types, to)) {
        (Some(from), Some(to)) if has_all(to, from) => Ok(2),
        (Some(_), Some(to)) => known_row(known, to),
        _ => Err(TYPE_MISMATCH),
    }
}

/// Whether values of this form are none of their own: `undefined` and `noreturn`.
fn has_no_value(form: &TypeForm) -> bool
    ensures { (trees : List TypeTree) → result ≡ has_no_value (form_tree trees form.now) }
{
    matches!(form, TypeForm::Undefined | TypeForm::NoReturn)
}

/// The row of integers, for a type that hasn't all values of the other.
fn known_row(known: Option<&Value>, to: IntTy) -> Result<u8, u16>
    requires { IsType to }
    ensures { (trees : List TypeTree) → result ≡ row_answer (known_row (option_map (value_tree trees) (option_copied known.entry)) to) }
{
    match known {
        Some(Value::Number(number)) if to.contains(*number) => Ok(2),
        Some(Value::Number(_)) => Err(OUT_OF_RANGE),
        _ => Err(TYPE_MISMATCH),
    }
}
