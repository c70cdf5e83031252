// What holds of tables and readings: each law is the contract of a function that does nothing.
ghost use Rattle.std.specs.Prelude.{◌≡◌, ◌<◌, length, All};
ghost use Rattle.zw_types.specs.declared.value.Value.{Value};
ghost use Rattle.zw_types.specs.declared.type_form.TypeForm.{TypeForm};
ghost use Rattle.zw_types.specs.Readings.{type_at, value_tree, form_tree, types_in, types_in_form};
ghost use Rattle.zw_types.specs.Tables.{TypeTable, IsTable, Keeps};
ghost use Rattle.zw_types.specs.TypeTexts.{WorkedTexts};
ghost use Rattle.zw_types.specs.WorkedTypes.{WorkedTypes};

use crate::value::TypeId;

/// In a table equal types have one number.
pub fn one_number(a: TypeId, b: TypeId)
    ensures { (table : TypeTable) → IsTable table → a.0 < length table.trees → b.0 < length table.trees →
        type_at table.trees a ≡ type_at table.trees b → a ≡ b }
{}

/// What a value or a form stands for stays while the table grows.
pub fn readings_stay()
    ensures values { (old new : TypeTable) (value : Value) → Keeps old new →
        All (λ k. k < length old.trees) (types_in value) → value_tree new.trees value ≡ value_tree old.trees value }
    ensures forms { (old new : TypeTable) (form : TypeForm) → Keeps old new →
        All (λ k. k < length old.trees) (types_in_form form) → form_tree new.trees form ≡ form_tree old.trees form }
{}

/// Which types lists of forms stand for, worked out by hand: captures in captures, and the same types in two orders.
pub fn types_are_worked()
    ensures { WorkedTypes }
{}

/// The texts of types, worked out by hand.
pub fn texts_are_worked()
    ensures { WorkedTexts }
{}
