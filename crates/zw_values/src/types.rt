// What operators and coercions ask of a type.
ghost use Rattle.std.specs.Prelude.{◌≡◌, ◌<◌, length, List, MatchOption};
ghost use Rattle.zw_num.specs.Arithmetic.{IsType};
ghost use Rattle.zw_types.specs.TypeTrees.{TypeTree};
ghost use Rattle.zw_types.specs.Readings.{type_at, form_tree};
ghost use Rattle.zw_values.specs.Coercions.{integer_of};
ghost use Rattle.zw_values.specs.Sameness.{is_same};

use zw_num::IntTy;
use zw_types::{TypeForm, TypeId, Types};

/// The integers of a type (Zig Language Reference 0.13.0, Integers); None exactly where it is no integer type.
pub fn integer_type(types: &Types, ty: TypeId) -> Option<IntTy>
    requires { ty.0 < length types.now.trees }
    ensures integers { result ≡ integer_of (type_at types.now.trees ty) }
    ensures is_type { MatchOption result (Unit {0}) IsType }
{
    integer_form(types.get(ty))
}

/// The integers of the types that have this form.
fn integer_form(form: &TypeForm) -> Option<IntTy>
    ensures { (trees : List TypeTree) → result ≡ integer_of (form_tree trees form.now) }
{
    match form {
        TypeForm::Int { signed, bits, .. } => Some(IntTy::Sized {
            signed: *signed,
            bits: *bits,
        }),
        TypeForm::ComptimeInt => Some(IntTy::Comptime),
        _ => None,
    }
}

/// Whether two numbers name the same type.
pub fn is_same(types: &Types, a: TypeId, b: TypeId) -> bool
    requires a_held { a.0 < length types.now.trees }
    requires b_held { b.0 < length types.now.trees }
    ensures { result ≡ is_same (type_at types.now.trees a) (type_at types.now.trees b) }
{
    let _ = types.get(a);
    a.0 == b.0
}
