// What holds of coercions and peer types: each law is the contract of a function that does nothing.
ghost use Rattle.std.specs.Prelude.{◌≡◌, ◌↔◌, ℕ, Bool, true, Option, Some, Ok};
ghost use Rattle.zw_num.specs.declared.int_ty.IntTy.TheVariants.{Sized};
ghost use Rattle.zw_types.specs.TypeTrees.{TypeTree, ValueTree, IntType, UndefinedType, NoReturnType};
ghost use Rattle.zw_values.specs.Coercions.{coercion, integer_of, has_all, peer_of};
ghost use Rattle.zw_coerce.specs.FirstRows.{IsFirstRow};

/// A type becomes itself by the first row.
pub fn same_type_stays()
    ensures { (ty : TypeTree) (known : Option ValueTree) → coercion ty known ty ≡ Ok 1 }
{}

/// The peer of two sized integer types, where there is one, has all values of both.
pub fn peers_of_sized_integers()
    ensures { (s t : Bool) (m n : ℕ) (a b : Bool) (peer : TypeTree) → peer_of (IntType s m a) (IntType t n b) ≡ Some peer →
        (u : Bool) × (k : ℕ) × (integer_of peer ≡ Some (Sized u k)) × (has_all (Sized u k) (Sized s m) ≡ true) × (has_all (Sized u k) (Sized t n) ≡ true) }
{}

/// What becomes of another type does so by one row: the first that isn't for other types.
pub fn first_row()
    ensures { (from : TypeTree) (known : Option ValueTree) (to : TypeTree) (number : ℕ) → coercion from known to ≡ Ok number ↔ IsFirstRow from known to number }
{}

/// `undefined` and `noreturn` become of any type by the first row.
pub fn valueless_types()
    ensures undefined { (known : Option ValueTree) (to : TypeTree) → coercion UndefinedType known to ≡ Ok 1 }
    ensures no_return { (known : Option ValueTree) (to : TypeTree) → coercion NoReturnType known to ≡ Ok 1 }
{}
