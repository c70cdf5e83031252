// What holds of paths, stores, and operators on values: each law is the contract of a function that does nothing.
ghost use Rattle.std.specs.Prelude.{◌≡◌, ◌≢◌, ◌↔◌, ℕ, true, List, [], slice_get, Some, IsSome};
ghost use Rattle.zw_types.specs.TypeTrees.{TypeTree, ValueTree};
ghost use Rattle.zw_values.specs.Sameness.{is_same};
ghost use Rattle.zw_values.specs.Paths.{value_at, written_at, AreApart};
ghost use Rattle.zw_values.specs.ObjectStore.{Object, Store, place_in, place_of, saved};
ghost use Rattle.zw_values.specs.WorkedStores.{WorkedStores, WorkedWild};
ghost use Rattle.zw_values.specs.WorkedOperations.{WorkedIntegers, WorkedComptime, WorkedValues};

/// A value that was written at a path is read there, and it can be written exactly where something can be read.
pub fn written_is_read()
    ensures read { (v new w : ValueTree) (path : List ℕ) → written_at v path new ≡ Some w → value_at w path ≡ Some new }
    ensures there { (v new : ValueTree) (path : List ℕ) → IsSome (written_at v path new) ↔ IsSome (value_at v path) }
{}

/// What other paths lead to stays: paths of which neither goes on where the other ends.
pub fn other_paths_stay()
    ensures { (v new w : ValueTree) (path other : List ℕ) → written_at v path new ≡ Some w → AreApart path other →
        value_at w other ≡ value_at v other }
{}

/// What operators and builtins come to in examples that were worked out by hand: each at an end of its type, on an operand that
/// is undefined, and past the range of `comptime_int`.
pub fn worked_operations()
    ensures integers { WorkedIntegers }
    ensures comptime_numbers { WorkedComptime }
    ensures values { WorkedValues }
{}

/// A value that was saved in a live object is what its place holds, and other objects stay as they are.
pub fn saved_values()
    ensures in_place { (store after : Store) (obj : ℕ) (path : List ℕ) (new : ValueTree) (object : Object) → slice_get store obj ≡ Some object → object.live ≡ true →
        saved store obj path new ≡ Some after → place_of after obj path ≡ place_in new [] }
    ensures others { (store after : Store) (obj other : ℕ) (path : List ℕ) (new : ValueTree) → obj ≢ other →
        saved store obj path new ≡ Some after → slice_get after other ≡ slice_get store other }
{}

/// Places in a store, worked out by hand: elements, payloads that are no longer there, what is undefined, and objects that ended; and
/// what is unchecked illegal behaviour with them, and what isn't.
pub fn stores_are_worked()
    ensures places { WorkedStores }
    ensures wild { WorkedWild }
{}

/// The test of two types holds exactly where they are equal.
pub fn same_types_are_equal()
    ensures { (a b : TypeTree) → is_same a b ≡ true ↔ (a ≡ b) }
{}
