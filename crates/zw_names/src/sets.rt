// Whether a name is in a set, which number it has there, and names that are put into it.
ghost use Rattle.std.specs.Prelude.{◌≡◌, ◌<◌, ◌↔◌, ◌++◌, ◌∷◌, [], ℕ, List, length, IfOk, IsTrue, OnOk, MatchBool, Contains};
ghost use Rattle.zw_names.specs.NameSets.{names_in, number_in};

use indexmap::IndexSet;
use std::alloc::{AllocError, Global};

/// Whether a name is in a set.
pub fn holds(set: &IndexSet<Vec<u8>>, name: &[u8]) -> bool
    ensures { IsTrue result ↔ Contains (names_in set.now) name.now }
{
    set.contains(name)
}

/// The number of a name in a set, or the size of the set where the name isn't in it.
pub fn number_in(set: &IndexSet<Vec<u8>>, name: &[u8]) -> usize
    ensures { result ≡ number_in (names_in set.now) name.now }
{
    match set.get_index_of(name) {
        Some(number) => number,
        None => set.len(),
    }
}

/// Puts a name into a set, last, where it isn't in it yet, and answers whether it is new there.
pub fn insert(alloc: Global, set: &mut IndexSet<Vec<u8>>, name: &[u8]) -> Result<bool, AllocError>
    ensures { IfOk result (λ is_new. MatchBool is_new
        ((names_in set.new ≡ names_in set.old ++ name.now ∷ []) × (Contains (names_in set.old) name.now → ⊥))
        ((names_in set.new ≡ names_in set.old) × Contains (names_in set.old) name.now)) }
{
    let (_, is_new) = set.insert_full(Vec::from_slice(alloc, name)?)?;
    Ok(is_new)
}

/// The number of a name in a set, where it is put if it isn't there.
pub fn number_of(
    alloc: Global,
    set: &mut IndexSet<Vec<u8>>,
    name: &[u8],
) -> Result<usize, AllocError>
    ensures more { OnOk result ((more : List (List ℕ)) × (names_in set.new ≡ names_in set.old ++ more)) }
    ensures number { IfOk result (λ number. number ≡ number_in (names_in set.new) name.now) }
    ensures within { IfOk result (λ number. number < length (names_in set.new)) }
{
    insert(alloc, set, name)?;
    Ok(number_in(set, name))
}
