// The rules on a single name, and sets of names in the order in which they come.
ghost use Rattle.std.specs.Prelude.{◌≡◌, ◌≢◌, ◌↔◌, ◌++◌, [], IfOk, OnOk, IsTrue, All, AllPairs, Contains};
ghost use Rattle.std.specs.List.{list_any};
ghost use Rattle.std.specs.Str.{bytes_eq};
ghost use Rattle.zw_names.specs.NameSets.{names_in};
ghost use Rattle.zw_form.specs.Programs.{first_of_each};
ghost use Rattle.zw_form.specs.Rules.{is_reserved};

use indexmap::IndexSet;
use sqlite_items::Items;
use std::alloc::Global;
use zw_base::Oom;
use zw_names::{holds, insert};

/// The names of what a module exports beside its functions.
pub const RESERVED_NAMES: [&str; 4] = ["memory", "panic_cause", "panic_ptr", "panic_len"];

/// Whether a module exports something else under this name.
pub fn is_reserved(name: &[u8]) -> bool
    ensures { result ≡ is_reserved name.now }
{
    stands_in(&RESERVED_NAMES, name)
}

/// Whether a name stands in a table.
fn stands_in(table: &[&str], name: &[u8]) -> bool
    ensures { result ≡ list_any (λ text. bytes_eq text.now name.now) table.now }
{
    table.iter().any(|text| text.as_bytes() == name)
}

/// Whether none of these names is in a set.
pub fn differ_from(set: &IndexSet<Vec<u8>>, names: &[Items<u8>]) -> bool
    ensures { IsTrue result ↔ All (λ name. ¬ Contains (names_in set.now) name) names.now }
{
    for name in names {
        if holds(set, name.as_slice()) {
            return false;
        }
    }
    true
}

/// Whether each of these names is in a set.
pub fn holds_all(set: &IndexSet<Vec<u8>>, names: &[Items<u8>]) -> bool
    ensures { IsTrue result ↔ All (Contains (names_in set.now)) names.now }
{
    for name in names {
        if !holds(set, name.as_slice()) {
            return false;
        }
    }
    true
}

/// Puts names into a set, in their order.
pub fn insert_all(
    alloc: Global,
    set: &mut IndexSet<Vec<u8>>,
    names: &[Items<u8>],
) -> Result<(), Oom>
    ensures { OnOk result (names_in set.new ≡ names_in set.old ++ first_of_each (names_in set.old) names.now) }
{
    for name in names {
        insert(alloc, set, name.as_slice())?;
    }
    Ok(())
}

/// The set of these names.
pub fn set_of(alloc: Global, names: &[Items<u8>]) -> Result<IndexSet<Vec<u8>>, Oom>
    ensures { IfOk result (λ set. names_in set ≡ first_of_each [] names.now) }
{
    let mut set = IndexSet::new(alloc);
    insert_all(alloc, &mut set, names)?;
    Ok(set)
}

/// Whether no two of these names are the same.
pub fn differ(alloc: Global, names: &[Items<u8>]) -> Result<bool, Oom>
    ensures { IfOk result (λ all. IsTrue all ↔ AllPairs (λ x y. x ≢ y) names.now) }
{
    let mut set = IndexSet::new(alloc);
    for name in names {
        if !insert(alloc, &mut set, name.as_slice())? {
            return Ok(false);
        }
    }
    Ok(true)
}
