// Tables from numbers to numbers, which share their parts. Each is known by its head, the number of its first fork from 1, or 0 where
// it is empty: it then leads from each number to 0. A table takes as many steps to a number as that has bits.
ghost use Rattle.std.specs.Prelude.{◌≡◌, ◌++◌, ◌∷◌, [], ℕ, suc, length, IfOk};
ghost use Rattle.zw_scope_sites.specs.Tables.{IsPut, IsWay, Leads, fork_at};

use zw_base::Oom;

/// Where the number 0 leads, and the heads of the tables of odd and of even numbers.
#[derive(Clone, Copy)]
pub(crate) struct Fork {
    pub(crate) here: u32,
    pub(crate) odd: u32,
    pub(crate) even: u32,
}

/// A number as what stays of it behind one fork: 2 n + 1 or 2 n + 2.
enum Way {
    Here,
    Odd(usize),
    Even(usize),
}

/// The way that a number takes at a fork.
fn way_of(key: usize) -> Way
    ensures { IsWay key result }
{
    let Some(last) = key.checked_sub(1) else {
        return Way::Here;
    };
    if last % 2 == 0 {
        Way::Odd(last / 2)
    } else {
        Way::Even(last / 2)
    }
}

/// The first fork of a table.
fn fork_at(forks: &[Fork], head: u32) -> Fork
    ensures { result ≡ fork_at forks.now head }
{
    let none = Fork {
        here: 0,
        odd: 0,
        even: 0,
    };
    let Some(at) = head.checked_sub(1) else {
        return none;
    };
    match forks.get(at as usize) {
        Some(fork) => *fork,
        None => none,
    }
}

/// Where a number leads in a table.
pub(crate) fn get(forks: &[Fork], head: u32, key: usize) -> u32
    ensures { (v : ℕ) → Leads forks.now head key v → result ≡ v }
{
    let fork = fork_at(forks, head);
    match way_of(key) {
        Way::Here => fork.here,
        Way::Odd(half) => get(forks, fork.odd, half),
        Way::Even(half) => get(forks, fork.even, half),
    }
}

/// Adds a fork, and gives its number from 1. More than 2^32 - 1 forks end as want of memory does.
fn push(forks: &mut Vec<Fork>, fork: Fork) -> Result<u32, Oom>
    ensures { IfOk result (λ head. (forks.new.items ≡ forks.old.items ++ fork ∷ []) × (head ≡ suc (length forks.old.items))) }
{
    let Ok(last) = u32::try_from(forks.as_slice().len()) else {
        return Err(Oom);
    };
    let head = last.checked_add(1).ok_or(Oom)?;
    forks.push(fork)?;
    Ok(head)
}

/// The head of a table that leads from a number to this value, and else where another table leads, which stays.
pub(crate) fn put(forks: &mut Vec<Fork>, head: u32, key: usize, value: u32) -> Result<u32, Oom>
    ensures { IfOk result (IsPut forks.old.items forks.new.items head key value) }
{
    let fork = fork_at(forks.as_slice(), head);
    match way_of(key) {
        Way::Here => push(
            forks,
            Fork {
                here: value,
                ..fork
            },
        ),
        Way::Odd(half) => {
            let odd = put(forks, fork.odd, half, value)?;
            push(forks, Fork { odd, ..fork })
        }
        Way::Even(half) => {
            let even = put(forks, fork.even, half, value)?;
            push(forks, Fork { even, ..fork })
        }
    }
}
