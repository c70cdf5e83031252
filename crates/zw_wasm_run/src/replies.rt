// The replies of a host.
ghost use Rattle.std.specs.Prelude.{◌≡◌, ◌≤◌, ℕ, List, [], ◌∷◌, drop, length, MatchOption};

use sqlite_items::{Items, at};
use std::marker::Model;

/// What a host answers to the calls that want a result, in order. Contracts see those that are left.
#[derive(Drop)]
pub struct Replies {
    list: Items<u64>,
    next: usize,
}

impl Model for Replies {
    ghost Value = { List ℕ };

    ghost view = { λ r. drop r.next r.list };

    ghost invariant = { λ r. r.next ≤ length r.list };
}

impl Replies {
    pub fn new(list: Items<u64>) -> Replies
        ensures { result ≡ list }
    {
        Replies { list, next: 0 }
    }

    /// How many are left.
    pub fn left(&self) -> usize
        ensures { result ≡ length self.now }
    {
        self.list.len() - self.next
    }

    /// Takes the next one.
    pub(crate) fn take(&mut self) -> Option<u64>
        ensures { MatchOption result ((self.old ≡ []) × (self.new ≡ [])) (λ reply. self.old ≡ reply ∷ self.new) }
    {
        let reply = at(self.list.as_slice(), self.next).copied()?;
        self.next += 1;
        Some(reply)
    }
}
