// What a tree hands over: for each load that was answered, its path and its answer.
ghost use Rattle.std.specs.Prelude.{◌≡◌, [], ◌∷◌, ◌++◌, OnOk, OnErr};

use crate::{Oom, Word};
use sqlite_items::Items;
use std::alloc::Global;

/// What a tree answered to a load that neither failed nor wanted memory.
#[derive(Debug, Drop)]
pub enum Answer {
    /// The file's bytes.
    Bytes(Items<u8>),
    /// There is no such file.
    Absent,
    /// The file has more bytes than this, the limit that the load was to keep.
    TooLong(u64),
}

/// A pair of a path and its answer.
#[derive(Debug, Drop)]
pub struct Handed {
    pub path: Word,
    pub answer: Answer,
}

/// Adds a pair to the list of what a tree has handed over. After want of memory the list is as before.
pub fn hand_over(
    alloc: Global,
    handed: &mut Items<Handed>,
    path: &Word,
    answer: Answer,
) -> Result<(), Oom>
    ensures ok { OnOk result (handed.new ≡ handed.old ++ record { path = path.now; answer = answer } ∷ []) }
    ensures err { OnErr result (handed.new ≡ handed.old) }
{
    let path = Word::copy(alloc, path.bytes())?;
    handed.push(Handed { path, answer })
}
