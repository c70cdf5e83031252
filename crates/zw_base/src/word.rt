// A text of bytes that isn't known to be UTF-8.
ghost use Rattle.std.specs.Prelude.{◌≡◌, IfOk};

use crate::Oom;
use std::alloc::Global;
use std::marker::Model;

/// A command word, a path or a name: any bytes. Contracts see the list of them.
#[derive(Debug, Drop)]
pub struct Word {
    bytes: Vec<u8>,
}

impl Model for Word {
    ghost use Rattle.std.specs.Prelude.{List, ℕ};

    ghost Value = { List ℕ };

    ghost view = { λ w. w.bytes.items };
}

impl Word {
    /// A word of these bytes.
    pub fn copy(alloc: Global, bytes: &[u8]) -> Result<Word, Oom>
        ensures { IfOk result (λ w. w ≡ bytes.now) }
    {
        let bytes = Vec::from_slice(alloc, bytes)?;
        Ok(Word { bytes })
    }

    /// The word's bytes.
    pub fn bytes(&self) -> &[u8]
        ensures { result.now ≡ self.now }
    {
        &self.bytes
    }
}
