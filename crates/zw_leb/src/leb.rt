// A spelling, held in place.
ghost use Rattle.std.specs.Prelude.{◌≡◌, ◌<◌, ◌≤◌, ◌+◌, ◌++◌, [], ◌∷◌, take};

/// The spelling of a number: the first `len` of these bytes, of which there are ten at most.
#[derive(Clone, Copy, Debug, PartialEq, Eq)]
pub struct Leb {
    pub bytes: [u8; 10],
    pub len: u8,
    ghost few: { len ≤ 10 },
}

impl Leb {
    /// No bytes yet.
    pub(crate) fn new() -> Leb
        ensures bytes { take result.len result.bytes ≡ [] }
        ensures len { result.len ≡ 0 }
    {
        Leb {
            bytes: [0; 10],
            len: 0,
        }
    }

    /// Appends a byte.
    pub(crate) fn push(&mut self, byte: u8)
        requires { self.old.len < 10 }
        ensures bytes { take self.new.len self.new.bytes ≡ take self.old.len self.old.bytes ++ byte ∷ [] }
        ensures len { self.new.len ≡ self.old.len + 1 }
    {
        self.bytes[self.len as usize] = byte;
        self.len += 1;
    }

    /// The bytes of the spelling.
    pub fn as_slice(&self) -> &[u8]
        ensures { result.now ≡ take self.now.len self.now.bytes }
    {
        &self.bytes[..self.len as usize]
    }
}
