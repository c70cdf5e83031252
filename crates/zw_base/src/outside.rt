// The tree of files, the input and the outputs, as everything above sees them. Each has a count of its faults,
// which rises exactly where a call fails, so that no answer can blame the outside without a cause.
ghost use Rattle.std.specs.Prelude.{ℕ, List, Option, ◌≤◌, length, vec_len, IfOk};
ghost use Rattle.std.specs.Io.KnownBytes.{ReadConsumes, WriteAppends};
ghost use Rattle.zw_base.specs.declared.files.Handed.{Handed};
ghost use Rattle.zw_base.specs.Faults.{Counts};
ghost use Rattle.zw_base.specs.Outside.{AddsPair, load_failed, read_failed, put_failed};

use crate::{Oom, Word};
use std::alloc::Global;
use thiserror::Error;

/// Why a load gave no bytes.
#[derive(Clone, Copy, Debug, PartialEq, Eq, Error)]
pub enum LoadErr {
    #[error("the file is absent")]
    Absent,
    #[error("the file is too long")]
    TooLong,
    #[error("the tree failed")]
    Failed,
    #[error("out of memory")]
    Oom,
}

impl From<Oom> for LoadErr {
    ghost use Rattle.std.specs.Prelude.{◌≡◌};
    ghost use Rattle.zw_base.specs.declared.outside.LoadErr.TheVariants.{Oom};

    ghost from_gives = { λ _ e. e ≡ Oom };

    fn from(_: Oom) -> LoadErr {
        LoadErr::Oom
    }
}

/// A source failed.
#[derive(Clone, Copy, Debug, PartialEq, Eq, Error)]
#[error("the source failed")]
pub struct Failed;

/// Why a sink took nothing.
#[derive(Clone, Copy, Debug, PartialEq, Eq, Error)]
pub enum PutErr {
    #[error("the sink failed")]
    Failed,
    #[error("out of memory")]
    Oom,
}

impl From<Oom> for PutErr {
    ghost use Rattle.std.specs.Prelude.{◌≡◌};
    ghost use Rattle.zw_base.specs.declared.outside.PutErr.TheVariants.{Oom};

    ghost from_gives = { λ _ e. e ≡ Oom };

    fn from(_: Oom) -> PutErr {
        PutErr::Oom
    }
}

/// A tree of files.
pub trait Tree {
    /// The pairs of path and answer that it has handed over so far.
    ghost loaded: { Self → List Handed };

    /// How often it has failed. The count stands still at 2^64 - 1.
    ghost faults: { Self → ℕ };

    /// The bytes of the file at this path, where it has at most `limit` of them. The path is any bytes.
    fn load(&mut self, alloc: Global, path: &Word, limit: u64) -> Result<Vec<u8>, LoadErr>
        ensures within { IfOk result (λ bytes. vec_len bytes ≤ limit) }
        ensures pair { AddsPair (loaded self.old) (loaded self.new) path.now limit result }
        ensures cause { Counts (faults self.old) (faults self.new) (load_failed result) };
}

/// A stream of bytes that is read.
pub trait Source {
    /// The bytes still to come, where it tells them.
    ghost left: { Self → Option (List ℕ) };

    /// How often it has failed. The count stands still at 2^64 - 1.
    ghost faults: { Self → ℕ };

    /// Puts the next bytes at the front of `buf`, and says how many. 0 for a buffer that isn't empty is the end.
    fn read(&mut self, buf: &mut [u8]) -> Result<usize, Failed>
        ensures within { IfOk result (λ n. n ≤ length buf.old) }
        ensures content { ReadConsumes (left self.old) (left self.new) result buf.new }
        ensures cause { Counts (faults self.old) (faults self.new) (read_failed result) };
}

/// A stream of bytes that is written.
pub trait Sink {
    /// The bytes that it has taken so far, where it tells them.
    ghost taken: { Self → Option (List ℕ) };

    /// How often it has failed. The count stands still at 2^64 - 1.
    ghost faults: { Self → ℕ };

    /// Takes bytes from the front of the piece, and says how many. None of a piece that isn't empty is a fault.
    fn put(&mut self, bytes: &[u8]) -> Result<usize, PutErr>
        ensures within { IfOk result (λ n. n ≤ length bytes.now) }
        ensures content { WriteAppends (taken self.old) (taken self.new) result bytes.now }
        ensures cause { Counts (faults self.old) (faults self.new) (put_failed bytes.now result) };
}
