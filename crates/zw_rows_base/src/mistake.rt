// What is wrong with a table.
use std::alloc::{AllocError, AllocFailed};
use thiserror::Error;

/// Why a row can't be run.
#[derive(Clone, Copy, Debug, PartialEq, Eq, Error)]
pub enum Mistake {
    /// A line of the table is wrong.
    #[error("line {0}: {1}")]
    Wrong(usize, Problem),
    #[error("out of memory")]
    Oom,
}

/// What is wrong with a line.
#[derive(Clone, Copy, Debug, PartialEq, Eq, Error)]
pub enum Problem {
    #[error("a row without an end")]
    NoEnd,
    #[error("an unknown kind of row")]
    UnknownKind,
    #[error("an unknown word")]
    UnknownWord,
    #[error("bytes that no line of the row takes")]
    NoBytesWanted,
    #[error("a word is missing")]
    MissingWord,
    #[error("a number is wrong or out of range")]
    BadNumber,
    #[error("no literal of the row's kind")]
    BadLiteral,
    #[error("wrong hexadecimal")]
    BadHex,
    #[error("a wrong escape")]
    BadEscape,
    #[error("no bytes have this name")]
    UnknownName,
    #[error("the row's text is refused")]
    Refused,
}

impl From<AllocError> for Mistake {
    fn from(_: AllocError) -> Mistake {
        Mistake::Oom
    }
}

impl<T: Drop> From<AllocFailed<T>> for Mistake {
    fn from(_: AllocFailed<T>) -> Mistake {
        Mistake::Oom
    }
}
