// What the calls answer.
use sqlite_items::Boxed;

/// The row of the table of coercions that applies, from 1, and the step of the coercion inside that row, where it has one.
#[derive(Debug, Drop)]
pub struct Step {
    pub row: u8,
    pub inner: Option<Boxed<Step>>,
}

/// Why there is no answer.
#[derive(Clone, Copy, Debug, PartialEq, Eq)]
pub enum Code {
    /// The error with this number refuses the types.
    Error(u16),
    /// Want of memory.
    Oom,
}
