// Why an operation on whole numbers gives none.
use thiserror::Error;

/// Why an operation on whole numbers has no result (Zig Language Reference 0.13.0, Undefined Behavior).
#[derive(Clone, Copy, Debug, PartialEq, Eq, Error)]
pub enum NumFault {
    /// The exact result is no value of the type.
    #[error("the exact result is not in the type")]
    Overflow,
    /// A division by zero.
    #[error("a division by zero")]
    DivZero,
    /// A division that is to be exact leaves a rest.
    #[error("an exact division leaves a rest")]
    Remainder,
    /// The amount of a shift is negative, or not below the width of the type.
    #[error("a shift amount is negative or not below the width")]
    ShiftAmount,
    /// A shift that is to be exact loses bits that count.
    #[error("an exact shift loses bits")]
    ShiftBits,
    /// A cast's number is no value of the type that it is cast to.
    #[error("a cast's number is not in the type")]
    Truncated,
    /// A negative number is cast to an unsigned type.
    #[error("a negative number is cast to an unsigned type")]
    Negative,
}
