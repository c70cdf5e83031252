// What an instruction comes to.

/// What an instruction comes to.
#[derive(Clone, Copy, Debug, PartialEq, Eq)]
pub enum Effect {
    /// The code goes on.
    Goes,
    /// A trap, by its cause.
    Traps(u8),
}

/// The cause of a trap where no rule applies, which valid code never meets.
pub const NO_RULE: u8 = 0;

/// The instruction `Unreachable`.
pub const UNREACHABLE: u8 = 1;

/// A place outside the memory.
pub const BOUNDS: u8 = 2;

/// A divisor of 0.
pub const ZERO_DIVISOR: u8 = 3;

/// A result that no bits of the type stand for.
pub const OVERFLOW: u8 = 4;

/// Too many frames.
pub const FRAMES: u8 = 7;

/// A hole of the table, or a place outside it.
pub const NO_ENTRY: u8 = 5;

/// A function of another type.
pub const SIGNATURE: u8 = 6;
