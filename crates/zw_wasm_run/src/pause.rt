// What a step comes to, and where the instructions of a call pause.

/// What a step comes to.
#[derive(Clone, Copy, Debug, PartialEq, Eq)]
pub enum Taken {
    /// The code goes on.
    Goes,
    /// The imported function with this number is called: its arguments are the last words.
    Calls(u32),
    /// A trap, by its cause.
    Traps(u8),
}

/// Where the instructions of a call pause.
#[derive(Clone, Copy, Debug, PartialEq, Eq)]
pub enum Pause {
    /// The call has ended. The words are its results.
    Over,
    /// Another instruction is due, and no step is left.
    StepsOut,
    /// The imported function with this number is called: its arguments are the last words. A step was taken.
    Calls(u32),
    /// A trap, by its cause. A step was taken.
    Traps(u8),
}
