// How a session ends.

/// How a session ends: all its calls returned, or what ended its last call. Each is the number of a status.
#[derive(Clone, Copy, Debug, PartialEq, Eq)]
pub enum SessionEnd {
    /// All calls returned.
    Done = 0,
    /// A trap with a panic's cause.
    Panicked = 3,
    /// All steps were taken.
    StepsOut = 4,
    /// A reply was wanted and none was left.
    WantsReply = 5,
    /// A trap without a panic's cause.
    Trapped = 12,
}

impl SessionEnd {
    ghost use Rattle.std.specs.Prelude.{◌≡◌};
    ghost use Rattle.zw_exec.specs.Ends.{status_of};

    /// The status of a session that ends so.
    pub fn status(self) -> u8
        ensures { result ≡ status_of self }
    {
        self as u8
    }
}
