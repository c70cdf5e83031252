// How a command ends.

/// The statuses of a command. Each is a number that the program ends with.
#[derive(Clone, Copy, Debug, PartialEq, Eq)]
pub enum Status {
    /// All was written.
    Done = 0,
    /// The tree of files has a stop, or the file is absent or too long.
    Stopped = 1,
    /// The words are no command, or what was asked for, or a reply, isn't there.
    Usage = 2,
    /// The session panicked.
    Panicked = 3,
    /// The session took all its steps.
    StepsOut = 4,
    /// The session wanted a reply and none was left.
    WantsReply = 5,
    /// The file is no valid module, or can't run.
    Invalid = 6,
    /// The tree failed.
    TreeFault = 7,
    /// The input failed.
    InputFault = 8,
    /// The output failed.
    OutFault = 9,
    /// The diagnostics failed.
    DiagFault = 10,
    /// There was no memory.
    OutOfMemory = 11,
    /// The session trapped without a panic's cause.
    Trapped = 12,
}

impl Status {
    ghost use Rattle.std.specs.Prelude.{◌≡◌};
    ghost use Rattle.zw_drive.specs.Statuses.{code_of};

    /// The number that the program ends with.
    pub fn number(self) -> u8
        ensures { result ≡ code_of self }
    {
        self as u8
    }
}
