// What holds of the definitions themselves: the law is the contract of a function that does nothing.
ghost use Rattle.zw_exec.specs.WorkedSessions.{WorkedSessions};

/// What sessions of small modules tell, worked out by hand.
pub fn sessions_are_worked()
    ensures { WorkedSessions }
{}
