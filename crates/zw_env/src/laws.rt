// What holds of the definitions themselves.
ghost use Rattle.zw_env.specs.WorkedCounts.{WorkedCounts};

/// Where counts end, and what a unit begins with, worked out by hand.
pub fn counts_are_worked()
    ensures { WorkedCounts }
{}
