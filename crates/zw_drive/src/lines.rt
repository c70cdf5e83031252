// The lines of the usage and of faults, which are printed to the diagnostics. Each ends with LF.

/// The line for words that are no command.
pub const USAGE: &str = "usage: check, build, run, exec, validate, load\n";

/// The line for a tree that failed.
pub const TREE_FAULT: &str = "fault tree\n";

/// The line for an input that failed.
pub const INPUT_FAULT: &str = "fault input\n";

/// The line for an output that failed.
pub const OUT_FAULT: &str = "fault out\n";
