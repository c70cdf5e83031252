//! The rules on names, labels and jumps in one file: the first violation, and which declaration each identifier names. It must
//! not know: how a text is read.
#![tactic(auto)]

mod check;
mod laws;
mod members;
mod repeats;
mod rules;
mod told;

pub use check::check_names;
pub use laws::{named_or_broken, names_are_worked, never_both, one_first_violation};
pub use members::Members;
