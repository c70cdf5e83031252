//! The compiler as one call: from the words of a command line, over a tree of files, an input and two outputs, to a status. It
//! must not know: real files and streams.
#![tactic(auto)]

mod build;
mod command;
mod compile;
mod denial;
mod drive;
mod exec;
mod laws;
mod lines;
mod prepare;
mod refusal;
mod report;
mod say;
mod status;
mod validate;

pub use drive::zig;
pub use laws::{limits_are_fixed, one_due, sessions_are_of_fitting_calls, sessions_stay_ended};
