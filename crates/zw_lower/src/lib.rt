//! From programs to modules, and that a module does what the file of its program means. It must not know: texts.
#![tactic(auto)]

mod bodies;
mod programs;
mod tables;

pub use programs::lower;
