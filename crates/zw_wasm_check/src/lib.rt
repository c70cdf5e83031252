//! Whether a module is valid, by the standard's algorithm, and else its first violation. It must not know: what modules do.
#![tactic(auto)]

mod accesses;
mod body;
mod branches;
mod constants;
mod context;
mod entries;
mod exports;
mod laws;
mod locals;
mod module;
mod operands;
mod outside;
mod stacks;
mod step;
mod values;

pub use laws::valid_without_violation;
pub use module::{CheckErr, Checked, check};
