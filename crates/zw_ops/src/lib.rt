//! What operators and builtins give on known integers, truth values and types. It must not know: programs, stores.
#![tactic(auto)]

mod application;
mod cause;
mod extremes;
mod fits;
mod measures;
mod operands;
mod plain;
mod ready;
mod truths;
mod typed;
mod values;

pub use application::apply;
pub use cause::Cause;
pub use ready::is_applicable;
