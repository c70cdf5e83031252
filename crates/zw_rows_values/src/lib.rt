//! Worked rows of numbers, types and values, each by the calls that it is about. It must not know: texts, modules, commands.
#![tactic(auto)]

mod applied;
mod coercions;
mod num;
mod operators;
mod parts;
mod types;

pub use applied::check_applied;
pub use coercions::check_coercions;
pub use num::{check_num, type_of};
pub use operators::operator_named;
pub use parts::check_parts;
pub use types::check_types;
