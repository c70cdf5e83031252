//! Worked rows of the front: inputs and outputs, tokens, literals and trees, each by the calls that it is about. It must not
//! know: types, modules, commands.
#![tactic(auto)]

mod bodies;
mod decimals;
mod literals;
mod sinks;
mod source;
mod tokens;
mod trees;

pub use bodies::check_bodies;
pub use decimals::check_decimals;
pub use literals::{check_chars, check_numbers, check_texts};
pub use sinks::check_sink;
pub use source::check_source;
pub use tokens::{check_lists, check_names, check_tables, check_tokens};
pub use trees::{check_nodes, check_stops, check_trees};
