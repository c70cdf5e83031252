//! What leaving scopes runs: the statements that were deferred in them. It must not know: trees, values, stages.
#![tactic(auto)]

mod exits;
mod laws;

pub use exits::{Scope, exit_list};
pub use laws::{exits_are_worked, scopes_one_by_one, statements_in_reverse};
