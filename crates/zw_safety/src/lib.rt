//! Which operators are served on which types, and the code of each on types of any width. It must not know: texts, programs.
#![tactic(auto)]

mod families;

pub use families::{has_checked, push_checked, writes_locals};
