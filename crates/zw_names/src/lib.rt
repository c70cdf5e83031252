//! Sets of names, which number their names from 0 in the order in which they came. It must not know: what the names are of.
#![tactic(auto)]

mod sets;

pub use sets::{holds, insert, number_in, number_of};
