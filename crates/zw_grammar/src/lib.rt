//! Grammars as data, what a text's reading by one is and where it stops, and the one machine that reads by it. It must not know:
//! the rules of Zig's grammar.
#![tactic(auto)]

mod builder;
mod grammar;
mod laws;
mod machine;
mod places;
mod table;

pub use builder::{Builder, Built, MAX_DEPTH};
pub use grammar::{Alternative, Entry, Mark, Rule, Symbol};
pub use laws::{
    nodes_are_few, nodes_in_order, one_nested, one_reading, one_wrong, read_or_stopped,
};
pub use machine::{End, read};
pub use table::add_rules;
