//! Zig's grammar as a table, and the reading of an expression, a body and a file by it, over terminals and over tokens. It must
//! not know: how nodes are numbered.
#![tactic(auto)]

mod laws;
mod reading;
mod rule;
mod table;
mod terminal;
mod terminals;

pub use laws::{
    file_or_stopped, file_or_wrong, files_are_small, one_end, one_file, one_nested_file,
    one_wrong_file,
};
pub use reading::{body, expr, root};
pub use zw_grammar::{Builder, Built, End};
