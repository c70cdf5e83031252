//! LEB128, the spellings of whole numbers in the bytes of a module (WebAssembly Core Specification 1.0, 5.2.2): written
//! shortest, read in every valid spelling; it takes no memory. It must not know: modules.
#![tactic(auto)]

mod get;
mod laws;
mod leb;
mod put;

pub use get::{get_i32, get_i64, get_u32};
pub use laws::{longer_numbers, one_number, read_back, shortest_number};
pub use leb::Leb;
pub use put::{put_i32, put_i64, put_u32};
