//! When a value of one type becomes a value of another, and which type several types have in common. It must not know: programs.
#![tactic(auto)]

mod answers;
mod integers;
mod laws;
mod peers;
mod rows;

pub use answers::{Code, Step};
pub use laws::{first_row, peers_of_sized_integers, same_type_stays, valueless_types};
pub use peers::peer;
pub use rows::coerce;
