//! The code of operators on integer types of at most 32 bits and on `bool`: instructions that give the exact value, or tell a
//! panic's cause and trap; and the pieces of which other code is made. It must not know: texts, programs, wider types.
#![tactic(auto)]

mod casts;
mod compare;
mod counts;
mod division;
mod exact;
mod families;
mod laws;
mod operators;
mod reversal;
mod saturating;
mod setting;
mod shifts;

pub use casts::holds;
pub use compare::is_unsigned;
pub use families::push_narrow;
pub use laws::narrow_code_is_right;
pub use operators::{INTEGER_OVERFLOW, extension, push_if_panics, push_narrowed};
pub use setting::{GREATEST_SCRATCH, Setting};
pub use shifts::{right_operator, width};
