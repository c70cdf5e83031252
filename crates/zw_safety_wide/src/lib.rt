//! The code of operators where a type has more than 32 bits: casts, absolute values, counts of bits, reversals, quotients and
//! remainders, saturation and exact shifts. It must not know: texts, programs, which operators are served.
#![tactic(auto)]

mod casts;
mod counts;
mod exact;
mod families;
mod reversal;
mod saturating;
mod shares;

pub use counts::push_wide_count;
pub use families::{
    push_wide, push_wide_arithmetic, push_wide_cast, push_wide_division, push_wide_shift,
    push_wide_unary,
};
pub use shares::are_wide_shares;
