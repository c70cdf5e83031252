//! Exact arithmetic on whole numbers of Zig's integer types, as definitions over the integers and as functions that equal them;
//! it takes no memory. It must not know: texts, WebAssembly.
//!
//! Every call's operands are values of its type, unless the call says otherwise.
#![tactic(auto)]

mod bits;
mod counting;
mod exact;
mod families;
mod int_ty;
mod laws;
mod num_fault;
mod operator;
mod reversal;
mod rounding;
mod saturating;
mod shifts;
mod wrapping;

pub use bits::{bit_and, bit_not, bit_or, bit_xor};
pub use counting::{clz, ctz, pop_count};
pub use exact::{add, cast, mul, neg, sub};
pub use families::{
    arithmetic, bitwise, compared, converted, counted, division, extreme, shift, truth, unary,
};
pub use int_ty::IntTy;
pub use laws::{
    bit_operators, counts, exact_answers, faults_are_told, quotients, reversals, saturated_values,
    twice, type_ranges, unsigned_arithmetic, wrapped_values, wrapping_is_exact,
};
pub use num_fault::NumFault;
pub use operator::{
    Arithmetic, Bitwise, Cast, Comparison, Count, Division, Extreme, Logic, Measure, Operator,
    Shift, Unary,
};
pub use reversal::{bit_reverse, byte_swap};
pub use rounding::{div_exact, div_floor, div_trunc, modulo, rem};
pub use saturating::{add_sat, mul_sat, shl_sat, sub_sat};
pub use shifts::{shl, shl_exact, shr, shr_exact};
pub use wrapping::{add_wrap, mul_wrap, sub_wrap, truncate};
