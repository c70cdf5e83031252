//! The code of operators where a type has more than 32 bits, on words of 64 bits: sums, differences, products, operators on
//! bits, shifts, comparisons and `!`; and the pieces of which other code on these words is made. It must not know: texts,
//! programs, which operators are served.
#![tactic(auto)]

mod arithmetic;
mod bits;
mod order;
mod products;
mod ranges;
mod sums;
mod truth;
mod widths;

pub use arithmetic::{push_wide_difference, push_wide_product, push_wide_sum, push_wide_wrapped};
pub use bits::{
    are_wide_amounts, push_both_got, push_far_tested, push_wide_bitwise, push_wide_left,
    push_wide_minus_one, push_wide_opposite, push_wide_right, push_wide_same, push_wide_truncated,
    push_zero_tested,
};
pub use order::{both_fit, both_unsigned, push_wide_comparison, push_wide_extreme};
pub use products::push_product_words;
pub use ranges::push_outside;
pub use sums::{
    push_crossed, push_difference_words, push_long_less, push_low_word, push_sum_words,
};
pub use truth::push_wide_not;
pub use widths::{
    all_signed, all_unsigned, fill_words, is_signed, long_half, long_mask, push_if_shorter,
    push_long_moved, push_settled, push_spread, push_wide_fitted, push_widened,
};
