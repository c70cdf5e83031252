//! The tokens of a Zig file and its first stop: the lexer, what literals stand for, and the tables of keywords, signs, builtins
//! and primitive names. It must not know: the grammar.
#![tactic(auto)]

mod bad;
mod bytes;
mod first;
mod laws;
mod lexer;
mod literals;
mod names;
mod numbers;
mod tables;
mod token;
mod values;

pub use laws::{
    decimals_are_numbers, digits_alone, names_are_words, one_list, one_stop, signs_are_longest,
    stop_or_list, texts_without_escapes, tokens_alone, tokens_in_order, words_are_spelled,
};
pub use lexer::tokens;
pub use names::{is_primitive_name, is_refused_name};
pub use numbers::{is_decimal, number_value};
pub use tables::{BUILTINS, KEYWORDS, SIGNS};
pub use token::{TextError, Token, TokenKind};
pub use values::{char_value, text_value};
