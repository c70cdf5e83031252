//! A table of worked rows as it is written: its rows, lines, words, numbers and bytes, what is wrong with a row that can't be
//! run, and how what came differs from what was wanted. It must not know: what a row runs.
#![tactic(auto)]

mod cases;
mod fields;
mod mistake;
mod pieces;
mod report;
mod spelling;
mod table;

pub use cases::{Case, case_of};
pub use fields::{Field, fields_of};
pub use mistake::{Mistake, Problem};
pub use report::Report;
pub use spelling::{hex_bytes, natural, small, smalls, unescaped, word, words};
pub use table::{Line, Row, rows_of};
