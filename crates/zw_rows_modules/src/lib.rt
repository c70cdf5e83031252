//! Worked rows of modules: their bytes, the code of operators and its runs, and machines that the rows of sessions call. It must
//! not know: texts, commands.
#![tactic(auto)]

mod code;
mod leb;
mod machines;
mod modules;
mod runs;

pub use code::check_code;
pub use leb::check_leb;
pub use machines::{Host, call, machine_of, panic_cause};
pub use modules::{check_reads, check_written};
pub use runs::check_runs;
