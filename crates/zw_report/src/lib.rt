//! The lines that tell of a session (calls, host calls, ends) and the line of a stop, with the names of panics, errors and
//! limits. It must not know: how a session runs, the words of a command, the outputs.
#![tactic(auto)]

mod arg;
mod end;
mod item;
mod laws;
mod lines;
mod names;
mod panics;
mod stops;

pub use arg::Arg;
pub use end::End;
pub use item::ItemTy;
pub use laws::{
    ends_are_worked, lines_are_words, lines_are_worked, one_reading, panics_are_worked,
    stops_are_worked,
};
pub use lines::{call_line, end_line, event_line};
pub use names::shown;
pub use stops::stop_line;
