//! The session of a module's file: its calls run by a machine, told in lines and written to an output. It must not know: the
//! words of a command, files, the text of replies.
#![tactic(auto)]

mod call;
mod end;
mod host;
mod laws;
mod session;
mod told;

pub use call::SessionCall;
pub use end::SessionEnd;
pub use laws::sessions_are_worked;
pub use session::run_session;
