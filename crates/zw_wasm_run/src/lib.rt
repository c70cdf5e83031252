//! Machines of valid modules: how they begin, and calls of their exported functions with replies of the host, exactly by the
//! standard's reduction. It must not know: texts, printed lines.
#![tactic(auto)]

mod ask;
mod begin;
mod branches;
mod calls;
mod code;
mod control;
mod entry;
mod event;
mod execute;
mod function;
mod held;
mod host;
mod indirect;
mod invoke;
mod laws;
mod machine;
mod operands;
mod pause;
mod replies;
mod run;
mod sequences;
mod settle;
mod shared;
mod shown;
mod stacks;
mod step;
mod store;

pub use event::{Event, Outcome};
pub use held::Machine;
pub use laws::calls_are_worked;
pub use machine::{NewErr, Show};
pub use replies::Replies;
