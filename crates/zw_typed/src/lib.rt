//! Typed nodes and their one meaning, the machine of a list of exported functions, and typed programs, which write nodes and
//! types down by their numbers; definitions alone. It must not know: texts.
#![tactic(auto)]

mod laws;
mod program;

pub use laws::{
    calls_stay_ended, fits_are_worked, flow_is_worked, flow_programs_are_worked, names_are_utf8,
    operators_come_to_values, programs_are_never_stuck, programs_are_worked, runs_grow,
    runs_stay_ended, visits_pay,
};
pub use program::{Export, Func, HostFunc, Node, NodeOp, Program};
