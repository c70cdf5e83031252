//! The supported subset of a root file: which members are in it, the first that isn't, and the program of those that are. It
//! stands until the analysis of the whole language takes its place. It must not know: modules.
#![tactic(auto)]

mod functions;
mod laws;
mod members;
mod names;
mod nodes;
mod program;
mod read;
mod resolve;
mod roles;
mod rules;
mod source;
mod sums;

pub use laws::{
    form_or_stop, forms_are_small, limits_are_fixed, names_are_reserved, one_form, one_stop,
    stops_are_numbered,
};
pub use members::{FRAME_WEIGHT, NODE_LIMIT, NODES, NOT_BUILT, PARAMETER_WEIGHT, WEIGHT_LIMIT};
pub use names::RESERVED_NAMES;
pub use program::{Action, Function, Import, Program};
pub use read::read_form;
pub use source::{Callee, Declaration, ExportedFunction, ExternFunction, Step};
