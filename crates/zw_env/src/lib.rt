//! What the rules of the analysis work with: parts, requests, the children of a node by what they are for, and what is counted;
//! definitions alone. It must not know: the walk over a tree.
#![tactic(auto)]

mod laws;

pub use laws::counts_are_worked;
