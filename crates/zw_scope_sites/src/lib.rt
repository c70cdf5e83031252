//! What a node of a tree is to names: its kind, what a container declares, and where each node stands, with the names that are
//! visible, the labels that are open and the jumps that are taken there. It must not know: which rules on names there are.
#![tactic(auto)]

pub mod kinds;
pub mod lists;
pub mod nodes;
pub mod place;
pub mod sites;
mod tables;
