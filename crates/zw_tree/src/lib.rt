//! The tree of a text: its kinds of nodes with the children of each, and nodes numbered in preorder, each with its place and its
//! tokens. It must not know: tokens themselves, how a text is read.
#![tactic(auto)]

mod ast;
mod kind;
mod laws;

pub use ast::{Ast, Entry, Node};
pub use kind::NodeKind;
pub use laws::{
    children_have_parents, children_in_order, descendants_are_next, growth_keeps_numbers,
    nodes_in_preorder, numbers_are_of_the_shape, subtrees_are_numbered_on, trees_grow_in_preorder,
};
