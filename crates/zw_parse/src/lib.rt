//! The tree of a text: its tokens read by the grammar, and the nodes put into preorder with their places, names and numbers; or
//! the text's stop. It must not know: the rules of the grammar.
#![tactic(auto)]

mod laws;
mod order;
mod places;
mod spelling;
mod syntax;
mod tree;

pub use laws::{
    depth_is_limited, one_stop_of_syntax, one_tree, tokens_of_trees, tree_or_stop, trees_are_small,
};
pub use syntax::{NESTING, SYNTAX, parse};
pub use tree::tree_of;
