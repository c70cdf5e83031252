//! The rules of blocks, choices, loops, leaving, assignments and calls; definitions alone. It must not know: the walk over a tree.
#![tactic(auto)]
