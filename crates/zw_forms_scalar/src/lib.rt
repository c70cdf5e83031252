//! The rules of literals, names, operators and builtins on integers, truth values and types; definitions alone. It must not
//! know: the walk over a tree.
#![tactic(auto)]
