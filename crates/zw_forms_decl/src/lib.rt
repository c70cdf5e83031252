//! The rules of exported functions, functions of the host, parameters, constants, blocks, `return` and calls; definitions alone.
//! It must not know: the walk over a tree.
#![tactic(auto)]
