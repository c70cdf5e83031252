//! The analysis of a file of scalars and the meaning of its exports: the walk that interprets the rules of the forms;
//! definitions alone. It must not know: modules.
#![tactic(auto)]

mod laws;

pub use laws::{
    forms_are_worked, known_values_have_their_types, larger_bounds_give_the_same,
    programs_are_worked, programs_mean_their_files, statements_are_worked, texts_are_worked,
    unreached_declarations_are_free, unreached_declarations_may_grow,
};
