//! Type soundness of modules: what the validation algorithm accepts has a type by the standard's rules, and code that has one
//! never comes to where no rule applies. It must not know: machines, texts.
//!
//! The functions here do nothing: each contract is a law of the definitions.
#![tactic(auto)]

mod laws;

pub use laws::{
    checked_code_is_typed, exports_run_as_typed, first_stores_are_typed, types_are_worked,
    valid_modules_are_sound,
};
