//! Places in values: reading and writing the part that a path leads to; and, as definitions, the object store, unchecked illegal
//! behaviour, coercions and operators. It must not know: layout, texts, programs.
#![tactic(auto)]

mod laws;
mod paths;
mod types;

pub use laws::{
    other_paths_stay, same_types_are_equal, saved_values, stores_are_worked, worked_operations,
    written_is_read,
};
pub use paths::{read_at, write_at};
pub use types::{integer_type, is_same};
