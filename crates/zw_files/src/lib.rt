//! The files of a tree, from its root on: the paths of imports, the order in which files are found, loaded and read, and the
//! first stop of the rules on files. It must not know: types, modules.
#![tactic(auto)]

mod err;
mod file_set;
mod follow;
mod gathering;
mod laws;
mod paths;
mod read;
mod stops;
mod turn;

pub use err::GatherErr;
pub use file_set::FileSet;
pub use gathering::gather;
pub use laws::{
    discoveries_are_worked, limits_are_fixed, one_discovery, one_end, paths_are_worked,
    stops_are_numbered, texts_read_once,
};
pub use stops::{
    FILE_ABSENT, FILE_LENGTH, FILE_LIMIT, FILES, FILES_LIMIT, IMPORT_PATH, TREE_LENGTH, TREE_LIMIT,
};
