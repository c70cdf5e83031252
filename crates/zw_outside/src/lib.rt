//! The outside over memory: a tree of files, an input and outputs whose content is known, each with a form that fails at listed
//! calls and one that never fails. It must not know: real files, Zig, WebAssembly.
#![tactic(auto)]

mod failures;
mod sink;
mod source;
mod tree;

pub use failures::Failures;
pub use sink::{MemSink, SureSink};
pub use source::{MemSource, SureSource};
pub use tree::{HeldFile, MemTree, SureTree};
