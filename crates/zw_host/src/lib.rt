//! The files, the input and the outputs of the system as the compiler sees them: thin adapters, which count each error of the
//! system that they answer as a failure. They are the trusted edge. It must not know: Zig, WebAssembly.
#![tactic(auto)]

mod adapters;

pub use adapters::{HostDiag, HostOut, HostSource, HostTree};
