//! Modules from their bytes (WebAssembly Core Specification 1.0, chapter 5), exactly where the bytes spell one; else the place
//! and cause where reading stops. It must not know: what modules do.
#![tactic(auto)]

mod bytes;
mod entries;
mod expressions;
mod instructions;
mod laws;
mod module;
mod opcodes;
mod room;
mod sections;
mod stop;
mod types;
mod unread;
mod vectors;

pub use laws::{no_module, one_module, one_stop_of_bytes};
pub use module::read;
pub use stop::{BadCode, ReadErr};
