//! Words, places and stops; numbers in words; the outside as traits (a tree of files, an input, outputs) with their counts of
//! faults, and a whole text put to an output. It must not know: Zig, WebAssembly, real files.
#![tactic(auto)]

mod files;
mod number;
mod outside;
mod pieces;
mod stop;
mod word;

pub use files::{Answer, Handed, hand_over};
pub use number::read_number;
pub use outside::{Failed, LoadErr, PutErr, Sink, Source, Tree};
pub use pieces::put_all;
pub use std::alloc::AllocError as Oom;
pub use stop::{Place, Refused, Stop, StopKind};
pub use word::Word;
