//! What one instruction does to words: numbers as words of 64 bits, the operators on them, locals and globals, the operands that
//! a branch takes, the bytes of a memory, and the segments that tables and memories begin with. It must not know: machines,
//! calls, the host.
#![tactic(auto)]

pub mod accesses;
mod effect;
mod enter;
mod fault;
mod frame;
pub mod globals;
pub mod labels;
mod laws;
pub mod locals;
mod memory;
mod narrow;
pub mod operands;
mod segments;
mod wide;
mod words;

pub use effect::{
    BOUNDS, Effect, FRAMES, NO_ENTRY, NO_RULE, OVERFLOW, SIGNATURE, UNREACHABLE, ZERO_DIVISOR,
};
pub use enter::push_locals;
pub use frame::{Frame, Label};
pub use laws::segments_are_worked;
pub use segments::{place_datas, place_elements};
pub use words::low;
