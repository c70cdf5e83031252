//! WebAssembly modules without floats: as records, as bytes, when they are valid, and what they do by reduction. It must not
//! know: Zig.
#![tactic(auto)]

mod encode;
mod execution;
mod globals;
mod laws;
mod module;
mod num;
mod place;
mod types;
mod writing;

pub use execution::{
    bodies_are_typed, calls_are_worked, code_is_structured, module_calls_stay_ended,
    modules_are_worked, numbers_are_worked, panics_are_worked, sequences_compose, values_come_in,
};
pub use globals::first_globals;
pub use laws::{export_kinds_are_numbered, no_shorter_module, sequences_close, shortest_module};
pub use module::{
    BinaryOperator, CodeBody, Comparison, Conversion, DataSegment, Element, ExportDef, FuncImport,
    FuncType, GlobalDef, Instr, Limits, LoadKind, MemoryArgument, Module, StoreKind, UnaryOperator,
    ValType,
};
pub use num::Num;
pub use place::PlaceCode;
pub use types::{func_type, same_type};
pub use writing::write;
