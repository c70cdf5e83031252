// The records of a module, as the WebAssembly Core Specification 1.0 has them in section 2.5, without floats,
// custom sections, and imports other than functions. Contracts see each `Items` as the list of its items.
ghost use Rattle.std.specs.Prelude.{◌≡◌, IfOk};

use crate::place::PlaceCode;
use sqlite_items::{Boxed, Items};
use std::alloc::{AllocError, Global};

/// The type of a value (2.3.1).
#[derive(Clone, Copy, Debug, PartialEq, Eq)]
pub enum ValType {
    I32,
    I64,
}

/// The types of a function's parameters, and of its result where it has one (2.3.3).
#[derive(Debug, Drop)]
pub struct FuncType {
    pub params: Items<ValType>,
    pub result: Option<ValType>,
}

/// An imported function: the names of its module and of itself, and the number of its type (2.5.11).
#[derive(Debug, Drop)]
pub struct FuncImport {
    pub module: Items<u8>,
    pub field: Items<u8>,
    pub ty: u32,
}

/// The least and, where there is one, the greatest size of a table or of a memory in pages (2.3.4).
#[derive(Clone, Copy, Debug, PartialEq, Eq)]
pub struct Limits {
    pub least: u32,
    pub greatest: Option<u32>,
}

/// A global variable with the code of its first value (2.5.6). The code ends with `Instr::End`.
#[derive(Debug, Drop)]
pub struct GlobalDef {
    pub ty: ValType,
    pub mutable: bool,
    pub init: Items<Instr>,
}

/// An export (2.5.10): its name, what it is (`EXPORT_FUNC` and its like), and the number among these.
#[derive(Debug, Drop)]
pub struct ExportDef {
    pub name: Items<u8>,
    pub kind: u8,
    pub index: u32,
}

impl ExportDef {
    /// The kind of an exported function.
    pub const FUNC: u8 = 0;
    /// The kind of an exported table.
    pub const TABLE: u8 = 1;
    /// The kind of an exported memory.
    pub const MEMORY: u8 = 2;
    /// The kind of an exported global.
    pub const GLOBAL: u8 = 3;
}

/// The functions that a part of a table begins with (2.5.7). The code of the place ends with `Instr::End`.
#[derive(Debug, Drop)]
pub struct Element {
    pub table: u32,
    pub at: PlaceCode,
    pub funcs: Items<u32>,
}

/// The bytes that a part of a memory begins with (2.5.8). The code of the place ends with `Instr::End`.
#[derive(Debug, Drop)]
pub struct DataSegment {
    pub memory: u32,
    pub at: PlaceCode,
    pub bytes: Items<u8>,
}

/// A function's body (2.5.3): its locals beside the parameters, in runs of a number and a type, and its code,
/// a flat list that ends with `Instr::End`.
#[derive(Debug, Drop)]
pub struct CodeBody {
    pub locals: Items<(u32, ValType)>,
    pub instrs: Items<Instr>,
}

/// An instruction (2.4), with its operands as they stand in the bytes.
#[derive(Debug, Drop)]
pub enum Instr {
    /// Traps.
    Unreachable,
    /// Does nothing.
    Nop,
    /// Begins code up to an `End`, to which a branch goes. The type is that of its result, where it has one.
    Block(Option<ValType>),
    /// Begins code up to an `End`. A branch begins it anew.
    Loop(Option<ValType>),
    /// Takes an `i32`, and begins code that runs where it isn't 0, up to an `Else` or `End`.
    If(Option<ValType>),
    /// Begins the code that runs where the `i32` was 0.
    Else,
    /// Ends a body, an expression, or what `Block`, `Loop` or `If` began.
    End,
    /// Branches to the label with this number, where the innermost is 0.
    Br(u32),
    /// Takes an `i32`, and branches where it isn't 0.
    BrIf(u32),
    /// Takes an `i32`, and branches to the label at that place of the list, or past the list to the default.
    BrTable {
        default: u32,
        labels: Boxed<Items<u32>>,
    },
    /// Returns from the function.
    Return,
    /// Calls the function with this number, among the imported ones and those with a body.
    Call(u32),
    /// Takes an `i32`, and calls the function at that place of the table, which has to be of the type with this number.
    CallIndirect(u32),
    /// Takes a value.
    Drop,
    /// Takes two values of one type and an `i32`, and gives the first, or the second where the `i32` is 0.
    Select,
    /// The value of the parameter or local with this number.
    LocalGet(u32),
    /// Takes a value for the parameter or local with this number.
    LocalSet(u32),
    /// The same, and the value stays.
    LocalTee(u32),
    /// The value of the global with this number.
    GlobalGet(u32),
    /// Takes a value for the global with this number.
    GlobalSet(u32),
    /// Takes an address, and gives what the memory has there.
    Load(LoadKind, MemoryArgument),
    /// Takes an address and a value, and writes the value there.
    Store(StoreKind, MemoryArgument),
    /// The size of the memory in pages.
    MemorySize,
    /// Takes a number of pages by which the memory is to grow, and gives its size before, or -1 where it doesn't grow.
    MemoryGrow,
    /// This number.
    I32Const(i32),
    /// This number.
    I64Const(i64),
    /// Takes a value of the type, and tells whether it is 0: 1 or 0 (`eqz`).
    IsZero(ValType),
    /// Takes two values of the type, and gives 1 where they are so related, and else 0.
    Compare(ValType, Comparison),
    /// Takes a value of the type, and gives another.
    Unary(ValType, UnaryOperator),
    /// Takes two values of the type, and gives another.
    Binary(ValType, BinaryOperator),
    /// Takes a value of the one type, and gives one of the other.
    Convert(Conversion),
}

// An instruction takes 16 bytes, so that the code of a file of 128 MiB takes at most 2 GiB.
const _: () = prove!(size_of::<Instr>() == 16);

impl Instr {
    /// The same instruction anew.
    pub fn copy(&self, alloc: Global) -> Result<Instr, AllocError>
        ensures { IfOk result (λ it. it ≡ self.now) }
    {
        Ok(match self {
            Instr::BrTable { default, labels } => Instr::BrTable {
                default: *default,
                labels: Boxed::new(alloc, Items::from_slice(alloc, labels.get().as_slice())?)?,
            },
            Instr::Unreachable => Instr::Unreachable,
            Instr::Nop => Instr::Nop,
            Instr::Block(result_type) => Instr::Block(*result_type),
            Instr::Loop(result_type) => Instr::Loop(*result_type),
            Instr::If(result_type) => Instr::If(*result_type),
            Instr::Else => Instr::Else,
            Instr::End => Instr::End,
            Instr::Br(label) => Instr::Br(*label),
            Instr::BrIf(label) => Instr::BrIf(*label),
            Instr::Return => Instr::Return,
            Instr::Call(func) => Instr::Call(*func),
            Instr::CallIndirect(ty) => Instr::CallIndirect(*ty),
            Instr::Drop => Instr::Drop,
            Instr::Select => Instr::Select,
            Instr::LocalGet(n) => Instr::LocalGet(*n),
            Instr::LocalSet(n) => Instr::LocalSet(*n),
            Instr::LocalTee(n) => Instr::LocalTee(*n),
            Instr::GlobalGet(n) => Instr::GlobalGet(*n),
            Instr::GlobalSet(n) => Instr::GlobalSet(*n),
            Instr::Load(kind, at) => Instr::Load(*kind, *at),
            Instr::Store(kind, at) => Instr::Store(*kind, *at),
            Instr::MemorySize => Instr::MemorySize,
            Instr::MemoryGrow => Instr::MemoryGrow,
            Instr::I32Const(z) => Instr::I32Const(*z),
            Instr::I64Const(z) => Instr::I64Const(*z),
            Instr::IsZero(ty) => Instr::IsZero(*ty),
            Instr::Compare(ty, comparison) => Instr::Compare(*ty, *comparison),
            Instr::Unary(ty, operator) => Instr::Unary(*ty, *operator),
            Instr::Binary(ty, operator) => Instr::Binary(*ty, *operator),
            Instr::Convert(conversion) => Instr::Convert(*conversion),
        })
    }
}

/// The operands of a load or a store (2.4.4): the exponent of the alignment to the base 2, and what is added to the address.
#[derive(Clone, Copy, Debug, PartialEq, Eq)]
pub struct MemoryArgument {
    pub align: u32,
    pub offset: u32,
}

/// What a load reads (2.4.4): a whole value, or so many bits with a sign (`S`) or without (`U`). The numbers are the
/// opcodes (5.4.3).
#[derive(Clone, Copy, Debug, PartialEq, Eq)]
pub enum LoadKind {
    I32 = 0x28,
    I64 = 0x29,
    I32S8 = 0x2C,
    I32U8 = 0x2D,
    I32S16 = 0x2E,
    I32U16 = 0x2F,
    I64S8 = 0x30,
    I64U8 = 0x31,
    I64S16 = 0x32,
    I64U16 = 0x33,
    I64S32 = 0x34,
    I64U32 = 0x35,
}

/// What a store writes (2.4.4): a whole value, or its lowest bits. The numbers are the opcodes (5.4.3).
#[derive(Clone, Copy, Debug, PartialEq, Eq)]
pub enum StoreKind {
    I32 = 0x36,
    I64 = 0x37,
    I32Low8 = 0x3A,
    I32Low16 = 0x3B,
    I64Low8 = 0x3C,
    I64Low16 = 0x3D,
    I64Low32 = 0x3E,
}

/// How two numbers are related (2.4.1). Those that end in `S` read the bits with a sign, those in `U` without. The numbers
/// are the opcodes for `i32` (5.4.5).
#[derive(Clone, Copy, Debug, PartialEq, Eq)]
pub enum Comparison {
    Eq = 0x46,
    Ne = 0x47,
    LtS = 0x48,
    LtU = 0x49,
    GtS = 0x4A,
    GtU = 0x4B,
    LeS = 0x4C,
    LeU = 0x4D,
    GeS = 0x4E,
    GeU = 0x4F,
}

/// What is computed from a number (2.4.1): its zeros before the highest bit and behind the lowest one that is set, and
/// how many are set. The numbers are the opcodes for `i32` (5.4.5).
#[derive(Clone, Copy, Debug, PartialEq, Eq)]
pub enum UnaryOperator {
    Clz = 0x67,
    Ctz = 0x68,
    Popcnt = 0x69,
}

/// What is computed from two numbers (2.4.1). Those that end in `S` read the bits with a sign, those in `U` without. The
/// numbers are the opcodes for `i32` (5.4.5).
#[derive(Clone, Copy, Debug, PartialEq, Eq)]
pub enum BinaryOperator {
    Add = 0x6A,
    Sub = 0x6B,
    Mul = 0x6C,
    DivS = 0x6D,
    DivU = 0x6E,
    RemS = 0x6F,
    RemU = 0x70,
    And = 0x71,
    Or = 0x72,
    Xor = 0x73,
    Shl = 0x74,
    ShrS = 0x75,
    ShrU = 0x76,
    Rotl = 0x77,
    Rotr = 0x78,
}

/// From one width to the other (2.4.1). The numbers are the opcodes (5.4.5).
#[derive(Clone, Copy, Debug, PartialEq, Eq)]
pub enum Conversion {
    /// The lowest 32 bits (`i32.wrap_i64`).
    Wrap = 0xA7,
    /// The number with a sign (`i64.extend_i32_s`).
    ExtendS = 0xAC,
    /// The number without a sign (`i64.extend_i32_u`).
    ExtendU = 0xAD,
}

/// A module (2.5).
#[derive(Debug, Drop)]
pub struct Module {
    pub types: Items<FuncType>,
    pub imports: Items<FuncImport>,
    /// The number of the type of each function that has a body.
    pub funcs: Items<u32>,
    pub tables: Items<Limits>,
    pub memories: Items<Limits>,
    pub globals: Items<GlobalDef>,
    pub exports: Items<ExportDef>,
    /// The function that runs first.
    pub start: Option<u32>,
    pub elements: Items<Element>,
    pub codes: Items<CodeBody>,
    pub datas: Items<DataSegment>,
}
