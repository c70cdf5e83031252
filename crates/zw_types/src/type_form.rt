// Forms of types, and the shapes of containers.
use crate::value::{TypeId, Value};
use sqlite_items::Items;

/// What tells a container from others: its file, its node there, and the comptime names that its text mentions. Each capture
/// is `Value::Parts` of two: the type of the captured name as `Value::OfType`, and its value. The names of the types are
/// this project's own.
#[derive(Debug, Drop)]
pub struct Owner {
    pub file: u32,
    pub node: u32,
    pub captures: Items<Value>,
}

/// One level of a type (Zig Language Reference 0.13.0, Types): the types in it are numbers of a table.
#[derive(Debug, Drop)]
pub enum TypeForm {
    /// An integer type of at most 64 bits; `size` holds exactly for `usize` and `isize`, whose bits are 32.
    Int {
        signed: bool,
        bits: u8,
        size: bool,
    },
    ComptimeInt,
    Bool,
    Void,
    NoReturn,
    /// `type`.
    TypeType,
    /// The type of `null`.
    Null,
    /// The type of `undefined`.
    Undefined,
    /// The type of an enum literal such as `.red`.
    EnumLiteral,
    /// `anyerror`.
    AnyError,
    /// An error set: the numbers of its errors, rising and different. While an inferred set isn't known, `inferred` is the
    /// number of its function instance, and `names` is empty.
    ErrorSet {
        names: Items<u32>,
        inferred: Option<u32>,
    },
    Array {
        len: u64,
        of: TypeId,
        sentinel: Option<Value>,
    },
    /// A pointer to one item, or to `many`.
    Pointer {
        many: bool,
        constant: bool,
        of: TypeId,
    },
    Slice {
        constant: bool,
        of: TypeId,
        sentinel: Option<Value>,
    },
    Optional {
        of: TypeId,
    },
    /// An error union; `set` is an error set or `anyerror`.
    ErrorUnion {
        set: TypeId,
        payload: TypeId,
    },
    Struct {
        owner: Owner,
    },
    Enum {
        owner: Owner,
    },
    Union {
        owner: Owner,
    },
    /// A function: None stands where a call decides the type, `comptime` says of each parameter whether it is `comptime`,
    /// and `outside` holds exactly for an extern function.
    Func {
        params: Items<Option<TypeId>>,
        result: Option<TypeId>,
        comptime: Items<bool>,
        outside: bool,
    },
}

/// A field of a container: its type, its default where it has one, and for a tag of an enum its number.
#[derive(Debug, Drop)]
pub struct FieldShape {
    pub name: Items<u8>,
    pub ty: TypeId,
    pub default: Option<Value>,
    pub number: Option<i128>,
}

/// The fields of a container, and the type of its tag where it has one.
#[derive(Debug, Drop)]
pub struct Shape {
    pub fields: Items<FieldShape>,
    pub tag: Option<TypeId>,
}

/// What the error set of one function is made of: errors of its own, the sets of other rules by their numbers, and whether
/// it is `anyerror`.
#[derive(Debug, Drop)]
pub struct SetRule {
    pub own: Items<u32>,
    pub uses: Items<u32>,
    pub any: bool,
}
