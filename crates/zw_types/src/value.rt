// Values as trees.
ghost use Rattle.std.specs.Prelude.{◌≡◌, IfOk};

use sqlite_items::{Boxed, Items};
use std::alloc::Global;
use zw_base::Oom;

/// The number of a type in a table of types, from 0.
#[derive(Clone, Copy, Debug, PartialEq, Eq)]
pub struct TypeId(pub u32);

/// A value (Zig Language Reference 0.13.0, Values). A place in an object is a path: the places of the parts that lead to it,
/// from the whole.
#[derive(Debug, Drop)]
pub enum Value {
    /// An integer.
    Number(i128),
    Truth(bool),
    /// A part that is undefined as a whole.
    Undefined,
    /// A struct; an array, with its sentinel last where it has one; `void`, without a part.
    Parts(Items<Value>),
    /// An optional; None is `null`.
    Optional(Option<Boxed<Value>>),
    /// An error by its number, in an error set or an error union.
    Error(u32),
    /// An error union that holds no error.
    Payload(Boxed<Value>),
    /// An enum's tag, without payload, or a union's value; `field` is the place in the shape, from 0.
    Tag {
        field: u32,
        payload: Option<Boxed<Value>>,
    },
    /// An enum literal by its name.
    Literal(Items<u8>),
    /// A pointer or many-pointer by object and path.
    Pointer {
        obj: u64,
        path: Items<u64>,
    },
    /// A slice by object, path of its first element, and length.
    Slice {
        obj: u64,
        path: Items<u64>,
        len: u64,
    },
    /// A pointer or slice to a constant as captures have it: its type, a many-pointer's position, and the values that it
    /// shows.
    Held {
        ty: TypeId,
        at: u64,
        of: Items<Value>,
    },
    /// A type.
    OfType(TypeId),
    /// A function, while its declaration's place and captures name it.
    Func {
        file: u32,
        node: u32,
        captures: Items<Value>,
    },
    /// A function by its number among those of a program.
    Instance(u32),
}

impl Value {
    /// An equal value.
    #[cycle(copies)]
    pub fn copy(&self, alloc: Global) -> Result<Value, Oom>
        ensures { IfOk result (λ v. v ≡ self.now) }
    {
        match self {
            Value::Number(number) => Ok(Value::Number(*number)),
            Value::Truth(truth) => Ok(Value::Truth(*truth)),
            Value::Undefined => Ok(Value::Undefined),
            Value::Parts(parts) => Ok(Value::Parts(copy_all(alloc, parts.as_slice())?)),
            Value::Optional(payload) => Ok(Value::Optional(copy_payload(alloc, payload)?)),
            Value::Error(number) => Ok(Value::Error(*number)),
            Value::Payload(payload) => Ok(Value::Payload(Boxed::new(
                alloc,
                payload.get().copy(alloc)?,
            )?)),
            Value::Tag { field, payload } => Ok(Value::Tag {
                field: *field,
                payload: copy_payload(alloc, payload)?,
            }),
            Value::Literal(name) => Ok(Value::Literal(Items::from_slice(alloc, name.as_slice())?)),
            Value::Pointer { obj, path } => Ok(Value::Pointer {
                obj: *obj,
                path: Items::from_slice(alloc, path.as_slice())?,
            }),
            Value::Slice { obj, path, len } => Ok(Value::Slice {
                obj: *obj,
                path: Items::from_slice(alloc, path.as_slice())?,
                len: *len,
            }),
            Value::Held { ty, at, of } => Ok(Value::Held {
                ty: *ty,
                at: *at,
                of: copy_all(alloc, of.as_slice())?,
            }),
            Value::OfType(ty) => Ok(Value::OfType(*ty)),
            Value::Func {
                file,
                node,
                captures,
            } => Ok(Value::Func {
                file: *file,
                node: *node,
                captures: copy_all(alloc, captures.as_slice())?,
            }),
            Value::Instance(number) => Ok(Value::Instance(*number)),
        }
    }
}

/// Equal values, in the same order.
#[cycle(copies)]
fn copy_all(alloc: Global, values: &[Value]) -> Result<Items<Value>, Oom>
    ensures { IfOk result (λ all. all ≡ values.now) }
{
    let mut copied = Items::new(alloc);
    for value in values {
        copied.push(value.copy(alloc)?)?;
    }
    Ok(copied)
}

/// An equal payload, where there is one.
#[cycle(copies)]
fn copy_payload(alloc: Global, payload: &Option<Boxed<Value>>) -> Result<Option<Boxed<Value>>, Oom>
    ensures { IfOk result (λ copied. copied ≡ payload.now) }
{
    match payload {
        None => Ok(None),
        Some(value) => Ok(Some(Boxed::new(alloc, value.get().copy(alloc)?)?)),
    }
}
