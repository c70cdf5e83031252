// Equality of values and of lists of them.
ghost use Rattle.std.specs.Prelude.{◌≡◌, ◌↔◌, IsTrue};

use crate::type_form::{Owner, TypeForm};
use crate::value::{TypeId, Value};
use sqlite_items::Boxed;

impl Value {
    /// Whether two values are equal, part by part.
    pub fn equals(&self, other: &Value) -> bool
        ensures { IsTrue result ↔ (self.now ≡ other.now) }
    {
        same_value(self, other)
    }
}

/// Whether two values are equal.
#[cycle(same)]
pub(crate) fn same_value(a: &Value, b: &Value) -> bool
    ensures { IsTrue result ↔ (a.now ≡ b.now) }
{
    match (a, b) {
        (Value::Number(left), Value::Number(right)) => left == right,
        (Value::Truth(left), Value::Truth(right)) => left == right,
        (Value::Undefined, Value::Undefined) => true,
        (Value::Parts(left), Value::Parts(right)) => all_same(left.as_slice(), right.as_slice()),
        (Value::Optional(left), Value::Optional(right)) => same_payload(left, right),
        (Value::Error(left), Value::Error(right)) => left == right,
        (Value::Payload(left), Value::Payload(right)) => same_value(left.get(), right.get()),
        (
            Value::Tag { field, payload },
            Value::Tag {
                field: other,
                payload: held,
            },
        ) => field == other && same_payload(payload, held),
        (Value::Literal(left), Value::Literal(right)) => left.as_slice() == right.as_slice(),
        (
            Value::Pointer { obj, path },
            Value::Pointer {
                obj: other,
                path: way,
            },
        ) => obj == other && path.as_slice() == way.as_slice(),
        (
            Value::Slice { obj, path, len },
            Value::Slice {
                obj: other,
                path: way,
                len: size,
            },
        ) => obj == other && len == size && path.as_slice() == way.as_slice(),
        (
            Value::Held { ty, at, of },
            Value::Held {
                ty: other,
                at: place,
                of: values,
            },
        ) => ty.0 == other.0 && at == place && all_same(of.as_slice(), values.as_slice()),
        (Value::OfType(left), Value::OfType(right)) => left == right,
        (
            Value::Func {
                file,
                node,
                captures,
            },
            Value::Func {
                file: other,
                node: place,
                captures: values,
            },
        ) => file == other && node == place && all_same(captures.as_slice(), values.as_slice()),
        (Value::Instance(left), Value::Instance(right)) => left == right,
        _ => false,
    }
}

/// Whether two lists of values are equal.
#[cycle(same)]
pub(crate) fn all_same(a: &[Value], b: &[Value]) -> bool
    ensures { IsTrue result ↔ (a.now ≡ b.now) }
{
    if a.len() != b.len() {
        return false;
    }
    for i in 0..a.len() {
        if !same_value(&a[i], &b[i]) {
            return false;
        }
    }
    true
}

/// Whether two payloads are equal, or both are missing.
#[cycle(same)]
pub(crate) fn same_payload(a: &Option<Boxed<Value>>, b: &Option<Boxed<Value>>) -> bool
    ensures { IsTrue result ↔ (a.now ≡ b.now) }
{
    match (a, b) {
        (Some(left), Some(right)) => same_value(left.get(), right.get()),
        (None, None) => true,
        _ => false,
    }
}

/// Whether two forms of types are equal.
pub(crate) fn same_form(a: &TypeForm, b: &TypeForm) -> bool
    ensures { IsTrue result ↔ (a.now ≡ b.now) }
{
    match (a, b) {
        (
            TypeForm::Int { signed, bits, size },
            TypeForm::Int {
                signed: other,
                bits: width,
                size: named,
            },
        ) => signed == other && bits == width && size == named,
        (TypeForm::ComptimeInt, TypeForm::ComptimeInt) => true,
        (TypeForm::Bool, TypeForm::Bool) => true,
        (TypeForm::Void, TypeForm::Void) => true,
        (TypeForm::NoReturn, TypeForm::NoReturn) => true,
        (TypeForm::TypeType, TypeForm::TypeType) => true,
        (TypeForm::Null, TypeForm::Null) => true,
        (TypeForm::Undefined, TypeForm::Undefined) => true,
        (TypeForm::EnumLiteral, TypeForm::EnumLiteral) => true,
        (TypeForm::AnyError, TypeForm::AnyError) => true,
        (
            TypeForm::ErrorSet { names, inferred },
            TypeForm::ErrorSet {
                names: others,
                inferred: other,
            },
        ) => names.as_slice() == others.as_slice() && inferred == other,
        (
            TypeForm::Array { len, of, sentinel },
            TypeForm::Array {
                len: size,
                of: other,
                sentinel: end,
            },
        ) => len == size && of.0 == other.0 && same_sentinel(sentinel, end),
        (
            TypeForm::Pointer { many, constant, of },
            TypeForm::Pointer {
                many: several,
                constant: fixed,
                of: other,
            },
        ) => many == several && constant == fixed && of.0 == other.0,
        (
            TypeForm::Slice {
                constant,
                of,
                sentinel,
            },
            TypeForm::Slice {
                constant: fixed,
                of: other,
                sentinel: end,
            },
        ) => constant == fixed && of.0 == other.0 && same_sentinel(sentinel, end),
        (TypeForm::Optional { of }, TypeForm::Optional { of: other }) => of.0 == other.0,
        (
            TypeForm::ErrorUnion { set, payload },
            TypeForm::ErrorUnion {
                set: other,
                payload: held,
            },
        ) => set.0 == other.0 && payload.0 == held.0,
        (TypeForm::Struct { owner }, TypeForm::Struct { owner: other }) => same_owner(owner, other),
        (TypeForm::Enum { owner }, TypeForm::Enum { owner: other }) => same_owner(owner, other),
        (TypeForm::Union { owner }, TypeForm::Union { owner: other }) => same_owner(owner, other),
        (
            TypeForm::Func {
                params,
                result,
                comptime,
                outside,
            },
            TypeForm::Func {
                params: others,
                result: other,
                comptime: flags,
                outside: extern_,
            },
        ) => {
            same_marks(comptime.as_slice(), *outside, flags.as_slice(), *extern_)
                && same_types(params.as_slice(), *result, others.as_slice(), *other)
        }
        _ => false,
    }
}

/// Whether two sentinels are equal, or both are missing.
fn same_sentinel(a: &Option<Value>, b: &Option<Value>) -> bool
    ensures { IsTrue result ↔ (a.now ≡ b.now) }
{
    match (a, b) {
        (Some(left), Some(right)) => same_value(left, right),
        (None, None) => true,
        _ => false,
    }
}

/// Whether two containers are the same.
fn same_owner(a: &Owner, b: &Owner) -> bool
    ensures { IsTrue result ↔ (a.now ≡ b.now) }
{
    a.file == b.file && a.node == b.node && all_same(a.captures.as_slice(), b.captures.as_slice())
}

/// Whether two numbers of types are equal, or both are missing.
fn same_id(a: Option<TypeId>, b: Option<TypeId>) -> bool
    ensures { IsTrue result ↔ (a ≡ b) }
{
    match (a, b) {
        (Some(left), Some(right)) => left.0 == right.0,
        (None, None) => true,
        _ => false,
    }
}

/// Whether two functions have the same `comptime` parameters, and both are extern or neither is.
fn same_marks(comptime: &[bool], outside: bool, others: &[bool], other: bool) -> bool
    ensures { IsTrue result ↔ ((comptime.now ≡ others.now) × (outside ≡ other)) }
{
    outside == other && same_flags(comptime, others)
}

/// Whether two lists of truth values are equal.
fn same_flags(a: &[bool], b: &[bool]) -> bool
    ensures { IsTrue result ↔ (a.now ≡ b.now) }
{
    if a.len() != b.len() {
        return false;
    }
    for i in 0..a.len() {
        if a[i] != b[i] {
            return false;
        }
    }
    true
}

/// Whether the types of two functions' parameters and results are equal.
fn same_types(
    params: &[Option<TypeId>],
    returned: Option<TypeId>,
    others: &[Option<TypeId>],
    other: Option<TypeId>,
) -> bool
    ensures { IsTrue result ↔ ((params.now ≡ others.now) × (returned ≡ other)) }
{
    same_id(returned, other) && same_ids(params, others)
}

/// Whether two lists of such numbers are equal.
fn same_ids(a: &[Option<TypeId>], b: &[Option<TypeId>]) -> bool
    ensures { IsTrue result ↔ (a.now ≡ b.now) }
{
    if a.len() != b.len() {
        return false;
    }
    for i in 0..a.len() {
        if !same_id(a[i], b[i]) {
            return false;
        }
    }
    true
}
