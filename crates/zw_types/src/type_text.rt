// The texts of types, as Zig writes them.
ghost use Rattle.std.specs.Prelude.{◌≡◌, ◌<◌, ℕ, length, List, All, IfOk, MatchOption, string_bytes};
ghost use Rattle.std.specs.Option.{option_map};
ghost use Rattle.zw_types.specs.TypeTrees.{TypeTree};
ghost use Rattle.zw_types.specs.Readings.{type_at, form_tree, sentinel_tree, types_in_form};
ghost use Rattle.zw_types.specs.TypeTexts.{type_text, front_of, word_of, element_of, set_text, integer_text, pointer_text, array_front, slice_front, sentinel_text};

use crate::type_form::TypeForm;
use crate::types::Types;
use crate::value::{TypeId, Value};
use std::alloc::Global;
use zw_base::Oom;

impl Types {
    /// The text of a type as Zig writes it (Zig Language Reference 0.13.0, Types), as `u8`, `[4:0]u8` or `?*const bool`. No table has
    /// the names of containers, errors and functions: they are `struct {..}`, `enum {..}`, `union {..}`, `error{..}` and
    /// `fn (..)`, and a sentinel that is no number is `_`. Oom is want of memory.
    pub fn text(&self, alloc: Global, id: TypeId) -> Result<String, Oom>
        requires { id.0 < length self.now.trees }
        ensures { IfOk result (λ text. string_bytes text ≡ type_text (type_at self.now.trees id)) }
    {
        let mut text = String::new(alloc);
        let mut next = id;
        loop {
            let form = self.get(next);
            let front = self.front(alloc, form)?;
            text.push_str(front.as_str())?;
            match element(form) {
                Some(of) => next = of,
                None => return Ok(text),
            }
        }
    }

    /// All of a type's text, or what stands before the text of its element.
    fn front(&self, alloc: Global, form: &TypeForm) -> Result<String, Oom>
        requires { All (λ k. k < length self.now.trees) (types_in_form form.now) }
        ensures { IfOk result (λ text. string_bytes text ≡ front_of (form_tree self.now.trees form.now)) }
    {
        match form {
            TypeForm::Int { signed, bits, size } => integer_text(alloc, *signed, *bits, *size),
            TypeForm::Array { len, sentinel, .. } => {
                let end = sentinel_text(alloc, sentinel)?;
                array_front(alloc, *len, end.as_str())
            }
            TypeForm::Slice {
                constant,
                sentinel,
                ..
            } => {
                let end = sentinel_text(alloc, sentinel)?;
                slice_front(alloc, *constant, end.as_str())
            }
            TypeForm::ErrorUnion { set, .. } => String::from_str(alloc, set_text(self.get(*set))),
            _ => String::from_str(alloc, word(form)),
        }
    }
}

/// The type whose text ends the text of a type, where there is one.
pub(crate) fn element(form: &TypeForm) -> Option<TypeId>
    ensures read { (trees : List TypeTree) → option_map (type_at trees) result ≡ element_of (form_tree trees form.now) }
    ensures known { (n : ℕ) → All (λ k. k < n) (types_in_form form.now) → MatchOption result (Unit {0}) (λ of. of.0 < n) }
{
    match form {
        TypeForm::Array { of, .. } => Some(*of),
        TypeForm::Pointer { of, .. } => Some(*of),
        TypeForm::Slice { of, .. } => Some(*of),
        TypeForm::Optional { of } => Some(*of),
        TypeForm::ErrorUnion { payload, .. } => Some(*payload),
        _ => None,
    }
}

/// An integer type.
fn integer_text(alloc: Global, signed: bool, bits: u8, size: bool) -> Result<String, Oom>
    ensures { IfOk result (λ text. string_bytes text ≡ integer_text signed bits size) }
{
    match (signed, size) {
        (true, true) => String::from_str(alloc, "isize"),
        (false, true) => String::from_str(alloc, "usize"),
        (true, false) => format!(in alloc; "i{bits}"),
        (false, false) => format!(in alloc; "u{bits}"),
    }
}

/// What stands before the element of an array, with the text of its sentinel.
fn array_front(alloc: Global, len: u64, sentinel: &str) -> Result<String, Oom>
    ensures { IfOk result (λ text. string_bytes text ≡ array_front len sentinel.now) }
{
    format!(in alloc; "[{len}{sentinel}]")
}

/// What stands before the element of a slice, with the text of its sentinel.
fn slice_front(alloc: Global, constant: bool, sentinel: &str) -> Result<String, Oom>
    ensures { IfOk result (λ text. string_bytes text ≡ slice_front constant sentinel.now) }
{
    if constant {
        format!(in alloc; "[{sentinel}]const ")
    } else {
        format!(in alloc; "[{sentinel}]")
    }
}

/// A sentinel, where there is one.
fn sentinel_text(alloc: Global, sentinel: &Option<Value>) -> Result<String, Oom>
    ensures { IfOk result (λ text. (trees : List TypeTree) → string_bytes text ≡ sentinel_text (sentinel_tree trees sentinel.now)) }
{
    match sentinel {
        None => Ok(String::new(alloc)),
        Some(Value::Number(number)) => format!(in alloc; ":{number}"),
        Some(_) => String::from_str(alloc, ":_"),
    }
}

/// The set of an error union.
fn set_text(set: &TypeForm) -> &'static str
    ensures { (trees : List TypeTree) → result.now ≡ set_text (form_tree trees set.now) }
{
    match set {
        TypeForm::AnyError => "anyerror!",
        _ => "error{..}!",
    }
}

/// A pointer to one item, or to many.
fn pointer_text(many: bool, constant: bool) -> &'static str
    ensures { result.now ≡ pointer_text many constant }
{
    match (many, constant) {
        (false, false) => "*",
        (false, true) => "*const ",
        (true, false) => "[*]",
        (true, true) => "[*]const ",
    }
}

/// A type that has one word, or one sign before its element.
fn word(form: &TypeForm) -> &'static str
    ensures { (trees : List TypeTree) → result.now ≡ word_of (form_tree trees form.now) }
{
    match form {
        TypeForm::ComptimeInt => "comptime_int",
        TypeForm::Bool => "bool",
        TypeForm::Void => "void",
        TypeForm::NoReturn => "noreturn",
        TypeForm::TypeType => "type",
        TypeForm::Null => "@TypeOf(null)",
        TypeForm::Undefined => "@TypeOf(undefined)",
        TypeForm::EnumLiteral => "@TypeOf(.enum_literal)",
        TypeForm::AnyError => "anyerror",
        TypeForm::ErrorSet { .. } => "error{..}",
        TypeForm::Pointer { many, constant, .. } => pointer_text(*many, *constant),
        TypeForm::Optional { .. } => "?",
        TypeForm::Struct { .. } => "struct {..}",
        TypeForm::Enum { .. } => "enum {..}",
        TypeForm::Union { .. } => "union {..}",
        TypeForm::Func { .. } => "fn (..)",
        _ => "",
    }
}
