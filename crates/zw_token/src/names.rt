// The names that stand for types and values of the language, and those of types that aren't in the profile.
ghost use Rattle.std.specs.Prelude.{◌≡◌, ◌↔◌, IsTrue};
ghost use Rattle.zw_token.specs.Names.{is_primitive, is_sized_name, IsRefusedName};

use crate::numbers::is_decimal;
use crate::tables::{REFUSED_NAMES, has};

// The names of primitive types and values, beside `u8`, `i32` and their like (Zig Language Reference 0.13.0,
// Primitive Types and Primitive Values).
const PRIMITIVE_NAMES: [&str; 12] = [
    "usize",
    "isize",
    "bool",
    "void",
    "noreturn",
    "type",
    "anyerror",
    "comptime_int",
    "true",
    "false",
    "null",
    "undefined",
];

// Whether this is `u` or `i` and a decimal number.
fn is_sized_name(name: &[u8]) -> bool
    ensures { result ≡ is_sized_name name.now }
{
    match name {
        [b'i' | b'u', ..] => is_decimal(&name[1..]),
        _ => false,
    }
}

/// Whether the name is that of a primitive type or value. Such a name is never declared.
pub fn is_primitive_name(name: &[u8]) -> bool
    ensures { result ≡ is_primitive name.now }
{
    is_sized_name(name) || has(&PRIMITIVE_NAMES, name)
}

/// Whether the name is that of a type of Zig that isn't in the profile.
pub fn is_refused_name(name: &[u8]) -> bool
    ensures { IsTrue result ↔ IsRefusedName name.now }
{
    has(&REFUSED_NAMES, name)
}
