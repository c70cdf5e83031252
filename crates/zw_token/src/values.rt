// What the bytes of characters, texts, line texts and quoted names stand for.
ghost use Rattle.std.specs.Prelude.{◌≡◌, ◌+◌, ◌++◌, ◌<◌, ◌≤◌, ◌^◌, OnOk, IfOk, IsSome, Some, length, slice_index, encode_utf8};
ghost use Rattle.std.specs.Char.{IsScalar};
ghost use Rattle.zw_token.specs.declared.token.TokenKind.{TokenKind};
ghost use Rattle.zw_token.specs.Literals.{simple_escape, escape_len, escape_number, escape_bytes, item_len, item_at, point_number, items_bytes};
ghost use Rattle.std.specs.Str.{chars};
ghost use Rattle.zw_token.specs.Numbers.{digits_value};
ghost use Rattle.zw_token.specs.Tokens.{IsOfKind};
ghost use Rattle.zw_token.specs.Values.{character_of, text_of};

use crate::literals::{hex_len, item_len, point_len};
use crate::numbers::digits_value;
use std::alloc::Global;
use std::str::from_utf8;
use zw_base::Oom;

// The code point of an escape of one letter or sign.
fn simple_escape(escape: u8) -> u8
    ensures { result ≡ simple_escape escape }
{
    match escape {
        b'n' => b'\n',
        b'r' => b'\r',
        b't' => b'\t',
        _ => escape,
    }
}

// The value of hexadecimal digits.
fn hex_value(digits: &[u8]) -> u32
    requires { digits_value 16 digits.now < 2 ^ 32 }
    ensures { result ≡ digits_value 16 digits.now }
{
    match digits_value(16, digits) {
        Some(value) => value as u32,
        None => 0,
    }
}

// The number that an escape stands for, whose `\` stands before these bytes.
fn escape_number(escape: &[u8]) -> u32
    requires { IsSome (escape_len escape.now) }
    ensures { result ≡ escape_number escape.now }
{
    match escape {
        [b'x', digits @ ..] => hex_value(&digits[..2]),
        [b'u', _, digits @ ..] => hex_value(&digits[..hex_len(digits)]),
        [letter, ..] => u32::from(simple_escape(*letter)),
        [] => 0,
    }
}

// The number of the first code point of a text, and 0 where it has none.
fn first_point(text: &str) -> u32
    ensures { result ≡ slice_index (chars text.now) 0 }
{
    match text.chars().next() {
        Some(point) => point as u32,
        None => 0,
    }
}

// The number of the code point that begins here, and 0 for a byte that is no part of one.
fn point_number(rest: &[u8]) -> u32
    ensures { result ≡ point_number rest.now }
{
    match from_utf8(&rest[..point_len(rest)]) {
        Ok(text) => first_point(text),
        Err(_) => 0,
    }
}

/// The number that a character stands for, of whose token these are the bytes: that of its code point, or of its escape
/// (Zig Language Reference 0.13.0, String Literals and Unicode Code Point Literals).
pub fn char_value(text: &[u8]) -> u32
    requires { IsOfKind TokenKind.Character text.now }
    ensures { result ≡ character_of text.now }
{
    if text[1] == b'\\' {
        escape_number(&text[2..])
    } else {
        point_number(&text[1..])
    }
}

// Adds the bytes of this code point in UTF-8.
fn push_point(out: &mut Vec<u8>, number: u32) -> Result<(), Oom>
    requires { IsScalar number }
    ensures { OnOk result (out.new.items ≡ out.old.items ++ encode_utf8 number) }
{
    let mut bytes = [0u8; 4];
    if let Some(point) = char::from_u32(number) {
        out.extend_from_slice(point.encode_utf8(&mut bytes).as_bytes())?;
    }
    Ok(())
}

// Adds the bytes that an escape stands for, whose `\` stands before these bytes.
fn push_escape(out: &mut Vec<u8>, escape: &[u8]) -> Result<(), Oom>
    requires is_escape { IsSome (escape_len escape.now) }
    requires some { 0 < length escape.now }
    ensures { OnOk result (out.new.items ≡ out.old.items ++ escape_bytes escape.now) }
{
    let number = escape_number(escape);
    if escape[0] == b'x' {
        out.push(number as u8).map_err(Oom::from)
    } else {
        push_point(out, number)
    }
}

// Adds the bytes that the item of this length stands for that begins here.
fn push_item(out: &mut Vec<u8>, rest: &[u8], len: usize) -> Result<(), Oom>
    requires is_item { item_len 34 rest.now ≡ Some len }
    requires within { (0 < len) × (len ≤ length rest.now) }
    ensures { OnOk result (out.new.items ≡ out.old.items ++ (item_at len rest.now).stands_for) }
{
    if rest[0] == b'\\' {
        push_escape(out, &rest[1..])
    } else {
        out.extend_from_slice(&rest[..len])
    }
}

// The bytes that the items stand for that stand here, up to the quote that ends them.
fn items_bytes(alloc: Global, rest: &[u8]) -> Result<Vec<u8>, Oom>
    ensures { IfOk result (λ bytes. bytes.items ≡ items_bytes 34 rest.now) }
{
    let mut bytes = Vec::new(alloc);
    let mut at = 0;
    while let Some(len) = item_len(b'"', &rest[at..]) {
        push_item(&mut bytes, &rest[at..], len)?;
        at += len;
    }
    Ok(bytes)
}

/// The bytes that a text, a line text or a quoted name stands for, of whose token these are the bytes: those of its items, code
/// points by themselves and escapes by what they stand for, and of a line text all behind its `\\` (Zig Language Reference
/// 0.13.0, String Literals and Unicode Code Point Literals, Multiline String Literals, Identifiers).
pub fn text_value(alloc: Global, text: &[u8]) -> Result<Vec<u8>, Oom>
    ensures { IfOk result (λ bytes. bytes.items ≡ text_of text.now) }
{
    match text {
        [b'"', rest @ ..] => items_bytes(alloc, rest),
        [b'@', _, rest @ ..] => items_bytes(alloc, rest),
        [_, _, rest @ ..] => rest.to_vec(alloc),
        _ => Ok(Vec::new(alloc)),
    }
}
