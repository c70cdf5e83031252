// The items of literals, code points and escapes: how many bytes each has, and how many stand up to a quote.
ghost use Rattle.std.specs.Prelude.{◌≡◌, ◌+◌, ◌<◌, ◌≤◌, Some, None, length, drop, IfSome, IsTrue};
ghost use Rattle.std.specs.Char.{is_ascii_hexdigit};
ghost use Rattle.std.specs.Str.{is_utf8, continuation_len};
ghost use Rattle.zw_token.specs.Literals.{point_len, is_simple_escape, starts_byte_digits, hex_len, is_scalar, starts_point_digits, escape_len, item_len, items_len};
ghost use Rattle.zw_token.specs.Numbers.{digits_value};

use crate::numbers::digits_value;
use std::str::from_utf8;

/// How many bytes of a code point follow its first.
pub(crate) fn continuation_len(first: u8) -> usize
    ensures { result ≡ continuation_len first }
{
    if first < 128 {
        0
    } else if first < 224 {
        1
    } else if first < 240 {
        2
    } else {
        3
    }
}

/// Whether these bytes are UTF-8.
pub(crate) fn is_utf8(bytes: &[u8]) -> bool
    ensures { result ≡ is_utf8 bytes.now }
{
    match from_utf8(bytes) {
        Ok(_) => true,
        Err(_) => false,
    }
}

/// How many bytes the code point has that begins here. A byte that is no part of a code point counts for itself.
#[tactic(auto, unfolding(crate::specs::Literals::point_len))]
pub(crate) fn point_len(rest: &[u8]) -> usize
    ensures value { result ≡ point_len rest.now }
    ensures within { result ≤ length rest.now }
    ensures some { 0 < length rest.now → 0 < result }
{
    match rest {
        [first, ..] => {
            let len = 1 + continuation_len(*first);
            if 1 < len && len <= rest.len() && is_utf8(&rest[..len]) {
                len
            } else {
                1
            }
        }
        [] => 0,
    }
}

// Whether this byte behind `\` makes an escape of one code point.
fn is_simple_escape(byte: u8) -> bool
    ensures { result ≡ is_simple_escape byte }
{
    matches!(byte, b'n' | b'r' | b't' | b'\\' | b'\'' | b'"')
}

// Whether two hexadecimal digits stand here.
fn starts_byte_digits(rest: &[u8]) -> bool
    ensures { result ≡ starts_byte_digits rest.now }
{
    match rest {
        [first, second, ..] => first.is_ascii_hexdigit() && second.is_ascii_hexdigit(),
        _ => false,
    }
}

/// How many hexadecimal digits stand here.
pub(crate) fn hex_len(rest: &[u8]) -> usize
    ensures { result ≡ hex_len rest.now }
{
    rest.iter()
        .take_while(|digit| digit.is_ascii_hexdigit())
        .count()
}

// Whether these hexadecimal digits number a code point that is no surrogate.
fn name_scalar(digits: &[u8]) -> bool
    ensures { result ≡ is_scalar (digits_value 16 digits.now) }
{
    match digits_value(16, digits) {
        Some(number) => number < 0xD800 || 0xE000 <= number && number <= 0x10FFFF,
        None => false,
    }
}

// Whether `{`, one or more hexadecimal digits that number a code point, and `}` stand here.
fn starts_point_digits(rest: &[u8]) -> bool
    ensures value { result ≡ starts_point_digits rest.now }
    ensures within { IsTrue result → hex_len (drop 1 rest.now) + 2 ≤ length rest.now }
{
    match rest {
        [b'{', digits @ ..] => {
            let len = hex_len(digits);
            0 < len && len < digits.len() && digits[len] == b'}' && name_scalar(&digits[..len])
        }
        _ => false,
    }
}

// How many bytes the escape has whose `\` stands before these bytes.
fn escape_len(rest: &[u8]) -> Option<usize>
    ensures value { result ≡ escape_len rest.now }
    ensures within { IfSome result (λ n. (0 < n) × (n ≤ length rest.now + 1)) }
{
    let (escape, digits) = rest.split_first()?;
    if is_simple_escape(*escape) {
        Some(2)
    } else if *escape == b'x' && starts_byte_digits(digits) {
        Some(4)
    } else if *escape == b'u' && starts_point_digits(digits) {
        Some(hex_len(&digits[1..]) + 4)
    } else {
        None
    }
}

/// How many bytes the item has that begins here, in a literal that this quote ends.
#[tactic(auto, unfolding(crate::specs::Literals::item_len))]
pub(crate) fn item_len(quote: u8, rest: &[u8]) -> Option<usize>
    ensures value { result ≡ item_len quote rest.now }
    ensures within { IfSome result (λ n. (0 < n) × (n ≤ length rest.now)) }
{
    let (first, behind) = rest.split_first()?;
    if *first == b'\\' {
        escape_len(behind)
    } else if *first == quote || *first == b'\n' || *first == b'\r' {
        None
    } else {
        Some(point_len(rest))
    }
}

/// How many bytes the items have that stand here, in a literal that this quote ends.
pub(crate) fn items_len(quote: u8, rest: &[u8]) -> usize
    ensures value { result ≡ items_len quote rest.now }
    ensures within { result ≤ length rest.now }
{
    let mut at = 0;
    while let Some(len) = item_len(quote, &rest[at..]) {
        at += len;
    }
    at
}
