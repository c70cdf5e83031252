// Numbers of the four bases, and what they are worth.
ghost use Rattle.std.specs.Prelude.{◌≡◌, ◌<◌, ◌≤◌, ◌^◌, pos};
ghost use Rattle.std.specs.Char.{is_ascii_digit, digit_value};
ghost use Rattle.std.specs.List.{list_all};
ghost use Rattle.std.specs.Option.{SomeIff};
ghost use Rattle.zw_token.specs.Numbers.{is_decimal, base_of, base_of_mark, digits_of, are_digits, has_leading_zero, is_number, is_exponent, has_exponent, digits_value, number_of};

// Whether all of these bytes are decimal digits.
fn are_decimal_digits(bytes: &[u8]) -> bool
    ensures { result ≡ list_all is_ascii_digit bytes.now }
{
    bytes.iter().all(|digit| digit.is_ascii_digit())
}

/// Whether these are the digits of a decimal number without a leading zero, or `0`, with no `_` between them.
pub fn is_decimal(digits: &[u8]) -> bool
    ensures { result ≡ is_decimal digits.now }
{
    match digits {
        [] => false,
        [b'0', rest @ ..] => rest.is_empty(),
        [_, ..] => are_decimal_digits(digits),
    }
}

// The base that stands behind a first zero.
fn base_of_mark(mark: u8) -> u32
    ensures range { (2 ≤ result) × (result ≤ 16) }
    ensures value { result ≡ base_of_mark mark }
{
    match mark {
        b'x' => 16,
        b'o' => 8,
        b'b' => 2,
        _ => 10,
    }
}

// The base that the first bytes of a number give.
fn base_of(numeral: &[u8]) -> u32
    ensures range { (2 ≤ result) × (result ≤ 16) }
    ensures value { result ≡ base_of numeral.now }
{
    match numeral {
        [b'0', mark, ..] => base_of_mark(*mark),
        _ => 10,
    }
}

// The digits of a number, without what gives its base.
fn digits_of(numeral: &[u8]) -> &[u8]
    ensures { result.now ≡ digits_of numeral.now }
{
    if base_of(numeral) == 10 {
        numeral
    } else {
        &numeral[2..]
    }
}

// Whether these are digits of the base, with at most one `_` between two of them.
fn are_digits(base: u32, digits: &[u8]) -> bool
    requires least { 2 ≤ base }
    requires most { base ≤ 36 }
    ensures { result ≡ are_digits base digits.now }
{
    let mut behind = false;
    for digit in digits {
        if *digit == b'_' {
            if !behind {
                return false;
            }
            behind = false;
        } else if char::from(*digit).is_digit(base) {
            behind = true;
        } else {
            return false;
        }
    }
    behind
}

// Whether a zero stands first and not alone.
fn has_leading_zero(digits: &[u8]) -> bool
    ensures { result ≡ has_leading_zero digits.now }
{
    match digits {
        [b'0', rest @ ..] => !rest.is_empty(),
        _ => false,
    }
}

/// Whether these bytes are a number of one of the four bases.
#[tactic(auto, unfolding(crate::specs::Numbers::is_number))]
pub(crate) fn is_number(numeral: &[u8]) -> bool
    ensures { result ≡ is_number numeral.now }
{
    let base = base_of(numeral);
    are_digits(base, digits_of(numeral)) && !(base == 10 && has_leading_zero(numeral))
}

// Whether the letter makes a float of a number of this base.
fn is_exponent(base: u32, byte: u8) -> bool
    ensures { result ≡ is_exponent base byte }
{
    base == 10 && (byte == b'e' || byte == b'E') || base == 16 && (byte == b'p' || byte == b'P')
}

/// Whether what begins as a number has an exponent, which makes a float of it.
#[tactic(auto, unfolding(crate::specs::Numbers::has_exponent))]
pub(crate) fn has_exponent(numeral: &[u8]) -> bool
    ensures { result ≡ has_exponent numeral.now }
{
    let base = base_of(numeral);
    numeral.iter().any(|byte| is_exponent(base, *byte))
}

// The value of a digit or a letter, and 36 for any other byte.
fn digit_value(byte: u8) -> u8
    ensures { result ≡ digit_value byte }
{
    match byte {
        b'0'..=b'9' => byte - b'0',
        b'A'..=b'Z' => byte - b'A' + 10,
        b'a'..=b'z' => byte - b'a' + 10,
        _ => 36,
    }
}

/// The number that these digits of a base spell, in which `_` counts for nothing. It is `None` where the number is above
/// 2^128 - 1.
pub(crate) fn digits_value(base: u32, digits: &[u8]) -> Option<u128>
    requires { 1 ≤ base }
    ensures { SomeIff result (digits_value base digits.now < 2 ^ 128) (digits_value base digits.now) }
{
    let mut value: u128 = 0;
    for digit in digits {
        if *digit != b'_' {
            value = value
                .checked_mul(u128::from(base))?
                .checked_add(u128::from(digit_value(*digit)))?;
        }
    }
    Some(value)
}

/// The value of a number, of whose token these are the bytes (Zig Language Reference 0.13.0, Integer Literals). It is
/// `None` where the number is above 2^127 - 1.
pub fn number_value(text: &[u8]) -> Option<i128>
    ensures { SomeIff result (number_of text.now < 2 ^ 127) (pos (number_of text.now)) }
{
    let value = digits_value(base_of(text), digits_of(text))?;
    if value < 1 << 127 {
        Some(value as i128)
    } else {
        None
    }
}
