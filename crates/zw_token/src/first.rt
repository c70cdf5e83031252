// The token that stands at the front of what is left of a text, or what is wrong there.
ghost use Rattle.std.specs.Prelude.{◌≡◌, ◌∷◌, ◌+◌, ◌<◌};
ghost use Rattle.zw_token.specs.declared.token.TokenKind.{TokenKind};
ghost use Rattle.zw_token.specs.Bytes.{starts_word, starts_number};
ghost use Rattle.zw_token.specs.Front.{word_len, word_kind, is_refused_word, word_front, number_front, text_front, quoted_front, builtin_front, at_front, character_front, line_text_len, sign_front, line_or_sign_front, mark_front, front};

use crate::bytes::{
    is_name_start, line_len, starts_fraction, starts_number, starts_word, word_len,
};
use crate::literals::{item_len, items_len};
use crate::numbers::{has_exponent, is_number};
use crate::tables::{
    BUILTINS, KEYWORD_STARTS, KEYWORDS, REFUSED_KEYWORD_STARTS, REFUSED_KEYWORDS,
    REFUSED_NAME_STARTS, REFUSED_NAMES, has, longest_sign, place_by_letter,
};
use crate::{TextError, TokenKind};

/// What stands at the front: a token's kind and how many bytes it has, or what is wrong.
pub(crate) type Front = Result<(TokenKind, usize), TextError>;

// Whether the word is a refused keyword, or the name of a type that isn't in the profile.
fn is_refused_word(word: &[u8]) -> bool
    ensures { result ≡ is_refused_word word.now }
{
    place_by_letter(&REFUSED_KEYWORDS, &REFUSED_KEYWORD_STARTS, word).is_some()
        || place_by_letter(&REFUSED_NAMES, &REFUSED_NAME_STARTS, word).is_some()
}

// The kind of a word that isn't refused.
fn word_kind(word: &[u8]) -> TokenKind
    ensures { result ≡ word_kind word.now }
{
    match place_by_letter(&KEYWORDS, &KEYWORD_STARTS, word) {
        Some(number) => TokenKind::Keyword(number as u8),
        None => TokenKind::Name,
    }
}

// The token of what begins as a name does.
fn first_word(rest: &[u8]) -> Front
    ensures { result ≡ word_front rest.now }
{
    let len = word_len(rest);
    let word = &rest[..len];
    if is_refused_word(word) {
        Err(TextError::NotInProfile)
    } else {
        Ok((word_kind(word), len))
    }
}

// The token of what begins with a digit.
fn first_number(rest: &[u8]) -> Front
    ensures { result ≡ number_front rest.now }
{
    let len = word_len(rest);
    let (numeral, behind) = rest.split_at(len);
    if has_exponent(numeral) || starts_fraction(behind) {
        Err(TextError::NotInProfile)
    } else if is_number(numeral) {
        Ok((TokenKind::Number, len))
    } else {
        Err(TextError::BadLiteral)
    }
}

// The text whose first `"` stands before these bytes.
fn first_text(rest: &[u8]) -> Front
    ensures { result ≡ text_front rest.now }
{
    let len = items_len(b'"', rest);
    match rest.get(len) {
        Some(b'"') => Ok((TokenKind::Text, len + 2)),
        _ => Err(TextError::BadLiteral),
    }
}

// The quoted name whose `@"` stands before these bytes.
fn first_quoted(rest: &[u8]) -> Front
    ensures { result ≡ quoted_front rest.now }
{
    let len = items_len(b'"', rest);
    match rest.get(len) {
        Some(b'"') if 0 < len => Ok((TokenKind::Quoted, len + 3)),
        _ => Err(TextError::BadLiteral),
    }
}

// The builtin whose `@` stands before these bytes.
fn first_builtin(rest: &[u8]) -> Front
    ensures { result ≡ builtin_front rest.now }
{
    let len = word_len(rest);
    if has(&BUILTINS, &rest[..len]) {
        Ok((TokenKind::Builtin, len + 1))
    } else {
        Err(TextError::NotInProfile)
    }
}

// The token whose `@` stands before these bytes.
fn first_at(rest: &[u8]) -> Front
    ensures { result ≡ at_front rest.now }
{
    match rest {
        [b'"', behind @ ..] => first_quoted(behind),
        [first, ..] if is_name_start(*first) => first_builtin(rest),
        _ => Err(TextError::BadToken),
    }
}

// The character whose first `'` stands before these bytes.
fn first_character(rest: &[u8]) -> Front
    ensures { result ≡ character_front rest.now }
{
    let Some(len) = item_len(b'\'', rest) else {
        return Err(TextError::BadLiteral);
    };
    match rest.get(len) {
        Some(b'\'') => Ok((TokenKind::Character, len + 2)),
        _ => Err(TextError::BadLiteral),
    }
}

// How many bytes a line text has that stands here.
fn line_text_len(rest: &[u8]) -> usize
    ensures { result ≡ line_text_len rest.now }
{
    let len = line_len(rest);
    if 0 < len && len < rest.len() && rest[len - 1] == b'\r' {
        len - 1
    } else {
        len
    }
}

// The longest sign that stands here.
fn first_sign(rest: &[u8]) -> Front
    ensures { result ≡ sign_front rest.now }
{
    match longest_sign(rest) {
        Some((place, len)) => Ok((TokenKind::Sign(place as u8), len)),
        None => Err(TextError::BadToken),
    }
}

// The line text or the sign that stands here.
fn first_line_or_sign(rest: &[u8]) -> Front
    ensures { result ≡ line_or_sign_front rest.now }
{
    if rest.starts_with(b"\\\\") {
        Ok((TokenKind::LineText, line_text_len(rest)))
    } else {
        first_sign(rest)
    }
}

// The token of what begins with this byte, which is neither a letter, a digit nor `_`.
fn first_from(first: u8, behind: &[u8], rest: &[u8]) -> Front
    requires { rest.now ≡ first ∷ behind.now }
    ensures value { result ≡ mark_front (first ∷ behind.now) }
    ensures whole { rest.now ≡ first ∷ behind.now }
{
    if first == b'"' {
        first_text(behind)
    } else if first == b'\'' {
        first_character(behind)
    } else if first == b'@' {
        first_at(behind)
    } else {
        first_line_or_sign(rest)
    }
}

// The token of what begins with neither a letter, a digit nor `_`.
fn first_mark(rest: &[u8]) -> Front
    ensures { result ≡ mark_front rest.now }
{
    match rest {
        [first, behind @ ..] => first_from(*first, behind, rest),
        [] => Err(TextError::BadToken),
    }
}

/// What stands at the front of what is left of a text, where no blank begins.
#[tactic(auto, unfolding(crate::specs::Front::front))]
pub(crate) fn first_token(rest: &[u8]) -> Front
    ensures { result ≡ front rest.now }
{
    if starts_word(rest) {
        first_word(rest)
    } else if starts_number(rest) {
        first_number(rest)
    } else {
        first_mark(rest)
    }
}
