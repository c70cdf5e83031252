// The bytes that no text may have.
ghost use Rattle.std.specs.Prelude.{◌≡◌, ◌+◌, ◌<◌, ◌≤◌, length, take, slice_index, IfSome, IfNone, IfOk, IfErr};
ghost use Rattle.std.specs.Str.{IsUtf8, StartsWithNoChar};
ghost use Rattle.zw_token.specs.Bytes.{is_bad_control, starts_separator, starts_bad};
ghost use Rattle.zw_token.specs.Reading.{IsGoodUpTo};
ghost use Rattle.zw_token.specs.Tokens.{IsFirstBad};

use crate::literals::{continuation_len, is_utf8};

// Whether this is a control that no text may have.
#[tactic(auto, unfolding(crate::specs::Bytes::is_bad_control))]
fn is_bad_control(byte: u8) -> bool
    ensures { result ≡ is_bad_control byte }
{
    byte < 32 && !(byte == b'\t' || byte == b'\n' || byte == b'\r') || byte == 127
}

// Whether U+0085, U+2028 or U+2029 stands here.
fn starts_separator(rest: &[u8]) -> bool
    ensures { result ≡ starts_separator rest.now }
{
    rest.starts_with(&[0xC2, 0x85])
        || rest.starts_with(&[0xE2, 0x80, 0xA8])
        || rest.starts_with(&[0xE2, 0x80, 0xA9])
}

// Whether a control or a separator that no text may have stands here.
#[tactic(auto, unfolding(crate::specs::Bytes::starts_bad))]
fn starts_bad(rest: &[u8]) -> bool
    ensures { result ≡ starts_bad rest.now }
{
    match rest {
        [byte, ..] => is_bad_control(*byte) || *byte >= 0xC2 && starts_separator(rest),
        [] => false,
    }
}

// How many bytes the code point has that begins here, of which this is the first.
fn wide_len(first: u8, rest: &[u8]) -> Option<usize>
    requires { first ≡ slice_index rest.now 0 }
    ensures some { IfSome result (λ n. (0 < n) × (n ≤ length rest.now) × IsUtf8 (take n rest.now)) }
    ensures none { IfNone result (StartsWithNoChar rest.now) }
{
    let len = 1 + continuation_len(first);
    if rest.len() < len {
        return None;
    }
    if is_utf8(&rest[..len]) {
        Some(len)
    } else {
        None
    }
}

// How many bytes the code point has that begins here, where one does.
fn code_point_len(rest: &[u8]) -> Option<usize>
    ensures some { IfSome result (λ n. (0 < n) × (n ≤ length rest.now) × IsUtf8 (take n rest.now)) }
    ensures none { IfNone result (StartsWithNoChar rest.now) }
{
    match rest {
        [first, ..] => {
            if *first < 128 {
                Some(1)
            } else {
                wide_len(*first, rest)
            }
        }
        [] => None,
    }
}

// How far the text is UTF-8 behind the byte at `at`, where this is no part of what is no UTF-8.
fn valid_behind(text: &[u8], at: usize, valid: usize) -> Option<usize>
    requires good { IsGoodUpTo text.now at valid }
    requires within { at < length text.now }
    ensures some { IfSome result (IsGoodUpTo text.now at) }
    ensures behind { IfSome result (λ valid. at < valid) }
    ensures none { IfNone result (IsFirstBad text.now at) }
{
    if at < valid {
        return Some(valid);
    }
    match code_point_len(&text[at..]) {
        Some(len) => Some(at + len),
        None => None,
    }
}

// The same, where no control or separator begins there that no text may have.
fn good_behind(text: &[u8], at: usize, valid: usize) -> Option<usize>
    requires good { IsGoodUpTo text.now at valid }
    requires within { at < length text.now }
    ensures some { IfSome result (IsGoodUpTo text.now (at + 1)) }
    ensures none { IfNone result (IsFirstBad text.now at) }
{
    let byte = text[at];
    if at == valid && b' ' <= byte && byte < 127 {
        return Some(at + 1);
    }
    if starts_bad(&text[at..]) {
        return None;
    }
    valid_behind(text, at, valid)
}

/// Looks for the first bad byte of a text up to a place `to`, where none stands before `from` and the text is UTF-8 up to
/// `valid`. Where there is none, the text is UTF-8 up to the place that is returned, which may lie behind `to`.
pub(crate) fn look_up_to(text: &[u8], from: usize, valid: usize, to: usize) -> Result<usize, usize>
    requires good { IsGoodUpTo text.now from valid }
    requires ordered { from ≤ to }
    requires within { to ≤ length text.now }
    ensures good { IfOk result (IsGoodUpTo text.now to) }
    ensures bad { IfErr result (IsFirstBad text.now) }
    ensures before { IfErr result (λ bad. bad < to) }
{
    let mut valid = valid;
    for at in from..to {
        match good_behind(text, at, valid) {
            Some(good) => valid = good,
            None => return Err(at),
        }
    }
    Ok(valid)
}
