// The one pass over a text that gives its tokens.
ghost use Rattle.std.specs.Prelude.{◌≡◌, All, ◌<◌, ◌≤◌, length, not, count_by, IfOk, IfErr, false, drop};
ghost use Rattle.std.specs.List.{suffix_len};
ghost use Rattle.zw_token.specs.declared.token.Token.{Token};
ghost use Rattle.zw_token.specs.Bytes.{starts_blank, is_line_feed};
ghost use Rattle.zw_token.specs.Tokens.{IsGap, IsNext, BeginsWrong, LiesIn, Tokens, IsRefusal, place_at, stop_at, start_of};
ghost use Rattle.zw_token.specs.Reading.{IsReading, IsGoodUpTo, StopFrom};

use crate::bad::look_up_to;
use crate::bytes::{blank_len, starts_blank};
use crate::first::first_token;
use crate::{TextError, Token, TokenKind};
use std::alloc::Global;
use zw_base::{Oom, Place, Refused, Stop, StopKind};

/// What reading a text from the left comes to: its tokens, or where it stops.
#[derive(Drop)]
pub(crate) enum Reading {
    Tokens(Vec<Token>),
    Wrong(usize, TextError),
}

/// Where the text begins, after a byte order mark.
#[tactic(auto, unfolding(crate::specs::Tokens::start_of))]
fn start_of(text: &[u8]) -> usize
    ensures value { result ≡ start_of text.now }
    ensures within { result ≤ length text.now }
{
    if text.starts_with(&[0xEF, 0xBB, 0xBF]) {
        3
    } else {
        0
    }
}

/// Where the white space and the comments end that stand from a place on.
fn gap_end(text: &[u8], from: usize) -> usize
    requires { from ≤ length text.now }
    ensures within { result ≤ length text.now }
    ensures gap { IsGap text.now from result }
    ensures end { starts_blank (drop result text.now) ≡ false }
{
    let mut at = from;
    while starts_blank(&text[at..]) {
        at += blank_len(&text[at..]);
    }
    at
}

/// The next token from a place on, behind white space and comments, or the place where there is none.
fn next_token(text: &[u8], from: usize) -> Result<Token, (usize, TextError)>
    requires length { length text.now ≤ 4194304 }
    requires from { from ≤ length text.now }
    ensures found { IfOk result (λ token. IsNext text.now from token) }
    ensures wrong { IfErr result (λ wrong. IsGap text.now from wrong.0 × BeginsWrong (drop wrong.0 text.now) wrong.1) }
{
    let start = gap_end(text, from);
    if start == text.len() {
        return Ok(Token {
            kind: TokenKind::End,
            start: start as u32,
            end: start as u32,
        });
    }
    match first_token(&text[start..]) {
        Ok((kind, len)) => Ok(Token {
            kind,
            start: start as u32,
            end: (start + len) as u32,
        }),
        Err(error) => Err((start, error)),
    }
}

/// The next token from a place on, up to whose end no bad byte stands, and how far the text is UTF-8; or the place of the
/// first bad byte or wrong token. No bad byte stands before the place, and the text is UTF-8 up to `valid`.
fn good_token(text: &[u8], from: usize, valid: usize) -> Result<(Token, usize), (usize, TextError)>
    requires length { length text.now ≤ 4194304 }
    requires good { IsGoodUpTo text.now from valid }
    ensures found { IfOk result (λ found. IsNext text.now from found.0) }
    ensures good { IfOk result (λ found. IsGoodUpTo text.now found.0.end found.1) }
    ensures stop { IfErr result (λ stop. StopFrom text.now from stop.0 stop.1) }
{
    match next_token(text, from) {
        Ok(token) => match look_up_to(text, from, valid, token.end as usize) {
            Ok(valid) => Ok((token, valid)),
            Err(bad) => Err((bad, TextError::BadByte)),
        },
        Err((place, error)) => match look_up_to(text, from, valid, place + 1) {
            Ok(_) => Err((place, error)),
            Err(bad) => Err((bad, TextError::BadByte)),
        },
    }
}

/// The tokens of a text, or where it stops.
fn read_tokens(alloc: Global, text: &[u8]) -> Result<Reading, Oom>
    requires { length text.now ≤ 4194304 }
    ensures { IfOk result (IsReading text.now) }
{
    let mut list = Vec::new(alloc);
    let mut at = start_of(text);
    let mut valid = at;
    loop {
        match good_token(text, at, valid) {
            Ok((token, good)) => {
                list.push(token).map_err(Oom::from)?;
                if let TokenKind::End = token.kind {
                    return Ok(Reading::Tokens(list));
                }
                at = token.end as usize;
                valid = good;
            }
            Err((place, error)) => return Ok(Reading::Wrong(place, error)),
        }
    }
}

/// How many line feeds are among these bytes.
fn line_feeds(bytes: &[u8]) -> usize
    ensures value { result ≡ count_by is_line_feed bytes.now }
    ensures within { result ≤ length bytes.now }
{
    bytes.iter().filter(|byte| **byte == b'\n').count()
}

/// How many bytes stand behind the last line feed.
fn line_bytes(bytes: &[u8]) -> usize
    ensures value { result ≡ suffix_len (λ b. not (is_line_feed b)) bytes.now }
    ensures within { result ≤ length bytes.now }
{
    bytes
        .iter()
        .rev()
        .take_while(|byte| **byte != b'\n')
        .count()
}

/// The place in its file, by line and column, of a place in a text.
fn place_at(file: u32, text: &[u8], at: usize) -> Place
    requires length { length text.now ≤ 4194304 }
    requires within { at ≤ length text.now }
    ensures { result ≡ place_at file text.now at }
{
    let before = &text[..at];
    Place {
        file,
        line: line_feeds(before) as u32 + 1,
        column: line_bytes(before) as u32 + 1,
    }
}

/// The stop for what is wrong at a place.
fn stop_at(file: u32, text: &[u8], at: usize, error: TextError) -> Refused
    requires length { length text.now ≤ 4194304 }
    requires within { at ≤ length text.now }
    ensures { result ≡ Refused.Stop (stop_at file text.now at error) }
{
    Refused::Stop(Stop {
        kind: StopKind::Error(error.number()),
        place: place_at(file, text, at),
    })
}

/// The tokens of a text of the file with this number, the end of the text as the last. The text has at most
/// 4,194,304 bytes.
///
/// A text without tokens has a stop: at its first bad byte (error 3), or at its first wrong token, whichever stands first. A
/// bad byte is a control other than tab, line feed and carriage return, the delete, the first byte that is no UTF-8, or the
/// first of U+0085, U+2028 and U+2029, anywhere in the text. A wrong token is a byte that begins none (error 4), a
/// malformed number or literal (error 5), or a float, a refused keyword, the name of a refused type, or a builtin that isn't
/// in the table (error 7); each is told at its first byte (Zig Language Reference 0.13.0, Source Encoding and Grammar; the
/// numbers of the errors are this project's own).
pub fn tokens(alloc: Global, file: u32, text: &[u8]) -> Result<Vec<Token>, Refused>
    requires { length text.now ≤ 4194304 }
    ensures list { IfOk result (λ list. Tokens text.now list.items) }
    ensures within { IfOk result (λ list. All (LiesIn text.now) list.items) }
    ensures refused { IfErr result (IsRefusal file text.now) }
{
    match read_tokens(alloc, text)? {
        Reading::Tokens(list) => Ok(list),
        Reading::Wrong(at, error) => Err(stop_at(file, text, at, error)),
    }
}
