// The replies of a host: the numbers that the lines of the input give.
ghost use Rattle.std.specs.Prelude.{◌≡◌, [], ◌∷◌, ◌<◌, ◌==◌, length, MatchOption, true};
ghost use Rattle.std.specs.List.{position_or_len};
ghost use Rattle.std.specs.Option.{SomeIff};
ghost use Rattle.std.specs.Str.Lines.{lines, strip_carriage_return};
ghost use Rattle.zw_calls.specs.Replies.{AreReplies, is_reply, reply_of};

use crate::modulo::wide;
use crate::words::{after_minus, is_numeral};
use sqlite_items::Items;
use std::alloc::Global;
use thiserror::Error;
use zw_base::{Oom, read_number};

/// Why bytes give no replies.
#[derive(Clone, Copy, Debug, PartialEq, Eq, Error)]
pub enum ReplyErr {
    /// The line of this number, counted by LF from 1, isn't empty and is no number from -2^63 to 2^64 - 1.
    #[error("a line is no reply")]
    BadLine(u64),
    /// There are more than 16,777,216 bytes.
    #[error("the input is too long")]
    TooLong,
    #[error("out of memory")]
    Oom,
}

impl From<Oom> for ReplyErr {
    ghost use Rattle.std.specs.Prelude.{◌≡◌};
    ghost use Rattle.zw_calls.specs.declared.replies.ReplyErr.TheVariants.{Oom};

    ghost from_gives = { λ _ e. e ≡ Oom };

    fn from(_: Oom) -> ReplyErr {
        ReplyErr::Oom
    }
}

/// The most bytes of an input.
pub const MOST_INPUT: usize = 16_777_216;

/// The replies that the input's bytes give, modulo 2^64: each line is an optional `-` and decimal digits. A CR is dropped directly
/// before an LF, empty lines are passed over, and the last line may lack its LF.
pub fn read_replies(alloc: Global, bytes: &[u8]) -> Result<Items<u64>, ReplyErr>
    ensures { AreReplies bytes.now result }
{
    if MOST_INPUT < bytes.len() {
        return Err(ReplyErr::TooLong);
    }
    let mut replies = Items::new(alloc);
    let mut left = bytes;
    let mut number = 0;
    while let Some((line, others)) = first_line(left) {
        number += 1;
        if !line.is_empty() {
            let Some(reply) = read_reply(line) else {
                return Err(ReplyErr::BadLine(number));
            };
            replies.push(reply)?;
        }
        left = others;
    }
    Ok(replies)
}

/// The reply that a line gives.
fn read_reply(line: &[u8]) -> Option<u64>
    ensures { SomeIff result (is_reply line.now ≡ true) (reply_of line.now) }
{
    if !is_numeral(after_minus(line)) {
        return None;
    }
    match read_number(line) {
        Some(number) => wide(number),
        None => None,
    }
}

/// The first line of a text, without its end, and what stands behind it.
fn first_line(text: &[u8]) -> Option<(&[u8], &[u8])>
    ensures { MatchOption result (lines text.now ≡ []) (λ p. (lines text.now ≡ p.0.now ∷ lines p.1.now) × (length p.1.now < length text.now)) }
{
    if text.is_empty() {
        return None;
    }
    let end = line_end(text);
    if end == text.len() {
        return Some((text, &text[end..]));
    }
    Some((without_carriage_return(&text[..end]), &text[end + 1..]))
}

/// Where the first LF stands, or the length where there is none.
fn line_end(text: &[u8]) -> usize
    ensures { result ≡ position_or_len (λ byte. byte == 10) text.now }
{
    for (at, byte) in text.iter().enumerate() {
        if *byte == b'\n' {
            return at;
        }
    }
    text.len()
}

/// A line without the CR at its end.
fn without_carriage_return(line: &[u8]) -> &[u8]
    ensures { result.now ≡ strip_carriage_return line.now }
{
    match line {
        [front @ .., b'\r'] => front,
        _ => line,
    }
}
