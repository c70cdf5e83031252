// Words and numbers of a line.
use crate::mistake::{Mistake, Problem};
use crate::table::Line;
use std::alloc::Global;
use zw_base::Word;

/// A number that isn't negative.
pub fn natural(line: Line<'_>, word: &str) -> Result<u64, Mistake> {
    match word.parse::<u64>() {
        Ok(number) => Ok(number),
        Err(_) => Err(Mistake::Wrong(line.number, Problem::BadNumber)),
    }
}

/// A number below 2^32.
pub fn small(line: Line<'_>, word: &str) -> Result<u32, Mistake> {
    match word.parse::<u32>() {
        Ok(number) => Ok(number),
        Err(_) => Err(Mistake::Wrong(line.number, Problem::BadNumber)),
    }
}

/// The numbers below 2^32 that these words are.
pub fn smalls(alloc: Global, line: Line<'_>, words: &str) -> Result<Vec<u32>, Mistake> {
    let mut numbers = Vec::new(alloc);
    for word in words.split_whitespace() {
        numbers.push(small(line, word)?)?;
    }
    Ok(numbers)
}

/// The bytes of a word: as it stands, or in hexadecimal behind `hex:`.
pub fn word(alloc: Global, line: Line<'_>, text: &str) -> Result<Word, Mistake> {
    let Some(digits) = text.strip_prefix("hex:") else {
        return Ok(Word::copy(alloc, text.as_bytes())?);
    };
    match hex::decode(alloc, digits) {
        Ok(bytes) => Ok(Word::copy(alloc, &bytes)?),
        Err(_) => Err(Mistake::Wrong(line.number, Problem::BadHex)),
    }
}

/// The words of a line.
pub fn words(alloc: Global, line: Line<'_>) -> Result<Vec<Word>, Mistake> {
    let mut list = Vec::new(alloc);
    for text in line.rest.split_whitespace() {
        list.push(word(alloc, line, text)?)?;
    }
    Ok(list)
}

/// The bytes of pairs of hexadecimal digits, with blanks between some.
pub fn hex_bytes(alloc: Global, line: Line<'_>, digits: &str) -> Result<Vec<u8>, Mistake> {
    let mut bytes = Vec::new(alloc);
    for group in digits.split_whitespace() {
        match hex::decode(alloc, group) {
            Ok(more) => bytes.extend_from_slice(&more)?,
            Err(_) => return Err(Mistake::Wrong(line.number, Problem::BadHex)),
        }
    }
    Ok(bytes)
}

/// Where a text with escapes stands.
#[derive(Clone, Copy)]
enum Escape {
    /// Outside of an escape.
    Outside,
    /// Behind a `\`.
    Begun,
    /// Behind `\x`.
    Hex,
    /// Behind `\x` and a digit of this value.
    HexDigit(u8),
}

/// The bytes of a text in which `\n`, `\r`, `\t`, `\\` and `\xHH` stand for a byte each.
pub fn unescaped(alloc: Global, line: Line<'_>, text: &str) -> Result<Vec<u8>, Mistake> {
    let mut bytes = Vec::new(alloc);
    let mut state = Escape::Outside;
    for byte in text.as_bytes() {
        let Some((next, own)) = after(state, *byte) else {
            return Err(Mistake::Wrong(line.number, Problem::BadEscape));
        };
        if let Some(own) = own {
            bytes.push(own)?;
        }
        state = next;
    }
    match state {
        Escape::Outside => Ok(bytes),
        _ => Err(Mistake::Wrong(line.number, Problem::BadEscape)),
    }
}

/// Where the text stands behind this byte, and the byte that is spelled by it, if there is one.
fn after(state: Escape, byte: u8) -> Option<(Escape, Option<u8>)> {
    match state {
        Escape::Outside if byte == b'\\' => Some((Escape::Begun, None)),
        Escape::Outside => Some((Escape::Outside, Some(byte))),
        Escape::Begun if byte == b'x' => Some((Escape::Hex, None)),
        Escape::Begun => Some((Escape::Outside, Some(simple(byte)?))),
        Escape::Hex => Some((Escape::HexDigit(digit(byte)?), None)),
        Escape::HexDigit(high) => {
            let low = digit(byte)?;
            Some((
                Escape::Outside,
                Some(high.wrapping_mul(16).wrapping_add(low)),
            ))
        }
    }
}

/// The byte that a letter behind a `\` stands for.
fn simple(letter: u8) -> Option<u8> {
    match letter {
        b'n' => Some(b'\n'),
        b'r' => Some(b'\r'),
        b't' => Some(b'\t'),
        b'\\' => Some(b'\\'),
        _ => None,
    }
}

/// The value of a hexadecimal digit.
fn digit(byte: u8) -> Option<u8> {
    match byte {
        b'0'..=b'9' => Some(byte - b'0'),
        b'A'..=b'F' => Some(byte - b'A' + 10),
        b'a'..=b'f' => Some(byte - b'a' + 10),
        _ => None,
    }
}
