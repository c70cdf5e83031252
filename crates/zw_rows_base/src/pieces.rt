// Bytes, piece by piece: text, lines, text with escapes, hexadecimal, repeated text, and bytes that have a name.
use crate::fields::Field;
use crate::mistake::{Mistake, Problem};
use crate::spelling::{hex_bytes, natural, unescaped, word};
use crate::table::Line;
use std::alloc::Global;

/// Whether a line that begins with this word is a piece of bytes.
pub fn is_piece(word: &str) -> bool {
    matches!(
        word,
        "text" | "line" | "escaped" | "hex" | "repeat" | "count" | "the"
    )
}

/// Whether bytes may stand below a line that begins with this word, a row's head or a field.
pub fn takes_bytes(word: &str) -> bool {
    matches!(
        word,
        "bytes" | "build" | "session" | "machine" | "tokens" | "trees" | "nodes" | "source"
    ) || matches!(word, "file" | "input" | "out" | "ends" | "diag" | "left")
}

/// Adds what a piece spells.
pub fn add_piece(
    alloc: Global,
    line: Line<'_>,
    named: &[Field<'_>],
    bytes: &mut Vec<u8>,
) -> Result<(), Mistake> {
    match line.word {
        "text" => bytes.extend_from_slice(line.rest.as_bytes())?,
        "line" => {
            bytes.extend_from_slice(line.rest.as_bytes())?;
            bytes.push(b'\n')?;
        }
        "escaped" => bytes.extend_from_slice(&unescaped(alloc, line, line.rest)?)?,
        "hex" => bytes.extend_from_slice(&hex_bytes(alloc, line, line.rest)?)?,
        "repeat" => add_repeated(alloc, line, bytes)?,
        "count" => add_counted(alloc, line, bytes)?,
        _ => add_named(line, named, bytes)?,
    }
    Ok(())
}

/// `repeat N WORD`: so many copies of the word.
fn add_repeated(alloc: Global, line: Line<'_>, bytes: &mut Vec<u8>) -> Result<(), Mistake> {
    let Some((count, text)) = line.rest.split_once(' ') else {
        return Err(Mistake::Wrong(line.number, Problem::MissingWord));
    };
    let copied = word(alloc, line, text)?;
    for _ in 0..natural(line, count)? {
        bytes.extend_from_slice(copied.bytes())?;
    }
    Ok(())
}

/// `count N TEXT`: so many copies of the text, each with its number in the place of `#`.
fn add_counted(alloc: Global, line: Line<'_>, bytes: &mut Vec<u8>) -> Result<(), Mistake> {
    let Some((count, text)) = line.rest.split_once(' ') else {
        return Err(Mistake::Wrong(line.number, Problem::MissingWord));
    };
    let (front, behind) = text.split_once('#').unwrap_or((text, ""));
    for number in 0..natural(line, count)? {
        let numbered = format!(in alloc; "{front}{number}{behind}")?;
        bytes.extend_from_slice(numbered.as_bytes())?;
    }
    Ok(())
}

/// `the NAME`: the bytes that an earlier row named.
fn add_named(line: Line<'_>, named: &[Field<'_>], bytes: &mut Vec<u8>) -> Result<(), Mistake> {
    for field in named {
        if field.line.rest == line.rest {
            bytes.extend_from_slice(&field.bytes)?;
            return Ok(());
        }
    }
    Err(Mistake::Wrong(line.number, Problem::UnknownName))
}
