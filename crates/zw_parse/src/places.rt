// The places of tokens, in one pass over their text.
ghost use Rattle.std.specs.Prelude.{◌≡◌, ℕ, List, ◌+◌, ◌<◌, ◌≤◌, ◌^◌, ◌++◌, length, map, All, IfOk};
ghost use Rattle.zw_token.specs.Tokens.{LiesIn, DoNotOverlap, place_at};
ghost use Rattle.zw_token.specs.declared.token.Token.{Token};
ghost use Rattle.zw_parse.specs.Places.{place_behind};

use std::alloc::Global;
use zw_base::{Oom, Place};
use zw_token::Token;

// The place behind these bytes, which begin at a place.
fn moved(from: Place, passed: &[u8]) -> Place
    requires line { from.line + length passed.now < 2 ^ 32 }
    requires column { from.column + length passed.now < 2 ^ 32 }
    ensures { (before : List ℕ) → from ≡ place_behind from.file before → result ≡ place_behind from.file (before ++ passed.now) }
{
    let mut line = from.line;
    let mut column = from.column;
    for byte in passed {
        if *byte == b'\n' {
            line += 1;
            column = 1;
        } else {
            column += 1;
        }
    }
    Place {
        file: from.file,
        line,
        column,
    }
}

/// The place of a byte of a text, by its number.
pub(crate) fn place_of(file: u32, text: &[u8], at: usize) -> Place
    requires short { length text.now ≤ 4194304 }
    requires within { at ≤ length text.now }
    ensures { result ≡ place_at file text.now at }
{
    let first = Place {
        file,
        line: 1,
        column: 1,
    };
    moved(first, &text[..at])
}

/// The place of each token of a text.
pub(crate) fn places(
    alloc: Global,
    file: u32,
    text: &[u8],
    tokens: &[Token],
) -> Result<Vec<Place>, Oom>
    requires short { length text.now ≤ 4194304 }
    requires within { All (LiesIn text.now) tokens.now }
    requires apart { DoNotOverlap tokens.now }
    ensures { IfOk result (λ list. list.items ≡ map (λ (t : Token). place_at file text.now t.start) tokens.now) }
{
    let mut list = Vec::new(alloc);
    let mut at = 0;
    let mut place = Place {
        file,
        line: 1,
        column: 1,
    };
    for token in tokens {
        let start = token.start as usize;
        place = moved(place, &text[at..start]);
        at = start;
        list.push(place)?;
    }
    Ok(list)
}
