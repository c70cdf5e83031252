// The terminals of a list of tokens.
ghost use Rattle.std.specs.Prelude.{◌≡◌, All, IfOk};
ghost use Rattle.zw_token.specs.Tokens.{LiesIn};
ghost use Rattle.zw_parse_expr.specs.Lexemes.{lexeme_of, lexemes, own_terminal, terminal_before, terminals_of};
ghost use Rattle.zw_parse_expr.specs.Terminals.{name_terminal, builtin_terminal, sign_terminal, colon_before};

use crate::terminal::{
    BLANK, BUILTIN, CHARACTER, COLON, COLON_NAME, COLON_TARGET, END, FOR, IMPORT, INLINE, L_BRACE,
    LINE_TEXT, NAME, NUMBER, QUOTED, TEXT, WHILE,
};
use std::alloc::Global;
use zw_base::Oom;
use zw_token::{Token, TokenKind};

// The terminal of a name.
fn name_terminal(bytes: &[u8]) -> u8
    ensures { result ≡ name_terminal bytes.now }
{
    match bytes {
        [b'_'] => BLANK,
        _ => NAME,
    }
}

// The terminal of a builtin.
fn builtin_terminal(bytes: &[u8]) -> u8
    ensures { result ≡ builtin_terminal bytes.now }
{
    if bytes.starts_with(b"@import") && bytes.len() == 7 {
        IMPORT
    } else {
        BUILTIN
    }
}

// The terminal of the sign with this number.
fn sign_terminal(number: u8) -> u8
    ensures { result ≡ sign_terminal number }
{
    if number < 62 { number + 32 } else { END }
}

// The terminal of a token by itself.
fn terminal_of(text: &[u8], token: &Token) -> u8
    requires { LiesIn text.now token.now }
    ensures { result ≡ own_terminal (lexeme_of text.now token.now) }
{
    let bytes = &text[token.start as usize..token.end as usize];
    match token.kind {
        TokenKind::Name => name_terminal(bytes),
        TokenKind::Quoted => QUOTED,
        TokenKind::Builtin => builtin_terminal(bytes),
        TokenKind::Number => NUMBER,
        TokenKind::Character => CHARACTER,
        TokenKind::Text => TEXT,
        TokenKind::LineText => LINE_TEXT,
        TokenKind::Keyword(number) => number,
        TokenKind::Sign(number) => sign_terminal(number),
        TokenKind::End => END,
    }
}

// The terminal of a `:` before this terminal.
#[tactic(auto, unfolding(crate::specs::Terminals::colon_before))]
fn colon_before(next: u8) -> u8
    ensures { result ≡ colon_before next }
{
    if next == L_BRACE || next == FOR || next == WHILE || next == INLINE {
        COLON_TARGET
    } else if next == NAME || next == QUOTED {
        COLON_NAME
    } else {
        COLON
    }
}

// The terminal of a token before others.
fn terminal_before(text: &[u8], token: &Token, others: &[Token]) -> u8
    requires first { LiesIn text.now token.now }
    requires others { All (LiesIn text.now) others.now }
    ensures { result ≡ terminal_before (lexeme_of text.now token.now) (lexemes text.now others.now) }
{
    let terminal = terminal_of(text, token);
    if terminal != COLON {
        return terminal;
    }
    match others.first() {
        Some(next) => colon_before(terminal_of(text, next)),
        None => COLON,
    }
}

/// The terminals of a list of tokens: that of a name is another for `_`, that of a builtin for `@import`, and that of a
/// `:` by the token behind it.
pub(crate) fn terminals(alloc: Global, text: &[u8], tokens: &[Token]) -> Result<Vec<u8>, Oom>
    requires { All (LiesIn text.now) tokens.now }
    ensures { IfOk result (λ list. list.items ≡ terminals_of (lexemes text.now tokens.now)) }
{
    let mut list = Vec::new(alloc);
    let mut left = tokens;
    while let Some((token, others)) = left.split_first() {
        list.push(terminal_before(text, token, others))?;
        left = others;
    }
    Ok(list)
}
