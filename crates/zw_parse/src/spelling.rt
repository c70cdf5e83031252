// What the tokens of a node stand for: a name, a text or a number.
ghost use Rattle.std.specs.Prelude.{◌≡◌, ◌<◌, IfOk, OnOk, ◌++◌, All, length};
ghost use Rattle.zw_token.specs.Tokens.{LiesIn, IsOfKind, bytes_of};
ghost use Rattle.zw_token.specs.declared.token.Token.{Token};
ghost use Rattle.zw_token.specs.declared.token.TokenKind.{TokenKind};
ghost use Rattle.zw_parse.specs.Spellings.{spelling_of, lines_behind, lines_of, name_spelled, number_spelled, character_spelled, IsOneCharacter};

use std::alloc::Global;
use zw_base::Oom;
use zw_token::{Token, TokenKind, char_value, number_value, text_value};
use zw_tree::NodeKind;

/// How a node spells what it stands for.
#[derive(Clone, Copy, Debug, PartialEq, Eq)]
pub(crate) enum Spelling {
    /// By the bytes of a name.
    Word,
    /// By a quoted name.
    Quoted,
    /// By `@` and a name.
    Builtin,
    /// By a text, or line texts.
    Text,
    Number,
    Character,
    /// It stands for nothing.
    Nothing,
}

// How a node of this kind spells it.
pub(crate) fn spelled_by(kind: NodeKind) -> Spelling
    ensures { result ≡ spelling_of kind }
{
    match kind {
        NodeKind::Name | NodeKind::Blank | NodeKind::Identifier => Spelling::Word,
        NodeKind::QuotedName | NodeKind::QuotedIdentifier => Spelling::Quoted,
        NodeKind::Builtin => Spelling::Builtin,
        NodeKind::Text => Spelling::Text,
        NodeKind::Number => Spelling::Number,
        NodeKind::Character => Spelling::Character,
        _ => Spelling::Nothing,
    }
}

/// The bytes of a token.
pub(crate) fn bytes_of<'a>(text: &'a [u8], token: &Token) -> &'a [u8]
    requires { LiesIn text.now token.now }
    ensures { result.now ≡ bytes_of text.now token.now }
{
    &text[token.start as usize..token.end as usize]
}

// Puts lines behind what stands before them, each behind a line feed.
fn push_lines(bytes: &mut Vec<u8>, alloc: Global, text: &[u8], lines: &[Token]) -> Result<(), Oom>
    requires { All (LiesIn text.now) lines.now }
    ensures { OnOk result (bytes.new.items ≡ bytes.old.items ++ lines_behind text.now lines.now) }
{
    for line in lines {
        let value = text_value(alloc, bytes_of(text, line))?;
        bytes.push(b'\n')?;
        bytes.extend_from_slice(&value)?;
    }
    Ok(())
}

// The lines of a text, with a line feed between two of them.
fn lines_of(alloc: Global, text: &[u8], lines: &[Token]) -> Result<Vec<u8>, Oom>
    requires { All (LiesIn text.now) lines.now }
    ensures { IfOk result (λ bytes. bytes.items ≡ lines_of text.now lines.now) }
{
    match lines {
        [] => Ok(Vec::new(alloc)),
        [first, others @ ..] => {
            let mut bytes = text_value(alloc, bytes_of(text, first))?;
            push_lines(&mut bytes, alloc, text, others)?;
            Ok(bytes)
        }
    }
}

/// The bytes that a node's tokens stand for.
pub(crate) fn name_spelled(
    alloc: Global,
    spelling: Spelling,
    text: &[u8],
    tokens: &[Token],
) -> Result<Vec<u8>, Oom>
    requires some { 0 < length tokens.now }
    requires within { All (LiesIn text.now) tokens.now }
    ensures { IfOk result (λ bytes. bytes.items ≡ name_spelled spelling text.now tokens.now) }
{
    let first = bytes_of(text, &tokens[0]);
    match spelling {
        Spelling::Word => first.to_vec(alloc),
        Spelling::Quoted => text_value(alloc, first),
        Spelling::Builtin => first.get(1..).unwrap_or_default().to_vec(alloc),
        Spelling::Text => lines_of(alloc, text, tokens),
        Spelling::Number | Spelling::Character | Spelling::Nothing => Ok(Vec::new(alloc)),
    }
}

// The number of a character. Another token has none.
fn character_spelled(kind: TokenKind, bytes: &[u8]) -> Option<i128>
    requires { kind ≡ TokenKind.Character → IsOfKind TokenKind.Character bytes.now }
    ensures { result ≡ character_spelled kind bytes.now }
{
    match kind {
        TokenKind::Character => Some(i128::from(char_value(bytes))),
        _ => None,
    }
}

/// The number that a node's first token stands for.
pub(crate) fn number_spelled(spelling: Spelling, text: &[u8], first: &Token) -> Option<i128>
    requires within { LiesIn text.now first.now }
    requires character { IsOneCharacter text.now first.now }
    ensures { result ≡ number_spelled spelling first.now.kind (bytes_of text.now first.now) }
{
    let bytes = bytes_of(text, first);
    match spelling {
        Spelling::Number => number_value(bytes),
        Spelling::Character => character_spelled(first.kind, bytes),
        Spelling::Word
        | Spelling::Quoted
        | Spelling::Builtin
        | Spelling::Text
        | Spelling::Nothing => None,
    }
}
