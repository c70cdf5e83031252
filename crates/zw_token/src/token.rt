// A token: its kind, and where it stands in its text; and what can be wrong where no token stands.
ghost use Rattle.std.specs.Prelude.{◌≡◌};
ghost use Rattle.zw_token.specs.ErrorNumbers.{number_of_error};

/// The kind of a token (Zig Language Reference 0.13.0, Grammar). The number of a keyword is its place from 0 in
/// `KEYWORDS`, that of a sign its place in `SIGNS`.
#[derive(Clone, Copy, Debug, PartialEq, Eq)]
pub enum TokenKind {
    /// A letter or `_`, then letters, digits and `_`, if it is no keyword.
    Name,
    /// `@"`, items and `"`: a name with any bytes.
    Quoted,
    /// `@` and a name of `BUILTINS`.
    Builtin,
    /// A number of base 10, 16 (`0x`), 8 (`0o`) or 2 (`0b`), with at most one `_` between two digits; a decimal one has no
    /// leading zero.
    Number,
    /// A code point or an escape between `'`.
    Character,
    /// Code points and escapes between `"`.
    Text,
    /// `\\` and the bytes up to the end of the line, without a carriage return directly before its line feed.
    LineText,
    Keyword(u8),
    Sign(u8),
    /// The end of the text.
    End,
}

impl TokenKind {
    /// `export`
    pub const EXPORT: TokenKind = TokenKind::Keyword(12);
    /// `extern`
    pub const EXTERN: TokenKind = TokenKind::Keyword(13);
    /// `fn`
    pub const FN: TokenKind = TokenKind::Keyword(14);
    /// `return`
    pub const RETURN: TokenKind = TokenKind::Keyword(23);
    /// `+`
    pub const PLUS: TokenKind = TokenKind::Sign(14);
    /// `+%`
    pub const PLUS_PERCENT: TokenKind = TokenKind::Sign(16);
    /// `-`
    pub const MINUS: TokenKind = TokenKind::Sign(21);
    /// `,`
    pub const COMMA: TokenKind = TokenKind::Sign(52);
    /// `;`
    pub const SEMICOLON: TokenKind = TokenKind::Sign(53);
    /// `:`
    pub const COLON: TokenKind = TokenKind::Sign(54);
    /// `(`
    pub const L_PAREN: TokenKind = TokenKind::Sign(56);
    /// `)`
    pub const R_PAREN: TokenKind = TokenKind::Sign(57);
    /// `{`
    pub const L_BRACE: TokenKind = TokenKind::Sign(60);
    /// `}`
    pub const R_BRACE: TokenKind = TokenKind::Sign(61);
}

/// A token and the bytes of its text that it is, from `start` up to `end`, counted from 0.
#[derive(Clone, Copy, Debug, PartialEq, Eq)]
pub struct Token {
    pub kind: TokenKind,
    pub start: u32,
    pub end: u32,
}

/// What is wrong at a place of a text that has no tokens. The numbers are this project's own.
#[derive(Clone, Copy, Debug, PartialEq, Eq)]
pub enum TextError {
    /// A byte that no text may have, or that is no UTF-8.
    BadByte,
    /// No token begins here.
    BadToken,
    /// A number or a literal is malformed.
    BadLiteral,
    /// What stands here is no part of the profile.
    NotInProfile,
}

impl TextError {
    /// The number of the error.
    pub fn number(self) -> u16
        ensures { result ≡ number_of_error self }
    {
        match self {
            TextError::BadByte => 3,
            TextError::BadToken => 4,
            TextError::BadLiteral => 5,
            TextError::NotInProfile => 7,
        }
    }
}
