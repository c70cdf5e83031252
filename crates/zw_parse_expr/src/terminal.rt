// The terminals of the grammar: keywords from 0 and signs from 32 in the order of `KEYWORDS` and `SIGNS`, and then the other kinds of
// tokens. A `:` is one of three terminals, by the token behind it, and `_` and `@import` are terminals of their own.

/// `and`
pub const AND: u8 = 0;
/// `anytype`
pub const ANYTYPE: u8 = 1;
/// `break`
pub const BREAK: u8 = 2;
/// `catch`
pub const CATCH: u8 = 3;
/// `comptime`
pub const COMPTIME: u8 = 4;
/// `const`
pub const CONST: u8 = 5;
/// `continue`
pub const CONTINUE: u8 = 6;
/// `defer`
pub const DEFER: u8 = 7;
/// `else`
pub const ELSE: u8 = 8;
/// `enum`
pub const ENUM: u8 = 9;
/// `errdefer`
pub const ERRDEFER: u8 = 10;
/// `error`
pub const ERROR: u8 = 11;
/// `export`
pub const EXPORT: u8 = 12;
/// `extern`
pub const EXTERN: u8 = 13;
/// `fn`
pub const FN: u8 = 14;
/// `for`
pub const FOR: u8 = 15;
/// `if`
pub const IF: u8 = 16;
/// `inline`
pub const INLINE: u8 = 17;
/// `noinline`
pub const NOINLINE: u8 = 18;
/// `or`
pub const OR: u8 = 19;
/// `orelse`
pub const ORELSE: u8 = 20;
/// `packed`
pub const PACKED: u8 = 21;
/// `pub`
pub const PUB: u8 = 22;
/// `return`
pub const RETURN: u8 = 23;
/// `struct`
pub const STRUCT: u8 = 24;
/// `switch`
pub const SWITCH: u8 = 25;
/// `test`
pub const TEST: u8 = 26;
/// `try`
pub const TRY: u8 = 27;
/// `union`
pub const UNION: u8 = 28;
/// `unreachable`
pub const UNREACHABLE: u8 = 29;
/// `var`
pub const VAR: u8 = 30;
/// `while`
pub const WHILE: u8 = 31;

/// `!`
pub const BANG: u8 = 32;
/// `!=`
pub const BANG_EQUAL: u8 = 33;
/// `|`
pub const PIPE: u8 = 34;
/// `||`
pub const PIPE_PIPE: u8 = 35;
/// `|=`
pub const PIPE_EQUAL: u8 = 36;
/// `&`
pub const AMPERSAND: u8 = 37;
/// `&=`
pub const AMPERSAND_EQUAL: u8 = 38;
/// `*`
pub const STAR: u8 = 39;
/// `**`
pub const STAR_STAR: u8 = 40;
/// `*%`
pub const STAR_PERCENT: u8 = 41;
/// `*|`
pub const STAR_PIPE: u8 = 42;
/// `*=`
pub const STAR_EQUAL: u8 = 43;
/// `*%=`
pub const STAR_PERCENT_EQUAL: u8 = 44;
/// `*|=`
pub const STAR_PIPE_EQUAL: u8 = 45;
/// `+`
pub const PLUS: u8 = 46;
/// `++`
pub const PLUS_PLUS: u8 = 47;
/// `+%`
pub const PLUS_PERCENT: u8 = 48;
/// `+|`
pub const PLUS_PIPE: u8 = 49;
/// `+=`
pub const PLUS_EQUAL: u8 = 50;
/// `+%=`
pub const PLUS_PERCENT_EQUAL: u8 = 51;
/// `+|=`
pub const PLUS_PIPE_EQUAL: u8 = 52;
/// `-`
pub const MINUS: u8 = 53;
/// `-%`
pub const MINUS_PERCENT: u8 = 54;
/// `-|`
pub const MINUS_PIPE: u8 = 55;
/// `-=`
pub const MINUS_EQUAL: u8 = 56;
/// `-%=`
pub const MINUS_PERCENT_EQUAL: u8 = 57;
/// `-|=`
pub const MINUS_PIPE_EQUAL: u8 = 58;
/// `/`
pub const SLASH: u8 = 59;
/// `/=`
pub const SLASH_EQUAL: u8 = 60;
/// `%`
pub const PERCENT: u8 = 61;
/// `%=`
pub const PERCENT_EQUAL: u8 = 62;
/// `^`
pub const CARET: u8 = 63;
/// `^=`
pub const CARET_EQUAL: u8 = 64;
/// `~`
pub const TILDE: u8 = 65;
/// `<`
pub const LESS: u8 = 66;
/// `<<`
pub const LESS_LESS: u8 = 67;
/// `<<|`
pub const LESS_LESS_PIPE: u8 = 68;
/// `<<=`
pub const LESS_LESS_EQUAL: u8 = 69;
/// `<<|=`
pub const LESS_LESS_PIPE_EQUAL: u8 = 70;
/// `<=`
pub const LESS_EQUAL: u8 = 71;
/// `>`
pub const GREATER: u8 = 72;
/// `>>`
pub const GREATER_GREATER: u8 = 73;
/// `>>=`
pub const GREATER_GREATER_EQUAL: u8 = 74;
/// `>=`
pub const GREATER_EQUAL: u8 = 75;
/// `=`
pub const EQUAL: u8 = 76;
/// `==`
pub const EQUAL_EQUAL: u8 = 77;
/// `=>`
pub const ARROW: u8 = 78;
/// `.`
pub const DOT: u8 = 79;
/// `..`
pub const DOT_DOT: u8 = 80;
/// `...`
pub const DOT_DOT_DOT: u8 = 81;
/// `.*`
pub const DOT_STAR: u8 = 82;
/// `.?`
pub const DOT_QUESTION: u8 = 83;
/// `,`
pub const COMMA: u8 = 84;
/// `;`
pub const SEMICOLON: u8 = 85;
/// `:`
pub const COLON: u8 = 86;
/// `?`
pub const QUESTION: u8 = 87;
/// `(`
pub const L_PAREN: u8 = 88;
/// `)`
pub const R_PAREN: u8 = 89;
/// `[`
pub const L_BRACKET: u8 = 90;
/// `]`
pub const R_BRACKET: u8 = 91;
/// `{`
pub const L_BRACE: u8 = 92;
/// `}`
pub const R_BRACE: u8 = 93;

/// A name other than `_`.
pub const NAME: u8 = 94;
/// `_`
pub const BLANK: u8 = 95;
/// A quoted name.
pub const QUOTED: u8 = 96;
/// `@import`
pub const IMPORT: u8 = 97;
/// Another builtin.
pub const BUILTIN: u8 = 98;
/// A number.
pub const NUMBER: u8 = 99;
/// A character.
pub const CHARACTER: u8 = 100;
/// A text in quotes.
pub const TEXT: u8 = 101;
/// A line text.
pub const LINE_TEXT: u8 = 102;
/// The end of the text.
pub const END: u8 = 103;
/// `:` before `{`, `for`, `while` or `inline`: what stands there can have a label.
pub const COLON_TARGET: u8 = 104;
/// `:` before a name or a quoted name.
pub const COLON_NAME: u8 = 105;
