// The lists of keywords and signs, apart so that each stands once: the definitions cite them too.
ghost use Rattle.std.specs.Prelude.{◌≡◌, ◌↔◌, ◌<◌, ◌≤◌, ℕ, IsTrue, IfSome, IfNone, Some, slice_get, length, take, position, slice_index};
ghost use Rattle.std.specs.Str.{bytes_eq};
ghost use Rattle.zw_token.specs.Tables.{texts, signs, sign_group, place_in, is_in, letter_group, are_grouped, IsIn, NoLongerFront};

/// The keywords, in alphabetical order (Zig Language Reference 0.13.0, Keyword Reference).
pub const KEYWORDS: [&str; 32] = [
    "and",
    "anytype",
    "break",
    "catch",
    "comptime",
    "const",
    "continue",
    "defer",
    "else",
    "enum",
    "errdefer",
    "error",
    "export",
    "extern",
    "fn",
    "for",
    "if",
    "inline",
    "noinline",
    "or",
    "orelse",
    "packed",
    "pub",
    "return",
    "struct",
    "switch",
    "test",
    "try",
    "union",
    "unreachable",
    "var",
    "while",
];

// At which place of `KEYWORDS` the words begin that begin with each byte from `A` to `z`, and where the last ones end.
pub(crate) const KEYWORD_STARTS: [u8; 59] = [
    0, 0, 0, 0, 0, 0, 0, 0, 0, 0, 0, 0, 0, 0, 0, 0, 0, 0, 0, 0, 0, 0, 0, 0, 0, 0, 0, 0, 0, 0, 0, 0,
    0, 2, 3, 7, 8, 14, 16, 16, 16, 18, 18, 18, 18, 18, 19, 21, 23, 23, 24, 26, 28, 30, 31, 32, 32,
    32, 32,
];

// Keywords of Zig that are refused, in alphabetical order. `packed` is in both lists.
pub(crate) const REFUSED_KEYWORDS: [&str; 18] = [
    "addrspace",
    "align",
    "allowzero",
    "anyframe",
    "asm",
    "async",
    "await",
    "callconv",
    "linksection",
    "noalias",
    "nosuspend",
    "opaque",
    "packed",
    "resume",
    "suspend",
    "threadlocal",
    "usingnamespace",
    "volatile",
];

// The same for `REFUSED_KEYWORDS`.
pub(crate) const REFUSED_KEYWORD_STARTS: [u8; 59] = [
    0, 0, 0, 0, 0, 0, 0, 0, 0, 0, 0, 0, 0, 0, 0, 0, 0, 0, 0, 0, 0, 0, 0, 0, 0, 0, 0, 0, 0, 0, 0, 0,
    0, 7, 7, 8, 8, 8, 8, 8, 8, 8, 8, 8, 9, 9, 11, 12, 13, 13, 14, 15, 16, 17, 18, 18, 18, 18, 18,
];

/// The signs: operators and punctuation (Zig Language Reference 0.13.0, Operators and Grammar).
pub const SIGNS: [&str; 62] = [
    "!", "!=", "|", "||", "|=", "&", "&=", "*", "**", "*%", "*|", "*=", "*%=", "*|=", "+", "++",
    "+%", "+|", "+=", "+%=", "+|=", "-", "-%", "-|", "-=", "-%=", "-|=", "/", "/=", "%", "%=", "^",
    "^=", "~", "<", "<<", "<<|", "<<=", "<<|=", "<=", ">", ">>", ">>=", ">=", "=", "==", "=>", ".",
    "..", "...", ".*", ".?", ",", ";", ":", "?", "(", ")", "[", "]", "{", "}",
];

/// The builtin functions, without their `@`, in alphabetical order (Zig Language Reference 0.13.0, Builtin Functions; of these
/// the profile has only some).
pub const BUILTINS: [&str; 39] = [
    "This",
    "TypeOf",
    "abs",
    "alignOf",
    "as",
    "bitCast",
    "bitReverse",
    "bitSizeOf",
    "byteSwap",
    "clz",
    "compileError",
    "ctz",
    "divExact",
    "divFloor",
    "divTrunc",
    "enumFromInt",
    "errorName",
    "field",
    "hasDecl",
    "hasField",
    "import",
    "intCast",
    "intFromBool",
    "intFromEnum",
    "max",
    "memcpy",
    "memset",
    "min",
    "mod",
    "panic",
    "popCount",
    "rem",
    "setEvalBranchQuota",
    "shlExact",
    "shrExact",
    "sizeOf",
    "tagName",
    "truncate",
    "unionInit",
];

// The names of primitive types of Zig that aren't in the profile, by their first letter.
pub(crate) const REFUSED_NAMES: [&str; 17] = [
    "anyopaque",
    "c_char",
    "c_short",
    "c_ushort",
    "c_int",
    "c_uint",
    "c_long",
    "c_ulong",
    "c_longlong",
    "c_ulonglong",
    "c_longdouble",
    "comptime_float",
    "f16",
    "f32",
    "f64",
    "f80",
    "f128",
];

// The same for `REFUSED_NAMES`.
pub(crate) const REFUSED_NAME_STARTS: [u8; 59] = [
    0, 0, 0, 0, 0, 0, 0, 0, 0, 0, 0, 0, 0, 0, 0, 0, 0, 0, 0, 0, 0, 0, 0, 0, 0, 0, 0, 0, 0, 0, 0, 0,
    0, 1, 1, 12, 12, 12, 17, 17, 17, 17, 17, 17, 17, 17, 17, 17, 17, 17, 17, 17, 17, 17, 17, 17,
    17, 17, 17,
];

// For each byte from `!` (33) to `~` (126), from which place of `SIGNS` on and up to which the signs stand that begin with it.
const SIGN_GROUPS: [(u8, u8); 94] = [
    (0, 2),
    (0, 0),
    (0, 0),
    (0, 0),
    (29, 31),
    (5, 7),
    (0, 0),
    (56, 57),
    (57, 58),
    (7, 14),
    (14, 21),
    (52, 53),
    (21, 27),
    (47, 52),
    (27, 29),
    (0, 0),
    (0, 0),
    (0, 0),
    (0, 0),
    (0, 0),
    (0, 0),
    (0, 0),
    (0, 0),
    (0, 0),
    (0, 0),
    (54, 55),
    (53, 54),
    (34, 40),
    (44, 47),
    (40, 44),
    (55, 56),
    (0, 0),
    (0, 0),
    (0, 0),
    (0, 0),
    (0, 0),
    (0, 0),
    (0, 0),
    (0, 0),
    (0, 0),
    (0, 0),
    (0, 0),
    (0, 0),
    (0, 0),
    (0, 0),
    (0, 0),
    (0, 0),
    (0, 0),
    (0, 0),
    (0, 0),
    (0, 0),
    (0, 0),
    (0, 0),
    (0, 0),
    (0, 0),
    (0, 0),
    (0, 0),
    (0, 0),
    (58, 59),
    (0, 0),
    (59, 60),
    (31, 33),
    (0, 0),
    (0, 0),
    (0, 0),
    (0, 0),
    (0, 0),
    (0, 0),
    (0, 0),
    (0, 0),
    (0, 0),
    (0, 0),
    (0, 0),
    (0, 0),
    (0, 0),
    (0, 0),
    (0, 0),
    (0, 0),
    (0, 0),
    (0, 0),
    (0, 0),
    (0, 0),
    (0, 0),
    (0, 0),
    (0, 0),
    (0, 0),
    (0, 0),
    (0, 0),
    (0, 0),
    (0, 0),
    (60, 61),
    (2, 5),
    (61, 62),
    (33, 34),
];

// What the table says of this byte.
fn group_at(first: u8) -> (usize, usize)
    ensures from { result.0 ≡ (sign_group first).0 }
    ensures to { result.1 ≡ (sign_group first).1 }
{
    if first < 33 || 126 < first {
        return (0, 0);
    }
    let (from, to) = SIGN_GROUPS[first as usize - 33];
    (from as usize, to as usize)
}

// From which place of `SIGNS` on and up to which the signs stand that begin with this byte.
fn sign_group(first: u8) -> (usize, usize)
    ensures from { result.0 ≡ (sign_group first).0 }
    ensures to { result.1 ≡ (sign_group first).1 }
    ensures ordered { result.0 ≤ result.1 }
    ensures within { result.1 ≤ 62 }
{
    group_at(first)
}

// The first text of the table that has these bytes.
fn position_of(table: &[&str], word: &[u8]) -> Option<usize>
    ensures value { result ≡ position (λ text. bytes_eq text.now word.now) table.now }
    ensures within { IfSome result (λ k. k < length table.now) }
{
    table.iter().position(|text| text.as_bytes() == word)
}

// The place of these bytes in the table.
pub(crate) fn place_of(table: &[&str], word: &[u8]) -> Option<usize>
    ensures value { result ≡ place_in (texts table.now) word.now }
    ensures within { IfSome result (λ k. k < length table.now) }
{
    position_of(table, word)
}

// Whether these bytes stand in the table.
pub(crate) fn has(table: &[&str], word: &[u8]) -> bool
    ensures value { result ≡ is_in (texts table.now) word.now }
    ensures stands { IsTrue result ↔ IsIn (texts table.now) word.now }
{
    place_of(table, word).is_some()
}

// Where the texts of a table stand that begin with this byte.
fn letter_group(starts: &[u8; 59], first: u8) -> (usize, usize)
    ensures from { result.0 ≡ (letter_group starts.now first).0 }
    ensures to { result.1 ≡ (letter_group starts.now first).1 }
{
    if first < b'A' || b'z' < first {
        return (0, 0);
    }
    let letter = (first - b'A') as usize;
    (starts[letter] as usize, starts[letter + 1] as usize)
}

// The place of these bytes in a table that has them in this part alone.
fn place_in_part(table: &[&str], from: usize, to: usize, word: &[u8]) -> Option<usize>
    requires { (k : ℕ) → slice_get (texts table.now) k ≡ Some word.now → (from ≤ k) × (k < to) }
    ensures value { result ≡ place_in (texts table.now) word.now }
    ensures within { IfSome result (λ k. k < length table.now) }
{
    let to = to.min(table.len());
    let from = from.min(to);
    match place_of(&table[from..to], word) {
        Some(place) => Some(from + place),
        None => None,
    }
}

// The place of these bytes in a table of which only the texts with the same first letter are looked at.
pub(crate) fn place_by_letter(table: &[&str], starts: &[u8; 59], word: &[u8]) -> Option<usize>
    requires { IsTrue (are_grouped starts.now 0 (texts table.now)) }
    ensures value { result ≡ place_in (texts table.now) word.now }
    ensures within { IfSome result (λ k. k < length table.now) }
{
    match word {
        [first, ..] => {
            let (from, to) = letter_group(starts, *first);
            place_in_part(table, from, to, word)
        }
        [] => None,
    }
}

// How many bytes of the text are the bytes of `sign`: all or none.
fn front_len(rest: &[u8], sign: &str) -> usize
    ensures within { result ≤ length rest.now }
    ensures found { 0 < result → take result rest.now ≡ sign.now }
    ensures none { (m : ℕ) → result < m → m ≤ length rest.now → sign.now ≡ take m rest.now → ⊥ }
{
    if rest.starts_with(sign.as_bytes()) {
        sign.len()
    } else {
        0
    }
}

// The place and the length of the longest text of the table that the bytes begin with.
pub(crate) fn longest_front(table: &[&str], rest: &[u8]) -> Option<(usize, usize)>
    ensures within { IfSome result (λ front. front.1 ≤ length rest.now) }
    ensures found { IfSome result (λ front.
        slice_get (texts table.now) front.0 ≡ Some (take front.1 rest.now)) }
    ensures longest { IfSome result (λ front. NoLongerFront (texts table.now) rest.now front.1) }
    ensures none { IfNone result (NoLongerFront (texts table.now) rest.now 0) }
{
    let mut place = 0;
    let mut len = 0;
    for (k, sign) in table.iter().enumerate() {
        let front = front_len(rest, sign);
        if front > len {
            place = k;
            len = front;
        }
    }
    if len == 0 { None } else { Some((place, len)) }
}

// The longest sign that the bytes begin with, of which this is the first: only the signs with that first byte are tried.
fn longest_from(first: u8, rest: &[u8]) -> Option<(usize, usize)>
    requires { first ≡ slice_index rest.now 0 }
    ensures within { IfSome result (λ front. front.1 ≤ length rest.now) }
    ensures found { IfSome result (λ front. slice_get signs front.0 ≡ Some (take front.1 rest.now)) }
    ensures longest { IfSome result (λ front. NoLongerFront signs rest.now front.1) }
    ensures none { IfNone result (NoLongerFront signs rest.now 0) }
{
    let (from, to) = sign_group(first);
    let (place, len) = longest_front(&SIGNS[from..to], rest)?;
    Some((from + place, len))
}

// The place and the length of the longest sign that the bytes begin with.
pub(crate) fn longest_sign(rest: &[u8]) -> Option<(usize, usize)>
    ensures within { IfSome result (λ front. front.1 ≤ length rest.now) }
    ensures found { IfSome result (λ front. slice_get signs front.0 ≡ Some (take front.1 rest.now)) }
    ensures longest { IfSome result (λ front. NoLongerFront signs rest.now front.1) }
    ensures none { IfNone result (NoLongerFront signs rest.now 0) }
{
    match rest {
        [first, ..] => longest_from(*first, rest),
        [] => None,
    }
}
