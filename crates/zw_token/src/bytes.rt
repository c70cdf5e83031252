// The kinds of bytes, and how many bytes of one kind a text begins with.
ghost use Rattle.std.specs.Prelude.{◌≡◌, ◌<◌, ◌≤◌, length, IsTrue};
ghost use Rattle.zw_token.specs.Bytes.{is_white, is_name_start, is_name_byte, starts_word, starts_number, starts_fraction, starts_comment, starts_blank, blank_len, line_len};
ghost use Rattle.zw_token.specs.Front.{word_len};

/// Blank, tab, line feed or carriage return.
#[tactic(auto, unfolding(crate::specs::Bytes::is_white))]
pub fn is_white(byte: u8) -> bool
    ensures { result ≡ is_white byte }
{
    byte == b' ' || byte == b'\t' || byte == b'\n' || byte == b'\r'
}

/// What a name begins with.
#[tactic(auto, unfolding(crate::specs::Bytes::is_name_start))]
pub fn is_name_start(byte: u8) -> bool
    ensures { result ≡ is_name_start byte }
{
    byte.is_ascii_alphabetic() || byte == b'_'
}

/// What a name goes on with.
#[tactic(auto, unfolding(crate::specs::Bytes::is_name_byte))]
pub fn is_name_byte(byte: u8) -> bool
    ensures { result ≡ is_name_byte byte }
{
    is_name_start(byte) || byte.is_ascii_digit()
}

/// Whether a name or a keyword begins here.
pub fn starts_word(rest: &[u8]) -> bool
    ensures { result ≡ starts_word rest.now }
{
    match rest {
        [first, ..] => is_name_start(*first),
        [] => false,
    }
}

/// Whether a number begins here.
pub fn starts_number(rest: &[u8]) -> bool
    ensures { result ≡ starts_number rest.now }
{
    match rest {
        [first, ..] => first.is_ascii_digit(),
        [] => false,
    }
}

/// Whether `.` and a digit stand here, with which a number goes on as a float.
pub fn starts_fraction(rest: &[u8]) -> bool
    ensures { result ≡ starts_fraction rest.now }
{
    match rest {
        [b'.', digit, ..] => digit.is_ascii_digit(),
        _ => false,
    }
}

/// How many letters, digits and `_` stand here.
pub fn word_len(rest: &[u8]) -> usize
    ensures value { result ≡ word_len rest.now }
    ensures within { result ≤ length rest.now }
{
    rest.iter().take_while(|byte| is_name_byte(**byte)).count()
}

/// How many bytes stand here up to the end of the line.
pub fn line_len(rest: &[u8]) -> usize
    ensures value { result ≡ line_len rest.now }
    ensures within { result ≤ length rest.now }
{
    rest.iter().take_while(|byte| **byte != b'\n').count()
}

/// Whether a comment begins here.
pub fn starts_comment(rest: &[u8]) -> bool
    ensures { result ≡ starts_comment rest.now }
{
    rest.starts_with(b"//")
}

/// Whether white space or a comment begins here.
pub fn starts_blank(rest: &[u8]) -> bool
    ensures { result ≡ starts_blank rest.now }
{
    match rest {
        [byte, ..] => is_white(*byte) || starts_comment(rest),
        [] => false,
    }
}

/// How many bytes of white space or of a comment begin here: one byte of white space, or a comment.
pub fn blank_len(rest: &[u8]) -> usize
    ensures value { result ≡ blank_len rest.now }
    ensures within { result ≤ length rest.now }
    ensures some { IsTrue (starts_blank rest.now) → 0 < result }
{
    match rest {
        [byte, ..] => { if is_white(*byte) { 1 } else { line_len(rest) } }
        [] => 0,
    }
}
