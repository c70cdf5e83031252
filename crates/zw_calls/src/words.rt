// The kinds of words in a list of calls.
ghost use Rattle.std.specs.Prelude.{◌≡◌};
ghost use Rattle.std.specs.Char.{is_ascii_digit};
ghost use Rattle.std.specs.List.{list_all};
ghost use Rattle.zw_base.specs.Numbers.{after_minus};
ghost use Rattle.zw_calls.specs.Words.{is_argument, is_name, is_numeral, is_steps};

/// Whether the word is an argument: `true`, `false`, or an optional `-` and one decimal digit or more.
pub(crate) fn is_argument(word: &[u8]) -> bool
    ensures { result ≡ is_argument word.now }
{
    if word == b"true".as_slice() {
        return true;
    }
    if word == b"false".as_slice() {
        return true;
    }
    is_numeral(after_minus(word))
}

/// Whether the word is a name: no argument, not empty, and without `--` at its front.
pub(crate) fn is_name(word: &[u8]) -> bool
    ensures { result ≡ is_name word.now }
{
    if word.is_empty() {
        return false;
    }
    if word.starts_with(b"--") {
        return false;
    }
    !is_argument(word)
}

/// Whether the word is the one before the number of steps.
pub(crate) fn is_steps(word: &[u8]) -> bool
    ensures { result ≡ is_steps word.now }
{
    word == b"--steps".as_slice()
}

/// Whether the text is one decimal digit or more.
pub(crate) fn is_numeral(text: &[u8]) -> bool
    ensures { result ≡ is_numeral text.now }
{
    if text.is_empty() {
        return false;
    }
    are_digits(text)
}

fn are_digits(text: &[u8]) -> bool
    ensures { result ≡ list_all is_ascii_digit text.now }
{
    text.iter().all(|digit| digit.is_ascii_digit())
}

/// The text without its `-`, where it begins with one.
pub(crate) fn after_minus(text: &[u8]) -> &[u8]
    ensures { result.now ≡ after_minus text.now }
{
    match text {
        [b'-', rest @ ..] => rest,
        _ => text,
    }
}
