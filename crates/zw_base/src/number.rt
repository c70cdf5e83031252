// Numbers as words of the command line spell them.
ghost use Rattle.std.specs.Prelude.{SomeIff};
ghost use Rattle.zw_base.specs.Numbers.{IsNumber, number_spelt};

use std::str;

/// The number that a text spells: an optional `-` and one decimal digit or more. None exactly where the text has another form, a
/// leading `+` among them, or where the number doesn't fit in 128 bits with a sign. It takes no memory.
#[tactic(auto, using(crate::proofs::NumberLemmas::number_is_utf8))]
pub fn read_number(text: &[u8]) -> Option<i128>
    ensures { SomeIff result (IsNumber text.now) (number_spelt text.now) }
{
    if text.starts_with(b"+") {
        return None;
    }
    let text = str::from_utf8(text).ok()?;
    i128::from_str_radix(text, 10).ok()
}
