// The rules of the `:` of labels.
ghost use Rattle.std.specs.Prelude.{◌≡◌, ◌++◌, OnOk};
ghost use Rattle.zw_grammar.specs.Plain.{plain};
ghost use Rattle.zw_parse_expr.specs.Followers.{followers_rules};

use crate::terminal::{COLON, COLON_NAME, COLON_TARGET};
use zw_base::Oom;
use zw_grammar::Entry::{On, Then};
use zw_grammar::Symbol::Take;
use zw_grammar::{Entry, Rule, add_rules};

// The rules of this part, in the order of their numbers.
const RULES: [Entry; 18] = [
    // LABEL_COLON: the `:` behind a label, which a block or a loop follows.
    On(COLON_TARGET),
    Then(Take(COLON_TARGET)),
    Entry::Alternative,
    On(COLON_NAME),
    Then(Take(COLON_NAME)),
    Entry::Alternative,
    Then(Take(COLON)),
    Entry::Alternative,
    Entry::Rule(2, false),
    // BREAK_COLON: the `:` before the label of a `break` or a `continue`.
    On(COLON_TARGET),
    Then(Take(COLON_TARGET)),
    Entry::Alternative,
    On(COLON_NAME),
    Then(Take(COLON_NAME)),
    Entry::Alternative,
    Then(Take(COLON)),
    Entry::Alternative,
    Entry::Rule(2, false),
];

// Puts the rules of this part at the end.
pub(super) fn add(list: &mut Vec<Rule>) -> Result<(), Oom>
    ensures { OnOk result (plain list.new.items ≡ plain list.old.items ++ followers_rules) }
{
    add_rules(list, &RULES)?;
    Ok(())
}
