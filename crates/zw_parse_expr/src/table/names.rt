// The rules of names.
ghost use Rattle.std.specs.Prelude.{◌≡◌, ◌++◌, OnOk};
ghost use Rattle.zw_grammar.specs.Plain.{plain};
ghost use Rattle.zw_parse_expr.specs.Names.{names_rules};

use crate::rule;
use crate::terminal::{
    BLANK, COLON, COLON_NAME, COLON_TARGET, COMMA, CONST, NAME, PIPE, QUOTED, R_BRACE, STAR,
};
use zw_base::Oom;
use zw_grammar::Entry::{On, Then};
use zw_grammar::Mark::{Close, Leaf, Open};
use zw_grammar::Symbol::{Build, Read, Take};
use zw_grammar::{Entry, Rule, add_rules};
use zw_tree::NodeKind;

// The rules of this part, in the order of their numbers.
const RULES: [Entry; 77] = [
    // ANY_NAME
    On(NAME),
    Then(Take(NAME)),
    Entry::Alternative,
    On(QUOTED),
    Then(Take(QUOTED)),
    Entry::Alternative,
    Entry::Rule(2, false),
    // A_NAME
    On(QUOTED),
    Then(Build(Leaf(NodeKind::QuotedName, 0))),
    Then(Take(QUOTED)),
    Entry::Alternative,
    Then(Build(Leaf(NodeKind::Name, 0))),
    Then(Take(NAME)),
    Entry::Alternative,
    Entry::Rule(3, false),
    // BINDING
    On(BLANK),
    Then(Build(Leaf(NodeKind::Blank, 0))),
    Then(Take(BLANK)),
    Entry::Alternative,
    Then(Read(rule::A_NAME)),
    Entry::Alternative,
    Entry::Rule(4, false),
    // ANY_COLON
    On(COLON_TARGET),
    Then(Take(COLON_TARGET)),
    Entry::Alternative,
    On(COLON_NAME),
    Then(Take(COLON_NAME)),
    Entry::Alternative,
    Then(Take(COLON)),
    Entry::Alternative,
    Entry::Rule(2, false),
    // NAMES
    On(R_BRACE),
    Entry::Alternative,
    Then(Read(rule::A_NAME)),
    Then(Read(rule::MORE_NAMES)),
    Entry::Alternative,
    Entry::Rule(4, true),
    // MORE_NAMES
    On(COMMA),
    Then(Take(COMMA)),
    Then(Read(rule::NAMES)),
    Entry::Alternative,
    Entry::Alternative,
    Entry::Rule(2, true),
    // CONST_WORD
    On(CONST),
    Then(Build(Leaf(NodeKind::ConstWord, 0))),
    Then(Take(CONST)),
    Entry::Alternative,
    Entry::Alternative,
    Entry::Rule(3, true),
    // CAPTURE
    On(PIPE),
    Then(Take(PIPE)),
    Then(Read(rule::BARRED)),
    Entry::Alternative,
    Entry::Alternative,
    Entry::Rule(2, true),
    // BARRED
    On(STAR),
    Then(Build(Open(NodeKind::PointerCapture, 1))),
    Then(Take(STAR)),
    Then(Read(rule::BINDING)),
    Then(Take(PIPE)),
    Then(Build(Close)),
    Entry::Alternative,
    Then(Build(Open(NodeKind::Capture, 1))),
    Then(Read(rule::BINDING)),
    Then(Take(PIPE)),
    Then(Build(Close)),
    Entry::Alternative,
    Entry::Rule(6, false),
    // PLAIN_CAPTURE
    On(PIPE),
    Then(Build(Open(NodeKind::Capture, 0))),
    Then(Take(PIPE)),
    Then(Read(rule::BINDING)),
    Then(Take(PIPE)),
    Then(Build(Close)),
    Entry::Alternative,
    Entry::Alternative,
    Entry::Rule(3, true),
];

// Puts the rules of this part at the end.
pub(super) fn add(list: &mut Vec<Rule>) -> Result<(), Oom>
    ensures { OnOk result (plain list.new.items ≡ plain list.old.items ++ names_rules) }
{
    add_rules(list, &RULES)?;
    Ok(())
}
