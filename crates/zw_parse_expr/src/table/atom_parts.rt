// The rules of atom_parts.
ghost use Rattle.std.specs.Prelude.{◌≡◌, ◌++◌, OnOk};
ghost use Rattle.zw_grammar.specs.Plain.{plain};
ghost use Rattle.zw_parse_expr.specs.AtomParts.{atom_parts_rules};

use crate::rule;
use crate::terminal::{COMMA, DOT, ENUM, L_BRACE, L_PAREN, LINE_TEXT, R_BRACE, R_PAREN, TEXT};
use zw_base::Oom;
use zw_grammar::Entry::{On, Then};
use zw_grammar::Mark::{Close, Enter, Leaf, Leave, Open};
use zw_grammar::Symbol::{Build, Read, Take};
use zw_grammar::{Entry, Rule, add_rules};
use zw_tree::NodeKind;

// The rules of this part, in the order of their numbers.
const RULES: [Entry; 59] = [
    // MORE_LINES
    On(LINE_TEXT),
    Then(Take(LINE_TEXT)),
    Then(Read(rule::MORE_LINES)),
    Entry::Alternative,
    Entry::Alternative,
    Entry::Rule(2, true),
    // IMPORT_PATH
    Then(Build(Enter(0))),
    Then(Build(Leaf(NodeKind::Text, 0))),
    Then(Take(TEXT)),
    Then(Build(Leave)),
    Entry::Alternative,
    Entry::Rule(4, false),
    // LAST_COMMA
    On(COMMA),
    Then(Take(COMMA)),
    Entry::Alternative,
    Entry::Alternative,
    Entry::Rule(2, true),
    // ERROR_FORM
    On(DOT),
    Then(Build(Open(NodeKind::ErrorValue, 1))),
    Then(Take(DOT)),
    Then(Read(rule::A_NAME)),
    Then(Build(Close)),
    Entry::Alternative,
    Then(Build(Open(NodeKind::ErrorSet, 1))),
    Then(Take(L_BRACE)),
    Then(Read(rule::NAMES)),
    Then(Take(R_BRACE)),
    Then(Build(Close)),
    Entry::Alternative,
    Entry::Rule(3, false),
    // ENUM_TAG
    On(L_PAREN),
    Then(Take(L_PAREN)),
    Then(Read(rule::EXPR)),
    Then(Take(R_PAREN)),
    Entry::Alternative,
    Entry::Alternative,
    Entry::Rule(2, true),
    // UNION_TAG
    On(L_PAREN),
    Then(Take(L_PAREN)),
    Then(Read(rule::UNION_TAG_TYPE)),
    Then(Take(R_PAREN)),
    Entry::Alternative,
    Entry::Alternative,
    Entry::Rule(2, true),
    // UNION_TAG_TYPE
    On(ENUM),
    Then(Build(Leaf(NodeKind::EnumWord, 0))),
    Then(Take(ENUM)),
    Entry::Alternative,
    Then(Read(rule::EXPR)),
    Entry::Alternative,
    Entry::Rule(10, false),
    // BEHIND_DOT
    On(L_BRACE),
    Then(Read(rule::ANONYMOUS)),
    Entry::Alternative,
    Then(Build(Open(NodeKind::EnumLiteral, 1))),
    Then(Read(rule::A_NAME)),
    Then(Build(Close)),
    Entry::Alternative,
    Entry::Rule(5, false),
];

// Puts the rules of this part at the end.
pub(super) fn add(list: &mut Vec<Rule>) -> Result<(), Oom>
    ensures { OnOk result (plain list.new.items ≡ plain list.old.items ++ atom_parts_rules) }
{
    add_rules(list, &RULES)?;
    Ok(())
}
