// The rules of anonymous_literals.
ghost use Rattle.std.specs.Prelude.{◌≡◌, ◌++◌, OnOk};
ghost use Rattle.zw_grammar.specs.Plain.{plain};
ghost use Rattle.zw_parse_expr.specs.AnonymousLiterals.{anonymous_literals_rules};

use crate::rule;
use crate::terminal::{DOT, EQUAL, L_BRACE, NAME, R_BRACE};
use zw_base::Oom;
use zw_grammar::Entry::{On, Then};
use zw_grammar::Mark::{Close, Enter, Leave, Open, Word};
use zw_grammar::Symbol::{Build, Read, Take};
use zw_grammar::{Entry, Rule, add_rules};
use zw_tree::NodeKind;

// The rules of this part, in the order of their numbers.
const RULES: [Entry; 75] = [
    // ANONYMOUS
    Then(Take(L_BRACE)),
    Then(Read(rule::ANONYMOUS_FIRST)),
    Entry::Alternative,
    Entry::Rule(2, false),
    // ANONYMOUS_FIRST
    On(R_BRACE),
    Then(Build(Open(NodeKind::AnonymousStruct, 2))),
    Then(Take(R_BRACE)),
    Then(Build(Close)),
    Entry::Alternative,
    On(DOT),
    Then(Take(DOT)),
    Then(Read(rule::ANONYMOUS_DOT)),
    Entry::Alternative,
    Then(Build(Open(NodeKind::AnonymousArray, 2))),
    Then(Read(rule::EXPR)),
    Then(Read(rule::MORE_VALUES)),
    Then(Take(R_BRACE)),
    Then(Build(Close)),
    Entry::Alternative,
    Entry::Rule(11, false),
    // ANONYMOUS_DOT
    On(L_BRACE),
    Then(Build(Open(NodeKind::AnonymousArray, 3))),
    Then(Build(Enter(1))),
    Then(Read(rule::ANONYMOUS)),
    Then(Read(rule::SUFFIXES)),
    Then(Read(rule::ERROR_UNION)),
    Then(Read(rule::INIT)),
    Then(Read(rule::PRODUCT)),
    Then(Read(rule::SUM)),
    Then(Read(rule::SHIFT)),
    Then(Read(rule::BITS)),
    Then(Read(rule::COMPARE)),
    Then(Read(rule::CONJUNCTION)),
    Then(Read(rule::DISJUNCTION)),
    Then(Build(Leave)),
    Then(Read(rule::MORE_VALUES)),
    Then(Take(R_BRACE)),
    Then(Build(Close)),
    Entry::Alternative,
    Then(Read(rule::ANY_NAME)),
    Then(Read(rule::ANONYMOUS_NAME)),
    Entry::Alternative,
    Entry::Rule(5, false),
    // ANONYMOUS_NAME
    On(EQUAL),
    Then(Build(Open(NodeKind::AnonymousStruct, 4))),
    Then(Build(Open(NodeKind::FieldInit, 2))),
    Then(Build(Word(NAME, NodeKind::Name, NodeKind::QuotedName, 1))),
    Then(Take(EQUAL)),
    Then(Read(rule::EXPR)),
    Then(Build(Close)),
    Then(Read(rule::MORE_FIELDS)),
    Then(Take(R_BRACE)),
    Then(Build(Close)),
    Entry::Alternative,
    Then(Build(Open(NodeKind::AnonymousArray, 4))),
    Then(Build(Enter(2))),
    Then(Build(Open(NodeKind::EnumLiteral, 2))),
    Then(Build(Word(NAME, NodeKind::Name, NodeKind::QuotedName, 1))),
    Then(Build(Close)),
    Then(Read(rule::SUFFIXES)),
    Then(Read(rule::ERROR_UNION)),
    Then(Read(rule::INIT)),
    Then(Read(rule::PRODUCT)),
    Then(Read(rule::SUM)),
    Then(Read(rule::SHIFT)),
    Then(Read(rule::BITS)),
    Then(Read(rule::COMPARE)),
    Then(Read(rule::CONJUNCTION)),
    Then(Read(rule::DISJUNCTION)),
    Then(Build(Leave)),
    Then(Read(rule::MORE_VALUES)),
    Then(Take(R_BRACE)),
    Then(Build(Close)),
    Entry::Alternative,
    Entry::Rule(40, false),
];

// Puts the rules of this part at the end.
pub(super) fn add(list: &mut Vec<Rule>) -> Result<(), Oom>
    ensures { OnOk result (plain list.new.items ≡ plain list.old.items ++ anonymous_literals_rules) }
{
    add_rules(list, &RULES)?;
    Ok(())
}
