// The rules of typed_literals.
ghost use Rattle.std.specs.Prelude.{◌≡◌, ◌++◌, OnOk};
ghost use Rattle.zw_grammar.specs.Plain.{plain};
ghost use Rattle.zw_parse_expr.specs.TypedLiterals.{typed_literals_rules};

use crate::rule;
use crate::terminal::{COMMA, DOT, EQUAL, L_BRACE, NAME, R_BRACE};
use zw_base::Oom;
use zw_grammar::Entry::{On, Then};
use zw_grammar::Mark::{Close, Enter, Leave, Open, Word, Wrap};
use zw_grammar::Symbol::{Build, Read, Take};
use zw_grammar::{Entry, Rule, add_rules};
use zw_tree::NodeKind;

// The rules of this part, in the order of their numbers.
const RULES: [Entry; 109] = [
    // INIT
    On(L_BRACE),
    Then(Read(rule::BRACED)),
    Entry::Alternative,
    Entry::Alternative,
    Entry::Rule(3, true),
    // BRACED
    Then(Take(L_BRACE)),
    Then(Read(rule::INIT_FIRST)),
    Entry::Alternative,
    Entry::Rule(2, false),
    // INIT_FIRST
    On(R_BRACE),
    Then(Build(Wrap(NodeKind::StructLiteral, 1))),
    Then(Take(R_BRACE)),
    Then(Build(Close)),
    Entry::Alternative,
    On(DOT),
    Then(Take(DOT)),
    Then(Read(rule::INIT_DOT)),
    Entry::Alternative,
    Then(Build(Wrap(NodeKind::ArrayLiteral, 1))),
    Then(Read(rule::EXPR)),
    Then(Read(rule::MORE_VALUES)),
    Then(Take(R_BRACE)),
    Then(Build(Close)),
    Entry::Alternative,
    Entry::Rule(11, false),
    // INIT_DOT
    On(L_BRACE),
    Then(Build(Wrap(NodeKind::ArrayLiteral, 1))),
    Then(Build(Enter(1))),
    Then(Read(rule::ANONYMOUS)),
    Then(Read(rule::SUFFIXES)),
    Then(Read(rule::ERROR_UNION)),
    Then(Read(rule::INIT)),
    Then(Read(rule::PRODUCT)),
    Then(Read(rule::SUM)),
    Then(Read(rule::SHIFT)),
    Then(Read(rule::BITS)),
    Then(Read(rule::COMPARE)),
    Then(Read(rule::CONJUNCTION)),
    Then(Read(rule::DISJUNCTION)),
    Then(Build(Leave)),
    Then(Read(rule::MORE_VALUES)),
    Then(Take(R_BRACE)),
    Then(Build(Close)),
    Entry::Alternative,
    Then(Read(rule::ANY_NAME)),
    Then(Read(rule::INIT_NAME)),
    Entry::Alternative,
    Entry::Rule(5, false),
    // INIT_NAME
    On(EQUAL),
    Then(Build(Wrap(NodeKind::StructLiteral, 1))),
    Then(Build(Open(NodeKind::FieldInit, 2))),
    Then(Build(Word(NAME, NodeKind::Name, NodeKind::QuotedName, 1))),
    Then(Take(EQUAL)),
    Then(Read(rule::EXPR)),
    Then(Build(Close)),
    Then(Read(rule::MORE_FIELDS)),
    Then(Take(R_BRACE)),
    Then(Build(Close)),
    Entry::Alternative,
    Then(Build(Wrap(NodeKind::ArrayLiteral, 1))),
    Then(Build(Enter(2))),
    Then(Build(Open(NodeKind::EnumLiteral, 2))),
    Then(Build(Word(NAME, NodeKind::Name, NodeKind::QuotedName, 1))),
    Then(Build(Close)),
    Then(Read(rule::SUFFIXES)),
    Then(Read(rule::ERROR_UNION)),
    Then(Read(rule::INIT)),
    Then(Read(rule::PRODUCT)),
    Then(Read(rule::SUM)),
    Then(Read(rule::SHIFT)),
    Then(Read(rule::BITS)),
    Then(Read(rule::COMPARE)),
    Then(Read(rule::CONJUNCTION)),
    Then(Read(rule::DISJUNCTION)),
    Then(Build(Leave)),
    Then(Read(rule::MORE_VALUES)),
    Then(Take(R_BRACE)),
    Then(Build(Close)),
    Entry::Alternative,
    Entry::Rule(40, false),
    // MORE_VALUES
    On(COMMA),
    Then(Take(COMMA)),
    Then(Read(rule::VALUES)),
    Entry::Alternative,
    Entry::Alternative,
    Entry::Rule(2, true),
    // VALUES
    On(R_BRACE),
    Entry::Alternative,
    Then(Read(rule::EXPR)),
    Then(Read(rule::MORE_VALUES)),
    Entry::Alternative,
    Entry::Rule(10, true),
    // MORE_FIELDS
    On(COMMA),
    Then(Take(COMMA)),
    Then(Read(rule::FIELDS)),
    Entry::Alternative,
    Entry::Alternative,
    Entry::Rule(2, true),
    // FIELDS
    On(R_BRACE),
    Entry::Alternative,
    Then(Build(Open(NodeKind::FieldInit, 0))),
    Then(Take(DOT)),
    Then(Read(rule::A_NAME)),
    Then(Take(EQUAL)),
    Then(Read(rule::EXPR)),
    Then(Build(Close)),
    Then(Read(rule::MORE_FIELDS)),
    Entry::Alternative,
    Entry::Rule(3, true),
];

// Puts the rules of this part at the end.
pub(super) fn add(list: &mut Vec<Rule>) -> Result<(), Oom>
    ensures { OnOk result (plain list.new.items ≡ plain list.old.items ++ typed_literals_rules) }
{
    add_rules(list, &RULES)?;
    Ok(())
}
