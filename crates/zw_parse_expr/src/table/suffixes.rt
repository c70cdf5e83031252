// The rules of suffixes.
ghost use Rattle.std.specs.Prelude.{◌≡◌, ◌++◌, OnOk};
ghost use Rattle.zw_grammar.specs.Plain.{plain};
ghost use Rattle.zw_parse_expr.specs.Suffixes.{suffixes_rules};

use crate::rule;
use crate::terminal::{
    BANG, COMMA, DOT, DOT_DOT, DOT_QUESTION, DOT_STAR, L_BRACKET, L_PAREN, R_BRACKET, R_PAREN,
};
use zw_base::Oom;
use zw_grammar::Entry::{On, Then};
use zw_grammar::Mark::{Close, Wrap};
use zw_grammar::Symbol::{Build, Read, Take};
use zw_grammar::{Entry, Rule, add_rules};
use zw_tree::NodeKind;

// The rules of this part, in the order of their numbers.
const RULES: [Entry; 72] = [
    // ERROR_UNION
    On(BANG),
    Then(Build(Wrap(NodeKind::ErrorUnionType, 1))),
    Then(Take(BANG)),
    Then(Read(rule::TYPE)),
    Then(Build(Close)),
    Entry::Alternative,
    Entry::Alternative,
    Entry::Rule(3, true),
    // SUFFIXES
    On(L_BRACKET),
    Then(Take(L_BRACKET)),
    Then(Read(rule::EXPR)),
    Then(Read(rule::INDEX_END)),
    Then(Read(rule::SUFFIXES)),
    Entry::Alternative,
    On(DOT),
    Then(Build(Wrap(NodeKind::FieldAccess, 1))),
    Then(Take(DOT)),
    Then(Read(rule::A_NAME)),
    Then(Build(Close)),
    Then(Read(rule::SUFFIXES)),
    Entry::Alternative,
    On(DOT_STAR),
    Then(Build(Wrap(NodeKind::Dereference, 1))),
    Then(Take(DOT_STAR)),
    Then(Build(Close)),
    Then(Read(rule::SUFFIXES)),
    Entry::Alternative,
    On(DOT_QUESTION),
    Then(Build(Wrap(NodeKind::Unwrap, 1))),
    Then(Take(DOT_QUESTION)),
    Then(Build(Close)),
    Then(Read(rule::SUFFIXES)),
    Entry::Alternative,
    On(L_PAREN),
    Then(Build(Wrap(NodeKind::Call, 1))),
    Then(Take(L_PAREN)),
    Then(Read(rule::ARGUMENTS)),
    Then(Take(R_PAREN)),
    Then(Build(Close)),
    Then(Read(rule::SUFFIXES)),
    Entry::Alternative,
    Entry::Alternative,
    Entry::Rule(3, true),
    // INDEX_END
    On(DOT_DOT),
    Then(Build(Wrap(NodeKind::Slicing, 2))),
    Then(Take(DOT_DOT)),
    Then(Read(rule::SLICE_END)),
    Then(Take(R_BRACKET)),
    Then(Build(Close)),
    Entry::Alternative,
    Then(Build(Wrap(NodeKind::Index, 2))),
    Then(Take(R_BRACKET)),
    Then(Build(Close)),
    Entry::Alternative,
    Entry::Rule(3, false),
    // SLICE_END
    On(R_BRACKET),
    Entry::Alternative,
    Then(Read(rule::EXPR)),
    Entry::Alternative,
    Entry::Rule(10, true),
    // ARGUMENTS
    On(R_PAREN),
    Entry::Alternative,
    Then(Read(rule::EXPR)),
    Then(Read(rule::MORE_ARGUMENTS)),
    Entry::Alternative,
    Entry::Rule(10, true),
    // MORE_ARGUMENTS
    On(COMMA),
    Then(Take(COMMA)),
    Then(Read(rule::ARGUMENTS)),
    Entry::Alternative,
    Entry::Alternative,
    Entry::Rule(2, true),
];

// Puts the rules of this part at the end.
pub(super) fn add(list: &mut Vec<Rule>) -> Result<(), Oom>
    ensures { OnOk result (plain list.new.items ≡ plain list.old.items ++ suffixes_rules) }
{
    add_rules(list, &RULES)?;
    Ok(())
}
