// The rules of switches.
ghost use Rattle.std.specs.Prelude.{◌≡◌, ◌++◌, OnOk};
ghost use Rattle.zw_grammar.specs.Plain.{plain};
ghost use Rattle.zw_parse_expr.specs.Switches.{switches_rules};

use crate::rule;
use crate::terminal::{
    ARROW, COMMA, DOT_DOT_DOT, ELSE, L_BRACE, L_PAREN, R_BRACE, R_PAREN, SWITCH,
};
use zw_base::Oom;
use zw_grammar::Entry::{On, Then};
use zw_grammar::Mark::{Close, Open, Wrap};
use zw_grammar::Symbol::{Build, Read, Take};
use zw_grammar::{Entry, Rule, add_rules};
use zw_tree::NodeKind;

// The rules of this part, in the order of their numbers.
const RULES: [Entry; 64] = [
    // SWITCH_FORM
    Then(Build(Open(NodeKind::Switch, 0))),
    Then(Take(SWITCH)),
    Then(Take(L_PAREN)),
    Then(Read(rule::EXPR)),
    Then(Take(R_PAREN)),
    Then(Take(L_BRACE)),
    Then(Read(rule::PRONGS)),
    Then(Take(R_BRACE)),
    Then(Build(Close)),
    Entry::Alternative,
    Entry::Rule(3, false),
    // PRONGS
    On(R_BRACE),
    Entry::Alternative,
    Then(Read(rule::PRONG)),
    Then(Read(rule::MORE_PRONGS)),
    Entry::Alternative,
    Entry::Rule(13, true),
    // MORE_PRONGS
    On(COMMA),
    Then(Take(COMMA)),
    Then(Read(rule::PRONGS)),
    Entry::Alternative,
    Entry::Alternative,
    Entry::Rule(2, true),
    // PRONG
    On(ELSE),
    Then(Build(Open(NodeKind::ElseProng, 0))),
    Then(Take(ELSE)),
    Then(Take(ARROW)),
    Then(Read(rule::CAPTURE)),
    Then(Read(rule::ASSIGN)),
    Then(Build(Close)),
    Entry::Alternative,
    Then(Build(Open(NodeKind::Prong, 0))),
    Then(Read(rule::CASE)),
    Then(Read(rule::MORE_CASES)),
    Then(Take(ARROW)),
    Then(Read(rule::CAPTURE)),
    Then(Read(rule::ASSIGN)),
    Then(Build(Close)),
    Entry::Alternative,
    Entry::Rule(12, false),
    // CASE
    Then(Read(rule::EXPR)),
    Then(Read(rule::CASE_END)),
    Entry::Alternative,
    Entry::Rule(10, false),
    // CASE_END
    On(DOT_DOT_DOT),
    Then(Build(Wrap(NodeKind::CaseRange, 1))),
    Then(Take(DOT_DOT_DOT)),
    Then(Read(rule::EXPR)),
    Then(Build(Close)),
    Entry::Alternative,
    Entry::Alternative,
    Entry::Rule(3, true),
    // MORE_CASES
    On(COMMA),
    Then(Take(COMMA)),
    Then(Read(rule::NEXT_CASE)),
    Entry::Alternative,
    Entry::Alternative,
    Entry::Rule(2, true),
    // NEXT_CASE
    On(ARROW),
    Entry::Alternative,
    Then(Read(rule::CASE)),
    Then(Read(rule::MORE_CASES)),
    Entry::Alternative,
    Entry::Rule(11, true),
];

// Puts the rules of this part at the end.
pub(super) fn add(list: &mut Vec<Rule>) -> Result<(), Oom>
    ensures { OnOk result (plain list.new.items ≡ plain list.old.items ++ switches_rules) }
{
    add_rules(list, &RULES)?;
    Ok(())
}
