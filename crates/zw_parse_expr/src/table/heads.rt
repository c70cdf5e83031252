// The rules of heads.
ghost use Rattle.std.specs.Prelude.{◌≡◌, ◌++◌, OnOk};
ghost use Rattle.zw_grammar.specs.Plain.{plain};
ghost use Rattle.zw_parse_expr.specs.Heads.{heads_rules};

use crate::rule;
use crate::terminal::{
    COLON, COLON_NAME, COLON_TARGET, COMMA, DOT_DOT, FOR, IF, L_PAREN, PIPE, R_PAREN, STAR, WHILE,
};
use zw_base::Oom;
use zw_grammar::Entry::{On, Then};
use zw_grammar::Mark::{Close, Open, Wrap};
use zw_grammar::Symbol::{Build, Read, Take};
use zw_grammar::{Entry, Rule, add_rules};
use zw_tree::NodeKind;

// The rules of this part, in the order of their numbers.
const RULES: [Entry; 86] = [
    // IF_HEAD
    Then(Take(IF)),
    Then(Take(L_PAREN)),
    Then(Read(rule::EXPR)),
    Then(Take(R_PAREN)),
    Then(Read(rule::CAPTURE)),
    Entry::Alternative,
    Entry::Rule(2, false),
    // WHILE_HEAD
    Then(Take(WHILE)),
    Then(Take(L_PAREN)),
    Then(Read(rule::EXPR)),
    Then(Take(R_PAREN)),
    Then(Read(rule::CAPTURE)),
    Then(Read(rule::CONTINUE_EXPR)),
    Entry::Alternative,
    Entry::Rule(2, false),
    // CONTINUE_EXPR
    On(COLON),
    On(COLON_TARGET),
    On(COLON_NAME),
    Then(Build(Open(NodeKind::ContinueExpression, 0))),
    Then(Read(rule::ANY_COLON)),
    Then(Take(L_PAREN)),
    Then(Read(rule::ASSIGN)),
    Then(Take(R_PAREN)),
    Then(Build(Close)),
    Entry::Alternative,
    Entry::Alternative,
    Entry::Rule(4, true),
    // FOR_HEAD
    Then(Take(FOR)),
    Then(Take(L_PAREN)),
    Then(Read(rule::FOR_OPERANDS)),
    Then(Take(R_PAREN)),
    Then(Take(PIPE)),
    Then(Read(rule::FOR_CAPTURES)),
    Then(Take(PIPE)),
    Entry::Alternative,
    Entry::Rule(2, false),
    // FOR_OPERANDS
    On(R_PAREN),
    Entry::Alternative,
    Then(Read(rule::EXPR)),
    Then(Read(rule::FOR_RANGE)),
    Then(Read(rule::MORE_FOR_OPERANDS)),
    Entry::Alternative,
    Entry::Rule(10, true),
    // MORE_FOR_OPERANDS
    On(COMMA),
    Then(Take(COMMA)),
    Then(Read(rule::FOR_OPERANDS)),
    Entry::Alternative,
    Entry::Alternative,
    Entry::Rule(2, true),
    // FOR_RANGE
    On(DOT_DOT),
    Then(Build(Wrap(NodeKind::ForRange, 1))),
    Then(Take(DOT_DOT)),
    Then(Read(rule::FOR_END)),
    Then(Build(Close)),
    Entry::Alternative,
    Entry::Alternative,
    Entry::Rule(3, true),
    // FOR_END
    On(COMMA),
    On(R_PAREN),
    Entry::Alternative,
    Then(Read(rule::EXPR)),
    Entry::Alternative,
    Entry::Rule(10, true),
    // FOR_CAPTURES
    On(PIPE),
    Entry::Alternative,
    Then(Read(rule::FOR_CAPTURE)),
    Then(Read(rule::MORE_FOR_CAPTURES)),
    Entry::Alternative,
    Entry::Rule(7, true),
    // MORE_FOR_CAPTURES
    On(COMMA),
    Then(Take(COMMA)),
    Then(Read(rule::FOR_CAPTURES)),
    Entry::Alternative,
    Entry::Alternative,
    Entry::Rule(2, true),
    // FOR_CAPTURE
    On(STAR),
    Then(Build(Open(NodeKind::PointerCapture, 0))),
    Then(Take(STAR)),
    Then(Read(rule::BINDING)),
    Then(Build(Close)),
    Entry::Alternative,
    Then(Build(Open(NodeKind::Capture, 0))),
    Then(Read(rule::BINDING)),
    Then(Build(Close)),
    Entry::Alternative,
    Entry::Rule(6, false),
];

// Puts the rules of this part at the end.
pub(super) fn add(list: &mut Vec<Rule>) -> Result<(), Oom>
    ensures { OnOk result (plain list.new.items ≡ plain list.old.items ++ heads_rules) }
{
    add_rules(list, &RULES)?;
    Ok(())
}
