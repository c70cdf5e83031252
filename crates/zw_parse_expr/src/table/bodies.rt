// The rules of bodies.
ghost use Rattle.std.specs.Prelude.{◌≡◌, ◌++◌, OnOk};
ghost use Rattle.zw_grammar.specs.Plain.{plain};
ghost use Rattle.zw_parse_expr.specs.Bodies.{bodies_rules};

use crate::rule;
use crate::terminal::{COLON, COLON_NAME, COLON_TARGET, ELSE, L_BRACE, NAME, QUOTED, SEMICOLON};
use zw_base::Oom;
use zw_grammar::Entry::{On, Then};
use zw_grammar::Mark::{Close, Enter, Leave, Open, Word};
use zw_grammar::Symbol::{Build, Read, Take};
use zw_grammar::{Entry, Rule, add_rules};
use zw_tree::NodeKind;

// The rules of this part, in the order of their numbers.
const RULES: [Entry; 97] = [
    // BODIED
    On(L_BRACE),
    Then(Read(rule::BLOCK)),
    Entry::Alternative,
    On(NAME),
    On(QUOTED),
    Then(Read(rule::ANY_NAME)),
    Then(Read(rule::BODIED_NAME)),
    Entry::Alternative,
    Then(Read(rule::ASSIGN)),
    Then(Take(SEMICOLON)),
    Entry::Alternative,
    Entry::Rule(11, false),
    // BODIED_NAME
    On(COLON),
    On(COLON_TARGET),
    On(COLON_NAME),
    Then(Build(Open(NodeKind::Label, 1))),
    Then(Build(Word(NAME, NodeKind::Name, NodeKind::QuotedName, 1))),
    Then(Read(rule::LABEL_COLON)),
    Then(Build(Close)),
    Then(Read(rule::BODIED_LABEL)),
    Entry::Alternative,
    Then(Read(rule::NAME_ASSIGN)),
    Then(Take(SEMICOLON)),
    Entry::Alternative,
    Entry::Rule(39, false),
    // BODIED_LABEL
    On(L_BRACE),
    Then(Read(rule::LABELLED_BLOCK)),
    Entry::Alternative,
    Then(Read(rule::LOOP_ASSIGN)),
    Then(Take(SEMICOLON)),
    Entry::Alternative,
    Entry::Rule(7, false),
    // LOOP_ASSIGN
    Then(Build(Enter(2))),
    Then(Read(rule::LABELLED_LOOP)),
    Then(Read(rule::PRODUCT)),
    Then(Read(rule::SUM)),
    Then(Read(rule::SHIFT)),
    Then(Read(rule::BITS)),
    Then(Read(rule::COMPARE)),
    Then(Read(rule::CONJUNCTION)),
    Then(Read(rule::DISJUNCTION)),
    Then(Build(Leave)),
    Then(Read(rule::ASSIGN_REST)),
    Entry::Alternative,
    Entry::Rule(6, false),
    // BODY
    On(L_BRACE),
    Then(Read(rule::BLOCK)),
    Then(Read(rule::ELSE_STATEMENT)),
    Entry::Alternative,
    On(NAME),
    On(QUOTED),
    Then(Read(rule::ANY_NAME)),
    Then(Read(rule::BODY_NAME)),
    Entry::Alternative,
    Then(Read(rule::ASSIGN)),
    Then(Read(rule::BODY_END)),
    Entry::Alternative,
    Entry::Rule(11, false),
    // BODY_NAME
    On(COLON),
    On(COLON_TARGET),
    On(COLON_NAME),
    Then(Build(Open(NodeKind::Label, 1))),
    Then(Build(Word(NAME, NodeKind::Name, NodeKind::QuotedName, 1))),
    Then(Read(rule::LABEL_COLON)),
    Then(Build(Close)),
    Then(Read(rule::BODY_LABEL)),
    Entry::Alternative,
    Then(Read(rule::NAME_ASSIGN)),
    Then(Read(rule::BODY_END)),
    Entry::Alternative,
    Entry::Rule(42, false),
    // BODY_LABEL
    On(L_BRACE),
    Then(Read(rule::LABELLED_BLOCK)),
    Then(Read(rule::ELSE_STATEMENT)),
    Entry::Alternative,
    Then(Read(rule::LOOP_ASSIGN)),
    Then(Read(rule::BODY_END)),
    Entry::Alternative,
    Entry::Rule(7, false),
    // BODY_END
    On(ELSE),
    Then(Read(rule::ELSE_PART)),
    Entry::Alternative,
    Then(Take(SEMICOLON)),
    Entry::Alternative,
    Entry::Rule(4, false),
    // ELSE_STATEMENT
    On(ELSE),
    Then(Read(rule::ELSE_PART)),
    Entry::Alternative,
    Entry::Alternative,
    Entry::Rule(4, true),
    // ELSE_PART
    Then(Build(Open(NodeKind::Else, 0))),
    Then(Take(ELSE)),
    Then(Read(rule::PLAIN_CAPTURE)),
    Then(Read(rule::STATEMENT)),
    Then(Build(Close)),
    Entry::Alternative,
    Entry::Rule(3, false),
];

// Puts the rules of this part at the end.
pub(super) fn add(list: &mut Vec<Rule>) -> Result<(), Oom>
    ensures { OnOk result (plain list.new.items ≡ plain list.old.items ++ bodies_rules) }
{
    add_rules(list, &RULES)?;
    Ok(())
}
