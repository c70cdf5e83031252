// The rules of named_statements.
ghost use Rattle.std.specs.Prelude.{◌≡◌, ◌++◌, OnOk};
ghost use Rattle.zw_grammar.specs.Plain.{plain};
ghost use Rattle.zw_parse_expr.specs.NamedStatements.{named_statements_rules};

use crate::rule;
use crate::terminal::{
    COLON, COLON_NAME, COLON_TARGET, CONST, FOR, INLINE, L_BRACE, NAME, SEMICOLON, VAR, WHILE,
};
use zw_base::Oom;
use zw_grammar::Entry::{On, Then};
use zw_grammar::Mark::{Close, Enter, Leaf, Leave, Open, Word, Wrap};
use zw_grammar::Symbol::{Build, Read, Take};
use zw_grammar::{Entry, Rule, add_rules};
use zw_tree::NodeKind;

// The rules of this part, in the order of their numbers.
const RULES: [Entry; 97] = [
    // STATEMENT_NAME
    On(COLON),
    On(COLON_TARGET),
    On(COLON_NAME),
    Then(Build(Open(NodeKind::Label, 1))),
    Then(Build(Word(NAME, NodeKind::Name, NodeKind::QuotedName, 1))),
    Then(Read(rule::LABEL_COLON)),
    Then(Build(Close)),
    Then(Read(rule::LABELLED_STATEMENT)),
    Entry::Alternative,
    Then(Read(rule::NAME_ASSIGN)),
    Then(Take(SEMICOLON)),
    Entry::Alternative,
    Entry::Rule(39, false),
    // NAME_ASSIGN
    Then(Build(Enter(1))),
    Then(Build(Word(NAME, NodeKind::Identifier, NodeKind::QuotedIdentifier, 1))),
    Then(Read(rule::SUFFIXES)),
    Then(Read(rule::ERROR_UNION)),
    Then(Read(rule::INIT)),
    Then(Read(rule::PRODUCT)),
    Then(Read(rule::SUM)),
    Then(Read(rule::SHIFT)),
    Then(Read(rule::BITS)),
    Then(Read(rule::COMPARE)),
    Then(Read(rule::CONJUNCTION)),
    Then(Read(rule::DISJUNCTION)),
    Then(Build(Leave)),
    Then(Read(rule::ASSIGN_REST)),
    Entry::Alternative,
    Entry::Rule(37, true),
    // LABELLED_STATEMENT
    On(L_BRACE),
    Then(Read(rule::LABELLED_BLOCK)),
    Entry::Alternative,
    On(WHILE),
    Then(Build(Wrap(NodeKind::While, 1))),
    Then(Read(rule::WHILE_HEAD)),
    Then(Read(rule::BODY)),
    Then(Build(Close)),
    Entry::Alternative,
    On(FOR),
    Then(Build(Wrap(NodeKind::For, 1))),
    Then(Read(rule::FOR_HEAD)),
    Then(Read(rule::BODY)),
    Then(Build(Close)),
    Entry::Alternative,
    Then(Take(INLINE)),
    Then(Read(rule::LABELLED_INLINE_STATEMENT)),
    Entry::Alternative,
    Entry::Rule(4, false),
    // LABELLED_INLINE_STATEMENT
    On(WHILE),
    Then(Build(Wrap(NodeKind::While, 1))),
    Then(Build(Leaf(NodeKind::InlineWord, 1))),
    Then(Read(rule::WHILE_HEAD)),
    Then(Read(rule::BODY)),
    Then(Build(Close)),
    Entry::Alternative,
    Then(Build(Wrap(NodeKind::For, 1))),
    Then(Build(Leaf(NodeKind::InlineWord, 1))),
    Then(Read(rule::FOR_HEAD)),
    Then(Read(rule::BODY)),
    Then(Build(Close)),
    Entry::Alternative,
    Entry::Rule(5, false),
    // INLINE_LOOP_STATEMENT
    On(WHILE),
    Then(Build(Open(NodeKind::While, 1))),
    Then(Build(Leaf(NodeKind::InlineWord, 1))),
    Then(Read(rule::WHILE_HEAD)),
    Then(Read(rule::BODY)),
    Then(Build(Close)),
    Entry::Alternative,
    Then(Build(Open(NodeKind::For, 1))),
    Then(Build(Leaf(NodeKind::InlineWord, 1))),
    Then(Read(rule::FOR_HEAD)),
    Then(Read(rule::BODY)),
    Then(Build(Close)),
    Entry::Alternative,
    Entry::Rule(5, false),
    // COMPTIME_STATEMENT
    On(CONST),
    Then(Build(Open(NodeKind::Const, 1))),
    Then(Build(Leaf(NodeKind::ComptimeWord, 1))),
    Then(Take(CONST)),
    Then(Read(rule::VARIABLE)),
    Then(Build(Close)),
    Then(Take(SEMICOLON)),
    Entry::Alternative,
    On(VAR),
    Then(Build(Open(NodeKind::Var, 1))),
    Then(Build(Leaf(NodeKind::ComptimeWord, 1))),
    Then(Take(VAR)),
    Then(Read(rule::VARIABLE)),
    Then(Build(Close)),
    Then(Take(SEMICOLON)),
    Entry::Alternative,
    Then(Build(Open(NodeKind::Comptime, 1))),
    Then(Read(rule::BODIED)),
    Then(Build(Close)),
    Entry::Alternative,
    Entry::Rule(13, false),
];

// Puts the rules of this part at the end.
pub(super) fn add(list: &mut Vec<Rule>) -> Result<(), Oom>
    ensures { OnOk result (plain list.new.items ≡ plain list.old.items ++ named_statements_rules) }
{
    add_rules(list, &RULES)?;
    Ok(())
}
