// The rules of primaries.
ghost use Rattle.std.specs.Prelude.{◌≡◌, ◌++◌, OnOk};
ghost use Rattle.zw_grammar.specs.Plain.{plain};
ghost use Rattle.zw_parse_expr.specs.Primaries.{primaries_rules};

use crate::rule;
use crate::terminal::{
    BLANK, BREAK, COLON, COLON_NAME, COLON_TARGET, COMPTIME, CONTINUE, FOR, IF, INLINE, L_BRACE,
    L_BRACKET, NAME, QUOTED, R_BRACKET, RETURN, WHILE,
};
use zw_base::Oom;
use zw_grammar::Entry::{On, Then};
use zw_grammar::Mark::{Close, Enter, Leaf, Leave, Open, Word};
use zw_grammar::Symbol::{Build, Read, Take};
use zw_grammar::{Entry, Rule, add_rules};
use zw_tree::NodeKind;

// The rules of this part, in the order of their numbers.
const RULES: [Entry; 110] = [
    // PRIMARY
    On(NAME),
    On(QUOTED),
    Then(Read(rule::ANY_NAME)),
    Then(Read(rule::PRIMARY_NAME)),
    Entry::Alternative,
    On(IF),
    Then(Build(Open(NodeKind::If, 0))),
    Then(Read(rule::IF_HEAD)),
    Then(Read(rule::EXPR)),
    Then(Read(rule::ELSE_EXPR)),
    Then(Build(Close)),
    Entry::Alternative,
    On(BREAK),
    Then(Build(Open(NodeKind::Break, 0))),
    Then(Take(BREAK)),
    Then(Read(rule::BREAK_LABEL)),
    Then(Read(rule::OPERAND)),
    Then(Build(Close)),
    Entry::Alternative,
    On(CONTINUE),
    Then(Build(Open(NodeKind::Continue, 0))),
    Then(Take(CONTINUE)),
    Then(Read(rule::BREAK_LABEL)),
    Then(Build(Close)),
    Entry::Alternative,
    On(RETURN),
    Then(Build(Open(NodeKind::Return, 0))),
    Then(Take(RETURN)),
    Then(Read(rule::OPERAND)),
    Then(Build(Close)),
    Entry::Alternative,
    On(COMPTIME),
    Then(Build(Open(NodeKind::Comptime, 0))),
    Then(Take(COMPTIME)),
    Then(Read(rule::EXPR)),
    Then(Build(Close)),
    Entry::Alternative,
    On(WHILE),
    Then(Build(Open(NodeKind::While, 0))),
    Then(Read(rule::WHILE_HEAD)),
    Then(Read(rule::EXPR)),
    Then(Read(rule::ELSE_EXPR)),
    Then(Build(Close)),
    Entry::Alternative,
    On(FOR),
    Then(Build(Open(NodeKind::For, 0))),
    Then(Read(rule::FOR_HEAD)),
    Then(Read(rule::EXPR)),
    Then(Read(rule::ELSE_EXPR)),
    Then(Build(Close)),
    Entry::Alternative,
    On(INLINE),
    Then(Take(INLINE)),
    Then(Read(rule::INLINE_LOOP)),
    Entry::Alternative,
    On(L_BRACE),
    Then(Read(rule::BLOCK)),
    Entry::Alternative,
    On(L_BRACKET),
    Then(Take(L_BRACKET)),
    Then(Read(rule::FRONT_BRACKET)),
    Entry::Alternative,
    Then(Read(rule::TYPE_BODY)),
    Then(Read(rule::INIT)),
    Entry::Alternative,
    Entry::Rule(6, false),
    // FRONT_BRACKET
    On(BLANK),
    Then(Build(Open(NodeKind::ArrayType, 1))),
    Then(Build(Enter(0))),
    Then(Build(Leaf(NodeKind::Blank, 0))),
    Then(Take(BLANK)),
    Then(Build(Leave)),
    Then(Read(rule::SENTINEL)),
    Then(Take(R_BRACKET)),
    Then(Read(rule::TYPE_BODY)),
    Then(Build(Close)),
    Then(Read(rule::BRACED)),
    Entry::Alternative,
    Then(Read(rule::BRACKET)),
    Then(Read(rule::INIT)),
    Entry::Alternative,
    Entry::Rule(12, false),
    // PRIMARY_NAME
    On(COLON),
    On(COLON_TARGET),
    On(COLON_NAME),
    Then(Build(Open(NodeKind::Label, 1))),
    Then(Build(Word(NAME, NodeKind::Name, NodeKind::QuotedName, 1))),
    Then(Read(rule::LABEL_COLON)),
    Then(Build(Close)),
    Then(Read(rule::LABELLED)),
    Entry::Alternative,
    Then(Build(Word(NAME, NodeKind::Identifier, NodeKind::QuotedIdentifier, 1))),
    Then(Read(rule::SUFFIXES)),
    Then(Read(rule::ERROR_UNION)),
    Then(Read(rule::INIT)),
    Entry::Alternative,
    Entry::Rule(11, true),
    // PRIMARY_NAME_C
    On(COLON_TARGET),
    Then(Build(Open(NodeKind::Label, 1))),
    Then(Build(Word(NAME, NodeKind::Name, NodeKind::QuotedName, 1))),
    Then(Take(COLON_TARGET)),
    Then(Build(Close)),
    Then(Read(rule::LABELLED_C)),
    Entry::Alternative,
    Then(Build(Word(NAME, NodeKind::Identifier, NodeKind::QuotedIdentifier, 1))),
    Then(Read(rule::SUFFIXES)),
    Then(Read(rule::ERROR_UNION)),
    Then(Read(rule::INIT)),
    Entry::Alternative,
    Entry::Rule(11, true),
];

// Puts the rules of this part at the end.
pub(super) fn add(list: &mut Vec<Rule>) -> Result<(), Oom>
    ensures { OnOk result (plain list.new.items ≡ plain list.old.items ++ primaries_rules) }
{
    add_rules(list, &RULES)?;
    Ok(())
}
