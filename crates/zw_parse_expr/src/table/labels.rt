// The rules of labels.
ghost use Rattle.std.specs.Prelude.{◌≡◌, ◌++◌, OnOk};
ghost use Rattle.zw_grammar.specs.Plain.{plain};
ghost use Rattle.zw_parse_expr.specs.Labels.{labels_rules};

use crate::rule;
use crate::terminal::{
    AMPERSAND, BANG, BREAK, BUILTIN, CHARACTER, COLON, COLON_NAME, COLON_TARGET, COMPTIME,
    CONTINUE, DOT, ELSE, ENUM, ERROR, FOR, IF, IMPORT, INLINE, L_BRACE, L_BRACKET, L_PAREN,
    LINE_TEXT, MINUS, MINUS_PERCENT, NAME, NUMBER, QUESTION, QUOTED, RETURN, STAR, STAR_STAR,
    STRUCT, SWITCH, TEXT, TILDE, TRY, UNION, UNREACHABLE, WHILE,
};
use zw_base::Oom;
use zw_grammar::Entry::{On, Then};
use zw_grammar::Mark::{Close, Leaf, Open, Wrap};
use zw_grammar::Symbol::{Build, Read, Take};
use zw_grammar::{Entry, Rule, add_rules};
use zw_tree::NodeKind;

// The rules of this part, in the order of their numbers.
const RULES: [Entry; 122] = [
    // LABELLED
    On(L_BRACE),
    Then(Read(rule::LABELLED_BLOCK)),
    Entry::Alternative,
    Then(Read(rule::LABELLED_LOOP)),
    Entry::Alternative,
    Entry::Rule(5, false),
    // LABELLED_LOOP
    On(WHILE),
    Then(Build(Wrap(NodeKind::While, 1))),
    Then(Read(rule::WHILE_HEAD)),
    Then(Read(rule::EXPR)),
    Then(Read(rule::ELSE_EXPR)),
    Then(Build(Close)),
    Entry::Alternative,
    On(FOR),
    Then(Build(Wrap(NodeKind::For, 1))),
    Then(Read(rule::FOR_HEAD)),
    Then(Read(rule::EXPR)),
    Then(Read(rule::ELSE_EXPR)),
    Then(Build(Close)),
    Entry::Alternative,
    Then(Take(INLINE)),
    Then(Read(rule::LABELLED_INLINE_LOOP)),
    Entry::Alternative,
    Entry::Rule(4, false),
    // LABELLED_INLINE_LOOP
    On(WHILE),
    Then(Build(Wrap(NodeKind::While, 1))),
    Then(Build(Leaf(NodeKind::InlineWord, 1))),
    Then(Read(rule::WHILE_HEAD)),
    Then(Read(rule::EXPR)),
    Then(Read(rule::ELSE_EXPR)),
    Then(Build(Close)),
    Entry::Alternative,
    Then(Build(Wrap(NodeKind::For, 1))),
    Then(Build(Leaf(NodeKind::InlineWord, 1))),
    Then(Read(rule::FOR_HEAD)),
    Then(Read(rule::EXPR)),
    Then(Read(rule::ELSE_EXPR)),
    Then(Build(Close)),
    Entry::Alternative,
    Entry::Rule(5, false),
    // INLINE_LOOP
    On(WHILE),
    Then(Build(Open(NodeKind::While, 1))),
    Then(Build(Leaf(NodeKind::InlineWord, 1))),
    Then(Read(rule::WHILE_HEAD)),
    Then(Read(rule::EXPR)),
    Then(Read(rule::ELSE_EXPR)),
    Then(Build(Close)),
    Entry::Alternative,
    Then(Build(Open(NodeKind::For, 1))),
    Then(Build(Leaf(NodeKind::InlineWord, 1))),
    Then(Read(rule::FOR_HEAD)),
    Then(Read(rule::EXPR)),
    Then(Read(rule::ELSE_EXPR)),
    Then(Build(Close)),
    Entry::Alternative,
    Entry::Rule(5, false),
    // ELSE_EXPR
    On(ELSE),
    Then(Build(Open(NodeKind::Else, 0))),
    Then(Take(ELSE)),
    Then(Read(rule::PLAIN_CAPTURE)),
    Then(Read(rule::EXPR)),
    Then(Build(Close)),
    Entry::Alternative,
    Entry::Alternative,
    Entry::Rule(3, true),
    // BREAK_LABEL
    On(COLON),
    On(COLON_TARGET),
    On(COLON_NAME),
    Then(Build(Open(NodeKind::Label, 0))),
    Then(Read(rule::BREAK_COLON)),
    Then(Read(rule::A_NAME)),
    Then(Build(Close)),
    Entry::Alternative,
    Entry::Alternative,
    Entry::Rule(4, true),
    // BREAK_LABEL_C
    On(COLON_NAME),
    Then(Build(Open(NodeKind::Label, 0))),
    Then(Take(COLON_NAME)),
    Then(Read(rule::A_NAME)),
    Then(Build(Close)),
    Entry::Alternative,
    Entry::Alternative,
    Entry::Rule(3, true),
    // OPERAND
    On(BANG),
    On(MINUS),
    On(TILDE),
    On(MINUS_PERCENT),
    On(AMPERSAND),
    On(TRY),
    On(NAME),
    On(QUOTED),
    On(IF),
    On(BREAK),
    On(CONTINUE),
    On(RETURN),
    On(COMPTIME),
    On(WHILE),
    On(FOR),
    On(INLINE),
    On(L_BRACE),
    On(L_BRACKET),
    On(QUESTION),
    On(STAR),
    On(STAR_STAR),
    On(NUMBER),
    On(DOT),
    On(L_PAREN),
    On(BUILTIN),
    On(TEXT),
    On(CHARACTER),
    On(ERROR),
    On(SWITCH),
    On(LINE_TEXT),
    On(UNREACHABLE),
    On(IMPORT),
    On(STRUCT),
    On(ENUM),
    On(UNION),
    Then(Read(rule::EXPR)),
    Entry::Alternative,
    Entry::Alternative,
    Entry::Rule(10, true),
];

// Puts the rules of this part at the end.
pub(super) fn add(list: &mut Vec<Rule>) -> Result<(), Oom>
    ensures { OnOk result (plain list.new.items ≡ plain list.old.items ++ labels_rules) }
{
    add_rules(list, &RULES)?;
    Ok(())
}
