// The rules of atoms.
ghost use Rattle.std.specs.Prelude.{◌≡◌, ◌++◌, OnOk};
ghost use Rattle.zw_grammar.specs.Plain.{plain};
ghost use Rattle.zw_parse_expr.specs.Atoms.{atoms_rules};

use crate::rule;
use crate::terminal::{
    BUILTIN, CHARACTER, DOT, ENUM, ERROR, IMPORT, L_BRACE, L_PAREN, LINE_TEXT, NAME, NUMBER,
    QUOTED, R_BRACE, R_PAREN, STRUCT, SWITCH, TEXT, UNION, UNREACHABLE,
};
use zw_base::Oom;
use zw_grammar::Entry::{On, Then};
use zw_grammar::Mark::{Close, Leaf, Open};
use zw_grammar::Symbol::{Build, Read, Take};
use zw_grammar::{Entry, Rule, add_rules};
use zw_tree::NodeKind;

// The rules of this part, in the order of their numbers.
const RULES: [Entry; 95] = [
    // ATOM
    On(NAME),
    Then(Build(Leaf(NodeKind::Identifier, 0))),
    Then(Take(NAME)),
    Entry::Alternative,
    On(NUMBER),
    Then(Build(Leaf(NodeKind::Number, 0))),
    Then(Take(NUMBER)),
    Entry::Alternative,
    On(DOT),
    Then(Take(DOT)),
    Then(Read(rule::BEHIND_DOT)),
    Entry::Alternative,
    On(L_PAREN),
    Then(Build(Open(NodeKind::Parentheses, 0))),
    Then(Take(L_PAREN)),
    Then(Read(rule::EXPR)),
    Then(Take(R_PAREN)),
    Then(Build(Close)),
    Entry::Alternative,
    On(BUILTIN),
    Then(Build(Open(NodeKind::Builtin, 0))),
    Then(Take(BUILTIN)),
    Then(Take(L_PAREN)),
    Then(Read(rule::ARGUMENTS)),
    Then(Take(R_PAREN)),
    Then(Build(Close)),
    Entry::Alternative,
    On(TEXT),
    Then(Build(Leaf(NodeKind::Text, 0))),
    Then(Take(TEXT)),
    Entry::Alternative,
    On(CHARACTER),
    Then(Build(Leaf(NodeKind::Character, 0))),
    Then(Take(CHARACTER)),
    Entry::Alternative,
    On(QUOTED),
    Then(Build(Leaf(NodeKind::QuotedIdentifier, 0))),
    Then(Take(QUOTED)),
    Entry::Alternative,
    On(ERROR),
    Then(Take(ERROR)),
    Then(Read(rule::ERROR_FORM)),
    Entry::Alternative,
    On(L_BRACE),
    Then(Read(rule::BLOCK)),
    Entry::Alternative,
    On(SWITCH),
    Then(Read(rule::SWITCH_FORM)),
    Entry::Alternative,
    On(LINE_TEXT),
    Then(Build(Open(NodeKind::Text, 0))),
    Then(Take(LINE_TEXT)),
    Then(Read(rule::MORE_LINES)),
    Then(Build(Close)),
    Entry::Alternative,
    On(UNREACHABLE),
    Then(Build(Leaf(NodeKind::Unreachable, 0))),
    Then(Take(UNREACHABLE)),
    Entry::Alternative,
    On(IMPORT),
    Then(Build(Open(NodeKind::Builtin, 0))),
    Then(Take(IMPORT)),
    Then(Take(L_PAREN)),
    Then(Read(rule::IMPORT_PATH)),
    Then(Read(rule::LAST_COMMA)),
    Then(Take(R_PAREN)),
    Then(Build(Close)),
    Entry::Alternative,
    On(STRUCT),
    Then(Build(Open(NodeKind::Struct, 0))),
    Then(Take(STRUCT)),
    Then(Take(L_BRACE)),
    Then(Read(rule::STRUCT_MEMBERS)),
    Then(Take(R_BRACE)),
    Then(Build(Close)),
    Entry::Alternative,
    On(ENUM),
    Then(Build(Open(NodeKind::Enum, 0))),
    Then(Take(ENUM)),
    Then(Read(rule::ENUM_TAG)),
    Then(Take(L_BRACE)),
    Then(Read(rule::ENUM_MEMBERS)),
    Then(Take(R_BRACE)),
    Then(Build(Close)),
    Entry::Alternative,
    On(UNION),
    Then(Build(Open(NodeKind::Union, 0))),
    Then(Take(UNION)),
    Then(Read(rule::UNION_TAG)),
    Then(Take(L_BRACE)),
    Then(Read(rule::UNION_MEMBERS)),
    Then(Take(R_BRACE)),
    Then(Build(Close)),
    Entry::Alternative,
    Entry::Rule(4, false),
];

// Puts the rules of this part at the end.
pub(super) fn add(list: &mut Vec<Rule>) -> Result<(), Oom>
    ensures { OnOk result (plain list.new.items ≡ plain list.old.items ++ atoms_rules) }
{
    add_rules(list, &RULES)?;
    Ok(())
}
