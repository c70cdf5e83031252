// The rules of public_declarations.
ghost use Rattle.std.specs.Prelude.{◌≡◌, ◌++◌, OnOk};
ghost use Rattle.zw_grammar.specs.Plain.{plain};
ghost use Rattle.zw_parse_expr.specs.PublicDeclarations.{public_declarations_rules};

use crate::rule;
use crate::terminal::{CONST, EXPORT, FN, NOINLINE, SEMICOLON, VAR};
use zw_base::Oom;
use zw_grammar::Entry::{On, Then};
use zw_grammar::Mark::{Close, Leaf, Open};
use zw_grammar::Symbol::{Build, Read, Take};
use zw_grammar::{Entry, Rule, add_rules};
use zw_tree::NodeKind;

// The rules of this part, in the order of their numbers.
const RULES: [Entry; 41] = [
    // PUBLIC
    On(CONST),
    Then(Build(Open(NodeKind::Const, 1))),
    Then(Build(Leaf(NodeKind::PubWord, 1))),
    Then(Take(CONST)),
    Then(Read(rule::VARIABLE)),
    Then(Build(Close)),
    Then(Take(SEMICOLON)),
    Entry::Alternative,
    On(VAR),
    Then(Build(Open(NodeKind::Var, 1))),
    Then(Build(Leaf(NodeKind::PubWord, 1))),
    Then(Take(VAR)),
    Then(Read(rule::VARIABLE)),
    Then(Build(Close)),
    Then(Take(SEMICOLON)),
    Entry::Alternative,
    On(FN),
    Then(Build(Open(NodeKind::Function, 1))),
    Then(Build(Leaf(NodeKind::PubWord, 1))),
    Then(Read(rule::FUNCTION)),
    Then(Build(Close)),
    Entry::Alternative,
    On(EXPORT),
    Then(Build(Open(NodeKind::Function, 1))),
    Then(Build(Leaf(NodeKind::PubWord, 1))),
    Then(Read(rule::EXPORTED)),
    Then(Build(Close)),
    Entry::Alternative,
    On(NOINLINE),
    Then(Build(Open(NodeKind::Function, 1))),
    Then(Build(Leaf(NodeKind::PubWord, 1))),
    Then(Read(rule::NOINLINED)),
    Then(Build(Close)),
    Entry::Alternative,
    Then(Build(Open(NodeKind::Function, 1))),
    Then(Build(Leaf(NodeKind::PubWord, 1))),
    Then(Read(rule::OUTSIDE)),
    Then(Take(SEMICOLON)),
    Then(Build(Close)),
    Entry::Alternative,
    Entry::Rule(6, false),
];

// Puts the rules of this part at the end.
pub(super) fn add(list: &mut Vec<Rule>) -> Result<(), Oom>
    ensures { OnOk result (plain list.new.items ≡ plain list.old.items ++ public_declarations_rules) }
{
    add_rules(list, &RULES)?;
    Ok(())
}
