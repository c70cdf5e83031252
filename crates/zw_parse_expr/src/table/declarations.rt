// The rules of declarations.
ghost use Rattle.std.specs.Prelude.{◌≡◌, ◌++◌, OnOk};
ghost use Rattle.zw_grammar.specs.Plain.{plain};
ghost use Rattle.zw_parse_expr.specs.Declarations.{declarations_rules};

use crate::rule;
use crate::terminal::{COMPTIME, CONST, EXPORT, EXTERN, FN, NOINLINE, PUB, SEMICOLON, TEST, VAR};
use zw_base::Oom;
use zw_grammar::Entry::{On, Then};
use zw_grammar::Mark::{Close, Enter, Leave, Open};
use zw_grammar::Symbol::{Build, Read, Take};
use zw_grammar::{Entry, Rule, add_rules};
use zw_tree::NodeKind;

// The rules of this part, in the order of their numbers.
const RULES: [Entry; 57] = [
    // DECLARATION
    Then(Build(Enter(0))),
    Then(Read(rule::ANY_DECLARATION)),
    Then(Build(Leave)),
    Entry::Alternative,
    Entry::Rule(7, false),
    // ANY_DECLARATION
    On(CONST),
    Then(Build(Open(NodeKind::Const, 0))),
    Then(Take(CONST)),
    Then(Read(rule::VARIABLE)),
    Then(Build(Close)),
    Then(Take(SEMICOLON)),
    Entry::Alternative,
    On(VAR),
    Then(Build(Open(NodeKind::Var, 0))),
    Then(Take(VAR)),
    Then(Read(rule::VARIABLE)),
    Then(Build(Close)),
    Then(Take(SEMICOLON)),
    Entry::Alternative,
    On(FN),
    Then(Build(Open(NodeKind::Function, 0))),
    Then(Read(rule::FUNCTION)),
    Then(Build(Close)),
    Entry::Alternative,
    On(EXPORT),
    Then(Build(Open(NodeKind::Function, 0))),
    Then(Read(rule::EXPORTED)),
    Then(Build(Close)),
    Entry::Alternative,
    On(NOINLINE),
    Then(Build(Open(NodeKind::Function, 0))),
    Then(Read(rule::NOINLINED)),
    Then(Build(Close)),
    Entry::Alternative,
    On(EXTERN),
    Then(Build(Open(NodeKind::Function, 0))),
    Then(Read(rule::OUTSIDE)),
    Then(Take(SEMICOLON)),
    Then(Build(Close)),
    Entry::Alternative,
    On(PUB),
    Then(Take(PUB)),
    Then(Read(rule::PUBLIC)),
    Entry::Alternative,
    On(TEST),
    Then(Build(Open(NodeKind::Test, 0))),
    Then(Take(TEST)),
    Then(Read(rule::TEST_NAME)),
    Then(Read(rule::BLOCK)),
    Then(Build(Close)),
    Entry::Alternative,
    Then(Build(Open(NodeKind::ComptimeBlock, 0))),
    Then(Take(COMPTIME)),
    Then(Read(rule::BLOCK)),
    Then(Build(Close)),
    Entry::Alternative,
    Entry::Rule(5, false),
];

// Puts the rules of this part at the end.
pub(super) fn add(list: &mut Vec<Rule>) -> Result<(), Oom>
    ensures { OnOk result (plain list.new.items ≡ plain list.old.items ++ declarations_rules) }
{
    add_rules(list, &RULES)?;
    Ok(())
}
