// The rules of statements.
ghost use Rattle.std.specs.Prelude.{◌≡◌, ◌++◌, OnOk};
ghost use Rattle.zw_grammar.specs.Plain.{plain};
ghost use Rattle.zw_parse_expr.specs.Statements.{statements_rules};

use crate::rule;
use crate::terminal::{
    COMPTIME, CONST, DEFER, ERRDEFER, FOR, IF, INLINE, L_BRACE, NAME, QUOTED, R_BRACE, SEMICOLON,
    SWITCH, VAR, WHILE,
};
use zw_base::Oom;
use zw_grammar::Entry::{On, Then};
use zw_grammar::Mark::{Close, Enter, Leave, Open, Wrap};
use zw_grammar::Symbol::{Build, Read, Take};
use zw_grammar::{Entry, Rule, add_rules};
use zw_tree::NodeKind;

// The rules of this part, in the order of their numbers.
const RULES: [Entry; 114] = [
    // BLOCK
    Then(Build(Open(NodeKind::Block, 0))),
    Then(Take(L_BRACE)),
    Then(Read(rule::STATEMENTS)),
    Then(Take(R_BRACE)),
    Then(Build(Close)),
    Entry::Alternative,
    Entry::Rule(3, false),
    // LABELLED_BLOCK
    Then(Build(Wrap(NodeKind::Block, 1))),
    Then(Take(L_BRACE)),
    Then(Read(rule::STATEMENTS)),
    Then(Take(R_BRACE)),
    Then(Build(Close)),
    Entry::Alternative,
    Entry::Rule(3, false),
    // STATEMENTS
    On(R_BRACE),
    Entry::Alternative,
    Then(Read(rule::STATEMENT)),
    Then(Read(rule::STATEMENTS)),
    Entry::Alternative,
    Entry::Rule(13, true),
    // STATEMENT
    On(NAME),
    On(QUOTED),
    Then(Build(Enter(0))),
    Then(Read(rule::ANY_NAME)),
    Then(Read(rule::STATEMENT_NAME)),
    Then(Build(Leave)),
    Entry::Alternative,
    On(CONST),
    Then(Build(Enter(0))),
    Then(Build(Open(NodeKind::Const, 0))),
    Then(Take(CONST)),
    Then(Read(rule::VARIABLE)),
    Then(Build(Close)),
    Then(Take(SEMICOLON)),
    Then(Build(Leave)),
    Entry::Alternative,
    On(VAR),
    Then(Build(Enter(0))),
    Then(Build(Open(NodeKind::Var, 0))),
    Then(Take(VAR)),
    Then(Read(rule::VARIABLE)),
    Then(Build(Close)),
    Then(Take(SEMICOLON)),
    Then(Build(Leave)),
    Entry::Alternative,
    On(IF),
    Then(Build(Enter(0))),
    Then(Build(Open(NodeKind::If, 0))),
    Then(Read(rule::IF_HEAD)),
    Then(Read(rule::BODY)),
    Then(Build(Close)),
    Then(Build(Leave)),
    Entry::Alternative,
    On(WHILE),
    Then(Build(Enter(0))),
    Then(Build(Open(NodeKind::While, 0))),
    Then(Read(rule::WHILE_HEAD)),
    Then(Read(rule::BODY)),
    Then(Build(Close)),
    Then(Build(Leave)),
    Entry::Alternative,
    On(FOR),
    Then(Build(Enter(0))),
    Then(Build(Open(NodeKind::For, 0))),
    Then(Read(rule::FOR_HEAD)),
    Then(Read(rule::BODY)),
    Then(Build(Close)),
    Then(Build(Leave)),
    Entry::Alternative,
    On(INLINE),
    Then(Build(Enter(0))),
    Then(Take(INLINE)),
    Then(Read(rule::INLINE_LOOP_STATEMENT)),
    Then(Build(Leave)),
    Entry::Alternative,
    On(L_BRACE),
    Then(Build(Enter(0))),
    Then(Read(rule::BLOCK)),
    Then(Build(Leave)),
    Entry::Alternative,
    On(SWITCH),
    Then(Build(Enter(0))),
    Then(Read(rule::SWITCH_FORM)),
    Then(Build(Leave)),
    Entry::Alternative,
    On(COMPTIME),
    Then(Build(Enter(0))),
    Then(Take(COMPTIME)),
    Then(Read(rule::COMPTIME_STATEMENT)),
    Then(Build(Leave)),
    Entry::Alternative,
    On(DEFER),
    Then(Build(Enter(0))),
    Then(Build(Open(NodeKind::Defer, 0))),
    Then(Take(DEFER)),
    Then(Read(rule::BODIED)),
    Then(Build(Close)),
    Then(Build(Leave)),
    Entry::Alternative,
    On(ERRDEFER),
    Then(Build(Enter(0))),
    Then(Build(Open(NodeKind::ErrDefer, 0))),
    Then(Take(ERRDEFER)),
    Then(Read(rule::PLAIN_CAPTURE)),
    Then(Read(rule::BODIED)),
    Then(Build(Close)),
    Then(Build(Leave)),
    Entry::Alternative,
    Then(Build(Enter(0))),
    Then(Read(rule::ASSIGN)),
    Then(Take(SEMICOLON)),
    Then(Build(Leave)),
    Entry::Alternative,
    Entry::Rule(12, false),
];

// Puts the rules of this part at the end.
pub(super) fn add(list: &mut Vec<Rule>) -> Result<(), Oom>
    ensures { OnOk result (plain list.new.items ≡ plain list.old.items ++ statements_rules) }
{
    add_rules(list, &RULES)?;
    Ok(())
}
