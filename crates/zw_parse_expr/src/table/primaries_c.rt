// The rules of primaries_c.
ghost use Rattle.std.specs.Prelude.{◌≡◌, ◌++◌, OnOk};
ghost use Rattle.zw_grammar.specs.Plain.{plain};
ghost use Rattle.zw_parse_expr.specs.PrimariesC.{primaries_c_rules};

use crate::rule;
use crate::terminal::{
    BREAK, COMPTIME, CONTINUE, FOR, IF, INLINE, L_BRACE, L_BRACKET, NAME, QUOTED, RETURN, WHILE,
};
use zw_base::Oom;
use zw_grammar::Entry::{On, Then};
use zw_grammar::Mark::{Close, Open};
use zw_grammar::Symbol::{Build, Read, Take};
use zw_grammar::{Entry, Rule, add_rules};
use zw_tree::NodeKind;

// The rules of this part, in the order of their numbers.
const RULES: [Entry; 66] = [
    // PRIMARY_C
    On(NAME),
    On(QUOTED),
    Then(Read(rule::ANY_NAME)),
    Then(Read(rule::PRIMARY_NAME_C)),
    Entry::Alternative,
    On(IF),
    Then(Build(Open(NodeKind::If, 0))),
    Then(Read(rule::IF_HEAD)),
    Then(Read(rule::EXPR_C)),
    Then(Read(rule::ELSE_EXPR_C)),
    Then(Build(Close)),
    Entry::Alternative,
    On(BREAK),
    Then(Build(Open(NodeKind::Break, 0))),
    Then(Take(BREAK)),
    Then(Read(rule::BREAK_LABEL_C)),
    Then(Read(rule::OPERAND_C)),
    Then(Build(Close)),
    Entry::Alternative,
    On(CONTINUE),
    Then(Build(Open(NodeKind::Continue, 0))),
    Then(Take(CONTINUE)),
    Then(Read(rule::BREAK_LABEL_C)),
    Then(Build(Close)),
    Entry::Alternative,
    On(RETURN),
    Then(Build(Open(NodeKind::Return, 0))),
    Then(Take(RETURN)),
    Then(Read(rule::OPERAND_C)),
    Then(Build(Close)),
    Entry::Alternative,
    On(COMPTIME),
    Then(Build(Open(NodeKind::Comptime, 0))),
    Then(Take(COMPTIME)),
    Then(Read(rule::EXPR_C)),
    Then(Build(Close)),
    Entry::Alternative,
    On(WHILE),
    Then(Build(Open(NodeKind::While, 0))),
    Then(Read(rule::WHILE_HEAD)),
    Then(Read(rule::EXPR_C)),
    Then(Read(rule::ELSE_EXPR_C)),
    Then(Build(Close)),
    Entry::Alternative,
    On(FOR),
    Then(Build(Open(NodeKind::For, 0))),
    Then(Read(rule::FOR_HEAD)),
    Then(Read(rule::EXPR_C)),
    Then(Read(rule::ELSE_EXPR_C)),
    Then(Build(Close)),
    Entry::Alternative,
    On(INLINE),
    Then(Take(INLINE)),
    Then(Read(rule::INLINE_LOOP_C)),
    Entry::Alternative,
    On(L_BRACE),
    Then(Read(rule::BLOCK)),
    Entry::Alternative,
    On(L_BRACKET),
    Then(Take(L_BRACKET)),
    Then(Read(rule::FRONT_BRACKET)),
    Entry::Alternative,
    Then(Read(rule::TYPE_BODY)),
    Then(Read(rule::INIT)),
    Entry::Alternative,
    Entry::Rule(6, false),
];

// Puts the rules of this part at the end.
pub(super) fn add(list: &mut Vec<Rule>) -> Result<(), Oom>
    ensures { OnOk result (plain list.new.items ≡ plain list.old.items ++ primaries_c_rules) }
{
    add_rules(list, &RULES)?;
    Ok(())
}
