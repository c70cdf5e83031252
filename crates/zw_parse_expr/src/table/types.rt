// The rules of types.
ghost use Rattle.std.specs.Prelude.{◌≡◌, ◌++◌, OnOk};
ghost use Rattle.zw_grammar.specs.Plain.{plain};
ghost use Rattle.zw_parse_expr.specs.Types.{types_rules};

use crate::rule;
use crate::terminal::{
    COLON, COLON_NAME, COLON_TARGET, L_BRACKET, QUESTION, R_BRACKET, STAR, STAR_STAR,
};
use zw_base::Oom;
use zw_grammar::Entry::{On, Then};
use zw_grammar::Mark::{Close, Enter, Leave, Open};
use zw_grammar::Symbol::{Build, Read, Take};
use zw_grammar::{Entry, Rule, add_rules};
use zw_tree::NodeKind;

// The rules of this part, in the order of their numbers.
const RULES: [Entry; 102] = [
    // TYPE
    Then(Build(Enter(0))),
    Then(Read(rule::TYPE_BODY)),
    Then(Build(Leave)),
    Entry::Alternative,
    Entry::Rule(7, false),
    // TYPE_BODY
    On(QUESTION),
    Then(Build(Open(NodeKind::OptionalType, 0))),
    Then(Take(QUESTION)),
    Then(Read(rule::TYPE_BODY)),
    Then(Build(Close)),
    Entry::Alternative,
    On(STAR),
    Then(Build(Open(NodeKind::PointerType, 0))),
    Then(Take(STAR)),
    Then(Read(rule::CONST_WORD)),
    Then(Read(rule::TYPE_BODY)),
    Then(Build(Close)),
    Entry::Alternative,
    On(STAR_STAR),
    Then(Build(Open(NodeKind::PointerType, 0))),
    Then(Build(Open(NodeKind::PointerType, 0))),
    Then(Take(STAR_STAR)),
    Then(Read(rule::CONST_WORD)),
    Then(Read(rule::TYPE_BODY)),
    Then(Build(Close)),
    Then(Build(Close)),
    Entry::Alternative,
    On(L_BRACKET),
    Then(Take(L_BRACKET)),
    Then(Read(rule::BRACKET)),
    Entry::Alternative,
    Then(Read(rule::ATOM)),
    Then(Read(rule::SUFFIXES)),
    Then(Read(rule::ERROR_UNION)),
    Entry::Alternative,
    Entry::Rule(5, false),
    // BRACKET
    On(STAR),
    Then(Take(STAR)),
    Then(Read(rule::BRACKET_STAR)),
    Entry::Alternative,
    On(R_BRACKET),
    Then(Build(Open(NodeKind::SliceType, 1))),
    Then(Take(R_BRACKET)),
    Then(Read(rule::CONST_WORD)),
    Then(Read(rule::TYPE_BODY)),
    Then(Build(Close)),
    Entry::Alternative,
    On(COLON),
    On(COLON_TARGET),
    On(COLON_NAME),
    Then(Build(Open(NodeKind::SliceType, 1))),
    Then(Read(rule::ANY_COLON)),
    Then(Read(rule::EXPR)),
    Then(Take(R_BRACKET)),
    Then(Read(rule::CONST_WORD)),
    Then(Read(rule::TYPE_BODY)),
    Then(Build(Close)),
    Entry::Alternative,
    Then(Build(Open(NodeKind::ArrayType, 1))),
    Then(Read(rule::EXPR_C)),
    Then(Read(rule::SENTINEL)),
    Then(Take(R_BRACKET)),
    Then(Read(rule::TYPE_BODY)),
    Then(Build(Close)),
    Entry::Alternative,
    Entry::Rule(11, false),
    // BRACKET_STAR
    On(R_BRACKET),
    Then(Build(Open(NodeKind::ManyPointerType, 2))),
    Then(Take(R_BRACKET)),
    Then(Read(rule::CONST_WORD)),
    Then(Read(rule::TYPE_BODY)),
    Then(Build(Close)),
    Entry::Alternative,
    Then(Build(Open(NodeKind::ArrayType, 2))),
    Then(Build(Enter(1))),
    Then(Build(Open(NodeKind::PointerType, 1))),
    Then(Read(rule::CONST_WORD)),
    Then(Read(rule::TYPE_BODY)),
    Then(Build(Close)),
    Then(Read(rule::INIT)),
    Then(Read(rule::PRODUCT_C)),
    Then(Read(rule::SUM_C)),
    Then(Read(rule::SHIFT_C)),
    Then(Read(rule::BITS_C)),
    Then(Read(rule::COMPARE_C)),
    Then(Read(rule::CONJUNCTION_C)),
    Then(Read(rule::DISJUNCTION_C)),
    Then(Build(Leave)),
    Then(Read(rule::SENTINEL)),
    Then(Take(R_BRACKET)),
    Then(Read(rule::TYPE_BODY)),
    Then(Build(Close)),
    Entry::Alternative,
    Entry::Rule(12, false),
    // SENTINEL
    On(COLON),
    On(COLON_TARGET),
    On(COLON_NAME),
    Then(Read(rule::ANY_COLON)),
    Then(Read(rule::EXPR)),
    Entry::Alternative,
    Entry::Alternative,
    Entry::Rule(3, true),
];

// Puts the rules of this part at the end.
pub(super) fn add(list: &mut Vec<Rule>) -> Result<(), Oom>
    ensures { OnOk result (plain list.new.items ≡ plain list.old.items ++ types_rules) }
{
    add_rules(list, &RULES)?;
    Ok(())
}
