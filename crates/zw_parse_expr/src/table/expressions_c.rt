// The rules of expressions_c.
ghost use Rattle.std.specs.Prelude.{◌≡◌, ◌++◌, OnOk};
ghost use Rattle.zw_grammar.specs.Plain.{plain};
ghost use Rattle.zw_parse_expr.specs.ExpressionsC.{expressions_c_rules};

use crate::rule;
use crate::terminal::{AND, BANG_EQUAL, EQUAL_EQUAL, GREATER, GREATER_EQUAL, LESS, LESS_EQUAL, OR};
use zw_base::Oom;
use zw_grammar::Entry::{On, Then};
use zw_grammar::Mark::{Close, Enter, Leave, Wrap};
use zw_grammar::Symbol::{Build, Read, Take};
use zw_grammar::{Entry, Rule, add_rules};
use zw_tree::NodeKind;

// The rules of this part, in the order of their numbers.
const RULES: [Entry; 103] = [
    // EXPR_C
    Then(Build(Enter(0))),
    Then(Read(rule::PREFIX_C)),
    Then(Read(rule::PRODUCT_C)),
    Then(Read(rule::SUM_C)),
    Then(Read(rule::SHIFT_C)),
    Then(Read(rule::BITS_C)),
    Then(Read(rule::COMPARE_C)),
    Then(Read(rule::CONJUNCTION_C)),
    Then(Read(rule::DISJUNCTION_C)),
    Then(Build(Leave)),
    Entry::Alternative,
    Entry::Rule(9, false),
    // DISJUNCTION_C
    On(OR),
    Then(Build(Wrap(NodeKind::Or, 1))),
    Then(Take(OR)),
    Then(Read(rule::PREFIX_C)),
    Then(Read(rule::PRODUCT_C)),
    Then(Read(rule::SUM_C)),
    Then(Read(rule::SHIFT_C)),
    Then(Read(rule::BITS_C)),
    Then(Read(rule::COMPARE_C)),
    Then(Read(rule::CONJUNCTION_C)),
    Then(Build(Close)),
    Then(Read(rule::DISJUNCTION_C)),
    Entry::Alternative,
    Entry::Alternative,
    Entry::Rule(3, true),
    // CONJUNCTION_C
    On(AND),
    Then(Build(Wrap(NodeKind::And, 1))),
    Then(Take(AND)),
    Then(Read(rule::PREFIX_C)),
    Then(Read(rule::PRODUCT_C)),
    Then(Read(rule::SUM_C)),
    Then(Read(rule::SHIFT_C)),
    Then(Read(rule::BITS_C)),
    Then(Read(rule::COMPARE_C)),
    Then(Build(Close)),
    Then(Read(rule::CONJUNCTION_C)),
    Entry::Alternative,
    Entry::Alternative,
    Entry::Rule(3, true),
    // COMPARE_C
    On(EQUAL_EQUAL),
    Then(Build(Wrap(NodeKind::Equal, 1))),
    Then(Take(EQUAL_EQUAL)),
    Then(Read(rule::PREFIX_C)),
    Then(Read(rule::PRODUCT_C)),
    Then(Read(rule::SUM_C)),
    Then(Read(rule::SHIFT_C)),
    Then(Read(rule::BITS_C)),
    Then(Build(Close)),
    Entry::Alternative,
    On(BANG_EQUAL),
    Then(Build(Wrap(NodeKind::NotEqual, 1))),
    Then(Take(BANG_EQUAL)),
    Then(Read(rule::PREFIX_C)),
    Then(Read(rule::PRODUCT_C)),
    Then(Read(rule::SUM_C)),
    Then(Read(rule::SHIFT_C)),
    Then(Read(rule::BITS_C)),
    Then(Build(Close)),
    Entry::Alternative,
    On(LESS),
    Then(Build(Wrap(NodeKind::Less, 1))),
    Then(Take(LESS)),
    Then(Read(rule::PREFIX_C)),
    Then(Read(rule::PRODUCT_C)),
    Then(Read(rule::SUM_C)),
    Then(Read(rule::SHIFT_C)),
    Then(Read(rule::BITS_C)),
    Then(Build(Close)),
    Entry::Alternative,
    On(GREATER),
    Then(Build(Wrap(NodeKind::Greater, 1))),
    Then(Take(GREATER)),
    Then(Read(rule::PREFIX_C)),
    Then(Read(rule::PRODUCT_C)),
    Then(Read(rule::SUM_C)),
    Then(Read(rule::SHIFT_C)),
    Then(Read(rule::BITS_C)),
    Then(Build(Close)),
    Entry::Alternative,
    On(LESS_EQUAL),
    Then(Build(Wrap(NodeKind::LessOrEqual, 1))),
    Then(Take(LESS_EQUAL)),
    Then(Read(rule::PREFIX_C)),
    Then(Read(rule::PRODUCT_C)),
    Then(Read(rule::SUM_C)),
    Then(Read(rule::SHIFT_C)),
    Then(Read(rule::BITS_C)),
    Then(Build(Close)),
    Entry::Alternative,
    On(GREATER_EQUAL),
    Then(Build(Wrap(NodeKind::GreaterOrEqual, 1))),
    Then(Take(GREATER_EQUAL)),
    Then(Read(rule::PREFIX_C)),
    Then(Read(rule::PRODUCT_C)),
    Then(Read(rule::SUM_C)),
    Then(Read(rule::SHIFT_C)),
    Then(Read(rule::BITS_C)),
    Then(Build(Close)),
    Entry::Alternative,
    Entry::Alternative,
    Entry::Rule(3, true),
];

// Puts the rules of this part at the end.
pub(super) fn add(list: &mut Vec<Rule>) -> Result<(), Oom>
    ensures { OnOk result (plain list.new.items ≡ plain list.old.items ++ expressions_c_rules) }
{
    add_rules(list, &RULES)?;
    Ok(())
}
