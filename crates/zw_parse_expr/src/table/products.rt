// The rules of products.
ghost use Rattle.std.specs.Prelude.{◌≡◌, ◌++◌, OnOk};
ghost use Rattle.zw_grammar.specs.Plain.{plain};
ghost use Rattle.zw_parse_expr.specs.Products.{products_rules};

use crate::rule;
use crate::terminal::{
    AMPERSAND, BANG, MINUS, MINUS_PERCENT, PERCENT, PIPE_PIPE, SLASH, STAR, STAR_PERCENT,
    STAR_PIPE, STAR_STAR, TILDE, TRY,
};
use zw_base::Oom;
use zw_grammar::Entry::{On, Then};
use zw_grammar::Mark::{Close, Open, Wrap};
use zw_grammar::Symbol::{Build, Read, Take};
use zw_grammar::{Entry, Rule, add_rules};
use zw_tree::NodeKind;

// The rules of this part, in the order of their numbers.
const RULES: [Entry; 90] = [
    // PRODUCT
    On(STAR),
    Then(Build(Wrap(NodeKind::Multiply, 1))),
    Then(Take(STAR)),
    Then(Read(rule::PREFIX)),
    Then(Build(Close)),
    Then(Read(rule::PRODUCT)),
    Entry::Alternative,
    On(SLASH),
    Then(Build(Wrap(NodeKind::Divide, 1))),
    Then(Take(SLASH)),
    Then(Read(rule::PREFIX)),
    Then(Build(Close)),
    Then(Read(rule::PRODUCT)),
    Entry::Alternative,
    On(PERCENT),
    Then(Build(Wrap(NodeKind::Remainder, 1))),
    Then(Take(PERCENT)),
    Then(Read(rule::PREFIX)),
    Then(Build(Close)),
    Then(Read(rule::PRODUCT)),
    Entry::Alternative,
    On(STAR_STAR),
    Then(Build(Wrap(NodeKind::Repeat, 1))),
    Then(Take(STAR_STAR)),
    Then(Read(rule::PREFIX)),
    Then(Build(Close)),
    Then(Read(rule::PRODUCT)),
    Entry::Alternative,
    On(STAR_PERCENT),
    Then(Build(Wrap(NodeKind::MultiplyWrap, 1))),
    Then(Take(STAR_PERCENT)),
    Then(Read(rule::PREFIX)),
    Then(Build(Close)),
    Then(Read(rule::PRODUCT)),
    Entry::Alternative,
    On(STAR_PIPE),
    Then(Build(Wrap(NodeKind::MultiplySaturate, 1))),
    Then(Take(STAR_PIPE)),
    Then(Read(rule::PREFIX)),
    Then(Build(Close)),
    Then(Read(rule::PRODUCT)),
    Entry::Alternative,
    On(PIPE_PIPE),
    Then(Build(Wrap(NodeKind::MergeErrors, 1))),
    Then(Take(PIPE_PIPE)),
    Then(Read(rule::PREFIX)),
    Then(Build(Close)),
    Then(Read(rule::PRODUCT)),
    Entry::Alternative,
    Entry::Alternative,
    Entry::Rule(3, true),
    // PREFIX
    On(BANG),
    Then(Build(Open(NodeKind::Not, 0))),
    Then(Take(BANG)),
    Then(Read(rule::PREFIX)),
    Then(Build(Close)),
    Entry::Alternative,
    On(MINUS),
    Then(Build(Open(NodeKind::Negate, 0))),
    Then(Take(MINUS)),
    Then(Read(rule::PREFIX)),
    Then(Build(Close)),
    Entry::Alternative,
    On(TILDE),
    Then(Build(Open(NodeKind::BitNot, 0))),
    Then(Take(TILDE)),
    Then(Read(rule::PREFIX)),
    Then(Build(Close)),
    Entry::Alternative,
    On(MINUS_PERCENT),
    Then(Build(Open(NodeKind::NegateWrap, 0))),
    Then(Take(MINUS_PERCENT)),
    Then(Read(rule::PREFIX)),
    Then(Build(Close)),
    Entry::Alternative,
    On(AMPERSAND),
    Then(Build(Open(NodeKind::AddressOf, 0))),
    Then(Take(AMPERSAND)),
    Then(Read(rule::PREFIX)),
    Then(Build(Close)),
    Entry::Alternative,
    On(TRY),
    Then(Build(Open(NodeKind::Try, 0))),
    Then(Take(TRY)),
    Then(Read(rule::PREFIX)),
    Then(Build(Close)),
    Entry::Alternative,
    Then(Read(rule::PRIMARY)),
    Entry::Alternative,
    Entry::Rule(7, false),
];

// Puts the rules of this part at the end.
pub(super) fn add(list: &mut Vec<Rule>) -> Result<(), Oom>
    ensures { OnOk result (plain list.new.items ≡ plain list.old.items ++ products_rules) }
{
    add_rules(list, &RULES)?;
    Ok(())
}
