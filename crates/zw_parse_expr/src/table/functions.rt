// The rules of functions.
ghost use Rattle.std.specs.Prelude.{◌≡◌, ◌++◌, OnOk};
ghost use Rattle.zw_grammar.specs.Plain.{plain};
ghost use Rattle.zw_parse_expr.specs.Functions.{functions_rules};

use crate::rule;
use crate::terminal::{
    ANYTYPE, BANG, BLANK, COLON, COLON_NAME, COLON_TARGET, COMMA, COMPTIME, EQUAL, EXPORT, EXTERN,
    FN, L_PAREN, NAME, NOINLINE, QUOTED, R_PAREN, TEXT,
};
use zw_base::Oom;
use zw_grammar::Entry::{On, Then};
use zw_grammar::Mark::{Close, Enter, Leaf, Leave, Open, Word};
use zw_grammar::Symbol::{Build, Read, Take};
use zw_grammar::{Entry, Rule, add_rules};
use zw_tree::NodeKind;

// The rules of this part, in the order of their numbers.
const RULES: [Entry; 122] = [
    // VARIABLE
    Then(Read(rule::A_NAME)),
    Then(Read(rule::VARIABLE_TYPE)),
    Then(Take(EQUAL)),
    Then(Read(rule::EXPR)),
    Entry::Alternative,
    Entry::Rule(4, false),
    // VARIABLE_TYPE
    On(COLON),
    On(COLON_TARGET),
    On(COLON_NAME),
    Then(Read(rule::ANY_COLON)),
    Then(Read(rule::TYPE)),
    Entry::Alternative,
    Entry::Alternative,
    Entry::Rule(3, true),
    // TEST_NAME
    On(TEXT),
    Then(Build(Leaf(NodeKind::Text, 0))),
    Then(Take(TEXT)),
    Entry::Alternative,
    On(NAME),
    Then(Build(Leaf(NodeKind::Identifier, 0))),
    Then(Take(NAME)),
    Entry::Alternative,
    On(QUOTED),
    Then(Build(Leaf(NodeKind::QuotedIdentifier, 0))),
    Then(Take(QUOTED)),
    Entry::Alternative,
    Entry::Alternative,
    Entry::Rule(3, true),
    // EXPORTED
    Then(Build(Leaf(NodeKind::ExportWord, 0))),
    Then(Take(EXPORT)),
    Then(Read(rule::FUNCTION)),
    Entry::Alternative,
    Entry::Rule(3, false),
    // NOINLINED
    Then(Build(Leaf(NodeKind::NoinlineWord, 0))),
    Then(Take(NOINLINE)),
    Then(Read(rule::FUNCTION)),
    Entry::Alternative,
    Entry::Rule(3, false),
    // OUTSIDE
    Then(Build(Leaf(NodeKind::ExternWord, 0))),
    Then(Take(EXTERN)),
    Then(Read(rule::SIGNATURE)),
    Entry::Alternative,
    Entry::Rule(3, false),
    // FUNCTION
    Then(Read(rule::SIGNATURE)),
    Then(Read(rule::BLOCK)),
    Entry::Alternative,
    Entry::Rule(3, false),
    // SIGNATURE
    Then(Take(FN)),
    Then(Read(rule::A_NAME)),
    Then(Take(L_PAREN)),
    Then(Read(rule::PARAMETERS)),
    Then(Take(R_PAREN)),
    Then(Read(rule::RESULT_TYPE)),
    Entry::Alternative,
    Entry::Rule(2, false),
    // RESULT_TYPE
    On(BANG),
    Then(Build(Leaf(NodeKind::InferredErrorsWord, 0))),
    Then(Take(BANG)),
    Then(Read(rule::TYPE)),
    Entry::Alternative,
    Then(Read(rule::TYPE)),
    Entry::Alternative,
    Entry::Rule(8, false),
    // PARAMETERS
    On(R_PAREN),
    Entry::Alternative,
    Then(Read(rule::PARAMETER)),
    Then(Read(rule::MORE_PARAMETERS)),
    Entry::Alternative,
    Entry::Rule(12, true),
    // MORE_PARAMETERS
    On(COMMA),
    Then(Take(COMMA)),
    Then(Read(rule::PARAMETERS)),
    Entry::Alternative,
    Entry::Alternative,
    Entry::Rule(2, true),
    // PARAMETER
    On(COMPTIME),
    Then(Build(Open(NodeKind::Parameter, 0))),
    Then(Build(Leaf(NodeKind::ComptimeWord, 0))),
    Then(Take(COMPTIME)),
    Then(Read(rule::PARAMETER_REST)),
    Then(Build(Close)),
    Entry::Alternative,
    Then(Build(Open(NodeKind::Parameter, 0))),
    Then(Read(rule::PARAMETER_REST)),
    Then(Build(Close)),
    Entry::Alternative,
    Entry::Rule(11, false),
    // PARAMETER_REST
    On(BLANK),
    Then(Build(Leaf(NodeKind::Blank, 0))),
    Then(Take(BLANK)),
    Then(Read(rule::ANY_COLON)),
    Then(Read(rule::PARAMETER_TYPE)),
    Entry::Alternative,
    On(NAME),
    On(QUOTED),
    Then(Read(rule::ANY_NAME)),
    Then(Read(rule::PARAMETER_NAME)),
    Entry::Alternative,
    Then(Read(rule::PARAMETER_TYPE)),
    Entry::Alternative,
    Entry::Rule(9, false),
    // PARAMETER_NAME
    On(COLON),
    On(COLON_TARGET),
    On(COLON_NAME),
    Then(Build(Word(NAME, NodeKind::Name, NodeKind::QuotedName, 1))),
    Then(Read(rule::ANY_COLON)),
    Then(Read(rule::PARAMETER_TYPE)),
    Entry::Alternative,
    Then(Build(Enter(1))),
    Then(Build(Word(NAME, NodeKind::Identifier, NodeKind::QuotedIdentifier, 1))),
    Then(Read(rule::SUFFIXES)),
    Then(Read(rule::ERROR_UNION)),
    Then(Build(Leave)),
    Entry::Alternative,
    Entry::Rule(10, true),
    // PARAMETER_TYPE
    On(ANYTYPE),
    Then(Build(Leaf(NodeKind::AnyType, 0))),
    Then(Take(ANYTYPE)),
    Entry::Alternative,
    Then(Read(rule::TYPE)),
    Entry::Alternative,
    Entry::Rule(8, false),
];

// Puts the rules of this part at the end.
pub(super) fn add(list: &mut Vec<Rule>) -> Result<(), Oom>
    ensures { OnOk result (plain list.new.items ≡ plain list.old.items ++ functions_rules) }
{
    add_rules(list, &RULES)?;
    Ok(())
}
