// The rules of members.
ghost use Rattle.std.specs.Prelude.{◌≡◌, ◌++◌, OnOk};
ghost use Rattle.zw_grammar.specs.Plain.{plain};
ghost use Rattle.zw_parse_expr.specs.Members.{members_rules};

use crate::rule;
use crate::terminal::{
    COMMA, COMPTIME, CONST, EQUAL, EXPORT, EXTERN, FN, NAME, NOINLINE, PUB, QUOTED, TEST, VAR,
};
use zw_base::Oom;
use zw_grammar::Entry::{On, Then};
use zw_grammar::Mark::{Close, Open};
use zw_grammar::Symbol::{Build, Read, Take};
use zw_grammar::{Entry, Rule, add_rules};
use zw_tree::NodeKind;

// The rules of this part, in the order of their numbers.
const RULES: [Entry; 94] = [
    // STRUCT_MEMBERS
    On(NAME),
    On(QUOTED),
    Then(Build(Open(NodeKind::Field, 0))),
    Then(Read(rule::A_NAME)),
    Then(Read(rule::ANY_COLON)),
    Then(Read(rule::TYPE)),
    Then(Read(rule::FIELD_VALUE)),
    Then(Build(Close)),
    Then(Read(rule::MORE_STRUCT_MEMBERS)),
    Entry::Alternative,
    On(CONST),
    On(VAR),
    On(FN),
    On(EXPORT),
    On(NOINLINE),
    On(EXTERN),
    On(PUB),
    On(TEST),
    On(COMPTIME),
    Then(Read(rule::DECLARATION)),
    Then(Read(rule::STRUCT_MEMBERS)),
    Entry::Alternative,
    Entry::Alternative,
    Entry::Rule(8, true),
    // MORE_STRUCT_MEMBERS
    On(COMMA),
    Then(Take(COMMA)),
    Then(Read(rule::STRUCT_MEMBERS)),
    Entry::Alternative,
    Entry::Alternative,
    Entry::Rule(2, true),
    // ENUM_MEMBERS
    On(NAME),
    On(QUOTED),
    Then(Build(Open(NodeKind::Field, 0))),
    Then(Read(rule::A_NAME)),
    Then(Read(rule::FIELD_VALUE)),
    Then(Build(Close)),
    Then(Read(rule::MORE_ENUM_MEMBERS)),
    Entry::Alternative,
    On(CONST),
    On(VAR),
    On(FN),
    On(EXPORT),
    On(NOINLINE),
    On(EXTERN),
    On(PUB),
    On(TEST),
    On(COMPTIME),
    Then(Read(rule::DECLARATION)),
    Then(Read(rule::ENUM_MEMBERS)),
    Entry::Alternative,
    Entry::Alternative,
    Entry::Rule(8, true),
    // MORE_ENUM_MEMBERS
    On(COMMA),
    Then(Take(COMMA)),
    Then(Read(rule::ENUM_MEMBERS)),
    Entry::Alternative,
    Entry::Alternative,
    Entry::Rule(2, true),
    // UNION_MEMBERS
    On(NAME),
    On(QUOTED),
    Then(Build(Open(NodeKind::Field, 0))),
    Then(Read(rule::A_NAME)),
    Then(Read(rule::VARIABLE_TYPE)),
    Then(Build(Close)),
    Then(Read(rule::MORE_UNION_MEMBERS)),
    Entry::Alternative,
    On(CONST),
    On(VAR),
    On(FN),
    On(EXPORT),
    On(NOINLINE),
    On(EXTERN),
    On(PUB),
    On(TEST),
    On(COMPTIME),
    Then(Read(rule::DECLARATION)),
    Then(Read(rule::UNION_MEMBERS)),
    Entry::Alternative,
    Entry::Alternative,
    Entry::Rule(8, true),
    // MORE_UNION_MEMBERS
    On(COMMA),
    Then(Take(COMMA)),
    Then(Read(rule::UNION_MEMBERS)),
    Entry::Alternative,
    Entry::Alternative,
    Entry::Rule(2, true),
    // FIELD_VALUE
    On(EQUAL),
    Then(Build(Open(NodeKind::FieldValue, 0))),
    Then(Take(EQUAL)),
    Then(Read(rule::EXPR)),
    Then(Build(Close)),
    Entry::Alternative,
    Entry::Alternative,
    Entry::Rule(3, true),
];

// Puts the rules of this part at the end.
pub(super) fn add(list: &mut Vec<Rule>) -> Result<(), Oom>
    ensures { OnOk result (plain list.new.items ≡ plain list.old.items ++ members_rules) }
{
    add_rules(list, &RULES)?;
    Ok(())
}
