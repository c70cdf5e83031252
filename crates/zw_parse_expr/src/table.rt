// The grammar of Zig files (Zig Language Reference 0.13.0, Grammar) as data: the alternatives of each rule, by its number.
ghost use Rattle.std.specs.Prelude.{◌≡◌, OnOk, IfOk};
ghost use Rattle.zw_grammar.specs.Plain.{plain};
ghost use Rattle.zw_parse_expr.specs.Rules.{rules, with_types, with_expressions, with_statements};

mod anonymous_literals;
mod assignments;
mod atom_parts;
mod atoms;
mod bits;
mod bits_c;
mod bodies;
mod declarations;
mod expressions;
mod expressions_c;
mod followers;
mod functions;
mod heads;
mod labels;
mod labels_c;
mod members;
mod named_statements;
mod names;
mod primaries;
mod primaries_c;
mod products;
mod products_c;
mod public_declarations;
mod statements;
mod suffixes;
mod switches;
mod typed_literals;
mod types;

use std::alloc::Global;
use zw_base::Oom;
use zw_grammar::Rule;

// Puts rules at the end.
fn add_types(list: &mut Vec<Rule>) -> Result<(), Oom>
    ensures { OnOk result (plain list.new.items ≡ with_types (plain list.old.items)) }
{
    names::add(list)?;
    types::add(list)?;
    suffixes::add(list)?;
    atoms::add(list)?;
    atom_parts::add(list)?;
    anonymous_literals::add(list)?;
    typed_literals::add(list)?;
    expressions::add(list)?;
    expressions_c::add(list)?;
    Ok(())
}

// Puts rules at the end.
fn add_expressions(list: &mut Vec<Rule>) -> Result<(), Oom>
    ensures { OnOk result (plain list.new.items ≡ with_expressions (plain list.old.items)) }
{
    bits::add(list)?;
    bits_c::add(list)?;
    products::add(list)?;
    products_c::add(list)?;
    primaries::add(list)?;
    primaries_c::add(list)?;
    labels::add(list)?;
    labels_c::add(list)?;
    statements::add(list)?;
    Ok(())
}

// Puts rules at the end.
fn add_statements(list: &mut Vec<Rule>) -> Result<(), Oom>
    ensures { OnOk result (plain list.new.items ≡ with_statements (plain list.old.items)) }
{
    named_statements::add(list)?;
    bodies::add(list)?;
    assignments::add(list)?;
    heads::add(list)?;
    switches::add(list)?;
    members::add(list)?;
    declarations::add(list)?;
    public_declarations::add(list)?;
    functions::add(list)?;
    followers::add(list)?;
    Ok(())
}

/// All rules, in the order of their numbers.
pub(crate) fn rules(alloc: Global) -> Result<Vec<Rule>, Oom>
    ensures { IfOk result (λ list. plain list.items ≡ rules) }
{
    let mut list = Vec::new(alloc);
    add_types(&mut list)?;
    add_expressions(&mut list)?;
    add_statements(&mut list)?;
    Ok(list)
}
