// Rules from the lines of a table.
ghost use Rattle.std.specs.Prelude.{◌≡◌, ◌++◌, OnOk};
ghost use Rattle.zw_grammar.specs.Entries.{rules_of};
ghost use Rattle.zw_grammar.specs.Plain.{plain};

use crate::{Alternative, Entry, Rule};
use std::mem;
use zw_base::Oom;

/// Puts the rules that these lines spell at the end. What stands behind the end of the last rule is of none.
pub fn add_rules(list: &mut Vec<Rule>, entries: &[Entry]) -> Result<(), Oom>
    ensures { OnOk result (plain list.new.items ≡ plain list.old.items ++ rules_of entries.now) }
{
    let alloc = *list.allocator();
    let mut first = Vec::new(alloc);
    let mut symbols = Vec::new(alloc);
    let mut alternatives = Vec::new(alloc);
    for entry in entries {
        match *entry {
            Entry::On(terminal) => first.push(terminal)?,
            Entry::Then(symbol) => symbols.push(symbol)?,
            Entry::Alternative => alternatives.push(Alternative {
                first: mem::replace(&mut first, Vec::new(alloc)),
                symbols: mem::replace(&mut symbols, Vec::new(alloc)),
            })?,
            Entry::Rule(steps, may_be_empty) => list.push(Rule {
                alternatives: mem::replace(&mut alternatives, Vec::new(alloc)),
                steps,
                may_be_empty,
            })?,
        }
    }
    Ok(())
}
