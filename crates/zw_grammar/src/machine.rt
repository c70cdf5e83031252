// The machine that reads by a grammar, with a stack of its own.
ghost use Rattle.std.specs.Prelude.{◌≡◌, ◌<◌, ◌^◌, ◌++◌, List, length, reverse, OnOk, IfOk, IsTrue};
ghost use Rattle.zw_grammar.specs.declared.builder.Built.{Built};
ghost use Rattle.zw_grammar.specs.Building.{Building};
ghost use Rattle.zw_grammar.specs.Grammars.{all_end};
ghost use Rattle.zw_grammar.specs.Nodes.{HoldsBehind, nodes_of};
ghost use Rattle.zw_grammar.specs.Places.{all_places};
ghost use Rattle.zw_grammar.specs.Plain.{plain};
ghost use Rattle.zw_grammar.specs.Turns.{Turns, end_of, reading};
ghost use Rattle.zw_grammar.specs.Ends.{IsText, Ends};

use crate::places::{all_places, choose};
use crate::{Builder, Rule, Symbol};
use std::alloc::Global;
use zw_base::Oom;

/// How a reading ends.
#[derive(Clone, Copy, Debug, PartialEq, Eq)]
pub enum End {
    /// All was read up to the terminal with this number.
    Read(u32),
    /// The terminal with this number can't stand there.
    Wrong(u32),
    /// The terminal with this number begins a rule that is nested too deep.
    Nested(u32),
}

// What became of a terminal.
#[derive(Clone, Copy, Debug, PartialEq, Eq)]
enum Turn {
    Taken,
    Refused,
    // It stands behind all that was to be read.
    Behind,
}

// Puts these symbols onto the stack, the first on top.
fn push_all(stack: &mut Vec<Symbol>, mut symbols: &[Symbol]) -> Result<(), Oom>
    ensures { OnOk result (stack.new.items ≡ stack.old.items ++ reverse symbols.entry.now) }
{
    while let Some((last, others)) = symbols.split_last() {
        stack.push(*last)?;
        symbols = others;
    }
    Ok(())
}

// Reads up to the terminal with this number, and takes it.
fn take_next(
    rules: &[Rule],
    places: &[u8],
    terminals: &[u8],
    at: usize,
    stack: &mut Vec<Symbol>,
    into: &mut Builder,
) -> Result<Turn, Oom>
    requires ends { IsTrue (all_end (plain rules.now) (plain rules.now)) }
    requires places { places.now ≡ all_places (plain rules.now) }
    requires within { at < length terminals.now }
    requires length { length terminals.now < 2 ^ 32 }
    ensures { IfOk result (λ turn. (older : List Built) (b : Building) → HoldsBehind older into.old b →
        Turns (plain rules.now) terminals.now (reading stack.old.items at b) at turn stack.new.items older into.new) }
{
    let terminal = terminals[at];
    while let Some(symbol) = stack.pop() {
        match symbol {
            Symbol::Take(wanted) => {
                return Ok(if terminal == wanted {
                    Turn::Taken
                } else {
                    Turn::Refused
                });
            }
            Symbol::Read(number) => match choose(rules, places, number, terminal) {
                Some(symbols) => push_all(stack, symbols)?,
                None => return Ok(Turn::Refused),
            },
            Symbol::Build(mark) => into.mark(mark, terminals, at as u32)?,
        }
    }
    Ok(Turn::Behind)
}

// How the reading ends with what became of the terminal with this number, where it does.
fn end_of(turn: Turn, passed: Option<u32>, at: u32) -> Option<End>
    ensures { result ≡ end_of turn passed at }
{
    let Some(place) = passed else {
        return match turn {
            Turn::Taken => None,
            Turn::Behind => Some(End::Read(at)),
            Turn::Refused => Some(End::Wrong(at)),
        };
    };
    match turn {
        Turn::Refused if at <= place => Some(End::Wrong(at)),
        _ => Some(End::Nested(place)),
    }
}

/// Reads these symbols from the terminal with the number `from` on. What is built stands behind the nodes that the builder has.
pub fn read(
    alloc: Global,
    rules: &[Rule],
    start: &[Symbol],
    terminals: &[u8],
    from: usize,
    into: &mut Builder,
) -> Result<End, Oom>
    requires ends { IsTrue (all_end (plain rules.now) (plain rules.now)) }
    requires complete { IsText (plain rules.now) start.now terminals.now }
    requires length { length terminals.now < 2 ^ 32 }
    requires from { from < length terminals.now }
    ensures { IfOk result (λ end. Ends (plain rules.now) start.now terminals.now from (nodes_of into.old) into.new end) }
{
    into.begin();
    let places = all_places(alloc, rules)?;
    let mut stack = Vec::new(alloc);
    push_all(&mut stack, start)?;
    for at in from..terminals.len() {
        let turn = take_next(rules, &places, terminals, at, &mut stack, into)?;
        if let Some(end) = end_of(turn, into.passed(), at as u32) {
            return Ok(end);
        }
    }
    Ok(End::Wrong(terminals.len() as u32))
}
