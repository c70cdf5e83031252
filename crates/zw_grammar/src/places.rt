// Which alternative each rule takes before each terminal, worked out once, so that a choice is looked up and not searched.
ghost use Rattle.std.specs.Prelude.{◌≡◌, ◌++◌, map, OnOk, IfOk, MatchOption, Some, None};
ghost use Rattle.zw_grammar.specs.Places.{place_from, places_below, all_places};
ghost use Rattle.zw_grammar.specs.Plain.{plain, plain_alternative};
ghost use Rattle.zw_grammar.specs.Reading.{is_first, first_choice, choice};

use crate::{Alternative, Rule, Symbol};
use std::alloc::Global;
use zw_base::Oom;

// How many terminals are looked up. Those from this one on are searched for.
const LOOKED_UP: u8 = 128;

// The place that stands for this one and all behind it.
const LAST_PLACE: u8 = 255;

// Whether a terminal is one of these, or there are none.
fn is_first(first: &[u8], terminal: u8) -> bool
    ensures { result ≡ is_first first.now terminal }
{
    first.is_empty() || first.contains(&terminal)
}

// What the first of these alternatives reads that the terminal chooses.
fn first_choice(alternatives: &[Alternative], terminal: u8) -> Option<&[Symbol]>
    ensures { MatchOption result (first_choice (map plain_alternative alternatives.now) terminal ≡ None)
        (λ symbols. first_choice (map plain_alternative alternatives.now) terminal ≡ Some symbols.now) }
{
    for alternative in alternatives {
        if is_first(alternative.first.as_slice(), terminal) {
            return Some(alternative.symbols.as_slice());
        }
    }
    None
}

// How many alternatives stand before the first that the terminal chooses, up to 255.
fn place_of(alternatives: &[Alternative], terminal: u8) -> u8
    ensures { result ≡ place_from 0 (map plain_alternative alternatives.now) terminal }
{
    let mut place = 0u8;
    for alternative in alternatives {
        if is_first(alternative.first.as_slice(), terminal) {
            return place;
        }
        place = place.saturating_add(1);
    }
    place
}

// Puts the places of a rule at the end.
fn add_places(list: &mut Vec<u8>, alternatives: &[Alternative]) -> Result<(), Oom>
    ensures { OnOk result (list.new.items ≡ list.old.items ++ places_below 128 (map plain_alternative alternatives.now)) }
{
    for terminal in 0..LOOKED_UP {
        list.push(place_of(alternatives, terminal))?;
    }
    Ok(())
}

/// The places of all rules.
pub(crate) fn all_places(alloc: Global, rules: &[Rule]) -> Result<Vec<u8>, Oom>
    ensures { IfOk result (λ list. list.items ≡ all_places (plain rules.now)) }
{
    let mut list = Vec::new(alloc);
    for rule in rules {
        add_places(&mut list, rule.alternatives.as_slice())?;
    }
    Ok(list)
}

/// What the rule with this number reads before this terminal, by the places of all rules.
pub(crate) fn choose<'a>(
    rules: &'a [Rule],
    places: &[u8],
    number: u8,
    terminal: u8,
) -> Option<&'a [Symbol]>
    requires places { places.now ≡ all_places (plain rules.now) }
    ensures { MatchOption result (choice (plain rules.now) number terminal ≡ None)
        (λ symbols. choice (plain rules.now) number terminal ≡ Some symbols.now) }
{
    let rule = rules.get(number as usize)?;
    if terminal >= LOOKED_UP {
        return first_choice(rule.alternatives.as_slice(), terminal);
    }
    let Some(place) = places.get(number as usize * LOOKED_UP as usize + terminal as usize) else {
        return first_choice(rule.alternatives.as_slice(), terminal);
    };
    if *place == LAST_PLACE {
        return first_choice(rule.alternatives.as_slice(), terminal);
    }
    match rule.alternatives.get(*place as usize) {
        Some(alternative) => Some(alternative.symbols.as_slice()),
        None => None,
    }
}
