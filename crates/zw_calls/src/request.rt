// The words behind `exec` or `run`: a path, calls, and the number of steps.
ghost use Rattle.std.specs.Prelude.{◌≡◌, MatchOption, IfOk, map};
ghost use Rattle.std.specs.List.{list_all};
ghost use Rattle.zw_calls.specs.Requests.{GivesNoSteps, GivesSteps, IsReading, IsStepCount, are_calls, before_steps, call_of, calls_of, from_steps, is_word, leading_arguments};
ghost use Rattle.std.specs.Option.{SomeIff};
ghost use Rattle.std.specs.Str.Parse.{digits_value};

use crate::words::{is_argument, is_name, is_numeral, is_steps};
use std::alloc::Global;
use zw_base::{Oom, Word, read_number};

/// A call by the name of an export, with the words of its arguments, each `true`, `false` or a decimal number.
#[derive(Clone, Copy, Debug)]
pub struct CallWords<'a> {
    pub name: &'a Word,
    pub arguments: &'a [Word],
}

/// Calls of what stands at a path, and the number of instructions that they may take together, from 1 to 4,000,000,000.
#[derive(Debug, Drop)]
pub struct RequestWords<'a> {
    pub path: &'a Word,
    pub calls: Vec<CallWords<'a>>,
    pub steps: u64,
}

/// The most steps that words may ask for.
const MOST_STEPS: i128 = 4_000_000_000;

/// The number of steps where no words give one.
const DEFAULT_STEPS: u64 = 100_000_000;

/// The request that the words behind a command's first one spell: `PATH CALL.. [--steps N]`. None where they spell none.
pub fn read_request(alloc: Global, words: &[Word]) -> Result<Option<RequestWords<'_>>, Oom>
    ensures { IfOk result (λ read. IsReading words.now read) }
{
    let Some((path, behind)) = words.split_first() else {
        return Ok(None);
    };
    if path.bytes().is_empty() {
        return Ok(None);
    }
    let (calls, behind) = split_steps(behind);
    if !are_calls(calls) {
        return Ok(None);
    }
    let Some(steps) = read_steps(behind) else {
        return Ok(None);
    };
    let calls = read_calls(alloc, calls)?;
    Ok(Some(RequestWords { path, calls, steps }))
}

/// The words before the first `--steps`, and those from it on.
fn split_steps(words: &[Word]) -> (&[Word], &[Word])
    ensures front { result.0.now ≡ before_steps words.now }
    ensures behind { result.1.now ≡ from_steps words.now }
{
    for (at, word) in words.iter().enumerate() {
        if is_steps(word.bytes()) {
            return (&words[..at], &words[at..]);
        }
    }
    (words, &[])
}

/// The number of steps that the words behind the calls give.
fn read_steps(words: &[Word]) -> Option<u64>
    ensures { MatchOption result (GivesNoSteps words.now) (GivesSteps words.now) }
{
    match words {
        [] => Some(DEFAULT_STEPS),
        [mark, number] if is_steps(mark.bytes()) => steps_of(number.bytes()),
        _ => None,
    }
}

/// Whether a name stands first, and only names and arguments behind it.
fn are_calls(words: &[Word]) -> bool
    ensures { result ≡ are_calls words.now }
{
    let Some((name, others)) = words.split_first() else {
        return false;
    };
    if !is_name(name.bytes()) {
        return false;
    }
    are_words(others)
}

fn are_words(words: &[Word]) -> bool
    ensures { result ≡ list_all is_word words.now }
{
    words.iter().all(|word| is_word(word.bytes()))
}

fn is_word(word: &[u8]) -> bool
    ensures { result ≡ is_word word.now }
{
    if is_argument(word) {
        return true;
    }
    is_name(word)
}

/// The number of steps that a word gives.
fn steps_of(number: &[u8]) -> Option<u64>
    ensures { SomeIff result (IsStepCount number.now) (digits_value 10 number.now) }
{
    if !is_numeral(number) {
        return None;
    }
    let steps = read_number(number)?;
    if steps < 1 || MOST_STEPS < steps {
        return None;
    }
    Some(steps as u64)
}

/// The calls that words make.
fn read_calls(alloc: Global, words: &[Word]) -> Result<Vec<CallWords<'_>>, Oom>
    ensures { IfOk result (λ calls. map call_of calls.items ≡ calls_of words.now) }
{
    let mut calls = Vec::new(alloc);
    for (at, name) in words.iter().enumerate() {
        if !is_argument(name.bytes()) {
            let arguments = leading_arguments(&words[at + 1..]);
            calls.push(CallWords { name, arguments })?;
        }
    }
    Ok(calls)
}

/// The arguments that stand in front.
fn leading_arguments(words: &[Word]) -> &[Word]
    ensures { result.now ≡ leading_arguments words.now }
{
    for (at, word) in words.iter().enumerate() {
        if !is_argument(word.bytes()) {
            return &words[..at];
        }
    }
    words
}
