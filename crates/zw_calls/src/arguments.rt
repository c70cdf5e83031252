// The arguments of a call: what their words stand for, and the numbers that they are by type.
ghost use Rattle.std.specs.Prelude.{◌≡◌, true, FitsSigned, IfOk};
ghost use Rattle.std.specs.Int.{w128};
ghost use Rattle.std.specs.List.{list_all};
ghost use Rattle.std.specs.Option.{SomeIff};
ghost use Rattle.zw_calls.specs.Arguments.{AreArguments, IsTaken, argument_of, number_of, typed};
ghost use Rattle.zw_calls.specs.Words.{is_argument};

use crate::modulo::{narrow, wide};
use sqlite_items::Items;
use std::alloc::Global;
use zw_base::{Oom, Word, read_number};
use zw_report::Arg;
use zw_wasm::{Num, ValType};

/// The arguments of a call: what their words stand for, and the numbers that the call is given.
#[derive(Debug, Drop)]
pub struct Arguments {
    pub values: Items<Arg>,
    pub numbers: Items<Num>,
}

/// The arguments that words are by the types of the parameters. None where there isn't one word for each type, or a type doesn't take
/// its word's number: an `i32` takes -2^31 to 2^32 - 1, and an `i64` -2^63 to 2^64 - 1, where `true` is 1 and `false` is 0.
pub fn read_arguments(
    alloc: Global,
    words: &[Word],
    types: &[ValType],
) -> Result<Option<Arguments>, Oom>
    requires { list_all is_argument words.now ≡ true }
    ensures { IfOk result (λ read. AreArguments types.now words.now read) }
{
    let mut values = Items::new(alloc);
    let mut numbers = Items::new(alloc);
    let mut left = words;
    for ty in types {
        let Some((word, others)) = left.split_first() else {
            return Ok(None);
        };
        let Some(value) = read_argument(word.bytes()) else {
            return Ok(None);
        };
        let Some(number) = typed(*ty, number_of(value)) else {
            return Ok(None);
        };
        values.push(value)?;
        numbers.push(number)?;
        left = others;
    }
    if !left.is_empty() {
        return Ok(None);
    }
    Ok(Some(Arguments { values, numbers }))
}

/// What an argument's word stands for. None where its number doesn't fit in 128 bits with a sign.
fn read_argument(word: &[u8]) -> Option<Arg>
    requires { is_argument word.now ≡ true }
    ensures { SomeIff result (FitsSigned w128 (number_of (argument_of word.now))) (argument_of word.now) }
{
    if word == b"true".as_slice() {
        return Some(Arg::Truth(true));
    }
    if word == b"false".as_slice() {
        return Some(Arg::Truth(false));
    }
    match read_number(word) {
        Some(number) => Some(Arg::Number(number)),
        None => None,
    }
}

/// The number that an argument is.
fn number_of(argument: Arg) -> i128
    ensures { result ≡ number_of argument }
{
    match argument {
        Arg::Number(number) => number,
        Arg::Truth(true) => 1,
        Arg::Truth(false) => 0,
    }
}

/// The number of a type, where the type takes it.
fn typed(ty: ValType, number: i128) -> Option<Num>
    ensures { SomeIff result (IsTaken ty number) (typed ty number) }
{
    match ty {
        ValType::I32 => match narrow(number) {
            Some(bits) => Some(Num::I32(bits)),
            None => None,
        },
        ValType::I64 => match wide(number) {
            Some(bits) => Some(Num::I64(bits)),
            None => None,
        },
    }
}
