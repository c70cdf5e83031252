// How a call of a function with a body begins: its arguments and its locals (4.4.7.1).
ghost use Rattle.std.specs.Prelude.{◌≡◌, ◌-◌, ◌<◌, ◌≤◌, Some, length, vec_capacity, IfErr, OnOk};
ghost use Rattle.zw_wasm.specs.Functions.{func_type};
ghost use Rattle.zw_wasm_words.specs.Words.{Hold, Holds};
ghost use Rattle.zw_wasm_run.specs.Invocation.{BeginsCall};
ghost use Rattle.zw_wasm_run.specs.Rooms.{BeginsBeyond, KeepsRoom};

use crate::begin::results;
use crate::stacks::Stacks;
use std::alloc::{AllocError, Global};
use zw_wasm::{FuncType, Module, Num};
use zw_wasm_words::{Frame, push_locals};

/// Stacks that hold nothing yet.
pub fn no_stacks(alloc: Global) -> Stacks {
    let frame = Frame {
        body: 0,
        arity: 0,
        at: 0,
        locals: 0,
        operands: 0,
        labels: 0,
    };
    Stacks {
        frame,
        frames: Vec::new(alloc),
        labels: Vec::new(alloc),
        words: Vec::new(alloc),
    }
}

/// The stacks of a call of a function with a body, in place of what they held: its frame lies over the host's.
pub fn begin(
    m: &Module,
    func: usize,
    ty: &FuncType,
    args: &[Num],
    stacks: &mut Stacks,
) -> Result<(), AllocError>
    requires own { length m.now.imports ≤ func }
    requires there { func - length m.now.imports < length m.now.codes }
    requires typed { func_type m.now func ≡ Some ty.now }
    ensures begins { OnOk result (BeginsCall m.now func args.now stacks.new) }
    ensures wants { IfErr result (λ e. BeginsBeyond m.now func args.now stacks.old) }
    ensures room { KeepsRoom stacks.old stacks.new }
{
    let body = func - m.imports.len();
    let code = &m.codes.as_slice()[body];
    stacks.frames.clear();
    stacks.labels.clear();
    push_args(args, &mut stacks.words)?;
    push_locals(code.locals.as_slice(), &mut stacks.words)?;
    stacks.frame = Frame {
        body,
        arity: results(ty.result),
        at: 0,
        locals: 0,
        operands: stacks.words.len(),
        labels: 0,
    };
    Ok(())
}

/// The words of arguments, in place of all others.
pub fn push_args(args: &[Num], words: &mut Vec<u64>) -> Result<(), AllocError>
    ensures held { OnOk result (Hold words.new.items args.now) }
    ensures wants { IfErr result (λ e. vec_capacity words.old < length args.now) }
    ensures room { vec_capacity words.old ≤ vec_capacity words.new }
{
    words.clear();
    for arg in args {
        words.push(word_of(*arg))?;
    }
    Ok(())
}

/// A word that holds a number.
fn word_of(num: Num) -> u64
    ensures { Holds result num }
{
    match num {
        Num::I32(bits) => u64::from(bits),
        Num::I64(bits) => bits,
    }
}
