// Machines of modules, and calls of their exported functions.
ghost use Rattle.std.specs.Prelude.{◌≡◌, ◌<◌, ◌^◌, true, length, map};
ghost use Rattle.zw_wasm_sound.specs.Rules.{type_of};

use sqlite_items::Items;
use std::alloc::Global;
use zw_base::Oom;
use zw_wasm::{Num, ValType};
use zw_wasm_check::{CheckErr, check};
use zw_wasm_read::{ReadErr, read};
use zw_wasm_run::{Event, Machine, NewErr, Outcome, Replies};

/// More instructions than any call of a row takes that doesn't say how many it may take.
const BOUND: u64 = 1_000_000;

/// A host: what it answers to calls that want a result, how many instructions each call of it may take, and the calls that it saw, in
/// order.
#[derive(Drop)]
pub struct Host {
    pub replies: Replies,
    pub steps: u64,
    pub seen: Vec<Event>,
}

impl Host {
    /// A host without replies, which has seen nothing.
    pub fn new(alloc: Global) -> Host {
        Host {
            replies: Replies::new(Items::new(alloc)),
            steps: BOUND,
            seen: Vec::new(alloc),
        }
    }
}

/// A machine of the module that these bytes spell, whose host is shown numbers alone. There is none where they spell none, or
/// where the module isn't valid, has a start function, or has a segment outside its memory or table.
pub fn machine_of(alloc: Global, bytes: &[u8]) -> Result<Option<Machine>, Oom>
    requires { length bytes.now < 2 ^ 32 }
{
    let module = match read(alloc, bytes) {
        Ok(module) => module,
        Err(ReadErr::Bad { .. }) => return Ok(None),
        Err(ReadErr::Oom) => return Err(Oom),
    };
    let checked = match check(alloc, module) {
        Ok(checked) => checked,
        Err(CheckErr::Oom) => return Err(Oom),
        Err(_) => return Ok(None),
    };
    if checked.module().start.is_some() {
        return Ok(None);
    }
    match Machine::new(alloc, checked, Items::new(alloc)) {
        Ok(machine) => Ok(Some(machine)),
        Err(NewErr::Oom) => Err(Oom),
        Err(_) => Ok(None),
    }
}

/// How a call of an exported function ends. There is none where no function has the name, or it takes other arguments.
pub fn call(
    machine: &mut Machine,
    name: &[u8],
    args: &[Num],
    host: &mut Host,
) -> Result<Option<Outcome>, Oom> {
    let Some(export) = machine.export(name) else {
        return Ok(None);
    };
    if !are_of(args, machine.export_type(export).params.as_slice()) {
        return Ok(None);
    }
    let mut steps = host.steps;
    let end = machine.call(export, args, &mut host.replies, &mut steps, &mut host.seen)?;
    Ok(Some(end))
}

/// Whether these are as many numbers as types, each of its type.
fn are_of(numbers: &[Num], types: &[ValType]) -> bool
    ensures { result ≡ true → map type_of numbers.now ≡ types.now }
{
    if numbers.len() != types.len() {
        return false;
    }
    for place in 0..numbers.len() {
        if !is_of(numbers[place], types[place]) {
            return false;
        }
    }
    true
}

/// Whether a number is of a type.
fn is_of(number: Num, ty: ValType) -> bool
    ensures { result ≡ true → type_of number ≡ ty }
{
    match (number, ty) {
        (Num::I32(_), ValType::I32) => true,
        (Num::I64(_), ValType::I64) => true,
        _ => false,
    }
}

/// The cause of a panic that the state of a machine tells, where it has no message.
pub fn panic_cause(machine: &Machine) -> Option<u32> {
    match machine.panic_state() {
        Some((cause, 0, 0)) => Some(cause),
        _ => None,
    }
}
