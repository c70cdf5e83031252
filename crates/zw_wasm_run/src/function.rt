// Calls of functions of a module from outside, imported ones and those with a body (4.5.5).
ghost use Rattle.std.specs.Prelude.{◌≡◌, ◌<◌, Some, length, IfErr, IfOk};
ghost use Rattle.zw_wasm.specs.Functions.{func_type};
ghost use Rattle.zw_wasm.specs.Validity.{IsValid};
ghost use Rattle.zw_wasm_run.specs.Invocation.{Called, MayCall, number_in, outcome_of};
ghost use Rattle.zw_wasm_run.specs.Rooms.{FunctionWants, KeepsRoom};

use crate::ask::{Answer, ask_host};
use crate::code::Code;
use crate::entry::{begin, push_args};
use crate::event::{Event, Outcome};
use crate::invoke::{RunEnd, run};
use crate::machine::Show;
use crate::replies::Replies;
use crate::shown::number;
use crate::stacks::Stacks;
use crate::store::Store;
use std::alloc::AllocError;
use zw_wasm::{FuncType, Module, Num, ValType, func_type};
use zw_wasm_words::{BOUNDS, NO_RULE};

/// Calls a function with arguments of its types. At most so many steps are taken, and what is left of them is told.
pub fn call_function(
    code: &Code,
    shows: &[Show],
    func: u32,
    args: &[Num],
    store: &mut Store,
    stacks: &mut Stacks,
    steps: &mut u64,
    replies: &mut Replies,
    log: &mut Vec<Event>,
) -> Result<Outcome, AllocError>
    requires { MayCall code.now shows.now func args.now (record { store = store.old; stacks = stacks.old; steps = steps.old; host = record { replies = replies.old; log = log.old.items } }) }
    ensures called { IfOk result (λ end. Called code.now shows.now func args.now (record { store = store.old; stacks = stacks.old; steps = steps.old; host = record { replies = replies.old; log = log.old.items } }) end (record { store = store.new; stacks = stacks.new; steps = steps.new; host = record { replies = replies.new; log = log.new.items } })) }
    ensures wants { IfErr result (λ e. FunctionWants code.now func args.now (record { store = store.old; stacks = stacks.old; steps = steps.old; host = record { replies = replies.old; log = log.old.items } })) }
    ensures room { KeepsRoom stacks.old stacks.new }
{
    let module = code.checked().module();
    let Some(ty) = func_type(module, func as usize) else {
        return Ok(Outcome::Trap(NO_RULE));
    };
    if (func as usize) < module.imports.len() {
        return call_import(
            module, ty, shows, func, args, store, stacks, steps, replies, log,
        );
    }
    begin(module, func as usize, ty, args, stacks)?;
    let end = run(code, shows, store, stacks, steps, replies, log)?;
    Ok(outcome(ty, end, stacks.words.as_slice()))
}

/// Calls an imported function, which takes no step.
fn call_import(
    m: &Module,
    ty: &FuncType,
    shows: &[Show],
    func: u32,
    args: &[Num],
    store: &Store,
    stacks: &mut Stacks,
    steps: &u64,
    replies: &mut Replies,
    log: &mut Vec<Event>,
) -> Result<Outcome, AllocError>
    requires may { MayCall m.now shows.now func args.now (record { store = store.now; stacks = stacks.old; steps = steps.now; host = record { replies = replies.old; log = log.old.items } }) }
    requires valid { IsValid m.now }
    requires imported { func < length m.now.imports }
    requires typed { func_type m.now func ≡ Some ty.now }
    ensures called { IfOk result (λ end. Called m.now shows.now func args.now (record { store = store.now; stacks = stacks.old; steps = steps.now; host = record { replies = replies.old; log = log.old.items } }) end (record { store = store.now; stacks = stacks.new; steps = steps.now; host = record { replies = replies.new; log = log.new.items } })) }
    ensures room { KeepsRoom stacks.old stacks.new }
{
    push_args(args, &mut stacks.words)?;
    let memory = store.memory.as_slice();
    let words = stacks.words.as_slice();
    match ask_host(m, ty, shows, func, memory, words, replies, log)? {
        Answer::Goes(reply) => Ok(Outcome::Result(result_of(ty.result, reply))),
        Answer::Outside => Ok(Outcome::Trap(BOUNDS)),
        Answer::NoReply => Ok(Outcome::WantsReply),
    }
}

/// What a call comes to that ended so, with these words.
fn outcome(ty: &FuncType, end: RunEnd, words: &[u64]) -> Outcome
    ensures { result ≡ outcome_of ty.now.result end words.now }
{
    match end {
        RunEnd::Finished => Outcome::Result(result_of(ty.result, words.first().copied())),
        RunEnd::Traps(cause) => Outcome::Trap(cause),
        RunEnd::WantsReply => Outcome::WantsReply,
        RunEnd::StepsOut => Outcome::StepsOut,
    }
}

/// The number of a type that a word holds, where there are both.
fn result_of(ty: Option<ValType>, word: Option<u64>) -> Option<Num>
    ensures { result ≡ number_in ty word }
{
    match (ty, word) {
        (Some(ty), Some(word)) => Some(number(ty, word)),
        _ => None,
    }
}
