// A call that runs, with its calls of the host.
ghost use Rattle.std.specs.Prelude.{IfErr, IfOk};
ghost use Rattle.zw_wasm_run.specs.Invocation.{IsReady, RunsSo};
ghost use Rattle.zw_wasm_run.specs.Machines.{AreShows};
ghost use Rattle.zw_wasm_run.specs.Rooms.{CallWants, KeepsRoom};

use crate::code::Code;
use crate::event::Event;
use crate::host::{Hosted, call_host};
use crate::machine::Show;
use crate::pause::Pause;
use crate::replies::Replies;
use crate::run::go_on;
use crate::stacks::Stacks;
use crate::store::Store;
use std::alloc::AllocError;

/// How a call that runs ends.
#[derive(Clone, Copy, Debug, PartialEq, Eq)]
pub enum RunEnd {
    /// It returned. The words are its results.
    Finished,
    /// A trap, by its cause.
    Traps(u8),
    /// A function of the host has a result, and no reply is left.
    WantsReply,
    /// Another instruction is due, and no step is left.
    StepsOut,
}

/// Takes instructions, and calls the host, until the call ends or no step is left.
pub fn run(
    code: &Code,
    shows: &[Show],
    store: &mut Store,
    stacks: &mut Stacks,
    steps: &mut u64,
    replies: &mut Replies,
    log: &mut Vec<Event>,
) -> Result<RunEnd, AllocError>
    requires shown { AreShows code.now shows.now }
    requires ready { IsReady code.now shows.now (record { store = store.old; stacks = stacks.old; steps = steps.old; host = record { replies = replies.old; log = log.old.items } }) }
    ensures runs { IfOk result (λ e. RunsSo code.now shows.now (record { store = store.old; stacks = stacks.old; steps = steps.old; host = record { replies = replies.old; log = log.old.items } }) e (record { store = store.new; stacks = stacks.new; steps = steps.new; host = record { replies = replies.new; log = log.new.items } })) }
    ensures wants { IfErr result (λ e. CallWants code.now shows.now (record { store = store.old; stacks = stacks.old; steps = steps.old; host = record { replies = replies.old; log = log.old.items } })) }
    ensures room { KeepsRoom stacks.old stacks.new }
{
    'calls: loop {
        let import = match go_on(code, store, stacks, steps)? {
            Pause::Over => return Ok(RunEnd::Finished),
            Pause::StepsOut => return Ok(RunEnd::StepsOut),
            Pause::Traps(cause) => return Ok(RunEnd::Traps(cause)),
            Pause::Calls(import) => import,
        };
        let memory = store.memory.as_slice();
        match call_host(code.module(), shows, import, memory, stacks, replies, log)? {
            Hosted::Goes => {}
            Hosted::Traps(cause) => return Ok(RunEnd::Traps(cause)),
            Hosted::WantsReply => return Ok(RunEnd::WantsReply),
        }
    }
}
