// Calls of functions of the host, on the stacks of a call (4.4.7.3).
ghost use Rattle.std.specs.Prelude.{◌<◌, length, IfOk};
ghost use Rattle.zw_wasm_run.specs.Hosting.{CallsHostOn};
ghost use Rattle.zw_wasm_run.specs.Machines.{AreShows};
ghost use Rattle.zw_wasm_run.specs.Rooms.{KeepsRoom};

use crate::ask::{Answer, ask_host};
use crate::event::Event;
use crate::machine::Show;
use crate::replies::Replies;
use crate::stacks::Stacks;
use std::alloc::AllocError;
use zw_wasm::{Module, func_type};
use zw_wasm_words::{BOUNDS, NO_RULE};

/// What a call of a function of the host comes to.
#[derive(Clone, Copy, Debug, PartialEq, Eq)]
pub enum Hosted {
    /// The code goes on.
    Goes,
    /// A trap, by its cause.
    Traps(u8),
    /// It has a result, and no reply is left.
    WantsReply,
}

/// A call of an imported function takes its arguments from the operands, and leaves its result there.
pub fn call_host(
    m: &Module,
    shows: &[Show],
    import: u32,
    memory: &[u8],
    stacks: &mut Stacks,
    replies: &mut Replies,
    log: &mut Vec<Event>,
) -> Result<Hosted, AllocError>
    requires imported { import < length m.now.imports }
    requires shown { AreShows m.now shows.now }
    ensures calls { IfOk result (λ e. CallsHostOn m.now shows.now import memory.now stacks.old (record { replies = replies.old; log = log.old.items }) e stacks.new (record { replies = replies.new; log = log.new.items })) }
    ensures room { KeepsRoom stacks.old stacks.new }
{
    let Some(ty) = func_type(m, import as usize) else {
        return Ok(Hosted::Traps(NO_RULE));
    };
    if stacks.words.len() < ty.params.len() {
        return Ok(Hosted::Traps(NO_RULE));
    }
    let first = stacks.words.len() - ty.params.len();
    let args = &stacks.words.as_slice()[first..];
    match ask_host(m, ty, shows, import, memory, args, replies, log)? {
        Answer::Goes(reply) => {
            stacks.words.truncate(first);
            if let Some(reply) = reply {
                stacks.words.push(reply)?;
            }
            Ok(Hosted::Goes)
        }
        Answer::Outside => Ok(Hosted::Traps(BOUNDS)),
        Answer::NoReply => Ok(Hosted::WantsReply),
    }
}
