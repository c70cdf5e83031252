// What a host is shown of a call, and what it answers (4.4.7.3).
ghost use Rattle.std.specs.Prelude.{◌≡◌, ◌<◌, length, Some, IfOk};
ghost use Rattle.zw_wasm.specs.Functions.{func_type};
ghost use Rattle.zw_wasm_run.specs.Hosting.{AsksHost, numbers_held};
ghost use Rattle.zw_wasm_run.specs.Machines.{AreShows};

use crate::event::Event;
use crate::machine::Show;
use crate::replies::Replies;
use crate::shown::event_of;
use std::alloc::AllocError;
use zw_wasm::{FuncType, Module};

/// What a host answers to a call.
#[derive(Clone, Copy, Debug, PartialEq, Eq)]
pub enum Answer {
    /// It goes on, with a reply where the function has a result.
    Goes(Option<u64>),
    /// Bytes that it is to be shown lie outside the memory.
    Outside,
    /// The function has a result, and no reply is left.
    NoReply,
}

/// A call of an imported function of this type with arguments of these words. Its event is logged, unless it shows bytes outside the
/// memory; the next reply is its result, where it has one.
pub fn ask_host(
    m: &Module,
    ty: &FuncType,
    shows: &[Show],
    import: u32,
    memory: &[u8],
    words: &[u64],
    replies: &mut Replies,
    log: &mut Vec<Event>,
) -> Result<Answer, AllocError>
    requires imported { import < length m.now.imports }
    requires typed { func_type m.now import ≡ Some ty.now }
    requires count { length words.now ≡ length ty.now.params }
    requires shown { AreShows m.now shows.now }
    ensures { IfOk result (λ a. AsksHost m.now shows.now import ty.now memory.now (numbers_held ty.now.params words.now) (record { replies = replies.old; log = log.old.items }) a (record { replies = replies.new; log = log.new.items })) }
{
    let alloc = *log.allocator();
    let params = ty.params.as_slice();
    let Some(event) = event_of(alloc, params, shows, import, memory, words)? else {
        return Ok(Answer::Outside);
    };
    log.push(event)?;
    if ty.result.is_none() {
        return Ok(Answer::Goes(None));
    }
    match replies.take() {
        Some(reply) => Ok(Answer::Goes(Some(reply))),
        None => Ok(Answer::NoReply),
    }
}
