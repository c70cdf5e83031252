// The run of a session.
ghost use Rattle.std.specs.List.{AllByRecursion};
ghost use Rattle.zw_base.specs.Faults.{Counts};
ghost use Rattle.zw_base.specs.Outside.{failed};
ghost use Rattle.zw_exec.specs.Runs.{IsIdle, state_of};
ghost use Rattle.zw_exec.specs.Sessions.{IsCallOf, Writes, session};

use crate::call::SessionCall;
use crate::end::SessionEnd;
use crate::told::call_lines;
use std::alloc::Global;
use zw_base::{PutErr, Sink, put_all};
use zw_wasm_run::{Machine, Replies};

/// Runs calls of a machine that shows no bytes, up to the first that doesn't return, and writes their lines to `out`, those of a
/// call when it has ended. Where `out` fails, or memory is wanted, it has taken a front of the session's text.
pub fn run_session<O: Sink>(
    alloc: Global,
    machine: &mut Machine,
    calls: &[SessionCall],
    replies: &mut Replies,
    steps: &mut u64,
    out: &mut O,
) -> Result<SessionEnd, PutErr>
    requires idle { IsIdle machine.old }
    requires calls { AllByRecursion (IsCallOf machine.old.code) calls.now }
    ensures ends { Writes (session machine.old.code calls.now (state_of machine.old replies.old steps.old)) (O.taken out.old) (O.taken out.new) result }
    ensures cause { Counts (O.faults out.old) (O.faults out.new) (failed result) }
{
    for call in calls {
        let told = call_lines(alloc, machine, call, replies, steps)?;
        put_all(out, &told.text)?;
        if told.end != SessionEnd::Done {
            return Ok(told.end);
        }
    }
    Ok(SessionEnd::Done)
}
