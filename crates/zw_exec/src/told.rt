// How a call is told: its lines, and what its outcome is called.
ghost use Rattle.std.specs.Prelude.{◌≡◌, ◌++◌, [], IfOk, OnOk};
ghost use Rattle.std.specs.List.{AllByRecursion, flat_map};
ghost use Rattle.zw_exec.specs.Ends.{outcome_end, returned, session_end, trapped};
ghost use Rattle.zw_exec.specs.Hosts.{event_text};
ghost use Rattle.zw_exec.specs.Runs.{CallTold, IsIdle, state_of};
ghost use Rattle.zw_exec.specs.Sessions.{IsCallOf};
ghost use Rattle.zw_report.specs.Lines.{HasLine, call_line, end_line};
ghost use Rattle.zw_wasm_run.specs.Hosting.{IsShownCall};
ghost use Rattle.zw_wasm_run.specs.Machines.{store_of};

use crate::call::SessionCall;
use crate::end::SessionEnd;
use crate::host::host_line;
use sqlite_items::Items;
use std::alloc::Global;
use zw_base::Oom;
use zw_report::{End, ItemTy, call_line, end_line};
use zw_wasm::{Module, Num};
use zw_wasm_run::{Event, Machine, Outcome, Replies};

/// The cause of a panic that has a message, and the last cause.
const MESSAGE: u32 = 18;

const LAST: u32 = 19;

/// The lines of a call, and how a session ends whose last call it is.
#[derive(Drop)]
pub struct CallLines {
    pub text: Vec<u8>,
    pub end: SessionEnd,
}

/// Makes a call of a machine that goes on and shows no bytes.
pub fn call_lines(
    alloc: Global,
    machine: &mut Machine,
    call: &SessionCall,
    replies: &mut Replies,
    steps: &mut u64,
) -> Result<CallLines, Oom>
    requires idle { IsIdle machine.old }
    requires exported { IsCallOf machine.old.code call.now }
    ensures { IfOk result (λ told. CallTold machine.old call.now (state_of machine.old replies.old steps.old) told machine.new replies.new steps.new) }
{
    let mut log = Vec::new(alloc);
    let outcome = machine.call(call.func, call.nums.as_slice(), replies, steps, &mut log)?;
    let end = outcome_end(alloc, machine, outcome)?;
    let text = call_text(alloc, machine.module(), call, log.as_slice(), &end)?;
    let end = session_end(&end);
    Ok(CallLines { text, end })
}

/// How the end of a call is told.
fn outcome_end(alloc: Global, machine: &Machine, outcome: Outcome) -> Result<End, Oom>
    ensures value { IfOk result (λ end. end ≡ outcome_end machine.now.code (store_of machine.now) outcome) }
    ensures line { IfOk result HasLine }
{
    match outcome {
        Outcome::Result(number) => Ok(returned(number)),
        Outcome::WantsReply => Ok(End::WantsReply),
        Outcome::StepsOut => Ok(End::StepsOut),
        Outcome::Trap(_) | Outcome::Over => trapped(alloc, machine),
    }
}

/// A result: a number, or nothing.
fn returned(number: Option<Num>) -> End
    ensures value { result ≡ returned number }
    ensures line { HasLine result }
{
    let ty = match number {
        None => ItemTy::Void,
        Some(Num::I32(_)) => ItemTy::Int {
            signed: true,
            bits: 32,
        },
        Some(Num::I64(_)) => ItemTy::Int {
            signed: true,
            bits: 64,
        },
    };
    End::Result { ty, num: number }
}

/// A trap: a panic where the three numbers are there, with a cause that there is, and for a message with its bytes.
fn trapped(alloc: Global, machine: &Machine) -> Result<End, Oom>
    ensures value { IfOk result (λ end. end ≡ trapped machine.now.code (store_of machine.now)) }
    ensures line { IfOk result HasLine }
{
    let Some((cause, place, count)) = machine.panic_state() else {
        return Ok(End::Trap);
    };
    if cause == MESSAGE {
        let Some(bytes) = machine.bytes(place, count) else {
            return Ok(End::Trap);
        };
        return Ok(End::Panic {
            cause: 18,
            message: Items::from_slice(alloc, bytes)?,
        });
    }
    if cause < 1 || LAST < cause {
        return Ok(End::Trap);
    }
    Ok(End::Panic {
        cause: cause as u8,
        message: Items::new(alloc),
    })
}

/// How a session ends whose last call ended so.
fn session_end(end: &End) -> SessionEnd
    ensures { result ≡ session_end end.now }
{
    match end {
        End::Result { .. } => SessionEnd::Done,
        End::Panic { .. } => SessionEnd::Panicked,
        End::WantsReply => SessionEnd::WantsReply,
        End::StepsOut => SessionEnd::StepsOut,
        End::Trap => SessionEnd::Trapped,
    }
}

/// The lines of a call: what it was given, its host calls, and its end.
fn call_text(
    alloc: Global,
    m: &Module,
    call: &SessionCall,
    events: &[Event],
    end: &End,
) -> Result<Vec<u8>, Oom>
    requires shown { AllByRecursion (IsShownCall m.now []) events.now }
    requires line { HasLine end.now }
    ensures { IfOk result (λ text. text.items ≡ call_line call.now.name call.now.args ++ flat_map (event_text m.now) events.now ++ end_line end.now) }
{
    let mut text = call_line(alloc, &call.name, call.args.as_slice())?;
    push_events(alloc, m, events, &mut text)?;
    text.extend_from_slice(&end_line(alloc, end)?)?;
    Ok(text)
}

fn push_events(alloc: Global, m: &Module, events: &[Event], text: &mut Vec<u8>) -> Result<(), Oom>
    requires { AllByRecursion (IsShownCall m.now []) events.now }
    ensures { OnOk result (text.new.items ≡ text.old.items ++ flat_map (event_text m.now) events.now) }
{
    for event in events {
        text.extend_from_slice(&host_line(alloc, m, event)?)?;
    }
    Ok(())
}
