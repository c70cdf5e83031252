// What is found out before the input is read: a machine of the module, and the calls of its session.
ghost use Rattle.std.specs.Prelude.{◌≡◌, [], ◌∷◌, ◌++◌, true, None, OnOk, map};
ghost use Rattle.std.specs.List.{list_all};
ghost use Rattle.zw_calls.specs.Requests.{call_of, is_call};
ghost use Rattle.zw_drive.specs.ExecEnds.{CallEnds, CallsAreFound, IsNamedDenial, PreparationEnds};
ghost use Rattle.zw_wasm_run.specs.Machines.{IsNew};

use crate::denial::Denial;
use crate::exec::ExecErr;
use sqlite_items::Items;
use std::alloc::Global;
use zw_base::{Oom, Word};
use zw_calls::{CallWords, read_arguments};
use zw_exec::SessionCall;
use zw_wasm_check::Checked;
use zw_wasm_run::{Machine, NewErr};

/// A machine of a module, and the calls of its session.
#[derive(Drop)]
pub struct Prepared {
    pub machine: Machine,
    pub calls: Vec<SessionCall>,
}

/// Prepares calls of a valid module: its start function, its segments and then the calls in order are looked at.
pub fn prepare(alloc: Global, m: Checked, calls: &[CallWords<'_>]) -> Result<Prepared, ExecErr>
    requires { list_all is_call (map call_of calls.now) ≡ true }
    ensures { PreparationEnds m (map call_of calls.now) result }
{
    if m.module().start.is_some() {
        return Err(ExecErr::Denied(Denial::Start));
    }
    match Machine::new(alloc, m, Items::new(alloc)) {
        Ok(machine) => prepare_calls(alloc, machine, calls),
        Err(NewErr::OutOfRangeSegment(number)) => Err(ExecErr::Denied(Denial::Segment(number))),
        Err(NewErr::Oom) => Err(ExecErr::Oom),
    }
}

/// Prepares calls of a machine that was made of a module without a start function.
fn prepare_calls(
    alloc: Global,
    machine: Machine,
    calls: &[CallWords<'_>],
) -> Result<Prepared, ExecErr>
    requires start { machine.code.start ≡ None }
    requires begins { IsNew machine.code [] machine }
    requires words { list_all is_call (map call_of calls.now) ≡ true }
    ensures { PreparationEnds machine.code (map call_of calls.now) result }
{
    match session_calls(alloc, &machine, calls) {
        Ok(calls) => Ok(Prepared { machine, calls }),
        Err(e) => Err(e),
    }
}

/// The calls of a session, or what is wrong with the first that isn't one.
fn session_calls(
    alloc: Global,
    machine: &Machine,
    calls: &[CallWords<'_>],
) -> Result<Vec<SessionCall>, ExecErr>
    requires { list_all is_call (map call_of calls.now) ≡ true }
    ensures { CallsAreFound machine.now.code (map call_of calls.now) result }
{
    let mut found = Vec::new(alloc);
    for call in calls {
        match session_call(alloc, machine, call) {
            Ok(c) => add(&mut found, c)?,
            Err(e) => return Err(e),
        }
    }
    Ok(found)
}

/// Adds a call behind others.
fn add(found: &mut Vec<SessionCall>, call: SessionCall) -> Result<(), Oom>
    ensures { OnOk result (found.new.items ≡ found.old.items ++ call ∷ []) }
{
    found.push(call)?;
    Ok(())
}

/// A call of a session, or what is wrong with it.
fn session_call(
    alloc: Global,
    machine: &Machine,
    call: &CallWords<'_>,
) -> Result<SessionCall, ExecErr>
    requires { is_call (call_of call.now) ≡ true }
    ensures { CallEnds machine.now.code (call_of call.now) result }
{
    let Some(func) = machine.export(call.name.bytes()) else {
        return Err(no_export(alloc, call.name));
    };
    let types = machine.export_type(func).params.as_slice();
    let Some(arguments) = read_arguments(alloc, call.arguments, types)? else {
        return Err(bad_arguments(alloc, call.name));
    };
    Ok(SessionCall {
        name: Word::copy(alloc, call.name.bytes())?,
        func,
        args: arguments.values,
        nums: arguments.numbers,
    })
}

/// That no function is exported under this name.
fn no_export(alloc: Global, name: &Word) -> ExecErr
    ensures { IsNamedDenial (λ n. Denial.NoExport n) name.now result }
{
    match Word::copy(alloc, name.bytes()) {
        Ok(name) => ExecErr::Denied(Denial::NoExport(name)),
        Err(Oom) => ExecErr::Oom,
    }
}

/// That the arguments of a call of this name don't fit.
fn bad_arguments(alloc: Global, name: &Word) -> ExecErr
    ensures { IsNamedDenial (λ n. Denial.BadArguments n) name.now result }
{
    match Word::copy(alloc, name.bytes()) {
        Ok(name) => ExecErr::Denied(Denial::BadArguments(name)),
        Err(Oom) => ExecErr::Oom,
    }
}
