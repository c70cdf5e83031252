// How the end of running calls of a module's file is told.
ghost use Rattle.std.specs.Prelude.{◌≡◌, []};
ghost use Rattle.zw_drive.specs.Due.{IsBlamed};
ghost use Rattle.zw_drive.specs.Ends.{code_of};
ghost use Rattle.zw_drive.specs.ExecReports.{ReportsExec, session_status};

use crate::denial::{Denial, denial_line};
use crate::exec::ExecErr;
use crate::lines::{INPUT_FAULT, OUT_FAULT, TREE_FAULT};
use crate::say::say;
use crate::status::Status;
use std::alloc::Global;
use zw_base::{Sink, Word};
use zw_exec::SessionEnd;

/// Says how running calls of this file ended.
pub fn report_exec<D: Sink>(
    alloc: Global,
    file: &Word,
    ended: Result<SessionEnd, ExecErr>,
    diag: &mut D,
) -> Status
    ensures reports { ReportsExec file.now ended (D.taken diag.old) (D.taken diag.new) result }
    ensures blamed { IsBlamed (D.faults diag.old) (D.faults diag.new) (code_of result) 10 [] }
{
    match ended {
        Ok(end) => session_status(end),
        Err(ExecErr::Denied(denial)) => report_denial(alloc, file, denial, diag),
        Err(ExecErr::TreeFault) => say(diag, Status::TreeFault, TREE_FAULT.as_bytes()),
        Err(ExecErr::InputFault) => say(diag, Status::InputFault, INPUT_FAULT.as_bytes()),
        Err(ExecErr::OutFault) => say(diag, Status::OutFault, OUT_FAULT.as_bytes()),
        Err(ExecErr::Oom) => Status::OutOfMemory,
    }
}

/// Says why calls of this file are denied.
fn report_denial<D: Sink>(alloc: Global, file: &Word, denial: Denial, diag: &mut D) -> Status
    ensures reports { ReportsExec file.now (Err (ExecErr.Denied denial)) (D.taken diag.old) (D.taken diag.new) result }
    ensures blamed { IsBlamed (D.faults diag.old) (D.faults diag.new) (code_of result) 10 [] }
{
    match denial_line(alloc, file, &denial) {
        Ok(line) => say(diag, denial.status(), &line),
        Err(_) => Status::OutOfMemory,
    }
}

/// The status of a session that ended so.
fn session_status(end: SessionEnd) -> Status
    ensures { result ≡ session_status end }
{
    match end {
        SessionEnd::Done => Status::Done,
        SessionEnd::Panicked => Status::Panicked,
        SessionEnd::StepsOut => Status::StepsOut,
        SessionEnd::WantsReply => Status::WantsReply,
        SessionEnd::Trapped => Status::Trapped,
    }
}
