// The command that runs calls of a module's file.
ghost use Rattle.std.specs.Prelude.{◌≡◌, ◌≤◌, true, false, length};
ghost use Rattle.std.specs.List.{list_all};
ghost use Rattle.zw_base.specs.Faults.{Counts};
ghost use Rattle.zw_calls.specs.Requests.{is_call, request_of};
ghost use Rattle.zw_drive.specs.Exec.{told_of};
ghost use Rattle.zw_drive.specs.ExecEnds.{BytesEnd, CallsEnd, InputEnds, IsPrepared, ModuleEnds, Runs, RunsFile, WritesSession, input_fault, judged_end, out_fault, tree_fault};

use crate::denial::Denial;
use crate::prepare::{Prepared, prepare};
use crate::validate::{MODULE_LIMIT, ValidateErr, judge, load};
use sqlite_items::Items;
use std::alloc::Global;
use thiserror::Error;
use zw_base::{Oom, PutErr, Sink, Source, Tree};
use zw_calls::{InputErr, ReplyErr, RequestWords, read_input, read_replies};
use zw_exec::{SessionEnd, run_session};
use zw_wasm_check::Checked;
use zw_wasm_run::Replies;

/// Why calls weren't run, or not all of their text was written.
#[derive(Debug, Drop, Error)]
pub enum ExecErr {
    #[error("the calls are denied")]
    Denied(Denial),
    #[error("the tree failed")]
    TreeFault,
    #[error("the input failed")]
    InputFault,
    #[error("the output failed")]
    OutFault,
    #[error("out of memory")]
    Oom,
}

impl From<Oom> for ExecErr {
    ghost use Rattle.std.specs.Prelude.{◌≡◌};
    ghost use Rattle.zw_drive.specs.declared.exec.ExecErr.TheVariants as exec;

    ghost from_gives = { λ _ e. e ≡ exec.Oom };

    fn from(_: Oom) -> ExecErr {
        ExecErr::Oom
    }
}

/// Loads the file of a request, runs its calls, and writes the text of their session to `out`. The whole input is read before they
/// run.
pub fn exec<T: Tree, S: Source, O: Sink>(
    alloc: Global,
    request: &RequestWords<'_>,
    tree: &mut T,
    input: &mut S,
    out: &mut O,
) -> Result<SessionEnd, ExecErr>
    requires { list_all is_call (request_of request.now).calls ≡ true }
    ensures ends { RunsFile (request_of request.now) (T.loaded tree.old) (T.loaded tree.new) (S.left input.old) (S.left input.new) (O.taken out.old) (O.taken out.new) result }
    ensures tree_cause { Counts (T.faults tree.old) (T.faults tree.new) (tree_fault result) }
    ensures input_cause { Counts (S.faults input.old) (S.faults input.new) (input_fault result) }
    ensures out_cause { Counts (O.faults out.old) (O.faults out.new) (out_fault result) }
{
    match load(alloc, request.path, tree) {
        Ok(bytes) => exec_bytes(alloc, request, &bytes, input, out),
        Err(e) => Err(judged_end(e)),
    }
}

/// How running calls ends where the file isn't there, or isn't valid.
fn judged_end(e: ValidateErr) -> ExecErr
    ensures { result ≡ judged_end e }
{
    match e {
        ValidateErr::Refused(refusal) => ExecErr::Denied(Denial::File(refusal)),
        ValidateErr::TreeFault => ExecErr::TreeFault,
        ValidateErr::OutFault => ExecErr::OutFault,
        ValidateErr::Oom => ExecErr::Oom,
    }
}

/// Runs calls of the module that bytes spell.
fn exec_bytes<S: Source, O: Sink>(
    alloc: Global,
    request: &RequestWords<'_>,
    bytes: &[u8],
    input: &mut S,
    out: &mut O,
) -> Result<SessionEnd, ExecErr>
    requires fits { length bytes.now ≤ MODULE_LIMIT }
    requires words { list_all is_call (request_of request.now).calls ≡ true }
    ensures ends { Runs (BytesEnd (request_of request.now) bytes.now result) (S.left input.old) (S.left input.new) (O.taken out.old) (O.taken out.new) }
    ensures no_tree_fault { tree_fault result ≡ false }
    ensures input_cause { Counts (S.faults input.old) (S.faults input.new) (input_fault result) }
    ensures out_cause { Counts (O.faults out.old) (O.faults out.new) (out_fault result) }
{
    match judge(alloc, bytes) {
        Ok(m) => exec_module(alloc, request, m, input, out),
        Err(e) => Err(judged_end(e)),
    }
}

/// Runs calls of a valid module.
fn exec_module<S: Source, O: Sink>(
    alloc: Global,
    request: &RequestWords<'_>,
    m: Checked,
    input: &mut S,
    out: &mut O,
) -> Result<SessionEnd, ExecErr>
    requires { list_all is_call (request_of request.now).calls ≡ true }
    ensures ends { Runs (ModuleEnds m (request_of request.now) result) (S.left input.old) (S.left input.new) (O.taken out.old) (O.taken out.new) }
    ensures no_tree_fault { tree_fault result ≡ false }
    ensures input_cause { Counts (S.faults input.old) (S.faults input.new) (input_fault result) }
    ensures out_cause { Counts (O.faults out.old) (O.faults out.new) (out_fault result) }
{
    match prepare(alloc, m, request.calls.as_slice()) {
        Ok(prepared) => exec_prepared(alloc, request, prepared, input, out),
        Err(e) => Err(e),
    }
}

/// Reads the input, and runs calls that were prepared.
fn exec_prepared<S: Source, O: Sink>(
    alloc: Global,
    request: &RequestWords<'_>,
    prepared: Prepared,
    input: &mut S,
    out: &mut O,
) -> Result<SessionEnd, ExecErr>
    requires { IsPrepared prepared.machine.code (request_of request.now).calls prepared }
    ensures ends { Runs (CallsEnd prepared.machine.code (request_of request.now) prepared.calls.items result) (S.left input.old) (S.left input.new) (O.taken out.old) (O.taken out.new) }
    ensures no_tree_fault { tree_fault result ≡ false }
    ensures input_cause { Counts (S.faults input.old) (S.faults input.new) (input_fault result) }
    ensures out_cause { Counts (O.faults out.old) (O.faults out.new) (out_fault result) }
{
    match read_input(alloc, input) {
        Ok(bytes) => exec_input(alloc, request, prepared, &bytes, out),
        Err(InputErr::Failed) => Err(ExecErr::InputFault),
        Err(InputErr::Oom) => Err(ExecErr::Oom),
    }
}

/// Runs calls with the replies that the input's bytes give.
fn exec_input<O: Sink>(
    alloc: Global,
    request: &RequestWords<'_>,
    prepared: Prepared,
    bytes: &[u8],
    out: &mut O,
) -> Result<SessionEnd, ExecErr>
    requires { IsPrepared prepared.machine.code (request_of request.now).calls prepared }
    ensures ends { InputEnds prepared.machine.code (request_of request.now) prepared.calls.items bytes.now (O.taken out.old) (O.taken out.new) result }
    ensures no_tree_fault { tree_fault result ≡ false }
    ensures no_input_fault { input_fault result ≡ false }
    ensures out_cause { Counts (O.faults out.old) (O.faults out.new) (out_fault result) }
{
    match read_replies(alloc, bytes) {
        Ok(replies) => run(alloc, request, prepared, replies, out),
        Err(ReplyErr::BadLine(line)) => Err(ExecErr::Denied(Denial::BadReply(line))),
        Err(ReplyErr::TooLong) => Err(ExecErr::Denied(Denial::InputTooLong)),
        Err(ReplyErr::Oom) => Err(ExecErr::Oom),
    }
}

/// Runs calls with these replies.
fn run<O: Sink>(
    alloc: Global,
    request: &RequestWords<'_>,
    prepared: Prepared,
    replies: Items<u64>,
    out: &mut O,
) -> Result<SessionEnd, ExecErr>
    requires { IsPrepared prepared.machine.code (request_of request.now).calls prepared }
    ensures ends { WritesSession (told_of prepared.machine.code (request_of request.now) prepared.calls.items replies) (O.taken out.old) (O.taken out.new) result }
    ensures no_tree_fault { tree_fault result ≡ false }
    ensures no_input_fault { input_fault result ≡ false }
    ensures out_cause { Counts (O.faults out.old) (O.faults out.new) (out_fault result) }
{
    let Prepared { mut machine, calls } = prepared;
    let mut replies = Replies::new(replies);
    let mut steps = request.steps;
    let ended = run_session(
        alloc,
        &mut machine,
        calls.as_slice(),
        &mut replies,
        &mut steps,
        out,
    );
    match ended {
        Ok(end) => Ok(end),
        Err(PutErr::Failed) => Err(ExecErr::OutFault),
        Err(PutErr::Oom) => Err(ExecErr::Oom),
    }
}
