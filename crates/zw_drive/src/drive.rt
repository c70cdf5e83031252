// The call that the program makes.
ghost use Rattle.std.specs.Prelude.{◌≡◌, [], ◌∷◌};
ghost use Rattle.std.specs.Io.KnownBytes.{IsAtEnd};
ghost use Rattle.zw_calls.specs.Requests.{Request};
ghost use Rattle.zw_drive.specs.Commands.{AsksExec};
ghost use Rattle.zw_drive.specs.Due.{RanSession, Serves, IsBlamed};
ghost use Rattle.zw_drive.specs.Ends.{code_of, Reports, HasNamedStop};

use crate::build::{BuildErr, build, check};
use crate::command::{Command, read_command};
use crate::exec::exec;
use crate::lines::{OUT_FAULT, TREE_FAULT, USAGE};
use crate::report::report_exec;
use crate::say::say;
use crate::status::Status;
use crate::validate::{report_validated, validate};
use std::alloc::Global;
use zw_base::{Sink, Source, Tree, Word};
use zw_report::stop_line;

/// Does what the words of a command line ask for, and answers the status: 0 where the tree passed or all was written, 1 where the
/// tree of files has a stop or the module's file is absent or too long, 2 where the words are no command, a called export isn't there,
/// its arguments don't fit, a line of the input is no reply or the input is too long, 3 where the session panicked, 4 where it took all its
/// steps, 5 where it wanted a reply and none was left, 6 where the file is no valid module or can't run, 7, 8, 9 and 10 for a fault of
/// `tree`, `input`, `out` and `diag`, 11 for want of memory, and 12 where the session trapped. Only `exec` reads `input`.
pub fn zig<T: Tree, S: Source, O: Sink, D: Sink>(
    alloc: Global,
    words: &[Word],
    tree: &mut T,
    input: &mut S,
    out: &mut O,
    diag: &mut D,
) -> u8
    // What was due is done: files, input, bytes, line and status.
    ensures serves { Serves words.now (T.loaded tree.old) (T.loaded tree.new) (S.left input.old) (S.left input.new) (O.taken out.old) (O.taken out.new) (D.taken diag.old) (D.taken diag.new) result }

    // A session that was run to its end had the whole input.
    ensures read { RanSession words.now result → IsAtEnd (S.left input.new) }

    // A fault's status comes only where its object failed, and no failure passes without one.
    ensures tree_blamed { IsBlamed (T.faults tree.old) (T.faults tree.new) result 7 (10 ∷ 11 ∷ []) }
    ensures input_blamed { IsBlamed (S.faults input.old) (S.faults input.new) result 8 (10 ∷ 11 ∷ []) }
    ensures out_blamed { IsBlamed (O.faults out.old) (O.faults out.new) result 9 (10 ∷ 11 ∷ []) }
    ensures diag_blamed { IsBlamed (D.faults diag.old) (D.faults diag.new) result 10 [] }

    // No other command reads the input.
    ensures input { ((request : Request) → AsksExec words.now request → ⊥) → input.new ≡ input.old }
{
    serve(alloc, words, tree, input, out, diag).number()
}

/// Does what the words ask for.
fn serve<T: Tree, S: Source, O: Sink, D: Sink>(
    alloc: Global,
    words: &[Word],
    tree: &mut T,
    input: &mut S,
    out: &mut O,
    diag: &mut D,
) -> Status
    ensures serves { Serves words.now (T.loaded tree.old) (T.loaded tree.new) (S.left input.old) (S.left input.new) (O.taken out.old) (O.taken out.new) (D.taken diag.old) (D.taken diag.new) (code_of result) }
    ensures tree_blamed { IsBlamed (T.faults tree.old) (T.faults tree.new) (code_of result) 7 (10 ∷ 11 ∷ []) }
    ensures input_blamed { IsBlamed (S.faults input.old) (S.faults input.new) (code_of result) 8 (10 ∷ 11 ∷ []) }
    ensures out_blamed { IsBlamed (O.faults out.old) (O.faults out.new) (code_of result) 9 (10 ∷ 11 ∷ []) }
    ensures diag_blamed { IsBlamed (D.faults diag.old) (D.faults diag.new) (code_of result) 10 [] }
    ensures unread { ((request : Request) → AsksExec words.now request → ⊥) → input.new ≡ input.old }
{
    let command = match read_command(alloc, words) {
        Ok(command) => command,
        Err(_) => return Status::OutOfMemory,
    };
    match command {
        Command::Unknown => say(diag, Status::Usage, USAGE.as_bytes()),
        Command::Check { root } => {
            let checked = check(alloc, root, tree);
            report(alloc, checked, diag)
        }
        Command::Build { root } => {
            let built = build(alloc, root, tree, out);
            report(alloc, built, diag)
        }
        Command::Validate { file } => {
            let validated = validate(alloc, file, tree, out);
            report_validated(alloc, file, validated, diag)
        }
        Command::Exec { request } => {
            let ended = exec(alloc, &request, tree, input, out);
            report_exec(alloc, request.path, ended, diag)
        }
    }
}

/// Says how checking or building a tree ended.
fn report<D: Sink>(alloc: Global, ended: Result<(), BuildErr>, diag: &mut D) -> Status
    requires { HasNamedStop ended }
    ensures reports { Reports ended (D.taken diag.old) (D.taken diag.new) result }
    ensures blamed { IsBlamed (D.faults diag.old) (D.faults diag.new) (code_of result) 10 [] }
{
    match ended {
        Ok(()) => Status::Done,
        Err(BuildErr::Stop(stop, path)) => match stop_line(alloc, &path, stop) {
            Ok(line) => say(diag, Status::Stopped, &line),
            Err(_) => Status::OutOfMemory,
        },
        Err(BuildErr::TreeFault) => say(diag, Status::TreeFault, TREE_FAULT.as_bytes()),
        Err(BuildErr::OutFault) => say(diag, Status::OutFault, OUT_FAULT.as_bytes()),
        Err(BuildErr::Oom) => Status::OutOfMemory,
    }
}
