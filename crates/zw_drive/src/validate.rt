// The command that reads and validates a module's file.
ghost use Rattle.std.specs.Prelude.{◌≤◌, [], length};
ghost use Rattle.zw_base.specs.Faults.{Counts};
ghost use Rattle.zw_drive.specs.Due.{IsBlamed};
ghost use Rattle.zw_drive.specs.Ends.{code_of};
ghost use Rattle.zw_drive.specs.Validate.{Accepts, FileLoads, Judges, JudgesModule, ValidatesBytes, ValidatesFile, out_failed, tree_failed};
ghost use Rattle.zw_wasm_check.specs.Check.{HasBytes};
ghost use Rattle.zw_drive.specs.ValidateReports.{ReportsValidated};

use crate::lines::{OUT_FAULT, TREE_FAULT};
use crate::refusal::{Refusal, refusal_line};
use crate::say::say;
use crate::status::Status;
use std::alloc::Global;
use thiserror::Error;
use zw_base::{LoadErr, PutErr, Sink, Tree, Word, put_all};
use zw_wasm::Module;
use zw_wasm_check::{CheckErr, Checked, check};
use zw_wasm_read::{ReadErr, read};

/// The greatest number of bytes in a module's file.
pub const MODULE_LIMIT: u64 = 134_217_728;

/// The line for a valid module.
const VALID: &str = "valid\n";

/// Why `valid` wasn't written.
#[derive(Clone, Copy, Debug, PartialEq, Eq, Error)]
pub enum ValidateErr {
    #[error("the file is no valid module")]
    Refused(Refusal),
    #[error("the tree failed")]
    TreeFault,
    #[error("the output failed")]
    OutFault,
    #[error("out of memory")]
    Oom,
}

/// Reads and validates the file at this path, and writes `valid` to `out`.
pub fn validate<T: Tree, O: Sink>(
    alloc: Global,
    file: &Word,
    tree: &mut T,
    out: &mut O,
) -> Result<(), ValidateErr>
    ensures ends { ValidatesFile file.now (T.loaded tree.old) (T.loaded tree.new) (O.taken out.old) (O.taken out.new) result }
    ensures tree_cause { Counts (T.faults tree.old) (T.faults tree.new) (tree_failed result) }
    ensures out_cause { Counts (O.faults out.old) (O.faults out.new) (out_failed result) }
{
    match load(alloc, file, tree) {
        Ok(bytes) => validate_bytes(alloc, &bytes, out),
        Err(e) => Err(e),
    }
}

/// The bytes of the file.
pub fn load<T: Tree>(alloc: Global, file: &Word, tree: &mut T) -> Result<Vec<u8>, ValidateErr>
    ensures ends { FileLoads file.now (T.loaded tree.old) (T.loaded tree.new) result }
    ensures cause { Counts (T.faults tree.old) (T.faults tree.new) (tree_failed result) }
{
    match tree.load(alloc, file, MODULE_LIMIT) {
        Ok(bytes) => Ok(bytes),
        Err(LoadErr::Absent) => Err(ValidateErr::Refused(Refusal::Absent)),
        Err(LoadErr::TooLong) => Err(ValidateErr::Refused(Refusal::TooLong)),
        Err(LoadErr::Failed) => Err(ValidateErr::TreeFault),
        Err(LoadErr::Oom) => Err(ValidateErr::Oom),
    }
}

/// Validates the bytes of a module, and writes `valid` to `out`.
fn validate_bytes<O: Sink>(alloc: Global, bytes: &[u8], out: &mut O) -> Result<(), ValidateErr>
    requires { length bytes.now ≤ MODULE_LIMIT }
    ensures ends { ValidatesBytes bytes.now (O.taken out.old) (O.taken out.new) result }
    ensures cause { Counts (O.faults out.old) (O.faults out.new) (out_failed result) }
{
    let _checked = match judge(alloc, bytes) {
        Ok(m) => m,
        Err(e) => return Err(e),
    };
    accept(out)
}

/// Writes `valid` to `out`.
fn accept<O: Sink>(out: &mut O) -> Result<(), ValidateErr>
    ensures ends { Accepts (O.taken out.old) (O.taken out.new) result }
    ensures cause { Counts (O.faults out.old) (O.faults out.new) (out_failed result) }
{
    match put_all(out, VALID.as_bytes()) {
        Ok(()) => Ok(()),
        Err(PutErr::Failed) => Err(ValidateErr::OutFault),
        Err(PutErr::Oom) => Err(ValidateErr::Oom),
    }
}

/// The valid module that bytes spell.
pub fn judge(alloc: Global, bytes: &[u8]) -> Result<Checked, ValidateErr>
    requires { length bytes.now ≤ MODULE_LIMIT }
    ensures { Judges bytes.now result }
{
    match read(alloc, bytes) {
        Ok(m) => judge_module(alloc, m),
        Err(ReadErr::Bad { at, code }) => Err(ValidateErr::Refused(Refusal::Unread { at, code })),
        Err(ReadErr::Oom) => Err(ValidateErr::Oom),
    }
}

/// Checks a module that some bytes spell.
fn judge_module(alloc: Global, m: Module) -> Result<Checked, ValidateErr>
    requires { HasBytes m }
    ensures { JudgesModule m result }
{
    match check(alloc, m) {
        Ok(m) => Ok(m),
        Err(CheckErr::Outside { section, entry }) => {
            Err(ValidateErr::Refused(Refusal::Outside { section, entry }))
        }
        Err(CheckErr::Body { func, at, code }) => {
            Err(ValidateErr::Refused(Refusal::Body { func, at, code }))
        }
        Err(CheckErr::Oom) => Err(ValidateErr::Oom),
    }
}

/// Says how validating this file ended.
pub fn report_validated<D: Sink>(
    alloc: Global,
    file: &Word,
    validated: Result<(), ValidateErr>,
    diag: &mut D,
) -> Status
    ensures reports { ReportsValidated file.now validated (D.taken diag.old) (D.taken diag.new) result }
    ensures blamed { IsBlamed (D.faults diag.old) (D.faults diag.new) (code_of result) 10 [] }
{
    match validated {
        Ok(()) => Status::Done,
        Err(ValidateErr::Refused(refusal)) => report_refusal(alloc, file, refusal, diag),
        Err(ValidateErr::TreeFault) => say(diag, Status::TreeFault, TREE_FAULT.as_bytes()),
        Err(ValidateErr::OutFault) => say(diag, Status::OutFault, OUT_FAULT.as_bytes()),
        Err(ValidateErr::Oom) => Status::OutOfMemory,
    }
}

/// Says why this file is refused.
fn report_refusal<D: Sink>(alloc: Global, file: &Word, refusal: Refusal, diag: &mut D) -> Status
    ensures reports { ReportsValidated file.now (Err (ValidateErr.Refused refusal)) (D.taken diag.old) (D.taken diag.new) result }
    ensures blamed { IsBlamed (D.faults diag.old) (D.faults diag.new) (code_of result) 10 [] }
{
    match refusal_line(alloc, file, refusal) {
        Ok(line) => say(diag, refusal.status(), &line),
        Err(_) => Status::OutOfMemory,
    }
}
