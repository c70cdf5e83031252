// Lines to the diagnostics.
ghost use Rattle.std.specs.Prelude.{◌≢◌, ◌<◌, [], length};
ghost use Rattle.zw_drive.specs.Due.{IsBlamed};
ghost use Rattle.zw_drive.specs.Ends.{Says, code_of};

use crate::status::Status;
use zw_base::{PutErr, Sink, put_all};

/// Puts a line, which isn't empty, and answers the status that it belongs to, unless the line can't be written.
pub fn say<D: Sink>(diag: &mut D, own: Status, line: &[u8]) -> Status
    requires own { own ≢ Status.DiagFault }
    requires some { 0 < length line.now }
    ensures says { Says own line.now (D.taken diag.old) (D.taken diag.new) result }
    ensures blamed { IsBlamed (D.faults diag.old) (D.faults diag.new) (code_of result) 10 [] }
{
    match put_all(diag, line) {
        Ok(()) => own,
        Err(PutErr::Failed) => Status::DiagFault,
        Err(PutErr::Oom) => Status::OutOfMemory,
    }
}
