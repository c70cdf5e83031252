// A whole text to a sink, piece by piece.
ghost use Rattle.std.specs.Prelude.{◌<◌, OnOk, OnErr, length};
ghost use Rattle.std.specs.Io.KnownBytes.{Appends};
ghost use Rattle.zw_base.specs.Faults.{Counts};
ghost use Rattle.zw_base.specs.Outside.{AppendsFront, failed};

use crate::{PutErr, Sink};

/// Puts all of these bytes, unless the sink fails or wants memory: then it has taken some front of them. Without bytes it
/// does neither.
pub fn put_all<O: Sink>(sink: &mut O, bytes: &[u8]) -> Result<(), PutErr>
    ensures ok { OnOk result (Appends (O.taken sink.old) (O.taken sink.new) bytes.now) }
    ensures err { OnErr result (AppendsFront (O.taken sink.old) (O.taken sink.new) bytes.now) }
    ensures some { OnErr result (0 < length bytes.now) }
    ensures cause { Counts (O.faults sink.old) (O.faults sink.new) (failed result) }
{
    let mut at = 0;
    while at < bytes.len() {
        let taken = sink.put(&bytes[at..])?;
        if taken == 0 {
            return Err(PutErr::Failed);
        }
        at += taken;
    }
    Ok(())
}
