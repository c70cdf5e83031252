// A module as bytes to a sink.
ghost use Rattle.std.specs.Prelude.{OnOk, OnErr};
ghost use Rattle.std.specs.Io.KnownBytes.{Appends};
ghost use Rattle.zw_base.specs.Faults.{Counts};
ghost use Rattle.zw_base.specs.Outside.{AppendsFront, failed};
ghost use Rattle.zw_wasm.specs.Spelling.{spelling};
ghost use Rattle.zw_wasm.specs.Writing.{WritesSpelling};

use crate::Module;
use crate::encode::module_bytes;
use std::alloc::Global;
use zw_base::{PutErr, Sink, put_all};

/// Writes a module in its shortest spelling, which is one of the spellings of a well-formed module. After an error
/// the sink has taken some front of it. A list of 2^32 items and more, or a section of 2^32 bytes and more, has no
/// spelling: the answer is `PutErr::Oom`, and nothing is taken.
pub fn write<D: Sink>(alloc: Global, m: &Module, sink: &mut D) -> Result<(), PutErr>
    ensures ok { OnOk result (Appends (D.taken sink.old) (D.taken sink.new) (spelling m.now)) }
    ensures err { OnErr result (AppendsFront (D.taken sink.old) (D.taken sink.new) (spelling m.now)) }
    ensures spelled { WritesSpelling m.now (D.taken sink.old) (D.taken sink.new) result }
    ensures cause { Counts (D.faults sink.old) (D.faults sink.new) (failed result) }
{
    match module_bytes(alloc, m) {
        Ok(bytes) => put_all(sink, &bytes),
        Err(_) => Err(PutErr::Oom),
    }
}
