// Sinks that keep what they take.
ghost use Rattle.std.specs.Prelude.{◌≡◌, [], ◌+◌, ◌-◌, ◌≤◌, ◌<◌, ◌++◌, Some, length, take, min, IfOk, OnOk, OnErr, MatchResult};
ghost use Rattle.std.specs.Io.KnownBytes.{WriteAppends};
ghost use Rattle.zw_base.specs.Faults.{Counts};
ghost use Rattle.zw_base.specs.Outside.{put_failed};

use crate::Failures;
use std::alloc::Global;
use zw_base::{Oom, PutErr, Sink};

/// A sink over memory that never fails, and takes all that it is given.
#[derive(Debug, Drop)]
pub struct SureSink {
    bytes: Vec<u8>,
}

impl SureSink {
    ghost use Rattle.zw_outside.specs.Memory.{taken_by, spare_in};

    /// An empty sink.
    pub fn new(alloc: Global) -> SureSink
        ensures { taken_by result ≡ [] }
    {
        SureSink {
            bytes: Vec::new(alloc),
        }
    }

    /// Makes room, so that puts of `n` bytes in all take no memory.
    pub fn reserve(&mut self, n: usize) -> Result<(), Oom>
        ensures ok { OnOk result (n ≤ spare_in self.new) }
        ensures spare { spare_in self.old ≤ spare_in self.new }
        ensures taken { taken_by self.new ≡ taken_by self.old }
    {
        self.bytes.reserve(n)
    }

    /// What it has taken so far.
    pub fn taken(&self) -> &[u8]
        ensures { result.now ≡ taken_by self.now }
    {
        &self.bytes
    }
}

impl Sink for SureSink {
    ghost use Rattle.zw_outside.specs.Memory.{taken_by, spare_in, PutsWhole};

    ghost taken = { λ s. Some (taken_by s) };

    ghost faults = { λ s. 0 };

    /// Takes the whole piece.
    fn put(&mut self, bytes: &[u8]) -> Result<usize, PutErr>
        ensures within { IfOk result (λ n. n ≤ length bytes.now) }
        ensures content { WriteAppends (Some (taken_by self.old)) (Some (taken_by self.new)) result bytes.now }
        ensures cause { Counts 0 0 (put_failed bytes.now result) }

        // No call fails.
        ensures exact { PutsWhole bytes.now result }
        ensures ok { OnOk result (taken_by self.new ≡ taken_by self.old ++ bytes.now) }
        ensures err { OnErr result (taken_by self.new ≡ taken_by self.old) }

        // Within the spare room it takes no memory.
        ensures reserved { length bytes.now ≤ spare_in self.old → result ≡ Err PutErr.Oom → ⊥ }
        ensures spare { MatchResult result (λ n. spare_in self.old ≤ spare_in self.new + n) (λ e. spare_in self.old ≤ spare_in self.new) }
    {
        match self.bytes.extend_from_slice(bytes) {
            Ok(()) => Ok(bytes.len()),
            Err(_) => Err(PutErr::Oom),
        }
    }
}

/// A sink over memory. It takes at most `cap` bytes in all, and fails at the calls whose numbers it was made with.
#[derive(Debug, Drop)]
pub struct MemSink {
    sink: SureSink,
    cap: u64,
    failures: Failures,
}

impl MemSink {
    ghost use Rattle.zw_outside.specs.Memory.{taken_of, cap_of, sink_failures, spare};

    /// An empty sink with room for `cap` bytes. The put calls with the numbers in `fail`, from 0, fail.
    pub fn new(alloc: Global, fail: Vec<u32>, cap: u64) -> MemSink
        ensures taken { taken_of result ≡ [] }
        ensures cap { cap_of result ≡ cap }
        ensures numbers { (sink_failures result).numbers ≡ fail.items }
        ensures next { (sink_failures result).next ≡ 0 }
        ensures faults { (sink_failures result).faults ≡ 0 }
    {
        MemSink {
            sink: SureSink::new(alloc),
            cap,
            failures: Failures::new(fail),
        }
    }

    /// Makes room, so that puts of `n` bytes in all take no memory.
    pub fn reserve(&mut self, n: usize) -> Result<(), Oom>
        ensures ok { OnOk result (n ≤ spare self.new) }
        ensures spare { spare self.old ≤ spare self.new }
        ensures taken { taken_of self.new ≡ taken_of self.old }
        ensures cap { cap_of self.new ≡ cap_of self.old }
        ensures failures { sink_failures self.new ≡ sink_failures self.old }
    {
        self.sink.reserve(n)
    }

    /// What it has taken so far.
    pub fn taken(&self) -> &[u8]
        ensures { result.now ≡ taken_of self.now }
    {
        self.sink.taken()
    }
}

impl Sink for MemSink {
    ghost use Rattle.zw_outside.specs.Memory.{taken_of, cap_of, room, sink_failures, spare, after_call, PutsInMemory};

    ghost taken = { λ s. Some (taken_of s) };

    ghost faults = { λ s. (sink_failures s).faults };

    /// Takes as many bytes as the piece and the room under the cap allow.
    fn put(&mut self, bytes: &[u8]) -> Result<usize, PutErr>
        ensures within { IfOk result (λ n. n ≤ length bytes.now) }
        ensures content { WriteAppends (Some (taken_of self.old)) (Some (taken_of self.new)) result bytes.now }
        ensures cause { Counts ((sink_failures self.old).faults) ((sink_failures self.new).faults) (put_failed bytes.now result) }

        // It fails exactly at the calls that are to fail, and where a piece that isn't empty finds no room.
        ensures exact { PutsInMemory self.old bytes.now result }
        ensures cap { cap_of self.new ≡ cap_of self.old }
        ensures next { (sink_failures self.new).next ≡ (after_call (sink_failures self.old)).next }
        ensures numbers { (sink_failures self.new).numbers ≡ (sink_failures self.old).numbers }

        // Within the spare room it takes no memory.
        ensures reserved { length bytes.now ≤ spare self.old → result ≡ Err PutErr.Oom → ⊥ }
        ensures spare { MatchResult result (λ n. spare self.old ≤ spare self.new + n) (λ e. spare self.old ≤ spare self.new) }
    {
        if self.failures.begin() {
            return Err(PutErr::Failed);
        }
        let room = self.cap.saturating_sub(self.sink.taken().len() as u64);
        let piece = front(bytes, room);
        if piece.is_empty() && !bytes.is_empty() {
            self.failures.raise();
            return Err(PutErr::Failed);
        }
        match self.sink.put(piece) {
            Ok(n) => Ok(n),
            Err(_) => Err(PutErr::Oom),
        }
    }
}

/// As many bytes from the front as there is room for.
fn front(bytes: &[u8], room: u64) -> &[u8]
    ensures { result.now ≡ take (min (length bytes.now) room) bytes.now }
{
    if bytes.len() as u64 <= room {
        bytes
    } else {
        &bytes[..room as usize]
    }
}
