// Sources that give a list of bytes.
ghost use Rattle.std.specs.Prelude.{◌≡◌, ◌≤◌, ◌<◌, ◌++◌, Some, length, vec_len, take, drop, min, IfOk};
ghost use Rattle.std.specs.Io.KnownBytes.{ReadConsumes};
ghost use Rattle.zw_base.specs.Faults.{Counts};
ghost use Rattle.zw_base.specs.Outside.{read_failed};

use crate::Failures;
use zw_base::{Failed, Source};

/// A source over memory that never fails.
#[derive(Debug, Drop)]
pub struct SureSource {
    bytes: Vec<u8>,
    at: usize,
    ghost within: { at ≤ vec_len bytes },
}

impl SureSource {
    ghost use Rattle.zw_outside.specs.Memory.{left_in};

    /// A source of these bytes.
    pub fn new(bytes: Vec<u8>) -> SureSource
        ensures { left_in result ≡ bytes.items }
    {
        SureSource { bytes, at: 0 }
    }

    /// The bytes still to come.
    pub fn left(&self) -> &[u8]
        ensures { result.now ≡ left_in self.now }
    {
        &self.bytes[self.at..]
    }
}

impl Source for SureSource {
    ghost use Rattle.zw_outside.specs.Memory.{left_in, ReadsLeft};

    ghost left = { λ s. Some (left_in s) };

    ghost faults = { λ s. 0 };

    /// Gives as many bytes as the buffer and what is left allow.
    fn read(&mut self, buf: &mut [u8]) -> Result<usize, Failed>
        ensures within { IfOk result (λ n. n ≤ length buf.old) }
        ensures content { ReadConsumes (Some (left_in self.old)) (Some (left_in self.new)) result buf.new }
        ensures cause { Counts 0 0 (read_failed result) }

        // No call fails.
        ensures exact { ReadsLeft self.old (length buf.old) result }
    {
        let n = copy_front(buf, &self.bytes[self.at..]);
        self.at += n;
        Ok(n)
    }
}

/// A source over memory, which fails at the calls whose numbers it was made with.
#[derive(Debug, Drop)]
pub struct MemSource {
    source: SureSource,
    failures: Failures,
}

impl MemSource {
    ghost use Rattle.zw_outside.specs.Memory.{left_of, source_failures};

    /// A source of these bytes. The read calls with the numbers in `fail`, from 0, fail.
    pub fn new(bytes: Vec<u8>, fail: Vec<u32>) -> MemSource
        ensures left { left_of result ≡ bytes.items }
        ensures numbers { (source_failures result).numbers ≡ fail.items }
        ensures next { (source_failures result).next ≡ 0 }
        ensures faults { (source_failures result).faults ≡ 0 }
    {
        MemSource {
            source: SureSource::new(bytes),
            failures: Failures::new(fail),
        }
    }

    /// The bytes still to come.
    pub fn left(&self) -> &[u8]
        ensures { result.now ≡ left_of self.now }
    {
        self.source.left()
    }
}

impl Source for MemSource {
    ghost use Rattle.zw_outside.specs.Memory.{left_of, source_failures, after_call, ReadsInMemory};

    ghost left = { λ s. Some (left_of s) };

    ghost faults = { λ s. (source_failures s).faults };

    /// Gives as many bytes as the buffer and what is left allow.
    fn read(&mut self, buf: &mut [u8]) -> Result<usize, Failed>
        ensures within { IfOk result (λ n. n ≤ length buf.old) }
        ensures content { ReadConsumes (Some (left_of self.old)) (Some (left_of self.new)) result buf.new }
        ensures cause { Counts ((source_failures self.old).faults) ((source_failures self.new).faults) (read_failed result) }

        // It fails exactly at the calls that are to fail.
        ensures exact { ReadsInMemory self.old (length buf.old) result }
        ensures next { (source_failures self.new).next ≡ (after_call (source_failures self.old)).next }
        ensures numbers { (source_failures self.new).numbers ≡ (source_failures self.old).numbers }
    {
        if self.failures.begin() {
            return Err(Failed);
        }
        self.source.read(buf)
    }
}

/// Copies as many bytes as both allow to the front of `to`, and says how many.
fn copy_front(to: &mut [u8], from: &[u8]) -> usize
    ensures count { result ≡ min (length to.old) (length from.now) }
    ensures copied { to.new ≡ take result from.now ++ drop result to.old }
{
    let n = to.len().min(from.len());
    to[..n].copy_from_slice(&from[..n]);
    n
}
