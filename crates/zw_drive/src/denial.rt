// Why calls of a module's file aren't run, and the line that says so.
ghost use Rattle.std.specs.Prelude.{◌≡◌, ◌++◌, IfOk, string_bytes};
ghost use Rattle.zw_drive.specs.Denials.{denial_line, denial_status, named_line, reply_line, segment_tail};
ghost use Rattle.zw_report.specs.Lines.{shown};

use crate::refusal::{Refusal, refusal_line};
use crate::status::Status;
use std::alloc::Global;
use zw_base::{Oom, Word};
use zw_report::shown;

/// Why calls of a module's file aren't run.
#[derive(Debug, Drop)]
pub enum Denial {
    /// The file is no valid module.
    File(Refusal),
    /// The module has a start function.
    Start,
    /// The segment of this number doesn't lie inside the table or the memory. Those of the table are counted first, from 0.
    Segment(u32),
    /// No function is exported under this name.
    NoExport(Word),
    /// The arguments of the first such call of this name don't fit in number or range.
    BadArguments(Word),
    /// The line of this number, from 1, is no reply.
    BadReply(u64),
    /// The input is too long.
    InputTooLong,
}

impl Denial {
    /// The status that belongs to it.
    pub fn status(&self) -> Status
        ensures { result ≡ denial_status self.now }
    {
        match self {
            Denial::File(refusal) => refusal.status(),
            Denial::Start => Status::Invalid,
            Denial::Segment(_) => Status::Invalid,
            Denial::NoExport(_) => Status::Usage,
            Denial::BadArguments(_) => Status::Usage,
            Denial::BadReply(_) => Status::Usage,
            Denial::InputTooLong => Status::Usage,
        }
    }
}

/// The line of a denial of this file.
pub fn denial_line(alloc: Global, file: &Word, denial: &Denial) -> Result<Vec<u8>, Oom>
    ensures { IfOk result (λ line. line.items ≡ denial_line file.now denial.now) }
{
    match denial {
        Denial::File(refusal) => refusal_line(alloc, file, *refusal),
        Denial::Start => file_line(alloc, file, ": has start\n"),
        Denial::Segment(number) => segment_line(alloc, file, *number),
        Denial::NoExport(name) => named_line(alloc, "no export ", name),
        Denial::BadArguments(name) => named_line(alloc, "bad arguments ", name),
        Denial::BadReply(line) => reply_line(alloc, *line),
        Denial::InputTooLong => Vec::from_slice(alloc, b"input too long\n"),
    }
}

/// A line that begins with the file's name.
fn file_line(alloc: Global, file: &Word, tail: &str) -> Result<Vec<u8>, Oom>
    ensures { IfOk result (λ line. line.items ≡ shown file.now ++ tail.now) }
{
    let mut line = shown(alloc, file.bytes())?;
    line.extend_from_slice(tail.as_bytes())?;
    Ok(line)
}

/// The line of a segment outside.
fn segment_line(alloc: Global, file: &Word, number: u32) -> Result<Vec<u8>, Oom>
    ensures { IfOk result (λ line. line.items ≡ shown file.now ++ segment_tail number) }
{
    let tail = segment_tail(alloc, number)?;
    file_line(alloc, file, tail.as_str())
}

/// What follows the file's name in the line of a segment outside.
fn segment_tail(alloc: Global, number: u32) -> Result<String, Oom>
    ensures { IfOk result (λ text. string_bytes text ≡ segment_tail number) }
{
    format!(in alloc; ": segment {number} out of range\n")
}

/// A line with a name.
fn named_line(alloc: Global, text: &str, name: &Word) -> Result<Vec<u8>, Oom>
    ensures { IfOk result (λ line. line.items ≡ named_line text.now name.now) }
{
    let mut line = Vec::from_slice(alloc, text.as_bytes())?;
    line.extend_from_slice(&shown(alloc, name.bytes())?)?;
    line.push(b'\n')?;
    Ok(line)
}

/// The line of a line of the input that is no reply.
fn reply_line(alloc: Global, line: u64) -> Result<Vec<u8>, Oom>
    ensures { IfOk result (λ text. text.items ≡ reply_line line) }
{
    let text = reply_text(alloc, line)?;
    Vec::from_slice(alloc, text.as_bytes())
}

/// That line as text.
fn reply_text(alloc: Global, line: u64) -> Result<String, Oom>
    ensures { IfOk result (λ text. string_bytes text ≡ reply_line line) }
{
    format!(in alloc; "bad reply line {line}\n")
}
