// Why a file is no valid module, and the line that says so.
ghost use Rattle.std.specs.Prelude.{◌≡◌, IfOk, string_bytes};
ghost use Rattle.zw_drive.specs.Refusals.{bad_name, byte_tail, entry_tail, fault_name, instruction_tail, refusal_line, refusal_tail, status_of};

use crate::status::Status;
use std::alloc::Global;
use zw_base::{Oom, Word};
use zw_report::shown;
use zw_wasm_read::BadCode;

/// Why a file is no valid module.
#[derive(Clone, Copy, Debug, PartialEq, Eq)]
pub enum Refusal {
    /// There is no such file.
    Absent,
    /// The file is too long.
    TooLong,
    /// The bytes are no module: where reading stops, and why.
    Unread { at: u32, code: BadCode },
    /// The first violation stands outside bodies, at this entry of this section.
    Outside { section: u8, entry: u32 },
    /// It stands in a body, at this instruction of this function. The code is 1 for an index, 2 for a type, 3 for an alignment.
    Body { func: u32, at: u32, code: u8 },
}

impl Refusal {
    /// The status that belongs to it.
    pub fn status(self) -> Status
        ensures { result ≡ status_of self }
    {
        match self {
            Refusal::Absent => Status::Stopped,
            Refusal::TooLong => Status::Stopped,
            Refusal::Unread { .. } => Status::Invalid,
            Refusal::Outside { .. } => Status::Invalid,
            Refusal::Body { .. } => Status::Invalid,
        }
    }
}

/// The line of a refusal of this file.
pub fn refusal_line(alloc: Global, file: &Word, refusal: Refusal) -> Result<Vec<u8>, Oom>
    ensures { IfOk result (λ line. line.items ≡ refusal_line file.now refusal) }
{
    let mut line = shown(alloc, file.bytes())?;
    let tail = refusal_tail(alloc, refusal)?;
    line.extend_from_slice(tail.as_bytes())?;
    Ok(line)
}

/// What follows the file's name in the line.
fn refusal_tail(alloc: Global, refusal: Refusal) -> Result<String, Oom>
    ensures { IfOk result (λ text. string_bytes text ≡ refusal_tail refusal) }
{
    match refusal {
        Refusal::Absent => String::from_str(alloc, ": absent\n"),
        Refusal::TooLong => String::from_str(alloc, ": too long\n"),
        Refusal::Unread { at, code } => unread_tail(alloc, at, bad_name(code)),
        Refusal::Outside { section, entry } => entry_tail(alloc, section, entry),
        Refusal::Body { func, at, code } => body_tail(alloc, func, at, fault_name(code)),
    }
}

/// What follows where reading stops.
fn unread_tail(alloc: Global, at: u32, name: &str) -> Result<String, Oom>
    ensures { IfOk result (λ text. string_bytes text ≡ byte_tail at name.now) }
{
    format!(in alloc; ": byte {at}: {name}\n")
}

/// What follows where an entry is invalid.
fn entry_tail(alloc: Global, section: u8, entry: u32) -> Result<String, Oom>
    ensures { IfOk result (λ text. string_bytes text ≡ entry_tail section entry) }
{
    format!(in alloc; ": section {section} entry {entry}: invalid\n")
}

/// What follows where an instruction is invalid.
fn body_tail(alloc: Global, func: u32, at: u32, name: &str) -> Result<String, Oom>
    ensures { IfOk result (λ text. string_bytes text ≡ instruction_tail func at name.now) }
{
    format!(in alloc; ": func {func} instruction {at}: {name}\n")
}

/// Why reading stops, as it is printed.
fn bad_name(code: BadCode) -> &'static str
    ensures { result.now ≡ bad_name code }
{
    match code {
        BadCode::Header => "bad header",
        BadCode::Section => "bad section",
        BadCode::Entry => "bad entry",
        BadCode::Counts => "bad counts",
    }
}

/// Why an instruction is invalid, as it is printed.
fn fault_name(code: u8) -> &'static str
    ensures { result.now ≡ fault_name code }
{
    match code {
        1 => "bad index",
        2 => "bad type",
        _ => "bad alignment",
    }
}
