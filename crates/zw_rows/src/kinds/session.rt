// Rows of sessions: the calls of exported functions of a module, run one after another by the machine. The module is read from the bytes
// that the row has, or that the whole call writes for its text.
use sqlite_items::Items;
use std::alloc::Global;
use zw_base::{Oom, Word};
use zw_drive::zig;
use zw_outside::{MemSink, MemSource, MemTree};
use zw_rows_base::{Field, Line, Mistake, Problem, Report, natural, small, smalls};
use zw_rows_modules::{Host, call, machine_of, panic_cause};
use zw_wasm::Num;
use zw_wasm_run::{Event, Machine, Outcome, Replies};

/// More bytes than the module of any row has.
const LIMIT: usize = 1_000_000;

/// The cause of a trap that is a panic.
const UNREACHABLE: u8 = 1;

/// How a call ended.
#[derive(Clone, Copy, Debug, PartialEq, Eq)]
enum End {
    /// It gave this number.
    Gives(u32),
    /// It panicked with this cause, and without a message.
    Panics(u32),
    /// It came to its end without a number.
    Ends,
    /// It wants a reply, and none is left.
    WantsReply,
    /// Another instruction was due, and no step was left.
    RunsOut,
    /// A trap with this cause that is no panic.
    Traps(u8),
    /// There was no call, or an earlier one ended the session.
    NotMade,
    /// It did something else.
    Otherwise,
}

/// What came of the calls of a row by now.
#[derive(Drop)]
struct Session {
    machine: Machine,
    host: Host,
    /// How the last call ended.
    end: End,
    /// What the host is to see.
    sees: String,
}

/// `session NAME` and a text: `replies N..`, then `call NAME N..` with `gives N`, `panics N`, `wants-reply` or `not-made`
/// behind it, and what the host sees by `sees IMPORT N..`.
pub fn check_session(
    alloc: Global,
    head: &Field<'_>,
    fields: &[Field<'_>],
) -> Result<Report, Mistake> {
    check_calls(alloc, built(alloc, head)?, fields)
}

/// `machine NAME` and the bytes of a module: the same, with `steps N` for how many instructions each call behind it may take, `reserve FRAMES VALUES`,
/// `memory PLACE COUNT = HEX` or `none` for what the memory has there, and the ends `returns`, `runs-out` and `traps N` too.
pub fn check_machine(
    alloc: Global,
    head: &Field<'_>,
    fields: &[Field<'_>],
) -> Result<Report, Mistake> {
    if head.bytes.len() > LIMIT {
        return Err(head.wrong(Problem::Refused));
    }
    match machine_of(alloc, &head.bytes)? {
        Some(machine) => check_calls(alloc, machine, fields),
        None => Err(head.wrong(Problem::Refused)),
    }
}

/// The calls of a row, made of this machine.
fn check_calls(alloc: Global, machine: Machine, fields: &[Field<'_>]) -> Result<Report, Mistake> {
    let mut session = Session {
        machine,
        host: Host::new(alloc),
        end: End::NotMade,
        sees: String::new(alloc),
    };
    let mut report = Report::new(alloc);
    for field in fields {
        session.take(alloc, field, &mut report)?;
    }
    let seen = shown_events(alloc, &session.host.seen)?;
    report.compare(
        "calls of the host",
        seen.as_bytes(),
        session.sees.as_bytes(),
    )?;
    Ok(report)
}

impl Session {
    /// Does what a line says.
    fn take(
        &mut self,
        alloc: Global,
        field: &Field<'_>,
        report: &mut Report,
    ) -> Result<(), Mistake> {
        match field.line.word {
            "replies" => self.host.replies = replies(alloc, field)?,
            "sees" => {
                let call = field.line.rest;
                write!(self.sees, "{call}, ")?;
            }
            "call" => self.call(alloc, field)?,
            "steps" => self.host.steps = natural(field.line, field.line.rest)?,
            "reserve" => self.reserve(alloc, field)?,
            "memory" => self.compare_bytes(alloc, field, report)?,
            _ => compare_end(alloc, report, field, self.end)?,
        }
        Ok(())
    }

    /// Makes the call of a line.
    fn call(&mut self, alloc: Global, field: &Field<'_>) -> Result<(), Mistake> {
        let (name, args) = match field.line.rest.split_once(' ') {
            Some(parts) => parts,
            None => (field.line.rest, ""),
        };
        let mut numbers = Vec::new(alloc);
        for arg in smalls(alloc, field.line, args)? {
            numbers.push(Num::I32(arg))?;
        }
        let outcome = call(&mut self.machine, name.as_bytes(), &numbers, &mut self.host)?;
        self.end = end_of(&self.machine, outcome);
        Ok(())
    }

    /// Makes the room that a line asks for.
    fn reserve(&mut self, alloc: Global, field: &Field<'_>) -> Result<(), Mistake> {
        let room = smalls(alloc, field.line, field.line.rest)?;
        let [frames, values] = room.as_slice() else {
            return Err(field.wrong(Problem::MissingWord));
        };
        self.machine.reserve(*frames, *values)?;
        Ok(())
    }

    /// Compares bytes of the memory with those of a line.
    fn compare_bytes(
        &self,
        alloc: Global,
        field: &Field<'_>,
        report: &mut Report,
    ) -> Result<(), Mistake> {
        let Some((place, wanted)) = field.line.rest.split_once(" = ") else {
            return Err(field.wrong(Problem::MissingWord));
        };
        let place = smalls(alloc, field.line, place)?;
        let [at, count] = place.as_slice() else {
            return Err(field.wrong(Problem::MissingWord));
        };
        let came = match self.machine.bytes(*at, *count) {
            Some(bytes) => hex::encode(alloc, bytes)?,
            None => String::from_str(alloc, "none")?,
        };
        report.compare("memory", came.as_bytes(), wanted.as_bytes())?;
        Ok(())
    }
}

/// A machine of the module that the row's text is built to by the whole call.
fn built(alloc: Global, head: &Field<'_>) -> Result<Machine, Mistake> {
    let mut words = Vec::new(alloc);
    words.push(Word::copy(alloc, b"build")?)?;
    words.push(Word::copy(alloc, b"a.zig")?)?;
    let mut tree = MemTree::new(alloc, Vec::new(alloc));
    tree.add(&Word::copy(alloc, b"a.zig")?, &head.bytes)?;
    let mut input = MemSource::new(Vec::new(alloc), Vec::new(alloc));
    let mut out = MemSink::new(alloc, Vec::new(alloc), u64::MAX);
    let mut diag = MemSink::new(alloc, Vec::new(alloc), u64::MAX);
    let _ = zig(alloc, &words, &mut tree, &mut input, &mut out, &mut diag);
    let bytes = out.taken();
    if bytes.len() > LIMIT {
        return Err(head.wrong(Problem::Refused));
    }
    match machine_of(alloc, bytes)? {
        Some(machine) => Ok(machine),
        None => Err(head.wrong(Problem::Refused)),
    }
}

/// The replies of a line.
fn replies(alloc: Global, field: &Field<'_>) -> Result<Replies, Mistake> {
    let mut list = Items::new(alloc);
    for word in field.line.rest.split_whitespace() {
        list.push(natural(field.line, word)?)?;
    }
    Ok(Replies::new(list))
}

/// How a call ended with which a machine came here.
fn end_of(machine: &Machine, outcome: Option<Outcome>) -> End {
    match outcome {
        Some(Outcome::Result(Some(Num::I32(n)))) => End::Gives(n),
        Some(Outcome::Trap(UNREACHABLE)) => match panic_cause(machine) {
            Some(cause) => End::Panics(cause),
            None => End::Traps(UNREACHABLE),
        },
        Some(Outcome::Trap(cause)) => End::Traps(cause),
        Some(Outcome::Result(None)) => End::Ends,
        Some(Outcome::WantsReply) => End::WantsReply,
        Some(Outcome::StepsOut) => End::RunsOut,
        Some(Outcome::Over) => End::NotMade,
        _ => End::Otherwise,
    }
}

/// Compares how the last call ended with what a line says.
fn compare_end(
    alloc: Global,
    report: &mut Report,
    field: &Field<'_>,
    end: End,
) -> Result<(), Mistake> {
    let line = field.line;
    let wanted = match line.word {
        "gives" => End::Gives(small(line, line.rest)?),
        "panics" => End::Panics(small(line, line.rest)?),
        "returns" => End::Ends,
        "wants-reply" => End::WantsReply,
        "runs-out" => End::RunsOut,
        "traps" => End::Traps(cause_of(line)?),
        "not-made" => End::NotMade,
        _ => return Err(field.wrong(Problem::UnknownWord)),
    };
    let came = format!(in alloc; "{end:?}")?;
    let wanted = format!(in alloc; "{wanted:?}")?;
    report.compare("call", came.as_bytes(), wanted.as_bytes())?;
    Ok(())
}

/// The cause of a trap that a line tells.
fn cause_of(line: Line<'_>) -> Result<u8, Mistake> {
    match u8::try_from(small(line, line.rest)?) {
        Ok(cause) => Ok(cause),
        Err(_) => Err(Mistake::Wrong(line.number, Problem::BadNumber)),
    }
}

/// The calls that the host saw, as a row has them.
fn shown_events(alloc: Global, events: &[Event]) -> Result<String, Oom> {
    let mut text = String::new(alloc);
    for event in events {
        let import = event.import;
        write!(text, "{import}")?;
        add_args(&mut text, event.args.as_slice())?;
        text.push_str(", ")?;
    }
    Ok(text)
}

/// Adds the arguments of a call.
fn add_args(text: &mut String, args: &[Num]) -> Result<(), Oom> {
    for arg in args {
        match arg {
            Num::I32(n) => write!(text, " {n}")?,
            Num::I64(n) => write!(text, " {n}")?,
        }
    }
    Ok(())
}
