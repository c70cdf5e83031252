// The line of a stop, and the names of errors and limits.
ghost use Rattle.std.specs.Prelude.{◌≡◌, IfOk, string_bytes};
ghost use Rattle.zw_report.specs.StopLines.{IsNamed, after_path, name_of, stop_line};

use crate::names::{name_at, shown};
use std::alloc::Global;
use zw_base::{Oom, Place, Stop, StopKind, Word};

/// The names of the errors, from error 1 on.
const ERROR_NAMES: [&str; 36] = [
    "FileAbsent",
    "ImportPath",
    "BadByte",
    "BadToken",
    "BadLiteral",
    "Syntax",
    "NotInProfile",
    "Shadow",
    "UnknownName",
    "Unused",
    "Duplicate",
    "Label",
    "FlowPlace",
    "TypeMismatch",
    "ValueRange",
    "NotComptime",
    "NoMember",
    "CallForm",
    "NotAssignable",
    "OperandType",
    "ComptimeIllegal",
    "ComptimeWild",
    "RunTimeAtComptime",
    "StoreDependsOnRunTime",
    "ReachesComptimeVar",
    "DependencyLoop",
    "SwitchItems",
    "ValueIgnored",
    "NoResultType",
    "LiteralFields",
    "CompileError",
    "ReturnMissing",
    "ExportForm",
    "Private",
    "Quota",
    "NotBuilt",
];

/// The names of the limits, from limit 1 on.
const LIMIT_NAMES: [&str; 14] = [
    "FileLength",
    "Files",
    "Nesting",
    "Instances",
    "Nodes",
    "Visits",
    "ComptimeCalls",
    "ComptimeArray",
    "ComptimeInt",
    "Statics",
    "FrameWeight",
    "IntWidth",
    "ErrorNames",
    "TreeLength",
];

/// The line of a stop in the file at this path: `PATH:LINE:COLUMN: error N Name`, or `limit` in place of `error`.
pub fn stop_line(alloc: Global, path: &Word, stop: Stop) -> Result<Vec<u8>, Oom>
    requires { IsNamed stop.kind }
    ensures { IfOk result (λ line. line.items ≡ stop_line path.now stop) }
{
    let mut line = shown(alloc, path.bytes())?;
    let name = name_of(stop.kind);
    let tail = match stop.kind {
        StopKind::Error(number) => after_path(alloc, stop.place, "error", number, name)?,
        StopKind::Limit(number) => after_path(alloc, stop.place, "limit", number, name)?,
    };
    line.extend_from_slice(tail.as_bytes())?;
    Ok(line)
}

/// The name of an error or a limit.
fn name_of(kind: StopKind) -> &'static str
    requires { IsNamed kind }
    ensures { result.now ≡ name_of kind }
{
    match kind {
        StopKind::Error(number) => name_at(&ERROR_NAMES, number),
        StopKind::Limit(number) => name_at(&LIMIT_NAMES, number),
    }
}

/// What follows the path in the line of a stop.
fn after_path(
    alloc: Global,
    place: Place,
    class: &str,
    number: u16,
    name: &str,
) -> Result<String, Oom>
    ensures { IfOk result (λ text. string_bytes text ≡ after_path place.line place.column class.now number name.now) }
{
    let line = place.line;
    let column = place.column;
    format!(in alloc; ":{line}:{column}: {class} {number} {name}\n")
}
