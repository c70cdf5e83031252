// The causes of panics by name.
ghost use Rattle.std.specs.Prelude.{◌≡◌, ◌≤◌};
ghost use Rattle.zw_report.specs.Lines.{cause_name};

use crate::names::name_at;

/// The cause whose line has a message.
pub const MESSAGE: u8 = 18;

/// The names of the causes, from cause 1 on.
const CAUSE_NAMES: [&str; 19] = [
    "IntegerOverflow",
    "IndexOutOfBounds",
    "SliceBounds",
    "NullUnwrap",
    "ErrorUnwrap",
    "ReachedUnreachable",
    "DivideByZero",
    "ExactRemainder",
    "ShiftAmount",
    "ShiftBitsLost",
    "CastTruncated",
    "NegativeToUnsigned",
    "BadEnumValue",
    "InactiveField",
    "ForLengths",
    "CopyLengths",
    "CopyAlias",
    "Message",
    "CallDepth",
];

/// The name of a cause from 1 to 19.
pub fn cause_name(cause: u8) -> &'static str
    requires positive { 1 ≤ cause }
    requires within { cause ≤ 19 }
    ensures { result.now ≡ cause_name cause }
{
    name_at(&CAUSE_NAMES, u16::from(cause))
}
