// Arguments of calls.
ghost use Rattle.std.specs.Prelude.{◌≡◌, IfOk, string_bytes};
ghost use Rattle.zw_report.specs.Lines.{argument_text};

use std::alloc::Global;
use zw_base::Oom;

/// An argument of a call, as the command's word says it: a number, whose digits may have stood behind zeros, or a truth value.
#[derive(Clone, Copy, Debug, PartialEq, Eq)]
pub enum Arg {
    Number(i128),
    Truth(bool),
}

/// The argument as it is printed.
pub fn argument_text(alloc: Global, arg: Arg) -> Result<String, Oom>
    ensures { IfOk result (λ text. string_bytes text ≡ argument_text arg) }
{
    match arg {
        Arg::Number(number) => format!(in alloc; "{number}"),
        Arg::Truth(truth) => format!(in alloc; "{truth}"),
    }
}
