// Why an operation gives no value.
ghost use Rattle.std.specs.Prelude.{◌≡◌, Some};
ghost use Rattle.zw_values.specs.Applied.{outcome_of_fault};
ghost use Rattle.zw_ops.specs.Answers.{outcome_of_cause};

use zw_base::Oom;
use zw_num::{IntTy, NumFault};

/// Why an operation gives no value.
#[derive(Clone, Copy, Debug, PartialEq, Eq)]
pub enum Cause {
    /// Checked illegal behaviour, by the number of its panic.
    Panic(u8),
    /// Unchecked illegal behaviour.
    Wild,
    /// The limit with this number is passed.
    Limit(u16),
    /// Want of memory.
    Oom,
}

impl From<Oom> for Cause {
    ghost use Rattle.zw_ops.specs.declared.cause.Cause.TheVariants.{Oom};

    ghost from_gives = { λ _ e. e ≡ Oom };

    fn from(_: Oom) -> Cause {
        Cause::Oom
    }
}

/// What a fault of exact arithmetic comes to in a type.
pub(crate) fn cause_of(ty: IntTy, fault: NumFault) -> Cause
    ensures { outcome_of_cause result ≡ Some (outcome_of_fault ty fault) }
{
    match (ty, fault) {
        (IntTy::Comptime, NumFault::Overflow) => Cause::Limit(9),
        (IntTy::Sized { .. }, NumFault::Overflow) => Cause::Panic(1),
        (_, NumFault::DivZero) => Cause::Panic(7),
        (_, NumFault::Remainder) => Cause::Panic(8),
        (_, NumFault::ShiftAmount) => Cause::Panic(9),
        (_, NumFault::ShiftBits) => Cause::Panic(10),
        (_, NumFault::Truncated) => Cause::Panic(11),
        (_, NumFault::Negative) => Cause::Panic(12),
    }
}
