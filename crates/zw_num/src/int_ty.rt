// Integer types and their values.
ghost use Rattle.std.specs.Prelude.{◌≡◌, ◌<◌, ◌^◌};
ghost use Rattle.zw_num.specs.Arithmetic.{IsType, IsSized, least, greatest, width, is_in, exact, wrapped, saturated, pattern};

use crate::NumFault;

/// A type of whole numbers (Zig Language Reference 0.13.0, Integers).
#[derive(Clone, Copy, Debug, PartialEq, Eq)]
pub enum IntTy {
    /// `i0` to `i64` where it is signed, `u0` to `u64` where it isn't: at most 64 bits. The one value of 0 bits is 0.
    Sized { signed: bool, bits: u8 },
    /// `comptime_int`, whose values are -2^127 to 2^127 - 1 here. The bounds are this project's own.
    Comptime,
}

impl IntTy {
    /// The least value of the type.
    pub fn least(self) -> i128
        requires { IsType self }
        ensures { result ≡ least self }
    {
        match self {
            IntTy::Sized { signed: false, .. } => 0,
            IntTy::Sized { signed: true, bits } => -((1i128 << bits) / 2),
            IntTy::Comptime => i128::MIN,
        }
    }

    /// The greatest value of the type.
    pub fn greatest(self) -> i128
        requires { IsType self }
        ensures { result ≡ greatest self }
    {
        match self {
            IntTy::Sized {
                signed: false,
                bits,
            } => (1i128 << bits) - 1,
            IntTy::Sized { signed: true, bits } => ((1i128 << bits) - 1) / 2,
            IntTy::Comptime => i128::MAX,
        }
    }

    /// Whether the number is a value of the type.
    pub fn contains(self, number: i128) -> bool
        requires { IsType self }
        ensures { result ≡ is_in self number }
    {
        self.least() <= number && number <= self.greatest()
    }

    /// How many bits a sized type has.
    pub(crate) fn width(self) -> u32
        requires is_type { IsType self }
        ensures { result ≡ width self }
    {
        match self {
            IntTy::Sized { bits, .. } => bits as u32,
            IntTy::Comptime => 0,
        }
    }

    /// The number, or `Overflow` where the type doesn't have it.
    pub(crate) fn exact(self, number: i128) -> Result<i128, NumFault>
        requires { IsType self }
        ensures { result ≡ exact self number }
    {
        if self.contains(number) {
            Ok(number)
        } else {
            Err(NumFault::Overflow)
        }
    }

    /// The value of a sized type that differs from the number by a multiple of 2^bits.
    pub(crate) fn wrap(self, number: i128) -> i128
        requires is_type { IsType self }
        requires sized { IsSized self }
        ensures { result ≡ wrapped self number }
    {
        let pattern = self.pattern(number) as i128;
        if self.contains(pattern) {
            pattern
        } else {
            pattern - (1i128 << self.width())
        }
    }

    /// The value of the type that is nearest to the number.
    pub(crate) fn nearest(self, number: i128) -> i128
        requires { IsType self }
        ensures { result ≡ saturated self number }
    {
        number.clamp(self.least(), self.greatest())
    }

    /// The bits of the number in the width of a sized type, as the number from 0 on that has them.
    pub(crate) fn pattern(self, number: i128) -> u128
        requires is_type { IsType self }
        requires sized { IsSized self }
        ensures value { result ≡ pattern (width self) number }
        ensures bound { result < 2 ^ width self }
    {
        number.rem_euclid(1i128 << self.width()) as u128
    }
}
