// A value's bytes or bits in the other order (Zig Language Reference 0.13.0, @byteSwap and @bitReverse).
ghost use Rattle.std.specs.Prelude.{◌≡◌, ◌/◌, ◌%◌, ◌^◌, ◌<◌, ◌≤◌, pos};
ghost use Rattle.zw_num.specs.Arithmetic.{IsType, IsSized, IsIn, width, wrapped, pattern, reversed};

use crate::IntTy;

/// `@byteSwap`: the value of the sized type, whose width is a multiple of 8, with the bytes of a in the other order.
pub fn byte_swap(ty: IntTy, a: i128) -> i128
    requires is_type { IsType ty }
    requires sized { IsSized ty }
    requires whole_bytes { width ty % 8 ≡ 0 }
    requires a_in { IsIn ty a }
    ensures { result ≡ wrapped ty (pos (reversed 256 (width ty / 8) (pattern (width ty) a))) }
{
    ty.wrap(in_other_order(ty.pattern(a), 256, ty.width() / 8) as i128)
}

/// `@bitReverse`: the value of the sized type with the bits of a in the other order.
pub fn bit_reverse(ty: IntTy, a: i128) -> i128
    requires is_type { IsType ty }
    requires sized { IsSized ty }
    requires a_in { IsIn ty a }
    ensures { result ≡ wrapped ty (pos (reversed 2 (width ty) (pattern (width ty) a))) }
{
    ty.wrap(in_other_order(ty.pattern(a), 2, ty.width()) as i128)
}

// The lowest digits of a number in a base, so many of them, in the other order.
fn in_other_order(number: u128, base: u128, count: u32) -> u128
    requires base { 0 < base }
    requires fits { base ^ count ≤ 2 ^ 64 }
    ensures value { result ≡ reversed base count number }
    ensures small { result < base ^ count }
{
    let mut rest = number;
    let mut out: u128 = 0;
    for _ in 0..count {
        out = out * base + rest % base;
        rest /= base;
    }
    out
}
