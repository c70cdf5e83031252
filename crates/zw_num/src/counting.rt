// Counts of the bits of a value of a sized type (Zig Language Reference 0.13.0, @clz, @ctz and @popCount).
ghost use Rattle.std.specs.Prelude.{◌≡◌, pos, count_ones};
ghost use Rattle.std.specs.Int.Count.{count_leading_zeros, count_trailing_zeros};
ghost use Rattle.zw_num.specs.Arithmetic.{IsType, IsSized, IsIn, width, pattern};

use crate::IntTy;

/// `@clz`: how many of the value's highest bits, in the width of the type, are 0.
pub fn clz(ty: IntTy, a: i128) -> i128
    requires is_type { IsType ty }
    requires sized { IsSized ty }
    requires a_in { IsIn ty a }
    ensures { result ≡ pos (count_leading_zeros (width ty) (pattern (width ty) a)) }
{
    let above = 128 - ty.width();
    (ty.pattern(a).leading_zeros() - above) as i128
}

/// `@ctz`: how many of the value's lowest bits, in the width of the type, are 0.
pub fn ctz(ty: IntTy, a: i128) -> i128
    requires is_type { IsType ty }
    requires sized { IsSized ty }
    requires a_in { IsIn ty a }
    ensures { result ≡ pos (count_trailing_zeros (width ty) (pattern (width ty) a)) }
{
    ty.pattern(a).trailing_zeros().min(ty.width()) as i128
}

/// `@popCount`: how many of the value's bits, in the width of the type, are 1.
pub fn pop_count(ty: IntTy, a: i128) -> i128
    requires is_type { IsType ty }
    requires sized { IsSized ty }
    requires a_in { IsIn ty a }
    ensures { result ≡ pos (count_ones (pattern (width ty) a)) }
{
    ty.pattern(a).count_ones() as i128
}
