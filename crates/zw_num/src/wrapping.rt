// Operators that wrap around in a sized type (Zig Language Reference 0.13.0, Wrapping Operations and @truncate).
ghost use Rattle.std.specs.Prelude.{◌≡◌, ◌+ℤ◌, ◌-ℤ◌, ◌*ℤ◌};
ghost use Rattle.zw_num.specs.Arithmetic.{IsType, IsSized, IsIn, wrapped};

use crate::IntTy;

/// `a +% b`: the value of the sized type that differs from the exact sum by a multiple of 2^bits.
pub fn add_wrap(ty: IntTy, a: i128, b: i128) -> i128
    requires is_type { IsType ty }
    requires sized { IsSized ty }
    requires a_in { IsIn ty a }
    requires b_in { IsIn ty b }
    ensures { result ≡ wrapped ty (a +ℤ b) }
{
    ty.wrap(a.wrapping_add(b))
}

/// `a -% b`: the value of the sized type that differs from the exact difference by a multiple of 2^bits.
pub fn sub_wrap(ty: IntTy, a: i128, b: i128) -> i128
    requires is_type { IsType ty }
    requires sized { IsSized ty }
    requires a_in { IsIn ty a }
    requires b_in { IsIn ty b }
    ensures { result ≡ wrapped ty (a -ℤ b) }
{
    ty.wrap(a.wrapping_sub(b))
}

/// `a *% b`: the value of the sized type that differs from the exact product by a multiple of 2^bits.
pub fn mul_wrap(ty: IntTy, a: i128, b: i128) -> i128
    requires is_type { IsType ty }
    requires sized { IsSized ty }
    requires a_in { IsIn ty a }
    requires b_in { IsIn ty b }
    ensures { result ≡ wrapped ty (a *ℤ b) }
{
    ty.wrap(a.wrapping_mul(b))
}

/// `@truncate` of any number: the value of the sized type that differs from it by a multiple of 2^bits.
pub fn truncate(ty: IntTy, a: i128) -> i128
    requires is_type { IsType ty }
    requires sized { IsSized ty }
    ensures { result ≡ wrapped ty a }
{
    ty.wrap(a)
}
