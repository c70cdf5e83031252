// Operators that stop at the bounds of a sized type (Zig Language Reference 0.13.0, Operators).
ghost use Rattle.std.specs.Prelude.{◌≡◌, pos, ◌+ℤ◌, ◌-ℤ◌, ◌*ℤ◌, ◌≤ℤ◌};
ghost use Rattle.zw_num.specs.Arithmetic.{IsType, IsSized, IsIn, saturated, power};

use crate::IntTy;
use crate::shifts::times_power;

/// `a +| b`: the value of the sized type that is nearest to the exact sum.
pub fn add_sat(ty: IntTy, a: i128, b: i128) -> i128
    requires is_type { IsType ty }
    requires sized { IsSized ty }
    requires a_in { IsIn ty a }
    requires b_in { IsIn ty b }
    ensures { result ≡ saturated ty (a +ℤ b) }
{
    ty.nearest(a.saturating_add(b))
}

/// `a -| b`: the value of the sized type that is nearest to the exact difference.
pub fn sub_sat(ty: IntTy, a: i128, b: i128) -> i128
    requires is_type { IsType ty }
    requires sized { IsSized ty }
    requires a_in { IsIn ty a }
    requires b_in { IsIn ty b }
    ensures { result ≡ saturated ty (a -ℤ b) }
{
    ty.nearest(a.saturating_sub(b))
}

/// `a *| b`: the value of the sized type that is nearest to the exact product.
pub fn mul_sat(ty: IntTy, a: i128, b: i128) -> i128
    requires is_type { IsType ty }
    requires sized { IsSized ty }
    requires a_in { IsIn ty a }
    requires b_in { IsIn ty b }
    ensures { result ≡ saturated ty (a *ℤ b) }
{
    ty.nearest(a.saturating_mul(b))
}

/// `a <<| b`: the value of the sized type that is nearest to a times 2^b. The amount b is any number from 0 on.
pub fn shl_sat(ty: IntTy, a: i128, b: i128) -> i128
    requires is_type { IsType ty }
    requires sized { IsSized ty }
    requires a_in { IsIn ty a }
    requires from_zero { pos 0 ≤ℤ b }
    ensures { result ≡ saturated ty (a *ℤ power b) }
{
    match times_power(a, b) {
        Some(product) => ty.nearest(product),
        None if a < 0 => ty.least(),
        None => ty.greatest(),
    }
}
