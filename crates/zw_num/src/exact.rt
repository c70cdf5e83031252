// Operators with one exact result, and casts (Zig Language Reference 0.13.0, Operators and @intCast).
ghost use Rattle.std.specs.Prelude.{◌≡◌, ◌+ℤ◌, ◌-ℤ◌, ◌*ℤ◌, neg_ℤ};
ghost use Rattle.zw_num.specs.Arithmetic.{IsType, IsIn, exact, cast_to};

use crate::{IntTy, NumFault};

/// `a + b`: the exact sum, or `Overflow` where the type doesn't have it.
pub fn add(ty: IntTy, a: i128, b: i128) -> Result<i128, NumFault>
    requires is_type { IsType ty }
    requires a_in { IsIn ty a }
    requires b_in { IsIn ty b }
    ensures { result ≡ exact ty (a +ℤ b) }
{
    match a.checked_add(b) {
        Some(sum) => ty.exact(sum),
        None => Err(NumFault::Overflow),
    }
}

/// `a - b`: the exact difference, or `Overflow` where the type doesn't have it.
pub fn sub(ty: IntTy, a: i128, b: i128) -> Result<i128, NumFault>
    requires is_type { IsType ty }
    requires a_in { IsIn ty a }
    requires b_in { IsIn ty b }
    ensures { result ≡ exact ty (a -ℤ b) }
{
    match a.checked_sub(b) {
        Some(difference) => ty.exact(difference),
        None => Err(NumFault::Overflow),
    }
}

/// `a * b`: the exact product, or `Overflow` where the type doesn't have it.
pub fn mul(ty: IntTy, a: i128, b: i128) -> Result<i128, NumFault>
    requires is_type { IsType ty }
    requires a_in { IsIn ty a }
    requires b_in { IsIn ty b }
    ensures { result ≡ exact ty (a *ℤ b) }
{
    match a.checked_mul(b) {
        Some(product) => ty.exact(product),
        None => Err(NumFault::Overflow),
    }
}

/// `-a`: the exact number, or `Overflow` where the type doesn't have it.
pub fn neg(ty: IntTy, a: i128) -> Result<i128, NumFault>
    requires is_type { IsType ty }
    requires a_in { IsIn ty a }
    ensures { result ≡ exact ty (neg_ℤ a) }
{
    match a.checked_neg() {
        Some(negated) => ty.exact(negated),
        None => Err(NumFault::Overflow),
    }
}

/// `@intCast`: a itself, which may be any number. `Negative` where it is below 0 and the type unsigned, and else `Truncated`
/// where the type doesn't have it.
pub fn cast(ty: IntTy, a: i128) -> Result<i128, NumFault>
    requires { IsType ty }
    ensures { result ≡ cast_to ty a }
{
    if ty.contains(a) {
        return Ok(a);
    }
    match ty {
        IntTy::Sized { signed: false, .. } if a < 0 => Err(NumFault::Negative),
        _ => Err(NumFault::Truncated),
    }
}
