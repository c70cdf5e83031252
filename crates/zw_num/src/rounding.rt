// Division in its roundings, and what it leaves (Zig Language Reference 0.13.0, @divTrunc, @divFloor, @divExact, @rem and @mod).
ghost use Rattle.std.specs.Prelude.{◌≡◌, pos, ◌&&◌, ◌||◌, int_lt, FitsSigned, Ok, IfOk};
ghost use Rattle.std.specs.Int.{w128, IsNonZero};
ghost use Rattle.std.specs.Option.{SomeIff};
ghost use Rattle.zw_num.specs.Arithmetic.{IsType, IsIn, exact, divided, truncated, floored, rest_of, exact_quotient};

use crate::{IntTy, NumFault};

/// `@divTrunc`: the quotient rounded toward zero. `DivZero` where b is 0, `Overflow` where the type doesn't have the quotient.
pub fn div_trunc(ty: IntTy, a: i128, b: i128) -> Result<i128, NumFault>
    requires is_type { IsType ty }
    requires a_in { IsIn ty a }
    requires b_in { IsIn ty b }
    ensures { result ≡ divided b (exact ty (truncated a b)) }
{
    if b == 0 {
        return Err(NumFault::DivZero);
    }
    match a.checked_div(b) {
        Some(quotient) => ty.exact(quotient),
        None => Err(NumFault::Overflow),
    }
}

/// `@divFloor`: the quotient rounded down. `DivZero` where b is 0, `Overflow` where the type doesn't have the quotient.
pub fn div_floor(ty: IntTy, a: i128, b: i128) -> Result<i128, NumFault>
    requires is_type { IsType ty }
    requires a_in { IsIn ty a }
    requires b_in { IsIn ty b }
    ensures { result ≡ divided b (exact ty (floored a b)) }
{
    if b == 0 {
        return Err(NumFault::DivZero);
    }
    match floor_of(a, b) {
        Some(quotient) => ty.exact(quotient),
        None => Err(NumFault::Overflow),
    }
}

/// `@divExact`: the quotient that leaves nothing. `DivZero` where b is 0, then `Overflow` where the type doesn't have the
/// quotient, then `Remainder` where a rest is left.
pub fn div_exact(ty: IntTy, a: i128, b: i128) -> Result<i128, NumFault>
    requires is_type { IsType ty }
    requires a_in { IsIn ty a }
    requires b_in { IsIn ty b }
    ensures { result ≡ divided b (exact_quotient ty a b) }
{
    if b == 0 {
        return Err(NumFault::DivZero);
    }
    match a.checked_div(b) {
        Some(quotient) if ty.contains(quotient) => {
            if a.wrapping_rem(b) == 0 {
                Ok(quotient)
            } else {
                Err(NumFault::Remainder)
            }
        }
        _ => Err(NumFault::Overflow),
    }
}

/// `@rem`: what the quotient rounded toward zero leaves, which has a's sign or is 0. `DivZero` where b is 0.
pub fn rem(ty: IntTy, a: i128, b: i128) -> Result<i128, NumFault>
    requires is_type { IsType ty }
    requires a_in { IsIn ty a }
    requires b_in { IsIn ty b }
    ensures value { result ≡ divided b (Ok (rest_of a b (truncated a b))) }
    ensures in_type { IfOk result (λ r. IsIn ty r) }
{
    if b == 0 {
        return Err(NumFault::DivZero);
    }
    Ok(a.wrapping_rem(b))
}

/// `@mod`: what the quotient rounded down leaves, which has b's sign or is 0. `DivZero` where b is 0.
pub fn modulo(ty: IntTy, a: i128, b: i128) -> Result<i128, NumFault>
    requires is_type { IsType ty }
    requires a_in { IsIn ty a }
    requires b_in { IsIn ty b }
    ensures value { result ≡ divided b (Ok (rest_of a b (floored a b))) }
    ensures in_type { IfOk result (λ r. IsIn ty r) }
{
    if b == 0 {
        return Err(NumFault::DivZero);
    }
    let rest = a.wrapping_rem(b);
    if is_across(rest, b) {
        Ok(rest + b)
    } else {
        Ok(rest)
    }
}

// The quotient rounded down, where an `i128` has it: one less than the quotient rounded toward zero where that leaves a rest on
// the other side of 0 than b.
fn floor_of(a: i128, b: i128) -> Option<i128>
    requires { IsNonZero w128 b }
    ensures { SomeIff result (FitsSigned w128 (floored a b)) (floored a b) }
{
    let quotient = a.checked_div(b)?;
    if is_across(a.wrapping_rem(b), b) {
        Some(quotient - 1)
    } else {
        Some(quotient)
    }
}

// Whether a rest is left, and is on the other side of 0 than b.
fn is_across(rest: i128, b: i128) -> bool
    ensures { result ≡ (int_lt rest (pos 0) && int_lt (pos 0) b) || (int_lt (pos 0) rest && int_lt b (pos 0)) }
{
    (rest < 0 && 0 < b) || (0 < rest && b < 0)
}
