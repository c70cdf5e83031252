// Shifts (Zig Language Reference 0.13.0, Operators, @shlExact and @shrExact). The amount of a shift may be any number.
ghost use Rattle.std.specs.Prelude.{◌≡◌, pos, ◌*ℤ◌, ◌≤ℤ◌, ◌<ℤ◌, Ok, FitsSigned};
ghost use Rattle.std.specs.Int.{w128};
ghost use Rattle.std.specs.Option.{SomeIff};
ghost use Rattle.zw_num.specs.Arithmetic.{IsType, IsIn, shifted, kept, none_lost, none_dropped, floored, power, is_amount};

use crate::{IntTy, NumFault};

/// `a << b`: a times 2^b. A sized type drops the bits above its own; `comptime_int` has `Overflow` where the product isn't in
/// it. `ShiftAmount` where b is negative or not below the width of a sized type.
pub fn shl(ty: IntTy, a: i128, b: i128) -> Result<i128, NumFault>
    requires is_type { IsType ty }
    requires a_in { IsIn ty a }
    ensures { result ≡ shifted ty b (kept ty (a *ℤ power b)) }
{
    if !is_amount(ty, b) {
        return Err(NumFault::ShiftAmount);
    }
    match ty {
        IntTy::Sized { .. } => Ok(ty.wrap(a.wrapping_mul(power_of_two(b)))),
        IntTy::Comptime => times_power(a, b).ok_or(NumFault::Overflow),
    }
}

/// `a >> b`: a divided by 2^b and rounded down. `ShiftAmount` as at `shl`.
pub fn shr(ty: IntTy, a: i128, b: i128) -> Result<i128, NumFault>
    requires is_type { IsType ty }
    requires a_in { IsIn ty a }
    ensures { result ≡ shifted ty b (Ok (floored a (power b))) }
{
    if is_amount(ty, b) {
        Ok(by_power(a, b))
    } else {
        Err(NumFault::ShiftAmount)
    }
}

/// `@shlExact`: a times 2^b. `ShiftAmount` as at `shl`, then where the type doesn't have the product `ShiftBits`, or `Overflow`
/// on `comptime_int`.
pub fn shl_exact(ty: IntTy, a: i128, b: i128) -> Result<i128, NumFault>
    requires is_type { IsType ty }
    requires a_in { IsIn ty a }
    ensures { result ≡ shifted ty b (none_lost ty (a *ℤ power b)) }
{
    if !is_amount(ty, b) {
        return Err(NumFault::ShiftAmount);
    }
    match times_power(a, b) {
        Some(product) if ty.contains(product) => Ok(product),
        _ => match ty {
            IntTy::Sized { .. } => Err(NumFault::ShiftBits),
            IntTy::Comptime => Err(NumFault::Overflow),
        },
    }
}

/// `@shrExact`: a divided by 2^b. `ShiftAmount` as at `shl`, then `ShiftBits` where 2^b doesn't divide a.
pub fn shr_exact(ty: IntTy, a: i128, b: i128) -> Result<i128, NumFault>
    requires is_type { IsType ty }
    requires a_in { IsIn ty a }
    ensures { result ≡ shifted ty b (none_dropped a (power b)) }
{
    if !is_amount(ty, b) {
        return Err(NumFault::ShiftAmount);
    }
    let quotient = by_power(a, b);
    match times_power(quotient, b) {
        Some(product) if product == a => Ok(quotient),
        _ => Err(NumFault::ShiftBits),
    }
}

// Whether a shift takes the amount.
fn is_amount(ty: IntTy, amount: i128) -> bool
    ensures { result ≡ is_amount ty amount }
{
    match ty {
        IntTy::Sized { bits, .. } => 0 <= amount && amount < bits as i128,
        IntTy::Comptime => 0 <= amount,
    }
}

// 2 to the power of an amount.
fn power_of_two(amount: i128) -> i128
    requires from_zero { pos 0 ≤ℤ amount }
    requires below { amount <ℤ pos 127 }
    ensures { result ≡ power amount }
{
    1i128 << (amount as u32)
}

// a divided by 2 to the power of an amount, rounded down: from 2^127 on that is 0 or -1.
fn by_power(a: i128, amount: i128) -> i128
    requires { pos 0 ≤ℤ amount }
    ensures { result ≡ floored a (power amount) }
{
    if amount < 127 {
        a >> (amount as u32)
    } else {
        a >> 127u32
    }
}

// a times 2 to the power of an amount, where an `i128` has it: from 2^127 on that is so of 0, and at 2^127 of -1.
pub(crate) fn times_power(a: i128, amount: i128) -> Option<i128>
    requires { pos 0 ≤ℤ amount }
    ensures { SomeIff result (FitsSigned w128 (a *ℤ power amount)) (a *ℤ power amount) }
{
    if amount < 127 {
        a.checked_mul(power_of_two(amount))
    } else if a == 0 {
        Some(0)
    } else if a == -1 && amount == 127 {
        Some(i128::MIN)
    } else {
        None
    }
}
