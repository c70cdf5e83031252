// The operators of a family by their enum, each with the one meaning that `specs/Meanings.antt` gives them.
ghost use Rattle.std.specs.Prelude.{◌≡◌, ◌%◌, ◌≤ℤ◌, pos};
ghost use Rattle.zw_num.specs.Arithmetic.{IsType, IsSized, IsIn, width, pattern};
ghost use Rattle.zw_num.specs.declared.operator.Unary.TheVariants.{NegWrap, Abs};
ghost use Rattle.zw_num.specs.Meanings as meaning;
ghost use Rattle.zw_num.specs.Meanings.{IsAmountFor, IsOperandOf};

use crate::exact::{add, cast, mul, neg, sub};
use crate::rounding::{div_exact, div_floor, div_trunc, modulo, rem};
use crate::saturating::{add_sat, mul_sat, shl_sat, sub_sat};
use crate::shifts::{shl, shl_exact, shr, shr_exact};
use crate::wrapping::{add_wrap, mul_wrap, sub_wrap, truncate};
use crate::{
    Arithmetic, Bitwise, Cast, Comparison, Count, Division, Extreme, IntTy, Logic, NumFault, Shift,
    Unary, bit_and, bit_not, bit_or, bit_reverse, bit_xor, byte_swap, clz, ctz, pop_count,
};

/// `+`, `-` and `*`. `Overflow` where the exact result is no value of the type and the operator neither wraps round nor saturates,
/// which on `comptime_int` none does.
pub fn arithmetic(op: Arithmetic, ty: IntTy, a: i128, b: i128) -> Result<i128, NumFault>
    requires is_type { IsType ty }
    requires a_in { IsIn ty a }
    requires b_in { IsIn ty b }
    ensures { result ≡ meaning.arithmetic op ty a b }
{
    match (op, ty) {
        (Arithmetic::Add, _) => add(ty, a, b),
        (Arithmetic::Sub, _) => sub(ty, a, b),
        (Arithmetic::Mul, _) => mul(ty, a, b),
        (Arithmetic::AddWrap, IntTy::Sized { .. }) => Ok(add_wrap(ty, a, b)),
        (Arithmetic::SubWrap, IntTy::Sized { .. }) => Ok(sub_wrap(ty, a, b)),
        (Arithmetic::MulWrap, IntTy::Sized { .. }) => Ok(mul_wrap(ty, a, b)),
        (Arithmetic::AddSat, IntTy::Sized { .. }) => Ok(add_sat(ty, a, b)),
        (Arithmetic::SubSat, IntTy::Sized { .. }) => Ok(sub_sat(ty, a, b)),
        (Arithmetic::MulSat, IntTy::Sized { .. }) => Ok(mul_sat(ty, a, b)),
        (Arithmetic::AddWrap | Arithmetic::AddSat, IntTy::Comptime) => add(ty, a, b),
        (Arithmetic::SubWrap | Arithmetic::SubSat, IntTy::Comptime) => sub(ty, a, b),
        (Arithmetic::MulWrap | Arithmetic::MulSat, IntTy::Comptime) => mul(ty, a, b),
    }
}

/// Quotients and remainders. `DivZero` where b is 0, `Overflow` where the type doesn't have a quotient, `Remainder` where an exact
/// division leaves a rest.
pub fn division(op: Division, ty: IntTy, a: i128, b: i128) -> Result<i128, NumFault>
    requires is_type { IsType ty }
    requires a_in { IsIn ty a }
    requires b_in { IsIn ty b }
    ensures { result ≡ meaning.division op ty a b }
{
    match op {
        Division::Div | Division::DivTrunc => div_trunc(ty, a, b),
        Division::Rem | Division::RemTrunc => rem(ty, a, b),
        Division::DivFloor => div_floor(ty, a, b),
        Division::DivExact => div_exact(ty, a, b),
        Division::Mod => modulo(ty, a, b),
    }
}

/// `&`, `|` and `^`.
pub fn bitwise(op: Bitwise, ty: IntTy, a: i128, b: i128) -> i128
    requires is_type { IsType ty }
    requires a_in { IsIn ty a }
    requires b_in { IsIn ty b }
    ensures { result ≡ meaning.bitwise op a b }
{
    match op {
        Bitwise::And => bit_and(ty, a, b),
        Bitwise::Or => bit_or(ty, a, b),
        Bitwise::Xor => bit_xor(ty, a, b),
    }
}

/// Shifts of a by an amount b, which is any number but for `<<|`, where it isn't negative. `ShiftAmount` where b is negative or not
/// below the width of the type, `ShiftBits` where an exact shift loses bits, `Overflow` where `comptime_int` doesn't have the result.
pub fn shift(op: Shift, ty: IntTy, a: i128, b: i128) -> Result<i128, NumFault>
    requires is_type { IsType ty }
    requires a_in { IsIn ty a }
    requires b_fits { IsAmountFor op b }
    ensures { result ≡ meaning.shift op ty a b }
{
    match op {
        Shift::Shl => shl(ty, a, b),
        Shift::Shr => shr(ty, a, b),
        Shift::ShlExact => shl_exact(ty, a, b),
        Shift::ShrExact => shr_exact(ty, a, b),
        Shift::ShlSat => match ty {
            IntTy::Sized { .. } => Ok(shl_sat(ty, a, b)),
            IntTy::Comptime => shl(ty, a, b),
        },
    }
}

/// Whether two numbers, of any types, compare so.
pub fn compared(op: Comparison, a: i128, b: i128) -> bool
    ensures { result ≡ meaning.compared op a b }
{
    match op {
        Comparison::Equal => a == b,
        Comparison::NotEqual => a != b,
        Comparison::Less => a < b,
        Comparison::LessOrEqual => a <= b,
        Comparison::Greater => a > b,
        Comparison::GreaterOrEqual => a >= b,
    }
}

/// `@min` and `@max` of two numbers, of any types.
pub fn extreme(op: Extreme, a: i128, b: i128) -> i128
    ensures { result ≡ meaning.extreme op a b }
{
    match op {
        Extreme::Min => a.min(b),
        Extreme::Max => a.max(b),
    }
}

/// Operators of one number of the type `own`, with a result of the type `ty`. `Overflow` where `ty` doesn't have the exact result of
/// `-` and `@abs`, on `comptime_int` of `-%` too.
pub fn unary(op: Unary, own: IntTy, ty: IntTy, a: i128) -> Result<i128, NumFault>
    requires own_is_type { IsType own }
    requires is_type { IsType ty }
    requires fits { IsOperandOf op own ty a }
    ensures { result ≡ meaning.unary op own ty a }
{
    match op {
        Unary::Neg => neg(ty, a),
        Unary::NegWrap => neg_wrap(ty, a),
        Unary::BitNot => Ok(bit_not(ty, a)),
        Unary::ByteSwap => Ok(byte_swap(ty, a)),
        Unary::BitReverse => Ok(bit_reverse(ty, a)),
        Unary::Abs => abs(ty, a),
    }
}

// `-%a`.
fn neg_wrap(ty: IntTy, a: i128) -> Result<i128, NumFault>
    requires is_type { IsType ty }
    requires a_in { IsIn ty a }
    ensures { result ≡ meaning.unary NegWrap ty ty a }
{
    match ty {
        IntTy::Sized { .. } => Ok(sub_wrap(ty, 0, a)),
        IntTy::Comptime => neg(ty, a),
    }
}

// `@abs`.
fn abs(ty: IntTy, a: i128) -> Result<i128, NumFault>
    requires { IsType ty }
    ensures { result ≡ meaning.unary Abs ty ty a }
{
    let magnitude = a.unsigned_abs();
    if magnitude <= ty.greatest().unsigned_abs() {
        Ok(magnitude as i128)
    } else {
        Err(NumFault::Overflow)
    }
}

/// Counts of the bits of a number in the width of its type.
pub fn counted(op: Count, ty: IntTy, a: i128) -> i128
    requires is_type { IsType ty }
    requires sized { IsSized ty }
    requires a_in { IsIn ty a }
    ensures { result ≡ pos (meaning.counted op (width ty) (pattern (width ty) a)) }
{
    match op {
        Count::Clz => clz(ty, a),
        Count::Ctz => ctz(ty, a),
        Count::PopCount => pop_count(ty, a),
    }
}

/// Casts of any number to a type; a truth value is 1 or 0. `Truncated` and `Negative` where `@intCast`'s type doesn't have it.
pub fn converted(op: Cast, ty: IntTy, a: i128) -> Result<i128, NumFault>
    requires { IsType ty }
    ensures { result ≡ meaning.converted op ty a }
{
    match (op, ty) {
        (Cast::As | Cast::IntFromBool, _) => Ok(a),
        (Cast::IntCast, _) => cast(ty, a),
        (Cast::Truncate | Cast::BitCast, IntTy::Sized { .. }) => Ok(truncate(ty, a)),
        (Cast::Truncate | Cast::BitCast, IntTy::Comptime) => Ok(a),
    }
}

/// What truth values come to; `!` doesn't ask for the second.
pub fn truth(op: Logic, a: bool, b: bool) -> bool
    ensures { result ≡ meaning.truth op a b }
{
    match op {
        Logic::And => a && b,
        Logic::Or => a || b,
        Logic::Not => !a,
    }
}
