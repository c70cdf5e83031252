// Operators on numbers of 64 bits (4.3.2).
ghost use Rattle.std.specs.Prelude.{◌≡◌};
ghost use Rattle.std.specs.Int.{w64};
ghost use Rattle.zw_wasm.specs.Numerics.{binary_of, idiv_s, idiv_u, irem_s, irem_u, is_related, ishl, ishr_s, ishr_u, unary_of};
ghost use Rattle.zw_wasm_words.specs.Answers.{answer_of};

use crate::fault::Fault;
use zw_wasm::{BinaryOperator, Comparison, UnaryOperator};

/// Whether two numbers are so related.
#[inline(always)]
pub fn is_related(comparison: Comparison, x: u64, y: u64) -> bool
    ensures { result ≡ is_related comparison w64 x y }
{
    match comparison {
        Comparison::Eq => x == y,
        Comparison::Ne => x != y,
        Comparison::LtS => x.cast_signed() < y.cast_signed(),
        Comparison::LtU => x < y,
        Comparison::GtS => y.cast_signed() < x.cast_signed(),
        Comparison::GtU => y < x,
        Comparison::LeS => x.cast_signed() <= y.cast_signed(),
        Comparison::LeU => x <= y,
        Comparison::GeS => y.cast_signed() <= x.cast_signed(),
        Comparison::GeU => y <= x,
    }
}

/// What an operator gives of one number.
#[inline(always)]
pub fn unary(operator: UnaryOperator, x: u64) -> u64
    ensures { result ≡ unary_of operator w64 x }
{
    match operator {
        UnaryOperator::Clz => u64::from(x.leading_zeros()),
        UnaryOperator::Ctz => u64::from(x.trailing_zeros()),
        UnaryOperator::Popcnt => u64::from(x.count_ones()),
    }
}

/// What an operator gives of two numbers, or why it gives none.
#[inline(always)]
pub fn binary(operator: BinaryOperator, x: u64, y: u64) -> Result<u64, Fault>
    ensures { answer_of result ≡ binary_of operator w64 x y }
{
    match operator {
        BinaryOperator::Add => Ok(x.wrapping_add(y)),
        BinaryOperator::Sub => Ok(x.wrapping_sub(y)),
        BinaryOperator::Mul => Ok(x.wrapping_mul(y)),
        BinaryOperator::DivS => divide_signed(x, y),
        BinaryOperator::DivU => divide(x, y),
        BinaryOperator::RemS => remainder_signed(x, y),
        BinaryOperator::RemU => remainder(x, y),
        BinaryOperator::And => Ok(x & y),
        BinaryOperator::Or => Ok(x | y),
        BinaryOperator::Xor => Ok(x ^ y),
        BinaryOperator::Shl => Ok(shift_left(x, y)),
        BinaryOperator::ShrS => Ok(shift_right_signed(x, y)),
        BinaryOperator::ShrU => Ok(shift_right(x, y)),
        BinaryOperator::Rotl => Ok(x.rotate_left((y % 64) as u32)),
        BinaryOperator::Rotr => Ok(x.rotate_right((y % 64) as u32)),
    }
}

fn divide(x: u64, y: u64) -> Result<u64, Fault>
    ensures { answer_of result ≡ idiv_u x y }
{
    if y == 0 {
        return Err(Fault::DividesByZero);
    }
    Ok(x / y)
}

fn remainder(x: u64, y: u64) -> Result<u64, Fault>
    ensures { answer_of result ≡ irem_u x y }
{
    if y == 0 {
        return Err(Fault::DividesByZero);
    }
    Ok(x % y)
}

/// Rounded towards zero. The least number by -1 has no quotient.
fn divide_signed(x: u64, y: u64) -> Result<u64, Fault>
    ensures { answer_of result ≡ idiv_s w64 x y }
{
    if y == 0 {
        return Err(Fault::DividesByZero);
    }
    match x.cast_signed().checked_div(y.cast_signed()) {
        Some(quotient) => Ok(quotient.cast_unsigned()),
        None => Err(Fault::Overflows),
    }
}

/// With the sign of the dividend.
fn remainder_signed(x: u64, y: u64) -> Result<u64, Fault>
    ensures { answer_of result ≡ irem_s w64 x y }
{
    if y == 0 {
        return Err(Fault::DividesByZero);
    }
    Ok(
        x.cast_signed()
            .wrapping_rem(y.cast_signed())
            .cast_unsigned(),
    )
}

fn shift_left(x: u64, y: u64) -> u64
    ensures { result ≡ ishl w64 x y }
{
    x << (y % 64)
}

fn shift_right(x: u64, y: u64) -> u64
    ensures { result ≡ ishr_u w64 x y }
{
    x >> (y % 64)
}

/// The sign moves in.
fn shift_right_signed(x: u64, y: u64) -> u64
    ensures { result ≡ ishr_s w64 x y }
{
    (x.cast_signed() >> (y % 64)).cast_unsigned()
}
