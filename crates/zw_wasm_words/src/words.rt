// Operators on words of 64 bits that hold numbers of a type: of an `i32` the lowest 32 bits count.
ghost use Rattle.std.specs.Prelude.{◌≡◌, ◌<◌, ◌^◌, nat_eq, IfOk};
ghost use Rattle.zw_wasm.specs.Numerics.{binary_of, bit_of, bit_width, is_related, unary_of};
ghost use Rattle.zw_wasm.specs.Reduction.{conversion_of};
ghost use Rattle.zw_wasm.specs.Structure.{bits_of, width_of};
ghost use Rattle.zw_wasm.specs.Typing.{converts_from};
ghost use Rattle.zw_wasm_words.specs.Answers.{answer_of};
ghost use Rattle.zw_wasm_words.specs.Words.{bits_in};

use crate::fault::Fault;
use crate::{narrow, wide};
use zw_wasm::{BinaryOperator, Comparison, Conversion, UnaryOperator, ValType};

/// The lowest 32 bits.
#[inline(always)]
pub fn low(word: u64) -> u32
    ensures { result ≡ bits_in ValType.I32 word }
{
    (word % 0x1_0000_0000) as u32
}

/// Whether the number is 0.
#[inline(always)]
pub fn is_zero(ty: ValType, x: u64) -> u64
    ensures { result ≡ bit_of (nat_eq (bits_in ty x) 0) }
{
    match ty {
        ValType::I32 => u64::from(low(x) == 0),
        ValType::I64 => u64::from(x == 0),
    }
}

/// Whether two numbers are so related.
#[inline(always)]
pub fn compare(ty: ValType, comparison: Comparison, x: u64, y: u64) -> u64
    ensures value { result ≡ bit_of (is_related comparison (width_of ty) (bits_in ty x) (bits_in ty y)) }
    ensures bound { result < 2 ^ 32 }
{
    match ty {
        ValType::I32 => u64::from(narrow::is_related(comparison, low(x), low(y))),
        ValType::I64 => u64::from(wide::is_related(comparison, x, y)),
    }
}

/// What an operator gives of one number.
#[inline(always)]
pub fn unary(ty: ValType, operator: UnaryOperator, x: u64) -> u64
    ensures value { result ≡ unary_of operator (width_of ty) (bits_in ty x) }
    ensures bound { result < 2 ^ bit_width (width_of ty) }
{
    match ty {
        ValType::I32 => u64::from(narrow::unary(operator, low(x))),
        ValType::I64 => wide::unary(operator, x),
    }
}

/// What an operator gives of two numbers, or why it gives none.
#[inline(always)]
pub fn binary(ty: ValType, operator: BinaryOperator, x: u64, y: u64) -> Result<u64, Fault>
    ensures value { answer_of result ≡ binary_of operator (width_of ty) (bits_in ty x) (bits_in ty y) }
    ensures bound { IfOk result (λ n. n < 2 ^ bit_width (width_of ty)) }
{
    match ty {
        ValType::I32 => match narrow::binary(operator, low(x), low(y)) {
            Ok(result) => Ok(u64::from(result)),
            Err(fault) => Err(fault),
        },
        ValType::I64 => wide::binary(operator, x, y),
    }
}

/// The number in the other width.
#[inline(always)]
pub fn convert(conversion: Conversion, x: u64) -> u64
    ensures { result ≡ bits_of (conversion_of conversion (bits_in (converts_from conversion) x)) }
{
    match conversion {
        Conversion::Wrap => u64::from(low(x)),
        Conversion::ExtendS => i64::from(low(x).cast_signed()).cast_unsigned(),
        Conversion::ExtendU => u64::from(low(x)),
    }
}
