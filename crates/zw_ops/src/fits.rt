// Whether numbers among operands are such as an operator takes.
ghost use Rattle.std.specs.Prelude.{◌≡◌, ◌%◌, ◌≤ℤ◌, pos, All, List, map, true};
ghost use Rattle.zw_num.specs.Arithmetic.{IsType, IsIn, IsSized, width};
ghost use Rattle.zw_num.specs.Meanings.{IsAmountFor, IsOperandOf};
ghost use Rattle.zw_types.specs.TypeTrees.{TypeTree};
ghost use Rattle.zw_types.specs.Readings.{value_tree};
ghost use Rattle.zw_ops.specs.Operands.{IfNumber, AreShifted};

use crate::operands::{one, two};
use zw_num::{IntTy, Shift, Unary};
use zw_types::Value;

/// Whether a number is one of the type.
fn is_in(ty: IntTy, number: i128) -> bool
    requires { IsType ty }
    ensures { result ≡ true → IsIn ty number }
{
    ty.contains(number)
}

/// Whether a value, where it is a number, is one of the type.
fn is_number_of(ty: IntTy, value: &Value) -> bool
    requires { IsType ty }
    ensures { result ≡ true → (types : List TypeTree) → IfNumber (IsIn ty) (value_tree types value.now) }
{
    match value {
        Value::Number(number) => is_in(ty, *number),
        Value::Truth(_) | Value::Undefined | Value::OfType(_) => true,
        _ => false,
    }
}

/// The same of one or two operands.
pub(crate) fn are_numbers_of(ty: IntTy, args: &[Value]) -> bool
    requires { IsType ty }
    ensures { result ≡ true → (types : List TypeTree) → All (IfNumber (IsIn ty)) (map (value_tree types) args.now) }
{
    if let Some(a) = one(args) {
        return is_number_of(ty, a);
    }
    match two(args) {
        Some((a, b)) => is_number_of(ty, a) && is_number_of(ty, b),
        None => false,
    }
}

/// Whether a value, where it is a number, isn't negative.
fn is_natural(value: &Value) -> bool
    ensures { result ≡ true → (types : List TypeTree) → IfNumber (λ z. pos 0 ≤ℤ z) (value_tree types value.now) }
{
    match value {
        Value::Number(number) => *number >= 0,
        Value::Truth(_) | Value::Undefined | Value::OfType(_) => true,
        _ => false,
    }
}

/// Whether a value, where it is a number, is an amount that the shift takes.
fn is_amount_of(op: Shift, value: &Value) -> bool
    ensures { result ≡ true → (types : List TypeTree) → IfNumber (IsAmountFor op) (value_tree types value.now) }
{
    match op {
        Shift::ShlSat => is_natural(value),
        Shift::Shl | Shift::Shr | Shift::ShlExact | Shift::ShrExact => true,
    }
}

/// Whether the operands are such as the shift takes.
pub(crate) fn are_shifted(op: Shift, ty: IntTy, args: &[Value]) -> bool
    requires { IsType ty }
    ensures { result ≡ true → (types : List TypeTree) → AreShifted op ty (map (value_tree types) args.now) }
{
    match two(args) {
        Some((a, b)) => is_number_of(ty, a) && is_amount_of(op, b),
        None => false,
    }
}

/// Whether the type has a number of bits.
pub(crate) fn is_sized(ty: IntTy) -> bool
    ensures { result ≡ true → IsSized ty }
{
    matches!(ty, IntTy::Sized { .. })
}

/// Whether the bits of a type are whole bytes.
fn has_whole_bytes(ty: IntTy) -> bool
    ensures { result ≡ true → width ty % 8 ≡ 0 }
{
    match ty {
        IntTy::Sized { bits, .. } => bits % 8 == 0,
        IntTy::Comptime => false,
    }
}

/// Whether two integer types are one.
fn are_same(a: IntTy, b: IntTy) -> bool
    ensures { result ≡ true → a ≡ b }
{
    a == b
}

/// Whether a value, where it is a number, is one of the sized type.
fn is_sized_number(ty: IntTy, value: &Value) -> bool
    requires { IsType ty }
    ensures { result ≡ true → (types : List TypeTree) → IfNumber (λ z. IsSized ty × IsIn ty z) (value_tree types value.now) }
{
    is_sized(ty) && is_number_of(ty, value)
}

/// Whether a value, where it is a number, is one whose bits are turned.
fn is_turned(own: IntTy, ty: IntTy, value: &Value) -> bool
    requires { IsType ty }
    ensures { result ≡ true → (types : List TypeTree) → IfNumber (λ z. (own ≡ ty) × IsSized ty × IsIn ty z) (value_tree types value.now) }
{
    are_same(own, ty) && is_sized_number(ty, value)
}

/// Whether a value, where it is a number, is one whose bytes are swapped.
fn is_swapped(own: IntTy, ty: IntTy, value: &Value) -> bool
    requires { IsType ty }
    ensures { result ≡ true → (types : List TypeTree) → IfNumber (λ z. (own ≡ ty) × IsSized ty × (width ty % 8 ≡ 0) × IsIn ty z) (value_tree types value.now) }
{
    has_whole_bytes(ty) && is_turned(own, ty, value)
}

/// Whether a value, where it is a number, is such as the operator of one integer takes.
fn is_unary_operand(op: Unary, own: IntTy, ty: IntTy, value: &Value) -> bool
    requires { IsType ty }
    ensures { result ≡ true → (types : List TypeTree) → IfNumber (IsOperandOf op own ty) (value_tree types value.now) }
{
    match op {
        Unary::Neg => is_number_of(ty, value),
        Unary::NegWrap => is_number_of(ty, value),
        Unary::BitNot => is_sized_number(ty, value),
        Unary::ByteSwap => is_swapped(own, ty, value),
        Unary::BitReverse => is_turned(own, ty, value),
        Unary::Abs => true,
    }
}

/// The same of the one operand.
pub(crate) fn are_unary_operands(op: Unary, own: IntTy, ty: IntTy, args: &[Value]) -> bool
    requires { IsType ty }
    ensures { result ≡ true → (types : List TypeTree) → All (IfNumber (IsOperandOf op own ty)) (map (value_tree types) args.now) }
{
    match one(args) {
        Some(a) => is_unary_operand(op, own, ty, a),
        None => false,
    }
}
