// Rows of arithmetic on whole numbers.
ghost use Rattle.std.specs.Prelude.{◌≡◌, ◌%◌, IfSome, true};
ghost use Rattle.zw_num.specs.Arithmetic.{IsType, IsSized, IsIn, width};

use std::alloc::Global;
use zw_num::{
    IntTy, NumFault, add, add_sat, add_wrap, bit_and, bit_not, bit_or, bit_reverse, bit_xor,
    byte_swap, cast, clz, ctz, div_exact, div_floor, div_trunc, modulo, mul, mul_sat, mul_wrap,
    neg, pop_count, rem, shl, shl_exact, shl_sat, shr, shr_exact, sub, sub_sat, sub_wrap, truncate,
};
use zw_rows_base::{Field, Mistake, Problem, Report};

/// What an operator gives, where the row's operands are such as it takes.
type Given = Option<Result<i128, NumFault>>;

/// `num NAME`: lines `OPERATOR TYPE A B = RESULT`, where the result is a number or the name of a fault. An operator of one
/// operand has any number as its second.
pub fn check_num(alloc: Global, fields: &[Field<'_>]) -> Result<Report, Mistake> {
    let mut report = Report::new(alloc);
    for field in fields {
        let Some((case, wanted)) = field.line.rest.split_once(" = ") else {
            return Err(field.wrong(Problem::MissingWord));
        };
        let Some((ty, a, b)) = case_of(case) else {
            return Err(field.wrong(Problem::BadNumber));
        };
        let came = match result_of(field.line.word, ty, a, b) {
            Some(Ok(number)) => format!(in alloc; "{number}")?,
            Some(Err(fault)) => format!(in alloc; "{fault:?}")?,
            None => return Err(field.wrong(Problem::UnknownWord)),
        };
        report.compare(case, came.as_bytes(), wanted.as_bytes())?;
    }
    Ok(report)
}

/// The type and the operands of a line.
fn case_of(case: &str) -> Option<(IntTy, i128, i128)>
    ensures { IfSome result (λ r. IsType r.0) }
{
    let (ty, operands) = case.split_once(' ')?;
    let (a, b) = operands.split_once(' ')?;
    let ty = type_of(ty)?;
    let a = a.parse::<i128>().ok()?;
    let b = b.parse::<i128>().ok()?;
    Some((ty, a, b))
}

/// The type of this name.
pub fn type_of(name: &str) -> Option<IntTy>
    ensures { IfSome result IsType }
{
    if name == "comptime_int" {
        return Some(IntTy::Comptime);
    }
    if let Some(bits) = name.strip_prefix('i') {
        return sized(true, bits);
    }
    sized(false, name.strip_prefix('u')?)
}

/// The type of so many bits.
fn sized(signed: bool, bits: &str) -> Option<IntTy>
    ensures { IfSome result IsType }
{
    let bits = bits.parse::<u8>().ok()?;
    if bits > 64 {
        return None;
    }
    Some(IntTy::Sized { signed, bits })
}

/// Whether the number is a value of the type.
fn is_in(ty: IntTy, number: i128) -> bool
    requires { IsType ty }
    ensures { result ≡ true → IsIn ty number }
{
    ty.contains(number)
}

/// Whether the type has a number of bits.
fn is_sized(ty: IntTy) -> bool
    ensures { result ≡ true → IsSized ty }
{
    matches!(ty, IntTy::Sized { .. })
}

/// What an operator gives.
fn result_of(operator: &str, ty: IntTy, a: i128, b: i128) -> Given
    requires { IsType ty }
{
    if operator == "cast" {
        return Some(cast(ty, a));
    }
    if operator == "truncate" && is_sized(ty) {
        return Some(Ok(truncate(ty, a)));
    }
    if !is_in(ty, a) {
        return None;
    }
    let given = of_shift(operator, ty, a, b);
    if given.is_some() {
        return given;
    }
    let given = of_one(operator, ty, a);
    if given.is_some() || !is_in(ty, b) {
        return given;
    }
    let given = of_two(operator, ty, a, b);
    if given.is_some() || !is_sized(ty) {
        return given;
    }
    of_two_sized(operator, ty, a, b)
}

/// What a shift gives.
fn of_shift(operator: &str, ty: IntTy, a: i128, b: i128) -> Given
    requires is_type { IsType ty }
    requires a_in { IsIn ty a }
{
    match operator {
        "shl" => Some(shl(ty, a, b)),
        "shr" => Some(shr(ty, a, b)),
        "shl_exact" => Some(shl_exact(ty, a, b)),
        "shr_exact" => Some(shr_exact(ty, a, b)),
        "shl_sat" if is_sized(ty) && b >= 0 => Some(Ok(shl_sat(ty, a, b))),
        _ => None,
    }
}

/// What an operator of one operand gives.
fn of_one(operator: &str, ty: IntTy, a: i128) -> Given
    requires is_type { IsType ty }
    requires a_in { IsIn ty a }
{
    if operator == "neg" {
        return Some(neg(ty, a));
    }
    if !is_sized(ty) {
        return None;
    }
    match operator {
        "bit_not" => Some(Ok(bit_not(ty, a))),
        "bit_reverse" => Some(Ok(bit_reverse(ty, a))),
        "byte_swap" if has_whole_bytes(ty) => Some(Ok(byte_swap(ty, a))),
        "clz" => Some(Ok(clz(ty, a))),
        "ctz" => Some(Ok(ctz(ty, a))),
        "pop_count" => Some(Ok(pop_count(ty, a))),
        _ => None,
    }
}

/// Whether the bits of a type are whole bytes.
fn has_whole_bytes(ty: IntTy) -> bool
    ensures { result ≡ true → width ty % 8 ≡ 0 }
{
    match ty {
        IntTy::Sized { bits, .. } => bits % 8 == 0,
        IntTy::Comptime => false,
    }
}

/// What an operator of two operands gives on any type.
fn of_two(operator: &str, ty: IntTy, a: i128, b: i128) -> Given
    requires is_type { IsType ty }
    requires a_in { IsIn ty a }
    requires b_in { IsIn ty b }
{
    match operator {
        "add" => Some(add(ty, a, b)),
        "sub" => Some(sub(ty, a, b)),
        "mul" => Some(mul(ty, a, b)),
        "div_trunc" => Some(div_trunc(ty, a, b)),
        "div_floor" => Some(div_floor(ty, a, b)),
        "div_exact" => Some(div_exact(ty, a, b)),
        "rem" => Some(rem(ty, a, b)),
        "modulo" => Some(modulo(ty, a, b)),
        "bit_and" => Some(Ok(bit_and(ty, a, b))),
        "bit_or" => Some(Ok(bit_or(ty, a, b))),
        "bit_xor" => Some(Ok(bit_xor(ty, a, b))),
        _ => None,
    }
}

/// What an operator of two operands gives on a sized type.
fn of_two_sized(operator: &str, ty: IntTy, a: i128, b: i128) -> Given
    requires is_type { IsType ty }
    requires sized { IsSized ty }
    requires a_in { IsIn ty a }
    requires b_in { IsIn ty b }
{
    match operator {
        "add_wrap" => Some(Ok(add_wrap(ty, a, b))),
        "sub_wrap" => Some(Ok(sub_wrap(ty, a, b))),
        "mul_wrap" => Some(Ok(mul_wrap(ty, a, b))),
        "add_sat" => Some(Ok(add_sat(ty, a, b))),
        "sub_sat" => Some(Ok(sub_sat(ty, a, b))),
        "mul_sat" => Some(Ok(mul_sat(ty, a, b))),
        _ => None,
    }
}
