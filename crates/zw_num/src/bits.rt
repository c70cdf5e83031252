// Operators on the bits of two's complement (Zig Language Reference 0.13.0, Operators).
ghost use Rattle.std.specs.Prelude.{◌≡◌};
ghost use Rattle.zw_num.specs.Arithmetic.{IsType, IsSized, IsIn, wrapped, bits_and, bits_or, bits_xor, bits_not};

use crate::IntTy;

/// `a & b`: the value with the bits that both have.
pub fn bit_and(ty: IntTy, a: i128, b: i128) -> i128
    requires is_type { IsType ty }
    requires a_in { IsIn ty a }
    requires b_in { IsIn ty b }
    ensures value { result ≡ bits_and a b }
    ensures in_type { IsIn ty result }
{
    a & b
}

/// `a | b`: the value with the bits that one of the two or both have.
pub fn bit_or(ty: IntTy, a: i128, b: i128) -> i128
    requires is_type { IsType ty }
    requires a_in { IsIn ty a }
    requires b_in { IsIn ty b }
    ensures value { result ≡ bits_or a b }
    ensures in_type { IsIn ty result }
{
    a | b
}

/// `a ^ b`: the value with the bits that just one of the two has.
pub fn bit_xor(ty: IntTy, a: i128, b: i128) -> i128
    requires is_type { IsType ty }
    requires a_in { IsIn ty a }
    requires b_in { IsIn ty b }
    ensures value { result ≡ bits_xor a b }
    ensures in_type { IsIn ty result }
{
    a ^ b
}

/// `~a`: the value of the sized type with the bits that a doesn't have.
pub fn bit_not(ty: IntTy, a: i128) -> i128
    requires is_type { IsType ty }
    requires sized { IsSized ty }
    requires a_in { IsIn ty a }
    ensures { result ≡ wrapped ty (bits_not a) }
{
    ty.wrap(!a)
}
