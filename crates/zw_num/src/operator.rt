//! The operators and builtins on numbers and truth values, in families: one list for every crate (Zig Language Reference 0.13.0,
//! Operators and Builtin Functions). What each means stands in `specs/Meanings.antt`.

/// `+`, `-` and `*`: exact, wrapping and saturating, of two integers in the type of the result. The exact ones fault with `Overflow`.
#[derive(Clone, Copy, Debug, PartialEq, Eq)]
pub enum Arithmetic {
    /// `a + b`
    Add,
    /// `a - b`
    Sub,
    /// `a * b`
    Mul,
    /// `a +% b`
    AddWrap,
    /// `a -% b`
    SubWrap,
    /// `a *% b`
    MulWrap,
    /// `a +| b`
    AddSat,
    /// `a -| b`
    SubSat,
    /// `a *| b`
    MulSat,
}

/// Quotients and remainders of two integers. They fault with `DivZero`, a quotient with `Overflow`, `DivExact` with `Remainder`.
#[derive(Clone, Copy, Debug, PartialEq, Eq)]
pub enum Division {
    /// `a / b`, of numbers that aren't negative
    Div,
    /// `a % b`, of numbers that aren't negative
    Rem,
    /// `@divTrunc`, rounded toward zero
    DivTrunc,
    /// `@divFloor`, rounded down
    DivFloor,
    /// `@divExact`, without a remainder
    DivExact,
    /// `@rem`, what `@divTrunc` leaves
    RemTrunc,
    /// `@mod`, what `@divFloor` leaves
    Mod,
}

/// `&`, `|` and `^`, bit by bit in two's complement. They never fault.
#[derive(Clone, Copy, Debug, PartialEq, Eq)]
pub enum Bitwise {
    /// `a & b`
    And,
    /// `a | b`
    Or,
    /// `a ^ b`
    Xor,
}

/// Shifts of an integer of the result's type by an amount. All but `ShlSat` fault with `ShiftAmount`, the exact ones with `ShiftBits`.
#[derive(Clone, Copy, Debug, PartialEq, Eq)]
pub enum Shift {
    /// `a << b`
    Shl,
    /// `a >> b`
    Shr,
    /// `a <<| b`
    ShlSat,
    /// `@shlExact`
    ShlExact,
    /// `@shrExact`
    ShrExact,
}

/// Comparisons of exact values, whatever their types. They never fault.
#[derive(Clone, Copy, Debug, PartialEq, Eq)]
pub enum Comparison {
    /// `a == b`
    Equal,
    /// `a != b`
    NotEqual,
    /// `a < b`
    Less,
    /// `a <= b`
    LessOrEqual,
    /// `a > b`
    Greater,
    /// `a >= b`
    GreaterOrEqual,
}

/// `@min` and `@max` of one integer or more. They never fault.
#[derive(Clone, Copy, Debug, PartialEq, Eq)]
pub enum Extreme {
    /// `@min`
    Min,
    /// `@max`
    Max,
}

/// Operators of one integer. `Neg` and `Abs` fault with `Overflow`.
#[derive(Clone, Copy, Debug, PartialEq, Eq)]
pub enum Unary {
    /// `-a`
    Neg,
    /// `-%a`
    NegWrap,
    /// `~a`
    BitNot,
    /// `@byteSwap`, of whole bytes
    ByteSwap,
    /// `@bitReverse`
    BitReverse,
    /// `@abs`
    Abs,
}

/// Counts of an integer's bits in the width of its type. They never fault.
#[derive(Clone, Copy, Debug, PartialEq, Eq)]
pub enum Count {
    /// `@clz`, zeros from the top
    Clz,
    /// `@ctz`, zeros from the bottom
    Ctz,
    /// `@popCount`, ones
    PopCount,
}

/// Casts: a value becomes one of another type. `IntCast` faults with `Truncated` and `Negative`.
#[derive(Clone, Copy, Debug, PartialEq, Eq)]
pub enum Cast {
    /// `@as`, of a value that the type has
    As,
    /// `@intCast`
    IntCast,
    /// `@truncate`, to the low bits
    Truncate,
    /// `@bitCast`, to a type of the same width
    BitCast,
    /// `@intFromBool`
    IntFromBool,
}

/// Operators of truth values. They never fault.
#[derive(Clone, Copy, Debug, PartialEq, Eq)]
pub enum Logic {
    /// `a and b`
    And,
    /// `a or b`
    Or,
    /// `!a`
    Not,
}

/// What a type tells of its values' room. They never fault.
#[derive(Clone, Copy, Debug, PartialEq, Eq)]
pub enum Measure {
    /// `@sizeOf`
    SizeOf,
    /// `@alignOf`
    AlignOf,
    /// `@bitSizeOf`
    BitSizeOf,
}

/// An operator or builtin on numbers and truth values.
#[derive(Clone, Copy, Debug, PartialEq, Eq)]
pub enum Operator {
    Arithmetic(Arithmetic),
    Division(Division),
    Bitwise(Bitwise),
    Shift(Shift),
    Comparison(Comparison),
    Extreme(Extreme),
    Unary(Unary),
    Count(Count),
    Cast(Cast),
    Logic(Logic),
    Measure(Measure),
}
