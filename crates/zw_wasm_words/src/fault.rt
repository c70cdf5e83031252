// Why operators on numbers give none.

/// Why an operator gives no number (4.3.2).
#[derive(Clone, Copy, Debug, PartialEq, Eq)]
pub enum Fault {
    /// Its divisor is 0.
    DividesByZero,
    /// Its result has no bits of the operands' width.
    Overflows,
}
