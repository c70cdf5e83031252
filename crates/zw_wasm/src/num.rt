// Numbers as code computes them.

/// A number of 32 or of 64 bits, read without a sign (4.2.1).
#[derive(Clone, Copy, Debug, PartialEq, Eq)]
pub enum Num {
    I32(u32),
    I64(u64),
}
