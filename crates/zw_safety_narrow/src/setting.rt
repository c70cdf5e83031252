use zw_num::IntTy;

/// The greatest number of a scratch local: eight locals from it on have numbers of 32 bits.
pub const GREATEST_SCRATCH: u32 = 4294967287;

/// What the code of an operator is made for: the types of operands and result, and the first of the eight locals that it writes.
#[derive(Clone, Copy)]
pub struct Setting {
    pub left: IntTy,
    pub right: IntTy,
    pub to: IntTy,
    pub scratch: u32,
}
