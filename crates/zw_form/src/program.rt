// A file of the form with parameters and called functions by number.
use sqlite_items::Items;
use zw_num::Arithmetic;

/// A function of the host that exported functions call: its name, how many `u32` parameters it has, and whether it gives
/// a `u32`.
#[derive(Debug, Drop)]
pub struct Import {
    pub name: Items<u8>,
    pub params: u32,
    pub has_result: bool,
}

/// What a function does next. An action takes the values that it needs, the last ones, and puts its own in their place.
#[derive(Clone, Copy, Debug, PartialEq, Eq)]
pub enum Action {
    /// The value of the parameter with this number, from 0.
    Parameter(u32),
    /// This number.
    Number(u32),
    /// Takes two values, of which the second is the right operand.
    Operate(Arithmetic),
    /// Takes the arguments of the import with this number, from 0.
    Call(u32),
}

/// An exported function: its name, how many `u32` parameters it has, and what it does. The last value is its result.
#[derive(Debug, Drop)]
pub struct Function {
    pub name: Items<u8>,
    pub params: u32,
    pub actions: Items<Action>,
}

/// The exported functions in the order of the text, and the functions that they call in the order of first reference.
#[derive(Debug, Drop)]
pub struct Program {
    pub imports: Items<Import>,
    pub functions: Items<Function>,
}
