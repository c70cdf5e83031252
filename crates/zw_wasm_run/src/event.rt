// What a call shows, and how it ends.

use sqlite_items::Items;
use zw_wasm::Num;

/// A call of an imported function, by its number: the arguments that are shown as numbers, in the order of the parameters, and
/// the bytes that pointers and lengths show, in that order.
#[derive(Debug, Drop)]
pub struct Event {
    pub import: u32,
    pub args: Items<Num>,
    pub shown: Items<Items<u8>>,
}

/// How a call of an exported function ends.
#[derive(Clone, Copy, Debug, PartialEq, Eq)]
pub enum Outcome {
    /// It returned, with its result where it has one.
    Result(Option<Num>),
    /// A function of the host has a result, and no reply is left.
    WantsReply,
    /// Another instruction was due, and no step was left.
    StepsOut,
    /// It trapped: 1 at `unreachable`, 2 at a place outside the memory, 3 at a divisor of 0, 4 at a result that no bits of its
    /// type stand for, 5 at a hole of the table or outside it, 6 at a function of another type, 7 at too many frames.
    Trap(u8),
    /// An earlier call of the machine ended by something else than a result; nothing was done.
    Over,
}
