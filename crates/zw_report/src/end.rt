// How a call ends, as its line tells it.

use crate::item::ItemTy;
use sqlite_items::Items;
use zw_wasm::Num;

/// How a call of an exported function ends.
#[derive(Debug, Drop)]
pub enum End {
    /// It returned: nothing of type `Void`, or a number of an integer type or of `Bool`.
    Result { ty: ItemTy, num: Option<Num> },
    /// It panicked, by its cause from 1 to 19. The message is that of cause 18; it isn't looked at for another one.
    Panic { cause: u8, message: Items<u8> },
    /// A reply was wanted and none was left.
    WantsReply,
    /// All steps were taken.
    StepsOut,
    /// A trap without a panic cause.
    Trap,
}
