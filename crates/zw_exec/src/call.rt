// Calls of a session.

use sqlite_items::Items;
use zw_base::Word;
use zw_report::Arg;
use zw_wasm::Num;

/// A call of an exported function: its name and its number, the values of the arguments' words, and the numbers of the
/// parameters' types that they are.
#[derive(Debug, Drop)]
pub struct SessionCall {
    pub name: Word,
    pub func: u32,
    pub args: Items<Arg>,
    pub nums: Items<Num>,
}
