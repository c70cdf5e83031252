// What all frames of a machine share (4.2.3).
ghost use Rattle.std.specs.Prelude.{◌<◌, ◌^◌, length};

use sqlite_items::Items;
use zw_wasm::Num;

/// The values of the globals, the bytes of the memory, and the table's functions, of which some may not be set.
#[derive(Drop)]
pub struct Store {
    pub globals: Items<Num>,
    pub memory: Vec<u8>,
    pub table: Vec<Option<u32>>,
    pub ghost small: { length memory.items < 2 ^ 48 },
}
