// What a machine holds.
ghost use Rattle.std.specs.Prelude.{◌≡◌, false};
ghost use Rattle.zw_wasm_sound.specs.Configurations.{IsTypedStore};
ghost use Rattle.zw_wasm_run.specs.Shows.{AreShows};
ghost use Rattle.zw_wasm_run.specs.Stores.{stored};

use crate::code::Code;
use crate::machine::Show;
use crate::stacks::Stacks;
use crate::store::Store;
use sqlite_items::Items;

/// The code of a valid module, the values of its globals, its memory and its table, the stacks of its calls, and whether a call
/// ended otherwise than by a result.
#[derive(Drop)]
pub struct Machine {
    pub(crate) code: Code,
    pub(crate) shows: Items<Show>,
    pub(crate) store: Store,
    pub(crate) stacks: Stacks,
    pub(crate) over: bool,
    pub(crate) ghost shown: { AreShows code shows },
    pub(crate) ghost typed: { over ≡ false → IsTypedStore code (stored store) },
}
