// What the code of a function stands in: its parameters and locals.
ghost use Rattle.std.specs.Prelude.{◌≡◌, ◌++◌, slice_get};
ghost use Rattle.zw_wasm.specs.Validity.{expanded};

use crate::locals::Locals;
use sqlite_items::at;
use zw_wasm::{FuncType, ValType};

/// The type of a parameter or local, by its number, where it is there.
pub fn local_type(ty: &FuncType, locals: &Locals, local: u32) -> Option<ValType>
    ensures { result ≡ slice_get (ty.now.params ++ expanded locals.now) local }
{
    let local = local as usize;
    if local < ty.params.len() {
        return at(ty.params.as_slice(), local).copied();
    }
    locals.type_of(local - ty.params.len())
}
