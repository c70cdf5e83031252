// The exports of a module: each is there, and no two have one name (3.4.8, 3.4.10).
ghost use Rattle.std.specs.Prelude.{◌≡◌, IfOk};
ghost use Rattle.zw_wasm.specs.Validity.{export_ok, first_refused};

use crate::entries::is_there;
use indexmap::IndexSet;
use std::alloc::{AllocError, Global};
use zw_names::insert;
use zw_wasm::Module;

/// The number of the first export that isn't there or has the name of an earlier one.
pub fn refused_export(alloc: Global, m: &Module) -> Result<Option<usize>, AllocError>
    ensures { IfOk result (λ first. first ≡ first_refused (export_ok m.now) 0 m.now.exports) }
{
    let mut names = IndexSet::new(alloc);
    for (number, export) in m.exports.as_slice().iter().enumerate() {
        if !is_there(m, export) {
            return Ok(Some(number));
        }
        if !insert(alloc, &mut names, export.name.as_slice())? {
            return Ok(Some(number));
        }
    }
    Ok(None)
}
