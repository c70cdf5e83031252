// From a text to a module.
ghost use Rattle.std.specs.Prelude.{◌≤◌, length};
ghost use Rattle.zw_drive.specs.Ends.{Compiles};

use std::alloc::Global;
use zw_base::Refused;
use zw_form::read_form;
use zw_lower::lower;
use zw_wasm::Module;

/// The module of a text of at most 4,194,304 bytes. A text that isn't of the form is its stop: where it has no tokens (errors 3, 4, 5
/// and 7), where it has no tree (error 6, limit 3), or of its members (error 36, limits 5 and 11).
pub fn compile(alloc: Global, text: &[u8]) -> Result<Module, Refused>
    requires { length text.now ≤ 4194304 }
    ensures { Compiles text.now result }
{
    match read_form(alloc, text) {
        Ok(program) => Ok(lower(alloc, &program)?),
        Err(refused) => Err(refused),
    }
}
