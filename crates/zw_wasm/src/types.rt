// Types of values, and of a module's functions by their numbers (2.3.1, 2.5.3).
ghost use Rattle.std.specs.Prelude.{◌≡◌, option_copied, slice_get};
ghost use Rattle.zw_wasm.specs.Functions.{func_type, func_type_indices};
ghost use Rattle.zw_wasm.specs.Typing.{same_type};

use crate::module::{FuncType, Module, ValType};
use sqlite_items::at;

/// The type of a function, by its number among the imported ones and those with a body, where both are there.
pub fn func_type(m: &Module, func: usize) -> Option<&FuncType>
    ensures { option_copied result ≡ func_type m.now func }
{
    let number = type_number(m, func)?;
    at(m.types.as_slice(), number as usize)
}

/// The number of a function's type.
fn type_number(m: &Module, func: usize) -> Option<u32>
    ensures { result ≡ slice_get (func_type_indices m.now) func }
{
    if func < m.imports.len() {
        return Some(m.imports.as_slice()[func].ty);
    }
    at(m.funcs.as_slice(), func - m.imports.len()).copied()
}

/// Whether two types are the same.
pub fn same_type(left: ValType, right: ValType) -> bool
    ensures { result ≡ same_type left right }
{
    matches!(
        (left, right),
        (ValType::I32, ValType::I32) | (ValType::I64, ValType::I64)
    )
}
