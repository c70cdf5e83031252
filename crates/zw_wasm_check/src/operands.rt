// The operands of the code between a block's begin and its end, the last at the end. An operand has a type, or none where
// code out of reach takes it from nowhere.
ghost use Rattle.std.specs.Prelude.{◌≡◌, Some, None, OnOk, if◌then◌else◌};
ghost use Rattle.std.specs.Option.{option_to_list};
ghost use Rattle.zw_wasm.specs.Typing.{all_taken, one_taken, put_on, taken};
ghost use Rattle.zw_wasm_check.specs.Operands.{one_of, operands_of};

use sqlite_items::Items;
use std::alloc::AllocError;
use zw_wasm::{ValType, same_type};

/// Takes the last operand, of any type. Code out of reach finds one where none is left.
pub fn take_one(operands: &mut Items<Option<ValType>>, unreachable: bool) -> Option<Option<ValType>>
    ensures { one_taken (operands_of operands.old) unreachable ≡ one_of result operands.new }
{
    if let Some(operand) = operands.pop() {
        return Some(operand);
    }
    if unreachable { Some(None) } else { None }
}

/// Takes the last operand, and tells whether there is one that has this type.
pub fn take(operands: &mut Items<Option<ValType>>, ty: ValType, unreachable: bool) -> bool
    ensures { taken ty (operands_of operands.old) unreachable ≡ (if result then Some (operands_of operands.new) else None) }
{
    match take_one(operands, unreachable) {
        Some(Some(found)) => same_type(ty, found),
        Some(None) => true,
        None => false,
    }
}

/// Takes operands of these types, of which the last is taken first, and tells whether they are there. Where none is left, code
/// out of reach has those that are still wanted, so that it costs no more than what stands there.
pub fn take_all(operands: &mut Items<Option<ValType>>, types: &[ValType], unreachable: bool) -> bool
    ensures { all_taken types.now (operands_of operands.old) unreachable ≡ (if result then Some (operands_of operands.new) else None) }
{
    for place in (0..types.len()).rev() {
        if operands.is_empty() {
            return unreachable;
        }
        if !take(operands, types[place], unreachable) {
            return false;
        }
    }
    true
}

/// Puts an operand of this type on the others, where there is one.
pub fn put(operands: &mut Items<Option<ValType>>, ty: Option<ValType>) -> Result<(), AllocError>
    ensures { OnOk result (operands_of operands.new ≡ put_on (option_to_list ty) (operands_of operands.old)) }
{
    match ty {
        Some(_) => operands.push(ty),
        None => Ok(()),
    }
}
