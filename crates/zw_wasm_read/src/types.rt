// Types (5.3).
ghost use Rattle.zw_wasm.specs.ModuleBytes.{AreLimits, IsBlockType, IsFunctionType, IsMutability, IsResultType, IsTableType, IsValueType};
ghost use Rattle.zw_wasm_read.specs.Reads.{Reads};

use crate::bytes::{pass_byte, read_byte, read_u32};
use crate::unread::Unread;
use crate::vectors::{Decode, read_vector};
use std::alloc::Global;
use zw_wasm::{FuncType, Limits, ValType};

/// The type of a value.
pub(crate) fn read_value_type(b: &[u8]) -> Result<(ValType, &[u8]), Unread>
    ensures { Reads IsValueType b.now result }
{
    match read_byte(b)? {
        (0x7F, rest) => Ok((ValType::I32, rest)),
        (0x7E, rest) => Ok((ValType::I64, rest)),
        _ => Err(Unread::Unfit),
    }
}

/// The type of a block's result, where it has one.
pub(crate) fn read_block_type(b: &[u8]) -> Result<(Option<ValType>, &[u8]), Unread>
    ensures { Reads IsBlockType b.now result }
{
    match read_byte(b)? {
        (0x40, rest) => Ok((None, rest)),
        (0x7F, rest) => Ok((Some(ValType::I32), rest)),
        (0x7E, rest) => Ok((Some(ValType::I64), rest)),
        _ => Err(Unread::Unfit),
    }
}

/// Whether a global may be written.
pub(crate) fn read_mutability(b: &[u8]) -> Result<(bool, &[u8]), Unread>
    ensures { Reads IsMutability b.now result }
{
    match read_byte(b)? {
        (0x00, rest) => Ok((false, rest)),
        (0x01, rest) => Ok((true, rest)),
        _ => Err(Unread::Unfit),
    }
}

/// The result of a function, where it has one.
fn read_result_type(b: &[u8]) -> Result<(Option<ValType>, &[u8]), Unread>
    ensures { Reads IsResultType b.now result }
{
    let (count, b) = read_u32(b)?;
    if count == 0 {
        return Ok((None, b));
    }
    if count > 1 {
        return Err(Unread::Unfit);
    }
    let (ty, b) = read_value_type(b)?;
    Ok((Some(ty), b))
}

/// The type of a function.
pub(crate) fn read_function_type(alloc: Global, b: &[u8]) -> Result<(FuncType, &[u8]), Unread>
    ensures { Reads IsFunctionType b.now result }
{
    let b = pass_byte(0x60, b)?;
    let (params, b) = read_vector(alloc, b)?;
    let (result, b) = read_result_type(b)?;
    Ok((FuncType { params, result }, b))
}

/// The limits of a table or of a memory.
pub(crate) fn read_limits(b: &[u8]) -> Result<(Limits, &[u8]), Unread>
    ensures { Reads AreLimits b.now result }
{
    let (flag, b) = read_byte(b)?;
    if flag > 1 {
        return Err(Unread::Unfit);
    }
    let (least, b) = read_u32(b)?;
    let mut limits = Limits {
        least,
        greatest: None,
    };
    if flag == 0 {
        return Ok((limits, b));
    }
    let (greatest, b) = read_u32(b)?;
    limits.greatest = Some(greatest);
    Ok((limits, b))
}

/// The type of a table.
pub(crate) fn read_table_type(b: &[u8]) -> Result<(Limits, &[u8]), Unread>
    ensures { Reads IsTableType b.now result }
{
    let b = pass_byte(0x70, b)?;
    read_limits(b)
}
