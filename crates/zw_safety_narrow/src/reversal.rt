// The code of `@byteSwap` and `@bitReverse`: digits change places with their neighbours.
ghost use Rattle.std.specs.Prelude.{◌≡◌, ◌++◌, pos, OnOk};
ghost use Rattle.zw_num.specs.declared.int_ty.IntTy.TheVariants.{Sized};
ghost use Rattle.zw_safety_narrow.specs.Operators.{IsNarrow};
ghost use Rattle.zw_safety_narrow.specs.ReversalCode.{every_other, neighbours_swapped, bytes_turned, bits_turned, lowered, byte_swap_code, bit_reverse_code};

use crate::casts::push_truncated;
use crate::operators::push_moved;
use crate::shifts::width;
use std::alloc::AllocError;
use zw_num::IntTy;
use zw_wasm::{BinaryOperator, Instr, ValType};

/// Appends the code of `@byteSwap`.
pub fn push_byte_swap(
    from: IntTy,
    to: IntTy,
    scratch: u32,
    out: &mut Vec<Instr>,
) -> Result<(), AllocError>
    requires narrow { IsNarrow to }
    ensures { OnOk result (out.new.items ≡ out.old.items ++ byte_swap_code from to scratch) }
{
    let bits = width(from);
    if bits == 0 {
        return Ok(());
    }
    push_turned_bytes(scratch, out)?;
    push_lowered(from, out)?;
    push_truncated(
        IntTy::Sized {
            signed: false,
            bits,
        },
        to,
        out,
    )?;
    Ok(())
}

/// Appends the code of `@bitReverse`.
pub fn push_bit_reverse(
    from: IntTy,
    to: IntTy,
    scratch: u32,
    out: &mut Vec<Instr>,
) -> Result<(), AllocError>
    requires narrow { IsNarrow to }
    ensures { OnOk result (out.new.items ≡ out.old.items ++ bit_reverse_code from to scratch) }
{
    let bits = width(from);
    if bits == 0 {
        return Ok(());
    }
    push_turned_bits(scratch, out)?;
    push_lowered(from, out)?;
    push_truncated(
        IntTy::Sized {
            signed: false,
            bits,
        },
        to,
        out,
    )?;
    Ok(())
}

/// Appends code that puts the four bytes in the other order.
fn push_turned_bytes(scratch: u32, out: &mut Vec<Instr>) -> Result<(), AllocError>
    ensures { OnOk result (out.new.items ≡ out.old.items ++ bytes_turned scratch) }
{
    push_swapped(8, 0x00ff_00ff, scratch, out)?;
    push_swapped(16, 0x0000_ffff, scratch, out)?;
    Ok(())
}

/// Appends code that puts the 32 bits in the other order.
fn push_turned_bits(scratch: u32, out: &mut Vec<Instr>) -> Result<(), AllocError>
    ensures { OnOk result (out.new.items ≡ out.old.items ++ bits_turned scratch) }
{
    push_swapped(1, 0x5555_5555, scratch, out)?;
    push_swapped(2, 0x3333_3333, scratch, out)?;
    push_swapped(4, 0x0f0f_0f0f, scratch, out)?;
    push_turned_bytes(scratch, out)?;
    Ok(())
}

/// Appends code in which neighbouring digits of so many bits change places. The mask has the bits of every second digit, from the
/// lowest one on.
fn push_swapped(bits: u8, mask: i32, scratch: u32, out: &mut Vec<Instr>) -> Result<(), AllocError>
    requires { mask ≡ pos (every_other 32 bits) }
    ensures { OnOk result (out.new.items ≡ out.old.items ++ neighbours_swapped bits scratch) }
{
    out.push(Instr::LocalTee(scratch))?;
    push_moved(mask, BinaryOperator::And, out)?;
    push_moved(i32::from(bits), BinaryOperator::Shl, out)?;
    out.push(Instr::LocalGet(scratch))?;
    push_moved(i32::from(bits), BinaryOperator::ShrU, out)?;
    push_moved(mask, BinaryOperator::And, out)?;
    out.push(Instr::Binary(ValType::I32, BinaryOperator::Add))?;
    Ok(())
}

/// Appends code that moves the bits of the type from the top down to their place.
fn push_lowered(from: IntTy, out: &mut Vec<Instr>) -> Result<(), AllocError>
    ensures { OnOk result (out.new.items ≡ out.old.items ++ lowered from) }
{
    let bits = width(from);
    if bits < 32 {
        push_moved(i32::from(32 - bits), BinaryOperator::ShrU, out)?;
    }
    Ok(())
}
