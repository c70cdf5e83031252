// The code of `@byteSwap` and `@bitReverse` where a type has more than 32 bits: digits change places with their neighbours.
ghost use Rattle.std.specs.Prelude.{◌≡◌, ◌≤◌, ◌++◌, pos, OnOk};
ghost use Rattle.zw_safety_narrow.specs.ReversalCode.{every_other};
ghost use Rattle.zw_safety_narrow.specs.declared.setting.TheConstants.{GREATEST_SCRATCH};
ghost use Rattle.zw_safety_wide.specs.WideReversalCode.{long_neighbours_swapped, long_bytes_turned, long_bits_turned, long_lowered, with_bits, wide_byte_swap_code, wide_bit_reverse_code};

use std::alloc::AllocError;
use zw_num::IntTy;
use zw_safety_narrow::{Setting, holds, width};
use zw_safety_words::{push_long_moved, push_settled, push_wide_fitted, push_widened};
use zw_wasm::{BinaryOperator, Instr, ValType};

/// Appends the code of `@byteSwap`.
pub fn push_wide_byte_swap(setting: Setting, out: &mut Vec<Instr>) -> Result<(), AllocError>
    requires { setting.scratch ≤ GREATEST_SCRATCH }
    ensures { OnOk result (out.new.items ≡ out.old.items ++ wide_byte_swap_code setting.left setting.to setting.scratch) }
{
    push_widened(setting.left, out)?;
    let bits = width(setting.left);
    if bits == 0 {
        return push_settled(setting.to, out);
    }
    push_turned_bytes(setting.scratch, out)?;
    push_lowered(setting.left, out)?;
    push_with_bits(bits, setting.to, out)
}

/// Appends the code of `@bitReverse`.
pub fn push_wide_bit_reverse(setting: Setting, out: &mut Vec<Instr>) -> Result<(), AllocError>
    requires { setting.scratch ≤ GREATEST_SCRATCH }
    ensures { OnOk result (out.new.items ≡ out.old.items ++ wide_bit_reverse_code setting.left setting.to setting.scratch) }
{
    push_widened(setting.left, out)?;
    let bits = width(setting.left);
    if bits == 0 {
        return push_settled(setting.to, out);
    }
    push_turned_bits(setting.scratch, out)?;
    push_lowered(setting.left, out)?;
    push_with_bits(bits, setting.to, out)
}

/// Appends code that puts the eight bytes in the other order.
fn push_turned_bytes(scratch: u32, out: &mut Vec<Instr>) -> Result<(), AllocError>
    requires { scratch ≤ GREATEST_SCRATCH }
    ensures { OnOk result (out.new.items ≡ out.old.items ++ long_bytes_turned scratch) }
{
    push_swapped(8, 0x00ff_00ff_00ff_00ff, scratch, out)?;
    push_swapped(16, 0x0000_ffff_0000_ffff, scratch, out)?;
    push_swapped(32, 0x0000_0000_ffff_ffff, scratch, out)?;
    Ok(())
}

/// Appends code that puts the 64 bits in the other order.
fn push_turned_bits(scratch: u32, out: &mut Vec<Instr>) -> Result<(), AllocError>
    requires { scratch ≤ GREATEST_SCRATCH }
    ensures { OnOk result (out.new.items ≡ out.old.items ++ long_bits_turned scratch) }
{
    push_swapped(1, 0x5555_5555_5555_5555, scratch, out)?;
    push_swapped(2, 0x3333_3333_3333_3333, scratch, out)?;
    push_swapped(4, 0x0f0f_0f0f_0f0f_0f0f, scratch, out)?;
    push_turned_bytes(scratch, out)?;
    Ok(())
}

/// Appends code in which neighbouring digits of so many bits change places. The mask has the bits of every second digit, from the
/// lowest one on.
fn push_swapped(bits: u8, mask: i64, scratch: u32, out: &mut Vec<Instr>) -> Result<(), AllocError>
    requires mask { mask ≡ pos (every_other 64 bits) }
    requires scratch { scratch ≤ GREATEST_SCRATCH }
    ensures { OnOk result (out.new.items ≡ out.old.items ++ long_neighbours_swapped bits scratch) }
{
    out.push(Instr::LocalTee(scratch + 4))?;
    push_long_moved(mask, BinaryOperator::And, out)?;
    push_long_moved(i64::from(bits), BinaryOperator::Shl, out)?;
    out.push(Instr::LocalGet(scratch + 4))?;
    push_long_moved(i64::from(bits), BinaryOperator::ShrU, out)?;
    push_long_moved(mask, BinaryOperator::And, out)?;
    out.push(Instr::Binary(ValType::I64, BinaryOperator::Add))?;
    Ok(())
}

/// Appends code that moves the bits of the type from the top down to their place.
fn push_lowered(from: IntTy, out: &mut Vec<Instr>) -> Result<(), AllocError>
    ensures { OnOk result (out.new.items ≡ out.old.items ++ long_lowered from) }
{
    let bits = width(from);
    if bits < 64 {
        push_long_moved(i64::from(64 - bits), BinaryOperator::ShrU, out)?;
    }
    Ok(())
}

/// Appends code that leaves the value of a type with so many bits, above which zeros stand.
fn push_with_bits(bits: u8, to: IntTy, out: &mut Vec<Instr>) -> Result<(), AllocError>
    ensures { OnOk result (out.new.items ≡ out.old.items ++ with_bits bits to) }
{
    let unsigned = IntTy::Sized {
        signed: false,
        bits,
    };
    if holds(to, unsigned) {
        push_settled(to, out)
    } else {
        push_wide_fitted(to, out)
    }
}
