// Instructions (5.4).
ghost use Rattle.std.specs.Prelude.{◌≤◌};
ghost use Rattle.zw_wasm.specs.ModuleBytes.{IsInstruction};
ghost use Rattle.zw_wasm_read.specs.MemoryArguments.{IsMemoryArgument};
ghost use Rattle.zw_wasm_read.specs.Operands.{HasIndex, HasNoOperands, IsBehind};
ghost use Rattle.zw_wasm_read.specs.Reads.{Reads};

use crate::bytes::{pass_byte, read_byte, read_i32, read_i64, read_u32};
use crate::opcodes::{alone, load, store};
use crate::types::read_block_type;
use crate::unread::Unread;
use crate::vectors::read_vector;
use sqlite_items::Boxed;
use std::alloc::Global;
use zw_wasm::{Instr, MemoryArgument};

/// An instruction.
pub(crate) fn read_instruction(alloc: Global, b: &[u8]) -> Result<(Instr, &[u8]), Unread>
    ensures { Reads IsInstruction b.now result }
{
    let (code, b) = read_byte(b)?;
    read_behind(alloc, code, b)
}

/// What stands behind an opcode.
fn read_behind(alloc: Global, code: u8, b: &[u8]) -> Result<(Instr, &[u8]), Unread>
    ensures { Reads (IsBehind code) b.now result }
{
    match code {
        0x02..=0x04 => read_block(code, b),
        0x0C | 0x0D | 0x10 | 0x20..=0x24 => read_indexed(code, b),
        0x0E => read_table(alloc, b),
        0x11 => read_indirect(b),
        0x28..=0x35 => read_load(code, b),
        0x36..=0x3E => read_store(code, b),
        0x3F | 0x40 => read_sizing(code, b),
        0x41 => read_const_32(b),
        0x42 => read_const_64(b),
        _ => read_alone(code, b),
    }
}

fn read_block(code: u8, b: &[u8]) -> Result<(Instr, &[u8]), Unread>
    requires low { 2 ≤ code }
    requires high { code ≤ 4 }
    ensures { Reads (IsBehind code) b.now result }
{
    let (ty, b) = read_block_type(b)?;
    match code {
        0x02 => Ok((Instr::Block(ty), b)),
        0x03 => Ok((Instr::Loop(ty), b)),
        _ => Ok((Instr::If(ty), b)),
    }
}

fn read_indexed(code: u8, b: &[u8]) -> Result<(Instr, &[u8]), Unread>
    requires { HasIndex code }
    ensures { Reads (IsBehind code) b.now result }
{
    let (index, b) = read_u32(b)?;
    match code {
        0x0C => Ok((Instr::Br(index), b)),
        0x0D => Ok((Instr::BrIf(index), b)),
        0x10 => Ok((Instr::Call(index), b)),
        0x20 => Ok((Instr::LocalGet(index), b)),
        0x21 => Ok((Instr::LocalSet(index), b)),
        0x22 => Ok((Instr::LocalTee(index), b)),
        0x23 => Ok((Instr::GlobalGet(index), b)),
        _ => Ok((Instr::GlobalSet(index), b)),
    }
}

fn read_table(alloc: Global, b: &[u8]) -> Result<(Instr, &[u8]), Unread>
    ensures { Reads (IsBehind 0x0E) b.now result }
{
    let (labels, b) = read_vector(alloc, b)?;
    let (default, b) = read_u32(b)?;
    let labels = Boxed::new(alloc, labels)?;
    Ok((Instr::BrTable { default, labels }, b))
}

fn read_indirect(b: &[u8]) -> Result<(Instr, &[u8]), Unread>
    ensures { Reads (IsBehind 0x11) b.now result }
{
    let (ty, b) = read_u32(b)?;
    let b = pass_byte(0x00, b)?;
    Ok((Instr::CallIndirect(ty), b))
}

/// An alignment and an offset (5.4.3).
fn read_memory_argument(b: &[u8]) -> Result<(MemoryArgument, &[u8]), Unread>
    ensures { Reads IsMemoryArgument b.now result }
{
    let (align, b) = read_u32(b)?;
    let (offset, b) = read_u32(b)?;
    Ok((MemoryArgument { align, offset }, b))
}

fn read_load(code: u8, b: &[u8]) -> Result<(Instr, &[u8]), Unread>
    requires low { 0x28 ≤ code }
    requires high { code ≤ 0x35 }
    ensures { Reads (IsBehind code) b.now result }
{
    let Some(kind) = load(code) else {
        return Err(Unread::Unfit);
    };
    let (at, b) = read_memory_argument(b)?;
    Ok((Instr::Load(kind, at), b))
}

fn read_store(code: u8, b: &[u8]) -> Result<(Instr, &[u8]), Unread>
    requires low { 0x36 ≤ code }
    requires high { code ≤ 0x3E }
    ensures { Reads (IsBehind code) b.now result }
{
    let Some(kind) = store(code) else {
        return Err(Unread::Unfit);
    };
    let (at, b) = read_memory_argument(b)?;
    Ok((Instr::Store(kind, at), b))
}

fn read_sizing(code: u8, b: &[u8]) -> Result<(Instr, &[u8]), Unread>
    requires low { 0x3F ≤ code }
    requires high { code ≤ 0x40 }
    ensures { Reads (IsBehind code) b.now result }
{
    let b = pass_byte(0x00, b)?;
    if code == 0x3F {
        return Ok((Instr::MemorySize, b));
    }
    Ok((Instr::MemoryGrow, b))
}

fn read_const_32(b: &[u8]) -> Result<(Instr, &[u8]), Unread>
    ensures { Reads (IsBehind 0x41) b.now result }
{
    let (number, b) = read_i32(b)?;
    Ok((Instr::I32Const(number), b))
}

fn read_const_64(b: &[u8]) -> Result<(Instr, &[u8]), Unread>
    ensures { Reads (IsBehind 0x42) b.now result }
{
    let (number, b) = read_i64(b)?;
    Ok((Instr::I64Const(number), b))
}

/// An instruction without operands, or none.
fn read_alone(code: u8, b: &[u8]) -> Result<(Instr, &[u8]), Unread>
    requires { HasNoOperands code }
    ensures { Reads (IsBehind code) b.now result }
{
    match alone(code) {
        Some(instr) => Ok((instr, b)),
        None => Err(Unread::Unfit),
    }
}
