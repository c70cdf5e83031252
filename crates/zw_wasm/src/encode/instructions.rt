// The spelling of an instruction (5.4): its opcode, and the immediate argument behind it.
ghost use Rattle.std.specs.Prelude.{◌≡◌, [], ◌∷◌, ◌++◌, OnOk};
ghost use Rattle.zw_wasm.specs.Fits.{FitsImmediate, FitsInstruction};
ghost use Rattle.zw_wasm.specs.Opcodes.{Memory, immediate_of, opcode, operators_up, relations_up};
ghost use Rattle.zw_wasm.specs.Spelling.{block_type, immediate, instruction};

use super::{Encode, push_i32, push_i64, push_u32, push_vector};
use crate::{Instr, MemoryArgument, ValType};
use zw_base::Oom;

impl Encode for Instr {
    ghost bytes = { instruction };

    ghost fits = { FitsInstruction };

    fn encode(&self, out: &mut Vec<u8>) -> Result<(), Oom> {
        out.push(opcode(self))?;
        push_immediate(out, self)
    }
}

/// Appends what stands behind the opcode of an instruction.
fn push_immediate(out: &mut Vec<u8>, instr: &Instr) -> Result<(), Oom>
    ensures spelled { OnOk result (out.new.items ≡ out.old.items ++ immediate (immediate_of instr.now)) }
    ensures fit { OnOk result (FitsImmediate (immediate_of instr.now)) }
{
    match instr {
        Instr::Block(ty) | Instr::Loop(ty) | Instr::If(ty) => push_block_type(out, *ty),
        Instr::Br(index)
        | Instr::BrIf(index)
        | Instr::Call(index)
        | Instr::LocalGet(index)
        | Instr::LocalSet(index)
        | Instr::LocalTee(index)
        | Instr::GlobalGet(index)
        | Instr::GlobalSet(index) => push_u32(out, *index),
        Instr::BrTable { default, labels } => {
            push_vector(out, labels.get().as_slice())?;
            push_u32(out, *default)
        }
        Instr::CallIndirect(ty) => {
            push_u32(out, *ty)?;
            push_zero(out)
        }
        Instr::MemorySize | Instr::MemoryGrow => push_zero(out),
        Instr::Load(_, at) | Instr::Store(_, at) => push_memory_argument(out, *at),
        Instr::I32Const(number) => push_i32(out, *number),
        Instr::I64Const(number) => push_i64(out, *number),
        _ => Ok(()),
    }
}

/// Appends the type of a block's result, where it has one (5.3.2).
fn push_block_type(out: &mut Vec<u8>, ty: Option<ValType>) -> Result<(), Oom>
    ensures { OnOk result (out.new.items ≡ out.old.items ++ block_type ty) }
{
    match ty {
        None => out.push(0x40)?,
        Some(ty) => ty.encode(out)?,
    }
    Ok(())
}

/// Appends the one number that a table or a memory has.
fn push_zero(out: &mut Vec<u8>) -> Result<(), Oom>
    ensures { OnOk result (out.new.items ≡ out.old.items ++ 0x00 ∷ []) }
{
    out.push(0x00)?;
    Ok(())
}

/// Appends an alignment and an offset (5.4.3).
fn push_memory_argument(out: &mut Vec<u8>, at: MemoryArgument) -> Result<(), Oom>
    ensures spelled { OnOk result (out.new.items ≡ out.old.items ++ immediate (Memory at)) }
    ensures fit { OnOk result (FitsImmediate (Memory at)) }
{
    push_u32(out, at.align)?;
    push_u32(out, at.offset)
}

/// The byte with which an instruction begins.
fn opcode(instr: &Instr) -> u8
    ensures { result ≡ opcode instr.now }
{
    match instr {
        Instr::Unreachable => 0x00,
        Instr::Nop => 0x01,
        Instr::Block(_) => 0x02,
        Instr::Loop(_) => 0x03,
        Instr::If(_) => 0x04,
        Instr::Else => 0x05,
        Instr::End => 0x0B,
        Instr::Br(_) => 0x0C,
        Instr::BrIf(_) => 0x0D,
        Instr::BrTable { .. } => 0x0E,
        Instr::Return => 0x0F,
        Instr::Call(_) => 0x10,
        Instr::CallIndirect(_) => 0x11,
        Instr::Drop => 0x1A,
        Instr::Select => 0x1B,
        Instr::LocalGet(_) => 0x20,
        Instr::LocalSet(_) => 0x21,
        Instr::LocalTee(_) => 0x22,
        Instr::GlobalGet(_) => 0x23,
        Instr::GlobalSet(_) => 0x24,
        Instr::Load(kind, _) => *kind as u8,
        Instr::Store(kind, _) => *kind as u8,
        Instr::MemorySize => 0x3F,
        Instr::MemoryGrow => 0x40,
        Instr::I32Const(_) => 0x41,
        Instr::I64Const(_) => 0x42,
        Instr::IsZero(ty) => 0x45 + relations_up(*ty),
        Instr::Compare(ty, comparison) => *comparison as u8 + relations_up(*ty),
        Instr::Unary(ty, operator) => *operator as u8 + operators_up(*ty),
        Instr::Binary(ty, operator) => *operator as u8 + operators_up(*ty),
        Instr::Convert(conversion) => *conversion as u8,
    }
}

/// How much higher the opcodes of the tests and comparisons of a type are than those for `i32`.
fn relations_up(ty: ValType) -> u8
    ensures { result ≡ relations_up ty }
{
    match ty {
        ValType::I32 => 0,
        ValType::I64 => 0x0B,
    }
}

/// How much higher the opcodes of the operators of a type are than those for `i32`.
fn operators_up(ty: ValType) -> u8
    ensures { result ≡ operators_up ty }
{
    match ty {
        ValType::I32 => 0,
        ValType::I64 => 0x12,
    }
}
