// Instructions by their opcodes (5.4).
ghost use Rattle.std.specs.Prelude.{◌≡◌, ◌≤◌, MatchOption};
ghost use Rattle.zw_wasm.specs.declared.module.Instr.{Instr};
ghost use Rattle.zw_wasm.specs.declared.module.LoadKind.{LoadKind};
ghost use Rattle.zw_wasm.specs.declared.module.StoreKind.{StoreKind};
ghost use Rattle.zw_wasm.specs.Opcodes.{binary_opcode, comparison_opcode, load_opcode, store_opcode, unary_opcode};
ghost use Rattle.zw_wasm_read.specs.Operands.{IsAlone};

use zw_wasm::{
    BinaryOperator, Comparison, Conversion, Instr, LoadKind, StoreKind, UnaryOperator, ValType,
};

/// The instruction without operands that has this opcode.
pub(crate) fn alone(code: u8) -> Option<Instr>
    ensures { MatchOption result ((i : Instr) → IsAlone code i → ⊥) (λ i. IsAlone code i) }
{
    match code {
        0x00 => Some(Instr::Unreachable),
        0x01 => Some(Instr::Nop),
        0x05 => Some(Instr::Else),
        0x0B => Some(Instr::End),
        0x0F => Some(Instr::Return),
        0x1A => Some(Instr::Drop),
        0x1B => Some(Instr::Select),
        0x45..=0x5A => Some(relation(code)),
        0x67..=0x8A => Some(operator(code)),
        0xA7 => Some(Instr::Convert(Conversion::Wrap)),
        0xAC => Some(Instr::Convert(Conversion::ExtendS)),
        0xAD => Some(Instr::Convert(Conversion::ExtendU)),
        _ => None,
    }
}

/// A test or a comparison.
fn relation(code: u8) -> Instr
    requires low { 0x45 ≤ code }
    requires high { code ≤ 0x5A }
    ensures { IsAlone code result }
{
    if code == 0x45 {
        return Instr::IsZero(ValType::I32);
    }
    if code < 0x50 {
        return Instr::Compare(ValType::I32, comparison(code));
    }
    if code == 0x50 {
        return Instr::IsZero(ValType::I64);
    }
    Instr::Compare(ValType::I64, comparison(code - 0x0B))
}

/// An operator of one operand or two.
fn operator(code: u8) -> Instr
    requires low { 0x67 ≤ code }
    requires high { code ≤ 0x8A }
    ensures { IsAlone code result }
{
    if code < 0x6A {
        return Instr::Unary(ValType::I32, unary(code));
    }
    if code < 0x79 {
        return Instr::Binary(ValType::I32, binary(code));
    }
    if code < 0x7C {
        return Instr::Unary(ValType::I64, unary(code - 0x12));
    }
    Instr::Binary(ValType::I64, binary(code - 0x12))
}

/// The comparison with this opcode for `i32`.
fn comparison(code: u8) -> Comparison
    requires low { 0x46 ≤ code }
    requires high { code ≤ 0x4F }
    ensures { comparison_opcode result ≡ code }
{
    match code {
        0x46 => Comparison::Eq,
        0x47 => Comparison::Ne,
        0x48 => Comparison::LtS,
        0x49 => Comparison::LtU,
        0x4A => Comparison::GtS,
        0x4B => Comparison::GtU,
        0x4C => Comparison::LeS,
        0x4D => Comparison::LeU,
        0x4E => Comparison::GeS,
        _ => Comparison::GeU,
    }
}

/// The operator of one operand with this opcode for `i32`.
fn unary(code: u8) -> UnaryOperator
    requires low { 0x67 ≤ code }
    requires high { code ≤ 0x69 }
    ensures { unary_opcode result ≡ code }
{
    match code {
        0x67 => UnaryOperator::Clz,
        0x68 => UnaryOperator::Ctz,
        _ => UnaryOperator::Popcnt,
    }
}

/// The operator of two operands with this opcode for `i32`.
fn binary(code: u8) -> BinaryOperator
    requires low { 0x6A ≤ code }
    requires high { code ≤ 0x78 }
    ensures { binary_opcode result ≡ code }
{
    match code {
        0x6A => BinaryOperator::Add,
        0x6B => BinaryOperator::Sub,
        0x6C => BinaryOperator::Mul,
        0x6D => BinaryOperator::DivS,
        0x6E => BinaryOperator::DivU,
        0x6F => BinaryOperator::RemS,
        0x70 => BinaryOperator::RemU,
        0x71 => BinaryOperator::And,
        0x72 => BinaryOperator::Or,
        0x73 => BinaryOperator::Xor,
        0x74 => BinaryOperator::Shl,
        0x75 => BinaryOperator::ShrS,
        0x76 => BinaryOperator::ShrU,
        0x77 => BinaryOperator::Rotl,
        _ => BinaryOperator::Rotr,
    }
}

/// The load with this opcode.
pub(crate) fn load(code: u8) -> Option<LoadKind>
    ensures { MatchOption result ((kind : LoadKind) → load_opcode kind ≡ code → ⊥) (λ kind. load_opcode kind ≡ code) }
{
    match code {
        0x28 => Some(LoadKind::I32),
        0x29 => Some(LoadKind::I64),
        0x2C => Some(LoadKind::I32S8),
        0x2D => Some(LoadKind::I32U8),
        0x2E => Some(LoadKind::I32S16),
        0x2F => Some(LoadKind::I32U16),
        0x30 => Some(LoadKind::I64S8),
        0x31 => Some(LoadKind::I64U8),
        0x32 => Some(LoadKind::I64S16),
        0x33 => Some(LoadKind::I64U16),
        0x34 => Some(LoadKind::I64S32),
        0x35 => Some(LoadKind::I64U32),
        _ => None,
    }
}

/// The store with this opcode.
pub(crate) fn store(code: u8) -> Option<StoreKind>
    ensures { MatchOption result ((kind : StoreKind) → store_opcode kind ≡ code → ⊥) (λ kind. store_opcode kind ≡ code) }
{
    match code {
        0x36 => Some(StoreKind::I32),
        0x37 => Some(StoreKind::I64),
        0x3A => Some(StoreKind::I32Low8),
        0x3B => Some(StoreKind::I32Low16),
        0x3C => Some(StoreKind::I64Low8),
        0x3D => Some(StoreKind::I64Low16),
        0x3E => Some(StoreKind::I64Low32),
        _ => None,
    }
}
