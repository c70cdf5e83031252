// The values of the globals that a module begins with (2.5.6).
ghost use Rattle.std.specs.Prelude.{◌≡◌, [], IfOk};
ghost use Rattle.zw_wasm.specs.ModuleMachine.{constant_of, first_store};
ghost use Rattle.zw_wasm.specs.Structure.{num_of};

use crate::module::{Instr, Module, ValType};
use crate::num::Num;
use sqlite_items::Items;
use std::alloc::{AllocError, Global};

/// The values of the globals that a module begins with.
pub fn first_globals(alloc: Global, m: &Module) -> Result<Items<Num>, AllocError>
    ensures { IfOk result (λ globals. globals ≡ (first_store m.now).globals) }
{
    let mut globals = Items::new(alloc);
    for global in m.globals.as_slice() {
        globals.push(number(global.ty, constant(global.init.as_slice())))?;
    }
    Ok(globals)
}

/// The bits of a constant expression that names no global.
fn constant(init: &[Instr]) -> u64
    ensures { result ≡ constant_of [] init.now }
{
    match init {
        [Instr::I32Const(z), ..] => u64::from(z.cast_unsigned()),
        [Instr::I64Const(z), ..] => z.cast_unsigned(),
        _ => 0,
    }
}

/// The number of a type with these bits, of which an `i32` takes the lowest.
fn number(ty: ValType, bits: u64) -> Num
    ensures { result ≡ num_of ty bits }
{
    match ty {
        ValType::I32 => Num::I32((bits % 4_294_967_296) as u32),
        ValType::I64 => Num::I64(bits),
    }
}
