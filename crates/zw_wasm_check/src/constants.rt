// Constant expressions: the first values of globals and the places of segments (3.3.7.2).
ghost use Rattle.std.specs.Prelude.{◌≡◌, [], ◌∷◌};
ghost use Rattle.std.specs.Option.{option_copied};
ghost use Rattle.zw_wasm.specs.Validity.{constant_type, global_ok, immutable_type, is_constant_of};
ghost use Rattle.zw_wasm_check.specs.Constants.{ends_at_once};

use sqlite_items::at;
use zw_wasm::{GlobalDef, Instr, ValType, same_type};

/// Whether code is a constant expression of this type over these globals.
pub fn is_constant_of(globals: &[GlobalDef], ty: ValType, code: &[Instr]) -> bool
    ensures { result ≡ is_constant_of globals.now ty code.now }
{
    match constant_type(globals, code) {
        Some(found) => same_type(ty, found),
        None => false,
    }
}

/// Whether the first value of a global is a constant of its type, over no globals.
pub fn has_first_value(global: &GlobalDef) -> bool
    ensures { result ≡ global_ok global.now }
{
    is_constant_of(&[], global.ty, global.init.as_slice())
}

/// The type of a constant expression: one constant, or the value of one global that isn't mutable.
fn constant_type(globals: &[GlobalDef], code: &[Instr]) -> Option<ValType>
    ensures { result ≡ constant_type globals.now code.now }
{
    let (first, rest) = code.split_first()?;
    if !ends_at_once(rest) {
        return None;
    }
    value_type(globals, first)
}

/// The type of what an instruction gives, where it is a constant or gives the value of a global that isn't mutable.
fn value_type(globals: &[GlobalDef], instr: &Instr) -> Option<ValType>
    ensures { result ≡ constant_type globals.now (instr.now ∷ Instr.End ∷ []) }
{
    match instr {
        Instr::I32Const(_) => Some(ValType::I32),
        Instr::I64Const(_) => Some(ValType::I64),
        Instr::GlobalGet(global) => immutable_type(at(globals, *global as usize)),
        _ => None,
    }
}

/// The type of a global that isn't mutable, where it is there.
fn immutable_type(global: Option<&GlobalDef>) -> Option<ValType>
    ensures { result ≡ immutable_type (option_copied global.entry) }
{
    match global {
        Some(global) if !global.mutable => Some(global.ty),
        _ => None,
    }
}

/// Whether code is its end alone.
fn ends_at_once(code: &[Instr]) -> bool
    ensures { result ≡ ends_at_once code.now }
{
    match code {
        [only] => matches!(only, Instr::End),
        _ => false,
    }
}
