// The code of `!` where a type has more than 32 bits.
ghost use Rattle.std.specs.Prelude.{◌≡◌, ◌++◌, OnOk};
ghost use Rattle.zw_safety_words.specs.WideTruthCode.{wide_not_code};

use crate::widths::{fills_word, push_widened};
use std::alloc::AllocError;
use zw_num::IntTy;
use zw_wasm::{Conversion, Instr, ValType};

/// Appends the code of `!`: whether the operand is 0.
pub fn push_wide_not(from: IntTy, to: IntTy, out: &mut Vec<Instr>) -> Result<(), AllocError>
    ensures { OnOk result (out.new.items ≡ out.old.items ++ wide_not_code from to) }
{
    push_widened(from, out)?;
    out.push(Instr::IsZero(ValType::I64))?;
    if !fills_word(to) {
        out.push(Instr::Convert(Conversion::ExtendU))?;
    }
    Ok(())
}
