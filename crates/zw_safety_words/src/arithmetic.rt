// The code of sums, differences and products where a type has more than 32 bits.
ghost use Rattle.std.specs.Prelude.{◌≡◌, ◌≤◌, ◌++◌, OnOk};
ghost use Rattle.zw_safety_words.specs.WideCode.{wide_wrapped_code, wide_sum_code, wide_difference_code, wide_product_code};
ghost use Rattle.zw_safety_narrow.specs.declared.setting.TheConstants.{GREATEST_SCRATCH};

use crate::products::push_product_words;
use crate::ranges::{push_outside, push_tested};
use crate::sums::{push_difference_test, push_sum_test};
use crate::widths::{push_both_widened, push_spread, push_wide_fitted};
use std::alloc::AllocError;
use zw_safety_narrow::Setting;
use zw_wasm::{BinaryOperator, Instr, ValType};

/// Appends the code of `+`.
pub fn push_wide_sum(setting: Setting, out: &mut Vec<Instr>) -> Result<(), AllocError>
    requires { setting.scratch ≤ GREATEST_SCRATCH }
    ensures { OnOk result (out.new.items ≡ out.old.items ++ wide_sum_code setting.left setting.right setting.to setting.scratch) }
{
    push_spread(setting, out)?;
    push_sum_test(setting, out)?;
    push_tested(setting.to, setting.scratch, out)?;
    Ok(())
}

/// Appends the code of `-`.
pub fn push_wide_difference(setting: Setting, out: &mut Vec<Instr>) -> Result<(), AllocError>
    requires { setting.scratch ≤ GREATEST_SCRATCH }
    ensures { OnOk result (out.new.items ≡ out.old.items ++ wide_difference_code setting.left setting.right setting.to setting.scratch) }
{
    push_spread(setting, out)?;
    push_difference_test(setting, out)?;
    push_tested(setting.to, setting.scratch, out)?;
    Ok(())
}

/// Appends the code of `*`.
pub fn push_wide_product(setting: Setting, out: &mut Vec<Instr>) -> Result<(), AllocError>
    requires { setting.scratch ≤ GREATEST_SCRATCH }
    ensures { OnOk result (out.new.items ≡ out.old.items ++ wide_product_code setting.left setting.right setting.to setting.scratch) }
{
    push_spread(setting, out)?;
    push_product_words(setting, out)?;
    push_outside(setting.to, setting.scratch + 6, out)?;
    push_tested(setting.to, setting.scratch, out)?;
    Ok(())
}

/// Appends the code of an operator whose result wraps around.
pub fn push_wide_wrapped(
    operator: BinaryOperator,
    setting: Setting,
    out: &mut Vec<Instr>,
) -> Result<(), AllocError>
    requires { setting.scratch ≤ GREATEST_SCRATCH }
    ensures { OnOk result (out.new.items ≡ out.old.items ++ wide_wrapped_code operator setting.left setting.right setting.to setting.scratch) }
{
    push_both_widened(setting, out)?;
    out.push(Instr::Binary(ValType::I64, operator))?;
    push_wide_fitted(setting.to, out)
}
