// The locals of a function that is called (4.4.7.1).
ghost use Rattle.std.specs.Prelude.{◌≡◌, ◌++◌, replicate, OnOk, vec_capacity, IfErr, length, ◌<◌, ◌≤◌, ◌+◌};
ghost use Rattle.zw_wasm_words.specs.Words.{zero_words};

use std::alloc::AllocError;
use zw_wasm::ValType;

/// The locals of a body begin at 0; its arguments are the last words already.
pub fn push_locals(runs: &[(u32, ValType)], stack: &mut Vec<u64>) -> Result<(), AllocError>
    ensures items { OnOk result (stack.new.items ≡ stack.old.items ++ zero_words runs.now) }
    ensures wants { IfErr result (λ e. vec_capacity stack.old < length stack.old.items + length (zero_words runs.now)) }
    ensures room { vec_capacity stack.old ≤ vec_capacity stack.new }
{
    for (count, _) in runs {
        push_zeros(*count, stack)?;
    }
    Ok(())
}

fn push_zeros(count: u32, stack: &mut Vec<u64>) -> Result<(), AllocError>
    ensures items { OnOk result (stack.new.items ≡ stack.old.items ++ replicate count 0) }
    ensures wants { IfErr result (λ e. vec_capacity stack.old < length stack.old.items + count) }
    ensures room { vec_capacity stack.old ≤ vec_capacity stack.new }
{
    let end = stack.len() + count as usize;
    stack.resize(end, 0)
}
