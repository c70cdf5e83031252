// The instructions of a call, one after another.
ghost use Rattle.std.specs.Prelude.{IfErr, IfOk};
ghost use Rattle.zw_wasm_run.specs.Loops.{IsSound, Pauses};
ghost use Rattle.zw_wasm_run.specs.Rooms.{KeepsRoom, RunWants};

use crate::code::Code;
use crate::pause::{Pause, Taken};
use crate::settle::next;
use crate::stacks::Stacks;
use crate::step::step;
use crate::store::Store;
use std::alloc::AllocError;

/// Takes instructions, up to so many, until the call ends, traps, or calls a function of the host. What is left of the bound is
/// told. The instructions of the frame's body are looked up where the body changes.
pub fn go_on(
    code: &Code,
    store: &mut Store,
    stacks: &mut Stacks,
    steps: &mut u64,
) -> Result<Pause, AllocError>
    requires { IsSound code.now store.old stacks.old steps.old }
    ensures pauses { IfOk result (λ p. Pauses code.now store.old stacks.old steps.old p store.new stacks.new steps.new) }
    ensures wants { IfErr result (λ e. RunWants code.now store.old stacks.old steps.old) }
    ensures room { KeepsRoom stacks.old stacks.new }
{
    'frames: loop {
        let body = stacks.frame.body;
        let instrs = code.instrs(body);
        'steps: loop {
            let Some(instr) = next(code, instrs, stacks) else {
                return Ok(Pause::Over);
            };
            if *steps == 0 {
                return Ok(Pause::StepsOut);
            }
            *steps -= 1;
            match step(code, instr, store, stacks)? {
                Taken::Goes => {}
                Taken::Calls(func) => return Ok(Pause::Calls(func)),
                Taken::Traps(cause) => return Ok(Pause::Traps(cause)),
            }
            if stacks.frame.body != body {
                continue 'frames;
            }
        }
    }
}
