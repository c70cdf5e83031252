// The code of a function from its first instruction to its end (3.4.1).
ghost use Rattle.std.specs.Prelude.{◌≡◌, ◌≤◌, ◌<◌, ◌^◌, [], List, drop, length, IfOk, IfSome};
ghost use Rattle.std.specs.Option.{option_map, option_to_list};
ghost use Rattle.zw_wasm.specs.Functions.{func_type};
ghost use Rattle.zw_wasm.specs.ModuleBytes.{local_count};
ghost use Rattle.zw_wasm.specs.Typing.{body_control, check_code, nothing_behind};
ghost use Rattle.zw_wasm.specs.Validity.{check_body};
ghost use Rattle.zw_wasm_check.specs.Bodies.{place_of};
ghost use Rattle.zw_wasm_check.specs.Stacks.{context_of};

use crate::locals::Locals;
use crate::stacks::{Fault, Stacks, Step};
use std::alloc::{AllocError, Global};
use zw_wasm::{CodeBody, FuncType, Instr, Module, func_type};

/// Where a body breaks a rule: the number of the instruction, and why. Code that stops before its end breaks one behind
/// its last instruction.
#[derive(Clone, Copy)]
pub struct Place {
    pub at: usize,
    pub fault: Fault,
}

/// The first place where the body of a function breaks a rule, or none where it breaks none or the function has no type.
/// Functions are numbered from the imported ones on.
pub fn check_body(
    alloc: Global,
    m: &Module,
    func: usize,
    body: &CodeBody,
) -> Result<Option<Place>, AllocError>
    requires { local_count body.now.locals < 2 ^ 32 }
    ensures first { IfOk result (λ place. check_body m.now (func_type m.now func) body.now ≡ option_map place_of place) }
    ensures within { IfOk result (λ place. IfSome place (λ p. p.at ≤ length body.now.instrs)) }
{
    match func_type(m, func) {
        Some(ty) => {
            let locals = Locals::new(alloc, body.locals.as_slice())?;
            check_code(alloc, m, ty, &locals, body.instrs.as_slice())
        }
        None => Ok(None),
    }
}

/// The first place where code of a function of this type breaks a rule.
fn check_code(
    alloc: Global,
    m: &Module,
    ty: &FuncType,
    locals: &Locals,
    instrs: &[Instr],
) -> Result<Option<Place>, AllocError>
    ensures first { IfOk result (λ place. check_code (context_of m.now ty.now locals.now) 0 instrs.now [] (body_control (option_to_list ty.now.result)) [] ≡ option_map place_of place) }
    ensures within { IfOk result (λ place. IfSome place (λ p. p.at ≤ length instrs.now)) }
{
    let mut stacks = Stacks::new(alloc, ty.result);
    for at in 0..instrs.len() {
        match stacks.step(alloc, m, ty, locals, &instrs[at])? {
            Step::Goes => {}
            Step::Closes => return Ok(behind_end(at + 1, instrs.len())),
            Step::Refused(fault) => return Ok(Some(Place { at, fault })),
        }
    }
    Ok(Some(Place {
        at: instrs.len(),
        fault: Fault::Type,
    }))
}

/// Nothing stands behind the end, which is before `next`.
fn behind_end(next: usize, count: usize) -> Option<Place>
    ensures first { (instrs : List Instr) → length instrs ≡ count → nothing_behind next (drop next instrs) ≡ option_map place_of result }
    ensures within { IfSome result (λ p. p.at ≤ count) }
{
    if next < count {
        Some(Place {
            at: next,
            fault: Fault::Type,
        })
    } else {
        None
    }
}
