// The bodies of functions.
ghost use Rattle.std.specs.Prelude.{◌≡◌, ◌++◌, map, IfOk, OnOk};
ghost use Rattle.std.specs.List.{flat_map, list_any};
ghost use Rattle.zw_lower.specs.Modules.{action_code, body_of, locals_of, on_u32, writes_locals};

use sqlite_items::Items;
use std::alloc::Global;
use zw_base::Oom;
use zw_form::{Action, Function};
use zw_num::{Arithmetic, IntTy, Operator};
use zw_safety::{push_checked, writes_locals as operator_writes};
use zw_safety_narrow::{GREATEST_SCRATCH, Setting};
use zw_wasm::{CodeBody, Instr, ValType};

/// The type of all values.
const U32: IntTy = IntTy::Sized {
    signed: false,
    bits: 32,
};

/// The bodies of the functions.
pub fn bodies(alloc: Global, functions: &[Function]) -> Result<Items<CodeBody>, Oom>
    ensures { IfOk result (λ bodies. bodies ≡ map body_of functions.now) }
{
    let mut bodies = Items::new(alloc);
    for function in functions {
        bodies.push(body(alloc, function)?)?;
    }
    Ok(bodies)
}

/// The body of a function: its actions one after another, of which the last leaves the result.
fn body(alloc: Global, function: &Function) -> Result<CodeBody, Oom>
    ensures { IfOk result (λ body. body ≡ body_of function.now) }
{
    let actions = function.actions.as_slice();
    let mut instrs = code(alloc, function.params, actions)?;
    instrs.push(Instr::End)?;
    Ok(CodeBody {
        locals: locals(alloc, actions)?,
        instrs: Items::from_vec(instrs),
    })
}

/// Four `i32` and four `i64` where the code of some action writes locals.
fn locals(alloc: Global, actions: &[Action]) -> Result<Items<(u32, ValType)>, Oom>
    ensures { IfOk result (λ locals. locals ≡ locals_of actions.now) }
{
    if some_writes_locals(actions) {
        Items::from_slice(alloc, &[(4, ValType::I32), (4, ValType::I64)])
    } else {
        Ok(Items::new(alloc))
    }
}

/// Whether the code of some action writes locals.
fn some_writes_locals(actions: &[Action]) -> bool
    ensures { result ≡ list_any writes_locals actions.now }
{
    actions.iter().any(|action| writes_locals(*action))
}

/// Whether the code of an action writes locals.
fn writes_locals(action: Action) -> bool
    ensures { result ≡ writes_locals action }
{
    match action {
        Action::Operate(operator) => operator_writes(Operator::Arithmetic(operator), on_u32(0)),
        Action::Parameter(_) | Action::Number(_) | Action::Call(_) => false,
    }
}

/// The code of actions, in a function with so many parameters.
fn code(alloc: Global, params: u32, actions: &[Action]) -> Result<Vec<Instr>, Oom>
    ensures { IfOk result (λ code. code.items ≡ flat_map (action_code params) actions.now) }
{
    let mut code = Vec::new(alloc);
    for action in actions {
        push_action(params, *action, &mut code)?;
    }
    Ok(code)
}

/// Appends the code of an action.
fn push_action(params: u32, action: Action, code: &mut Vec<Instr>) -> Result<(), Oom>
    ensures { OnOk result (code.new.items ≡ code.old.items ++ action_code params action) }
{
    match action {
        Action::Parameter(number) => code.push(Instr::LocalGet(number))?,
        Action::Number(number) => code.push(Instr::I32Const(number.cast_signed()))?,
        Action::Call(import) => code.push(Instr::Call(import))?,
        Action::Operate(operator) => push_operator(params, operator, code)?,
    }
    Ok(())
}

/// Appends the code of an operator. It wants memory where behind the parameters there are no numbers for eight locals.
#[tactic(auto, using(crate::proofs::OnU32::arithmetic_served))]
fn push_operator(params: u32, operator: Arithmetic, code: &mut Vec<Instr>) -> Result<(), Oom>
    ensures { OnOk result (code.new.items ≡ code.old.items ++ action_code params (Action.Operate operator)) }
{
    if params > GREATEST_SCRATCH {
        return Err(Oom);
    }
    push_checked(Operator::Arithmetic(operator), on_u32(params), code)?;
    Ok(())
}

/// An operator on values of `u32`, in a function with so many parameters.
fn on_u32(params: u32) -> Setting
    ensures { result ≡ on_u32 params }
{
    Setting {
        left: U32,
        right: U32,
        to: U32,
        scratch: params,
    }
}
