// Branches and calls that take an operand first (4.4.5.7, 4.4.5.8, 4.4.5.11).
ghost use Rattle.std.specs.Prelude.{◌≡◌, ◌≤◌, ◌&&◌, length, slice_get, IfOk, IfErr};
ghost use Rattle.std.specs.Option.{option_to_list};
ghost use Rattle.zw_wasm.specs.Functions.{func_type};
ghost use Rattle.zw_wasm.specs.declared.module.Instr.TheVariants as instr;
ghost use Rattle.zw_wasm.specs.Reduction.{act, label_or, same_func_type};
ghost use Rattle.zw_wasm.specs.Typing.{same_types};
ghost use Rattle.zw_wasm_run.specs.Running.{ActsOnStacks, body_of};
ghost use Rattle.zw_wasm_run.specs.Stores.{Calls, Executes, entry_of};
ghost use Rattle.zw_wasm_run.specs.Rooms.{KeepsRoom, Wants, WantsForCall};

use crate::calls::call;
use crate::execute::taken;
use crate::pause::Taken;
use crate::stacks::{Stacks, branch};
use crate::store::Store;
use sqlite_items::at;
use std::alloc::AllocError;
use zw_wasm::{FuncType, Module, ValType, func_type, same_type};
use zw_wasm_words::{Effect, NO_ENTRY, NO_RULE, SIGNATURE, low};

/// A branch where the last operand isn't 0.
#[inline(always)]
pub fn branch_if(m: &Module, n: u32, end: usize, stacks: &mut Stacks) -> Effect
    requires inside { stacks.old.frame.labels ≤ length stacks.old.labels.items }
    requires end { length (body_of m.now stacks.old.frame.body) ≤ end }
    ensures acts { ActsOnStacks m.now (act m.now (instr.BrIf n)) stacks.old result stacks.new }
    ensures room { KeepsRoom stacks.old stacks.new }
{
    let Some(word) = stacks.words.pop() else {
        return Effect::Traps(NO_RULE);
    };
    if low(word) == 0 {
        return Effect::Goes;
    }
    branch(n as usize, end, stacks)
}

/// A branch by the last operand.
#[inline(always)]
pub fn branch_by(
    m: &Module,
    labels: &[u32],
    default: u32,
    end: usize,
    stacks: &mut Stacks,
) -> Effect
    requires inside { stacks.old.frame.labels ≤ length stacks.old.labels.items }
    requires end { length (body_of m.now stacks.old.frame.body) ≤ end }
    ensures acts { ActsOnStacks m.now (act m.now (instr.BrTable default labels.now)) stacks.old result stacks.new }
    ensures room { KeepsRoom stacks.old stacks.new }
{
    let Some(word) = stacks.words.pop() else {
        return Effect::Traps(NO_RULE);
    };
    let n = label_at(labels, low(word) as usize, default);
    branch(n as usize, end, stacks)
}

/// The number at a place of a table of labels, or the default past it.
#[inline(always)]
fn label_at(labels: &[u32], place: usize, default: u32) -> u32
    ensures { result ≡ label_or default (slice_get labels.now place) }
{
    match at(labels, place) {
        Some(n) => *n,
        None => default,
    }
}

/// A call of any function. That of an imported one is left to the caller.
pub fn call_any(m: &Module, func: u32, stacks: &mut Stacks) -> Result<Taken, AllocError>
    ensures calls { IfOk result (λ t. Calls m.now func stacks.old t stacks.new) }
    ensures wants { IfErr result (λ e. WantsForCall m.now func stacks.old) }
    ensures room { KeepsRoom stacks.old stacks.new }
{
    if (func as usize) < m.imports.len() {
        return Ok(Taken::Calls(func));
    }
    let effect = call(m, func as usize, stacks)?;
    Ok(taken(effect))
}

/// A call of the function at the place in the last operand, which is to have this type.
pub fn call_by(
    m: &Module,
    ty: u32,
    shared: &Store,
    stacks: &mut Stacks,
) -> Result<Taken, AllocError>
    ensures executes { IfOk result (λ t. Executes m.now (instr.CallIndirect ty) shared.now stacks.old t shared.now stacks.new) }
    ensures wants { IfErr result (λ e. Wants m.now (act m.now (instr.CallIndirect ty)) shared.now stacks.old) }
    ensures room { KeepsRoom stacks.old stacks.new }
{
    let Some(word) = stacks.words.pop() else {
        return Ok(Taken::Traps(NO_RULE));
    };
    let Some(func) = entry(shared.table.as_slice(), low(word) as usize) else {
        return Ok(Taken::Traps(NO_ENTRY));
    };
    if !has_type(m, func, ty) {
        return Ok(Taken::Traps(SIGNATURE));
    }
    let taken = call_any(m, func, stacks)?;
    Ok(taken)
}

/// The function at a place of the table.
fn entry(table: &[Option<u32>], place: usize) -> Option<u32>
    ensures { result ≡ entry_of (slice_get table.now place) }
{
    match at(table, place) {
        Some(entry) => *entry,
        None => None,
    }
}

/// Whether a function is of the type with this number.
fn has_type(m: &Module, func: u32, ty: u32) -> bool
    ensures { result ≡ same_func_type (slice_get m.now.types ty) (func_type m.now func) }
{
    let Some(left) = at(m.types.as_slice(), ty as usize) else {
        return false;
    };
    let Some(right) = func_type(m, func as usize) else {
        return false;
    };
    are_one(left, right)
}

/// Whether two types of functions are the same.
fn are_one(left: &FuncType, right: &FuncType) -> bool
    ensures { result ≡ (same_types left.now.params right.now.params && same_types (option_to_list left.now.result) (option_to_list right.now.result)) }
{
    if !are_same(left.params.as_slice(), right.params.as_slice()) {
        return false;
    }
    are_same(left.result.as_slice(), right.result.as_slice())
}

/// Whether two lists of types are the same.
fn are_same(left: &[ValType], right: &[ValType]) -> bool
    ensures { result ≡ same_types left.now right.now }
{
    if left.len() != right.len() {
        return false;
    }
    for place in 0..left.len() {
        if !same_type(left[place], right[place]) {
            return false;
        }
    }
    true
}
