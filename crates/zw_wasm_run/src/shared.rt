// Instructions on what all frames share: the memory and the globals (4.4.3, 4.4.4).
ghost use Rattle.std.specs.Prelude.{◌≡◌, ◌≤◌, IfOk, IfErr};
ghost use Rattle.zw_wasm.specs.Reduction.{act, greatest_pages};
ghost use Rattle.zw_wasm.specs.declared.module.Instr.TheVariants as instr;
ghost use Rattle.zw_wasm_words.specs.FullLists.{IsFullList};
ghost use Rattle.zw_wasm_run.specs.Stores.{Executes};
ghost use Rattle.zw_wasm_run.specs.Rooms.{KeepsRoom, Wants};

use crate::execute::taken;
use crate::pause::Taken;
use crate::stacks::Stacks;
use crate::store::Store;
use std::alloc::AllocError;
use zw_wasm::{Limits, LoadKind, MemoryArgument, Module, StoreKind};
use zw_wasm_words::accesses::{grow, load, size, store};
use zw_wasm_words::globals::{get, set};

/// What the memory has at the address in the last operand.
#[inline(always)]
pub fn load_word(
    m: &Module,
    kind: LoadKind,
    place: MemoryArgument,
    shared: &Store,
    stacks: &mut Stacks,
) -> Taken
    ensures executes { Executes m.now (instr.Load kind place) shared.now stacks.old result shared.now stacks.new }
    ensures room { KeepsRoom stacks.old stacks.new }
{
    taken(load(
        kind,
        place.offset,
        shared.memory.as_slice(),
        &mut stacks.words,
    ))
}

/// Writes the last operand at the address in the one below.
#[inline(always)]
pub fn store_word(
    m: &Module,
    kind: StoreKind,
    place: MemoryArgument,
    shared: &mut Store,
    stacks: &mut Stacks,
) -> Taken
    ensures executes { Executes m.now (instr.Store kind place) shared.old stacks.old result shared.new stacks.new }
    ensures room { KeepsRoom stacks.old stacks.new }
{
    taken(store(
        kind,
        place.offset,
        shared.memory.as_mut_slice(),
        &mut stacks.words,
    ))
}

/// How many pages the memory has.
pub fn memory_size(m: &Module, shared: &Store, stacks: &mut Stacks) -> Result<Taken, AllocError>
    ensures executes { IfOk result (λ t. Executes m.now instr.MemorySize shared.now stacks.old t shared.now stacks.new) }
    ensures wants { IfErr result (λ e. IsFullList stacks.old.words) }
    ensures room { KeepsRoom stacks.old stacks.new }
{
    let effect = size(shared.memory.as_slice(), &mut stacks.words)?;
    Ok(taken(effect))
}

/// The memory grows by the pages in the last operand, where it may have so many.
pub fn memory_grow(m: &Module, shared: &mut Store, stacks: &mut Stacks) -> Result<Taken, AllocError>
    ensures executes { IfOk result (λ t. Executes m.now instr.MemoryGrow shared.old stacks.old t shared.new stacks.new) }
    ensures wants { IfErr result (λ e. Wants m.now (act m.now instr.MemoryGrow) shared.old stacks.old) }
    ensures room { KeepsRoom stacks.old stacks.new }
{
    let most = most_pages(m.memories.as_slice());
    let effect = grow(most, &mut shared.memory, &mut stacks.words)?;
    Ok(taken(effect))
}

/// How many pages the memory may have at most.
fn most_pages(limits: &[Limits]) -> usize
    ensures value { result ≡ greatest_pages limits.now }
    ensures bound { result ≤ 16384 }
{
    match limits {
        [first, ..] => match first.greatest {
            Some(greatest) => (greatest as usize).min(16_384),
            None => 16_384,
        },
        [] => 0,
    }
}

/// The value of a global is an operand more.
#[inline(always)]
pub fn global_get(
    m: &Module,
    n: u32,
    shared: &Store,
    stacks: &mut Stacks,
) -> Result<Taken, AllocError>
    ensures executes { IfOk result (λ t. Executes m.now (instr.GlobalGet n) shared.now stacks.old t shared.now stacks.new) }
    ensures wants { IfErr result (λ e. IsFullList stacks.old.words) }
    ensures room { KeepsRoom stacks.old stacks.new }
{
    let effect = get(shared.globals.as_slice(), n, &mut stacks.words)?;
    Ok(taken(effect))
}

/// The last operand is the value of a global.
#[inline(always)]
pub fn global_set(m: &Module, n: u32, shared: &mut Store, stacks: &mut Stacks) -> Taken
    ensures executes { Executes m.now (instr.GlobalSet n) shared.old stacks.old result shared.new stacks.new }
    ensures room { KeepsRoom stacks.old stacks.new }
{
    taken(set(&mut shared.globals, n, &mut stacks.words))
}
