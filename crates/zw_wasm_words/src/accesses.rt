// Instructions on the memory (4.4.4). The last word holds the last operand.
ghost use Rattle.std.specs.Prelude.{◌≡◌, ◌<◌, ◌≤◌, ◌^◌, ◌+◌, ◌||◌, nat_eq, nat_le, length, IfOk, vec_capacity, IfErr};
ghost use Rattle.zw_wasm.specs.Accesses.{store_type};
ghost use Rattle.zw_wasm.specs.Reduction.{Goes, greatest_pages, grows, loads, on_one, page_count, pushed, stores};
ghost use Rattle.zw_wasm.specs.declared.module.Module.{Module};
ghost use Rattle.zw_wasm.specs.declared.num.Num.TheVariants as num;
ghost use Rattle.zw_wasm_words.specs.Operands.{ReadsMemory, WritesMemory};
ghost use Rattle.zw_wasm_words.specs.FullLists.{IsFullList};
ghost use Rattle.zw_wasm_words.specs.Growths.{LeadsToMore};

use crate::effect::{BOUNDS, Effect, NO_RULE};
use crate::memory;
use crate::operands::{last, replace_last};
use crate::words::low;
use std::alloc::AllocError;
use zw_wasm::{LoadKind, StoreKind, ValType};

/// What the memory has at the address in the last operand.
#[inline(always)]
pub fn load(kind: LoadKind, offset: u32, memory: &[u8], stack: &mut Vec<u64>) -> Effect
    ensures acts { ReadsMemory memory.now (λ c. on_one ValType.I32 (loads kind offset) c.frame.operands c) stack.old.items result stack.new.items }
    ensures room { vec_capacity stack.old ≤ vec_capacity stack.new }
{
    let Some(address) = last(stack) else {
        return Effect::Traps(NO_RULE);
    };
    let Some(word) = memory::load(kind, memory, low(address) as usize + offset as usize) else {
        return Effect::Traps(BOUNDS);
    };
    replace_last(stack, word);
    Effect::Goes
}

/// Writes the last operand at the address in the one below.
#[inline(always)]
pub fn store(kind: StoreKind, offset: u32, memory: &mut [u8], stack: &mut Vec<u64>) -> Effect
    ensures acts { WritesMemory memory.old memory.new (λ c. on_one (store_type kind) (stores kind offset) c.frame.operands c) stack.old.items result stack.new.items }
    ensures room { vec_capacity stack.old ≤ vec_capacity stack.new }
{
    let (Some(value), Some(address)) = (stack.pop(), stack.pop()) else {
        return Effect::Traps(NO_RULE);
    };
    let bits = memory::stored_bits(kind, value);
    if memory::store(kind, memory, low(address) as usize + offset as usize, bits) {
        Effect::Goes
    } else {
        Effect::Traps(BOUNDS)
    }
}

/// How many pages the memory has.
pub fn size(memory: &[u8], stack: &mut Vec<u64>) -> Result<Effect, AllocError>
    requires { length memory.now < 2 ^ 48 }
    ensures acts { IfOk result (λ e. ReadsMemory memory.now (λ c. Goes (pushed (num.I32 (page_count c.world.store.memory)) c)) stack.old.items e stack.new.items) }
    ensures wants { IfErr result (λ e. IsFullList stack.old) }
    ensures room { vec_capacity stack.old ≤ vec_capacity stack.new }
{
    stack.push((memory.len() / 65_536) as u64)?;
    Ok(Effect::Goes)
}

/// The memory grows by the pages in the last operand, where it may have so many, and the operand is its size before; else
/// the operand is -1. Want of memory is answered as such.
pub fn grow(most: usize, memory: &mut Vec<u8>, stack: &mut Vec<u64>) -> Result<Effect, AllocError>
    requires small { length memory.old.items < 2 ^ 48 }
    requires few { most ≤ 16384 }
    ensures small { length memory.new.items < 2 ^ 48 }
    ensures grows { IfOk result (λ e. (m : Module) → greatest_pages m.memories ≡ most → WritesMemory memory.old.items memory.new.items (λ c. on_one ValType.I32 (grows m) c.frame.operands c) stack.old.items e stack.new.items) }
    ensures wants { IfErr result (λ e. LeadsToMore most memory.old.items stack.old.items) }
    ensures room { vec_capacity stack.old ≤ vec_capacity stack.new }
{
    let Some(x) = last(stack) else {
        return Ok(Effect::Traps(NO_RULE));
    };
    let more = low(x) as usize;
    let pages = memory.len() / 65_536;
    if may_grow(pages, more, most) {
        memory.resize(memory.len() + more * 65_536, 0)?;
        replace_last(stack, pages as u64);
    } else {
        replace_last(stack, 0xFFFF_FFFF);
    }
    Ok(Effect::Goes)
}

/// Whether a memory of so many pages may have so many more, where this is the greatest size.
fn may_grow(pages: usize, more: usize, most: usize) -> bool
    requires near { pages < 2 ^ 48 }
    requires few { more < 2 ^ 32 }
    ensures { result ≡ (nat_eq more 0 || nat_le (pages + more) most) }
{
    more == 0 || pages + more <= most
}
