// The segments of tables and memories (4.5.4).
ghost use Rattle.std.specs.Prelude.{◌≡◌, ◌<◌, length, map, IfOk, IfNone, Some};
ghost use Rattle.zw_wasm.specs.declared.module.DataSegment.{DataSegment};
ghost use Rattle.zw_wasm.specs.declared.module.Element.{Element};
ghost use Rattle.zw_wasm.specs.ModuleMachine.{constant_of, with_elements, with_segments};
ghost use Rattle.zw_wasm_words.specs.Memory.{Stores, Places};
ghost use Rattle.zw_wasm_words.specs.Segments.{data_fits, element_fits, first_false};

use crate::memory::write;
use sqlite_items::{Items, at};
use std::alloc::{AllocError, Global};
use zw_wasm::{DataSegment, Element, Instr, Num};

/// The bits of a constant expression, with these values of globals (4.4.8).
pub fn constant(globals: &[Num], instrs: &[Instr]) -> u64
    ensures { result ≡ constant_of globals.now instrs.now }
{
    match instrs {
        [Instr::I32Const(z), ..] => u64::from(z.cast_unsigned()),
        [Instr::I64Const(z), ..] => z.cast_unsigned(),
        [Instr::GlobalGet(n), ..] => match at(globals, *n as usize) {
            Some(Num::I32(value)) => u64::from(*value),
            Some(Num::I64(value)) => *value,
            None => 0,
        },
        _ => 0,
    }
}

/// Writes the bytes of a segment, where all its places are in the memory.
pub fn place_data(globals: &[Num], segment: &DataSegment, memory: &mut [u8]) -> bool
    ensures { Stores memory.old (constant_of globals.now segment.now.at) segment.now.bytes result memory.new }
{
    let place = constant(globals, segment.at.as_slice());
    write(memory, place as usize, segment.bytes.as_slice())
}

/// Sets the functions of a segment, where all its places are in the table.
pub fn place_element(
    alloc: Global,
    globals: &[Num],
    segment: &Element,
    table: &mut [Option<u32>],
) -> Result<bool, AllocError>
    ensures { IfOk result (λ placed. Places table.old (constant_of globals.now segment.now.at) segment.now.funcs placed table.new) }
{
    let place = constant(globals, segment.at.as_slice()) as usize;
    let entries = entries_of(alloc, segment.funcs.as_slice())?;
    if table.len() < entries.len() || table.len() - entries.len() < place {
        return Ok(false);
    }
    table[place..place + entries.len()].copy_from_slice(entries.as_slice());
    Ok(true)
}

/// Functions as entries of a table.
fn entries_of(alloc: Global, funcs: &[u32]) -> Result<Items<Option<u32>>, AllocError>
    ensures { IfOk result (λ entries. entries ≡ map (λ f. Some f) funcs.now) }
{
    let mut entries = Items::new(alloc);
    for func in funcs {
        entries.push(Some(*func))?;
    }
    Ok(entries)
}

/// Writes the segments of the memory, up to the first that doesn't lie inside; the answer is that one's number.
pub fn place_datas(globals: &[Num], segments: &[DataSegment], memory: &mut [u8]) -> Option<usize>
    ensures first { result ≡ first_false (map (data_fits globals.now (length memory.old)) segments.now) }
    ensures placed { IfNone result (memory.new ≡ with_segments globals.now segments.now memory.old) }
{
    for (number, segment) in segments.iter().enumerate() {
        if !place_data(globals, segment, memory) {
            return Some(number);
        }
    }
    None
}

/// Sets the segments of the table, up to the first that doesn't lie inside; the answer is that one's number.
pub fn place_elements(
    alloc: Global,
    globals: &[Num],
    segments: &[Element],
    table: &mut [Option<u32>],
) -> Result<Option<usize>, AllocError>
    ensures first { IfOk result (λ outside. outside ≡ first_false (map (element_fits globals.now (length table.old)) segments.now)) }
    ensures placed { IfOk result (λ outside. IfNone outside (table.new ≡ with_elements globals.now segments.now table.old)) }
{
    for (number, segment) in segments.iter().enumerate() {
        if !place_element(alloc, globals, segment, table)? {
            return Ok(Some(number));
        }
    }
    Ok(None)
}
