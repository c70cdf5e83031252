// Reading and writing a memory (4.4.4).
ghost use Rattle.std.specs.Prelude.{◌≡◌, IfSome, ◌+◌, ◌<◌, ◌^◌};
ghost use Rattle.std.specs.Int.{byte_len, from_le_bytes, w8, w16, w32, w64};
ghost use Rattle.std.specs.Option.{option_map};
ghost use Rattle.zw_wasm.specs.Accesses.{bits_loaded, bytes_stored, load_type, load_width, store_type};
ghost use Rattle.zw_wasm.specs.Numerics.{bit_width};
ghost use Rattle.zw_wasm.specs.Structure.{width_of};
ghost use Rattle.zw_wasm.specs.Signature.{bytes_at};
ghost use Rattle.zw_wasm_words.specs.Memory.{Stores};
ghost use Rattle.zw_wasm_words.specs.Words.{bits_in};

use zw_wasm::{LoadKind, StoreKind};

/// The bits of the value that a load gives at this place, or none where some of its bytes lie outside the memory.
#[inline(always)]
pub fn load(kind: LoadKind, memory: &[u8], place: usize) -> Option<u64>
    requires { place < 2 ^ 33 }
    ensures value { result ≡ option_map (bits_loaded kind) (bytes_at memory.now place (byte_len (load_width kind))) }
    ensures bound { IfSome result (λ n. n < 2 ^ bit_width (width_of (load_type kind))) }
{
    match kind {
        LoadKind::I32 | LoadKind::I64U32 => Some(u64::from(load_u32(memory, place)?)),
        LoadKind::I64 => load_u64(memory, place),
        LoadKind::I32S8 => Some(u64::from(i32::from(load_u8(
            memory, place,
        )?.cast_signed()).cast_unsigned())),
        LoadKind::I32U8 | LoadKind::I64U8 => Some(u64::from(load_u8(memory, place)?)),
        LoadKind::I32S16 => Some(u64::from(i32::from(load_u16(
            memory, place,
        )?.cast_signed()).cast_unsigned())),
        LoadKind::I32U16 | LoadKind::I64U16 => Some(u64::from(load_u16(memory, place)?)),
        LoadKind::I64S8 => Some(i64::from(load_u8(memory, place)?.cast_signed()).cast_unsigned()),
        LoadKind::I64S16 => Some(i64::from(load_u16(memory, place)?.cast_signed()).cast_unsigned()),
        LoadKind::I64S32 => Some(i64::from(load_u32(memory, place)?.cast_signed()).cast_unsigned()),
    }
}

#[inline(always)]
fn load_u8(memory: &[u8], place: usize) -> Option<u8>
    requires { place < 2 ^ 33 }
    ensures { result ≡ option_map (from_le_bytes w8) (bytes_at memory.now place 1) }
{
    if memory.len() < place + 1 {
        return None;
    }
    Some(u8::from_le_bytes([memory[place]]))
}

#[inline(always)]
fn load_u16(memory: &[u8], place: usize) -> Option<u16>
    requires { place < 2 ^ 33 }
    ensures { result ≡ option_map (from_le_bytes w16) (bytes_at memory.now place 2) }
{
    let end = place + 2;
    if memory.len() < end {
        return None;
    }
    let bytes: [u8; 2] = memory[place..end].try_into().ok()?;
    Some(u16::from_le_bytes(bytes))
}

#[inline(always)]
fn load_u32(memory: &[u8], place: usize) -> Option<u32>
    requires { place < 2 ^ 33 }
    ensures { result ≡ option_map (from_le_bytes w32) (bytes_at memory.now place 4) }
{
    let end = place + 4;
    if memory.len() < end {
        return None;
    }
    Some(u32::from_le_bytes([
        memory[place],
        memory[place + 1],
        memory[place + 2],
        memory[place + 3],
    ]))
}

#[inline(always)]
fn load_u64(memory: &[u8], place: usize) -> Option<u64>
    requires { place < 2 ^ 33 }
    ensures { result ≡ option_map (from_le_bytes w64) (bytes_at memory.now place 8) }
{
    let end = place + 8;
    if memory.len() < end {
        return None;
    }
    let bytes: [u8; 8] = memory[place..end].try_into().ok()?;
    Some(u64::from_le_bytes(bytes))
}

/// Writes the bytes of a store at this place. Where some would lie outside the memory it writes none, and answers `false`.
#[inline(always)]
pub fn store(kind: StoreKind, memory: &mut [u8], place: usize, value: u64) -> bool
    requires { place < 2 ^ 33 }
    ensures { Stores memory.old place (bytes_stored kind value) result memory.new }
{
    match kind {
        StoreKind::I32Low8 | StoreKind::I64Low8 => write(
            memory,
            place,
            &((value % 0x100) as u8).to_le_bytes(),
        ),
        StoreKind::I32Low16 | StoreKind::I64Low16 => {
            write(memory, place, &((value % 0x1_0000) as u16).to_le_bytes())
        }
        StoreKind::I32 | StoreKind::I64Low32 => {
            write(
                memory,
                place,
                &((value % 0x1_0000_0000) as u32).to_le_bytes(),
            )
        }
        StoreKind::I64 => write(memory, place, &value.to_le_bytes()),
    }
}

/// Writes bytes at a place. Where some would lie outside the memory it writes none, and answers `false`.
#[inline(always)]
pub fn write(memory: &mut [u8], place: usize, bytes: &[u8]) -> bool
    ensures { Stores memory.old place bytes.now result memory.new }
{
    if memory.len() < bytes.len() || memory.len() - bytes.len() < place {
        return false;
    }
    memory[place..place + bytes.len()].copy_from_slice(bytes);
    true
}

/// The bits of the value that a store takes from a word.
#[inline(always)]
pub fn stored_bits(kind: StoreKind, word: u64) -> u64
    ensures { result ≡ bits_in (store_type kind) word }
{
    match kind {
        StoreKind::I32 | StoreKind::I32Low8 | StoreKind::I32Low16 => word % 0x1_0000_0000,
        _ => word,
    }
}
