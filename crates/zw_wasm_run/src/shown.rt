// What a host call shows.
ghost use Rattle.std.specs.Prelude.{◌≡◌, ◌+◌, ◌<◌, length, Some, IfOk, MatchOption, None};
ghost use Rattle.zw_wasm.specs.Structure.{number};
ghost use Rattle.zw_wasm.specs.Signature.{bytes_at};
ghost use Rattle.zw_wasm_words.specs.Words.{bits_in};
ghost use Rattle.zw_wasm_run.specs.Calls.{is_shown};
ghost use Rattle.zw_wasm_run.specs.Hosting.{ArePairs, IsEventOf, is_part, numbers_held, numbers_in, ranges_in};

use crate::event::Event;
use crate::machine::Show;
use sqlite_items::Items;
use std::alloc::{AllocError, Global};
use zw_wasm::{Num, ValType};
use zw_wasm_words::low;

/// The event of a call of an import with arguments of these words, or none where bytes that it shows lie outside the memory.
pub fn event_of(
    alloc: Global,
    params: &[ValType],
    shows: &[Show],
    import: u32,
    memory: &[u8],
    words: &[u64],
) -> Result<Option<Event>, AllocError>
    requires count { length words.now ≡ length params.now }
    requires pairs { ArePairs params.now shows.now import }
    ensures { IfOk result (λ found. MatchOption found (ranges_in shows.now import memory.now 0 (numbers_held params.now words.now) ≡ None) (IsEventOf shows.now import memory.now (numbers_held params.now words.now))) }
{
    let Some(shown) = ranges(alloc, params, shows, import, memory, words)? else {
        return Ok(None);
    };
    let args = numbers(alloc, params, shows, import, words)?;
    Ok(Some(Event {
        import,
        args,
        shown,
    }))
}

/// The arguments that are shown as numbers.
fn numbers(
    alloc: Global,
    params: &[ValType],
    shows: &[Show],
    import: u32,
    words: &[u64],
) -> Result<Items<Num>, AllocError>
    requires count { length words.now ≡ length params.now }
    ensures { IfOk result (λ numbers. numbers ≡ numbers_in shows.now import 0 (numbers_held params.now words.now)) }
{
    let mut numbers = Items::new(alloc);
    for (at, ty) in params.iter().enumerate() {
        if !is_part(shows, import, at) {
            numbers.push(number(*ty, words[at]))?;
        }
    }
    Ok(numbers)
}

/// The bytes that pointers and lengths show, or none where some lie outside the memory.
fn ranges(
    alloc: Global,
    params: &[ValType],
    shows: &[Show],
    import: u32,
    memory: &[u8],
    words: &[u64],
) -> Result<Option<Items<Items<u8>>>, AllocError>
    requires count { length words.now ≡ length params.now }
    requires pairs { ArePairs params.now shows.now import }
    ensures { IfOk result (λ shown. shown ≡ ranges_in shows.now import memory.now 0 (numbers_held params.now words.now)) }
{
    let mut shown = Items::new(alloc);
    for at in 0..params.len() {
        if is_shown(shows, import, at) {
            let Some(bytes) = range(memory, low(words[at]), low(words[at + 1])) else {
                return Ok(None);
            };
            shown.push(Items::from_slice(alloc, bytes)?)?;
        }
    }
    Ok(Some(shown))
}

/// So many bytes of the memory from a place on, where they all lie inside.
fn range(memory: &[u8], at: u32, count: u32) -> Option<&[u8]>
    ensures { MatchOption result (bytes_at memory.now at count ≡ None) (λ bytes. bytes_at memory.now at count ≡ Some bytes.now) }
{
    let end = at as usize + count as usize;
    memory.get(at as usize..end)
}

/// The number of a type that a word holds.
pub fn number(ty: ValType, word: u64) -> Num
    ensures { result ≡ number ty (bits_in ty word) }
{
    match ty {
        ValType::I32 => Num::I32(low(word)),
        ValType::I64 => Num::I64(word),
    }
}

/// Whether a parameter is a pointer or a length of bytes that are shown.
fn is_part(shows: &[Show], import: u32, param: usize) -> bool
    ensures { result ≡ is_part shows.now import param }
{
    is_shown(shows, import, param) || 0 < param && is_shown(shows, import, param - 1)
}

/// Whether a parameter is a pointer to bytes that are shown.
fn is_shown(shows: &[Show], import: u32, param: usize) -> bool
    ensures { result ≡ is_shown shows.now import param }
{
    for show in shows {
        if show.import == import && show.param as usize == param {
            return true;
        }
    }
    false
}
