// Sections (5.5.2), and custom sections between them.
ghost use Rattle.std.specs.Prelude.{◌≡◌, ℕ, ◌+◌, ◌<◌, ◌≤◌, ◌^◌, length};
ghost use Rattle.zw_wasm_read.specs.Sections.{BeginsWith, IsFirst, IsInOrder, PassesCustom, PassesCustoms, ReadsEntries, ReadsOptional, ReadsOptionalStart, ReadsSection, ReadsStart};
ghost use Rattle.zw_wasm_read.specs.declared.stop.ReadErr.TheVariants as stop_err;

use crate::bytes::{read_sized, read_text, read_u32};
use crate::room::with_room;
use crate::stop::{BadCode, ReadErr};
use crate::unread::Unread;
use crate::vectors::Decode;
use sqlite_items::Items;
use std::alloc::Global;
use zw_base::Oom;

/// Why a section's content is none: it has no end where its entries end, or an entry is none, before so many last bytes.
#[derive(Clone, Copy)]
pub(crate) enum ContentErr {
    NoEnd,
    NoEntry(usize),
    Oom,
}

impl From<Oom> for ContentErr {
    ghost use Rattle.zw_wasm_read.specs.declared.sections.ContentErr.TheVariants as content_err;

    ghost from_gives = { λ _ e. e ≡ content_err.Oom };

    fn from(_: Oom) -> ContentErr {
        ContentErr::Oom
    }
}

/// The stop before so many last bytes of all.
pub(crate) fn stop(total: usize, left: usize, code: BadCode) -> ReadErr
    requires within { left ≤ total }
    requires small { total < 2 ^ 32 }
    ensures { (at : ℕ) × (at + left ≡ total) × (result ≡ stop_err.Bad at code) }
{
    let at = (total - left) as u32;
    ReadErr::Bad { at, code }
}

/// A custom section (5.5.3).
fn pass_custom(total: usize, b: &[u8]) -> Result<&[u8], ReadErr>
    requires first { BeginsWith 0 b.now }
    requires within { length b.now ≤ total }
    requires small { total < 2 ^ 32 }
    ensures { PassesCustom total b.now result }
{
    let (content, rest) = match read_sized(&b[1..]) {
        Ok(read) => read,
        Err(Unread::Unfit) => return Err(stop(total, b.len(), BadCode::Section)),
        Err(Unread::Oom) => return Err(ReadErr::Oom),
    };
    match read_text(content) {
        Ok(_) => Ok(rest),
        Err(Unread::Unfit) => Err(stop(total, b.len(), BadCode::Section)),
        Err(Unread::Oom) => Err(ReadErr::Oom),
    }
}

/// Passes custom sections, up to a section with a larger number than the last one, or to the end.
pub(crate) fn pass_customs(total: usize, last: u8, b: &[u8]) -> Result<&[u8], ReadErr>
    requires within { length b.now ≤ total }
    requires small { total < 2 ^ 32 }
    ensures { PassesCustoms total last b.now result }
{
    let mut rest = b;
    while begins_with(0, rest) {
        rest = pass_custom(total, rest)?;
    }
    if !is_in_order(last, rest) {
        return Err(stop(total, rest.len(), BadCode::Section));
    }
    Ok(rest)
}

/// Whether this byte stands first.
fn begins_with(id: u8, b: &[u8]) -> bool
    ensures { IsFirst id b.now result }
{
    match b.split_first() {
        Some((first, _)) => *first == id,
        None => false,
    }
}

/// Whether nothing stands there, or a section with a larger number than the last one.
fn is_in_order(last: u8, b: &[u8]) -> bool
    ensures { IsInOrder last b.now result }
{
    match b.split_first() {
        Some((id, _)) => *id > last && *id <= 11,
        None => true,
    }
}

/// The entries of a section, of whose content these are all bytes.
fn read_entries<T: Decode>(alloc: Global, content: &[u8]) -> Result<Items<T>, ContentErr>
    ensures { ReadsEntries T.spells content.now result }
{
    let (count, mut rest) = match read_u32(content) {
        Ok(read) => read,
        Err(Unread::Unfit) => return Err(ContentErr::NoEnd),
        Err(Unread::Oom) => return Err(ContentErr::Oom),
    };
    let mut items = with_room(alloc, count as usize, rest.len(), T::LEAST)?;
    while items.len() < count as usize {
        match T::decode(alloc, rest) {
            Ok((item, behind)) => {
                items.push(item)?;
                rest = behind;
            }
            Err(Unread::Unfit) => return Err(ContentErr::NoEntry(rest.len())),
            Err(Unread::Oom) => return Err(ContentErr::Oom),
        }
    }
    if !rest.is_empty() {
        return Err(ContentErr::NoEnd);
    }
    Ok(items)
}

/// A section with this number, which stands next.
pub(crate) fn read_section<T: Decode>(
    alloc: Global,
    total: usize,
    id: u8,
    b: &[u8],
) -> Result<(Items<T>, &[u8]), ReadErr>
    requires first { BeginsWith id b.now }
    requires within { length b.now ≤ total }
    requires small { total < 2 ^ 32 }
    ensures { ReadsSection id T.spells total b.now result }
{
    let (content, rest) = match read_sized(&b[1..]) {
        Ok(read) => read,
        Err(Unread::Unfit) => return Err(stop(total, b.len(), BadCode::Section)),
        Err(Unread::Oom) => return Err(ReadErr::Oom),
    };
    match read_entries(alloc, content) {
        Ok(items) => Ok((items, rest)),
        Err(ContentErr::NoEnd) => Err(stop(total, b.len(), BadCode::Section)),
        Err(ContentErr::NoEntry(left)) => Err(stop(total, left + rest.len(), BadCode::Entry)),
        Err(ContentErr::Oom) => Err(ReadErr::Oom),
    }
}

/// The section of the function that runs first (5.5.11), which stands next.
pub(crate) fn read_start(total: usize, b: &[u8]) -> Result<(u32, &[u8]), ReadErr>
    requires first { BeginsWith 8 b.now }
    requires within { length b.now ≤ total }
    requires small { total < 2 ^ 32 }
    ensures { ReadsStart total b.now result }
{
    let (content, rest) = match read_sized(&b[1..]) {
        Ok(read) => read,
        Err(Unread::Unfit) => return Err(stop(total, b.len(), BadCode::Section)),
        Err(Unread::Oom) => return Err(ReadErr::Oom),
    };
    match read_u32(content) {
        Ok((index, left)) => {
            if !left.is_empty() {
                return Err(stop(total, b.len(), BadCode::Section));
            }
            Ok((index, rest))
        }
        Err(Unread::Unfit) => Err(stop(total, content.len() + rest.len(), BadCode::Entry)),
        Err(Unread::Oom) => Err(ReadErr::Oom),
    }
}

/// That section, where it stands next, and the custom sections behind it.
pub(crate) fn read_optional_start(total: usize, b: &[u8]) -> Result<(Option<u32>, &[u8]), ReadErr>
    requires within { length b.now ≤ total }
    requires small { total < 2 ^ 32 }
    ensures { ReadsOptionalStart total b.now result }
{
    if !begins_with(8, b) {
        return Ok((None, b));
    }
    let (index, rest) = read_start(total, b)?;
    let rest = pass_customs(total, 8, rest)?;
    Ok((Some(index), rest))
}

/// The section with this number, where it stands next, and the custom sections behind it.
pub(crate) fn read_optional<T: Decode>(
    alloc: Global,
    total: usize,
    id: u8,
    b: &[u8],
) -> Result<(Items<T>, &[u8]), ReadErr>
    requires within { length b.now ≤ total }
    requires small { total < 2 ^ 32 }
    ensures { ReadsOptional id T.spells total b.now result }
{
    if !begins_with(id, b) {
        return Ok((Items::new(alloc), b));
    }
    let (items, rest) = read_section(alloc, total, id, b)?;
    let rest = pass_customs(total, id, rest)?;
    Ok((items, rest))
}
