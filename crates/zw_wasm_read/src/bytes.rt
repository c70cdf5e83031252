// Single bytes, numbers and runs of bytes.
ghost use Rattle.std.specs.Prelude.{IsTrue, IsUtf8, ◌↔◌};
ghost use Rattle.zw_wasm.specs.ModuleBytes.{Byte, IsByteVector, IsName, IsS32, IsS64, IsU32};
ghost use Rattle.zw_wasm_read.specs.Reads.{Passes, Reads, ReadsPart};

use crate::unread::Unread;
use sqlite_items::Items;
use std::alloc::Global;
use zw_leb::{get_i32, get_i64, get_u32};

/// The first byte, whichever it is.
pub(crate) fn read_byte(b: &[u8]) -> Result<(u8, &[u8]), Unread>
    ensures { Reads Byte b.now result }
{
    match b.split_first() {
        Some((first, rest)) => Ok((*first, rest)),
        None => Err(Unread::Unfit),
    }
}

/// This byte.
pub(crate) fn pass_byte(byte: u8, b: &[u8]) -> Result<&[u8], Unread>
    ensures { Passes (Byte byte) b.now result }
{
    match b.split_first() {
        Some((first, rest)) if *first == byte => Ok(rest),
        _ => Err(Unread::Unfit),
    }
}

/// An unsigned number of 32 bits (5.2.2).
pub(crate) fn read_u32(b: &[u8]) -> Result<(u32, &[u8]), Unread>
    ensures { Reads IsU32 b.now result }
{
    match get_u32(b) {
        Some((number, len)) => Ok((number, &b[len..])),
        None => Err(Unread::Unfit),
    }
}

/// A signed number of 32 bits (5.2.2).
pub(crate) fn read_i32(b: &[u8]) -> Result<(i32, &[u8]), Unread>
    ensures { Reads IsS32 b.now result }
{
    match get_i32(b) {
        Some((number, len)) => Ok((number, &b[len..])),
        None => Err(Unread::Unfit),
    }
}

/// A signed number of 64 bits (5.2.2).
pub(crate) fn read_i64(b: &[u8]) -> Result<(i64, &[u8]), Unread>
    ensures { Reads IsS64 b.now result }
{
    match get_i64(b) {
        Some((number, len)) => Ok((number, &b[len..])),
        None => Err(Unread::Unfit),
    }
}

/// Bytes after their number (5.1.3).
pub(crate) fn read_sized(b: &[u8]) -> Result<(&[u8], &[u8]), Unread>
    ensures { ReadsPart IsByteVector b.now result }
{
    let (len, rest) = read_u32(b)?;
    let len = len as usize;
    if rest.len() < len {
        return Err(Unread::Unfit);
    }
    Ok((&rest[..len], &rest[len..]))
}

/// Bytes after their number, as a list of their own.
pub(crate) fn read_bytes(alloc: Global, b: &[u8]) -> Result<(Items<u8>, &[u8]), Unread>
    ensures { Reads IsByteVector b.now result }
{
    let (content, rest) = read_sized(b)?;
    let items = Items::from_slice(alloc, content)?;
    Ok((items, rest))
}

/// The bytes of a name (5.2.4).
pub(crate) fn read_text(b: &[u8]) -> Result<(&[u8], &[u8]), Unread>
    ensures { ReadsPart IsName b.now result }
{
    let (content, rest) = read_sized(b)?;
    if !is_utf8(content) {
        return Err(Unread::Unfit);
    }
    Ok((content, rest))
}

/// A name, as a list of its own.
pub(crate) fn read_name(alloc: Global, b: &[u8]) -> Result<(Items<u8>, &[u8]), Unread>
    ensures { Reads IsName b.now result }
{
    let (content, rest) = read_text(b)?;
    let items = Items::from_slice(alloc, content)?;
    Ok((items, rest))
}

/// Whether bytes are a text in UTF-8.
fn is_utf8(bytes: &[u8]) -> bool
    ensures { IsTrue result ↔ IsUtf8 bytes.now }
{
    str::from_utf8(bytes).is_ok()
}
