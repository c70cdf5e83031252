// Names, and bytes in hexadecimal.
ghost use Rattle.std.specs.Prelude.{◌≡◌, ◌≤◌, IfOk, length};
ghost use Rattle.zw_report.specs.Lines.{bytes_text, is_plain, name_at, shown};

use std::alloc::Global;
use zw_base::Oom;

/// A name as it is printed: as it is, where all its bytes lie from 0x21 to 0x7E, and else in hexadecimal.
pub fn shown(alloc: Global, name: &[u8]) -> Result<Vec<u8>, Oom>
    ensures { IfOk result (λ text. text.items ≡ shown name.now) }
{
    if is_plain(name) {
        return Vec::from_slice(alloc, name);
    }
    bytes_text(alloc, name)
}

/// Bytes as they are printed: `hex:` and two digits for each.
pub fn bytes_text(alloc: Global, bytes: &[u8]) -> Result<Vec<u8>, Oom>
    ensures { IfOk result (λ text. text.items ≡ bytes_text bytes.now) }
{
    let mut text = Vec::from_slice(alloc, b"hex:")?;
    text.extend_from_slice(hex::encode(alloc, bytes)?.as_bytes())?;
    Ok(text)
}

/// Whether all bytes are visible ASCII.
fn is_plain(name: &[u8]) -> bool
    ensures { result ≡ is_plain name.now }
{
    name.iter().all(|byte| 0x21 <= *byte && *byte <= 0x7e)
}

/// The name of this number in a table, from number 1 on.
pub fn name_at(table: &[&'static str], number: u16) -> &'static str
    requires positive { 1 ≤ number }
    requires within { number ≤ length table.now }
    ensures { result.now ≡ name_at table.now number }
{
    table[number as usize - 1]
}
