// The parts of a module as bytes, each appended to those before it. Sizes and numbers of items are 32 bits wide in
// the format: a list of more items or bytes ends as want of memory does.
ghost use Rattle.std.specs.Prelude.{◌≡◌, ℕ, List, ◌++◌, All, OnOk};
ghost use Rattle.std.specs.List.{flat_map};
ghost use Rattle.zw_wasm.specs.Fits.{Fits32, Countable, FitsVector, FitsSection};
ghost use Rattle.zw_leb.specs.Leb.{unsigned, signed};
ghost use Rattle.zw_wasm.specs.Spelling.{vector, byte_vector, section, list_section};

mod instructions;
mod parts;
mod sections;

pub use sections::module_bytes;
use zw_base::Oom;
use zw_leb::{put_i32, put_i64, put_u32};

/// A part of a module that has a spelling of its own.
pub trait Encode {
    /// The shortest spelling.
    ghost bytes: { Self → List ℕ };

    /// What of it has to fit in 32 bits.
    ghost fits: { Self → Type 0 };

    /// Appends the shortest spelling.
    fn encode(&self, out: &mut Vec<u8>) -> Result<(), Oom>
        ensures spelled { OnOk result (out.new.items ≡ out.old.items ++ bytes self.now) }
        ensures fit { OnOk result (fits self.now) };
}

/// Appends an unsigned number.
pub fn push_u32(out: &mut Vec<u8>, number: u32) -> Result<(), Oom>
    ensures { OnOk result (out.new.items ≡ out.old.items ++ unsigned number) }
{
    out.extend_from_slice(put_u32(number).as_slice())?;
    Ok(())
}

/// Appends a signed number of 32 bits.
pub fn push_i32(out: &mut Vec<u8>, number: i32) -> Result<(), Oom>
    ensures { OnOk result (out.new.items ≡ out.old.items ++ signed number) }
{
    out.extend_from_slice(put_i32(number).as_slice())?;
    Ok(())
}

/// Appends a signed number of 64 bits.
pub fn push_i64(out: &mut Vec<u8>, number: i64) -> Result<(), Oom>
    ensures { OnOk result (out.new.items ≡ out.old.items ++ signed number) }
{
    out.extend_from_slice(put_i64(number).as_slice())?;
    Ok(())
}

/// Appends a number of items or bytes.
fn push_length(out: &mut Vec<u8>, len: usize) -> Result<(), Oom>
    ensures spelled { OnOk result (out.new.items ≡ out.old.items ++ unsigned len) }
    ensures fit { OnOk result (Fits32 len) }
{
    match u32::try_from(len) {
        Ok(len) => push_u32(out, len),
        Err(_) => Err(Oom),
    }
}

/// Appends bytes after their number.
pub fn push_bytes(out: &mut Vec<u8>, bytes: &[u8]) -> Result<(), Oom>
    ensures spelled { OnOk result (out.new.items ≡ out.old.items ++ byte_vector bytes.now) }
    ensures fit { OnOk result (Countable bytes.now) }
{
    push_length(out, bytes.len())?;
    out.extend_from_slice(bytes)?;
    Ok(())
}

/// Appends items one after another.
pub fn push_each<T: Encode>(out: &mut Vec<u8>, items: &[T]) -> Result<(), Oom>
    ensures spelled { OnOk result (out.new.items ≡ out.old.items ++ flat_map T.bytes items.now) }
    ensures fit { OnOk result (All T.fits items.now) }
{
    for item in items {
        item.encode(out)?;
    }
    Ok(())
}

/// Appends items after their number.
pub fn push_vector<T: Encode>(out: &mut Vec<u8>, items: &[T]) -> Result<(), Oom>
    ensures spelled { OnOk result (out.new.items ≡ out.old.items ++ vector T.bytes items.now) }
    ensures fit { OnOk result (FitsVector T.fits items.now) }
{
    push_length(out, items.len())?;
    push_each(out, items)?;
    Ok(())
}

/// Appends a section after its number and its size.
pub fn push_section(out: &mut Vec<u8>, id: u8, content: &[u8]) -> Result<(), Oom>
    ensures spelled { OnOk result (out.new.items ≡ out.old.items ++ section id content.now) }
    ensures fit { OnOk result (Countable content.now) }
{
    out.push(id)?;
    push_bytes(out, content)?;
    Ok(())
}

/// Appends the section of these items, where there are any.
pub fn push_list_section<T: Encode>(out: &mut Vec<u8>, id: u8, items: &[T]) -> Result<(), Oom>
    ensures spelled { OnOk result (out.new.items ≡ out.old.items ++ list_section id T.bytes items.now) }
    ensures fit { OnOk result (FitsSection T.fits T.bytes items.now) }
{
    if items.is_empty() {
        return Ok(());
    }
    let mut content = Vec::new(*out.allocator());
    push_vector(&mut content, items)?;
    push_section(out, id, &content)
}
