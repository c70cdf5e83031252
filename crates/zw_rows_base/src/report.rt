// How what came differs from what was wanted.
ghost use Rattle.std.specs.Prelude.{◌≡◌, ◌==◌, ◌<◌, IfOk, string_len};

use std::alloc::{AllocError, Global};

/// The greatest number of bytes that are shown of a text.
const SHOWN: usize = 4_000;

/// What differs in a row, in lines. Where nothing does, there are none.
#[derive(Drop)]
pub struct Report {
    alloc: Global,
    text: String,
}

impl Report {
    /// Nothing differs yet.
    pub fn new(alloc: Global) -> Report
        ensures { string_len result.text ≡ 0 }
    {
        Report {
            alloc,
            text: String::new(alloc),
        }
    }

    /// Whether nothing differs.
    pub fn is_right(&self) -> bool
        ensures { result ≡ (string_len self.now.text == 0) }
    {
        self.text.is_empty()
    }

    /// The lines.
    pub fn text(&self) -> &str {
        self.text.as_str()
    }

    /// Adds a line that says of which text the lines before tell.
    pub fn tell_text(&mut self, text: &str) -> Result<(), AllocError> {
        let line = format!(in self.alloc; "  of {text}\n")?;
        self.text.push_str(line.as_str())
    }

    /// Adds two lines where these bytes differ.
    pub fn compare(&mut self, what: &str, came: &[u8], wanted: &[u8]) -> Result<(), AllocError>
        ensures same { came.now ≡ wanted.now → self.new ≡ self.old }
        ensures differs { IfOk result (λ _. (came.now ≡ wanted.now → ⊥) → string_len self.old.text < string_len self.new.text) }
    {
        if came == wanted {
            return Ok(());
        }
        let came = shown(self.alloc, came)?;
        let wanted = shown(self.alloc, wanted)?;
        let lines = format!(in self.alloc; "  {what} came   {came}\n  {what} wanted {wanted}\n")?;
        self.text.push_str(lines.as_str())
    }

    /// Adds two lines where the bytes that came don't end with those that are wanted. Shows as many of the last ones.
    pub fn compare_ends(
        &mut self,
        what: &str,
        came: &[u8],
        wanted: &[u8],
    ) -> Result<(), AllocError> {
        let from = came.len().saturating_sub(wanted.len());
        self.compare(what, &came[from..], wanted)
    }
}

/// Bytes as text: visible ASCII and blanks as they are, LF as `\n`, and others in hexadecimal.
fn shown(alloc: Global, bytes: &[u8]) -> Result<String, AllocError> {
    let mut text = String::new(alloc);
    for byte in bytes.iter().take(SHOWN) {
        match *byte {
            b'\n' => text.push_str("\\n")?,
            b' '..=b'~' => text.push(char::from(*byte))?,
            other => text.push_str(format!(in alloc; "\\x{other:02x}")?.as_str())?,
        }
    }
    if bytes.len() > SHOWN {
        let count = bytes.len();
        text.push_str(format!(in alloc; ".. ({count} bytes)")?.as_str())?;
    }
    Ok(text)
}
