// Where reading stops, and why.
use std::fmt;
use zw_base::Oom;

/// Why bytes are no module.
#[derive(Clone, Copy, Debug, PartialEq, Eq)]
pub enum BadCode {
    /// The first eight bytes are others.
    Header = 1,
    /// A section has a wrong number, stands out of order, has no size within the bytes or no count, has a wrong name, or has
    /// bytes left behind its entries. The place is its first byte.
    Section = 2,
    /// An entry of a section is none. The place is its first byte.
    Entry = 3,
    /// There are other numbers of functions and of bodies. The place is behind all bytes.
    Counts = 4,
}

/// Why no module was read.
#[derive(Clone, Copy, Debug, PartialEq, Eq)]
pub enum ReadErr {
    /// The bytes are no module: where reading stops, and why.
    Bad { at: u32, code: BadCode },
    /// Memory ran out.
    Oom,
}

impl From<Oom> for ReadErr {
    ghost use Rattle.std.specs.Prelude.{◌≡◌};
    ghost use Rattle.zw_wasm_read.specs.declared.stop.ReadErr.TheVariants as stop;

    ghost from_gives = { λ _ e. e ≡ stop.Oom };

    fn from(_: Oom) -> ReadErr {
        ReadErr::Oom
    }
}

impl fmt::Display for ReadErr {
    ghost use Rattle.std.specs.Prelude.{Some};
    ghost use Rattle.zw_wasm_read.specs.Texts.{text_of};

    ghost output = { λ e. Some (text_of e) };

    fn fmt<W: fmt::Write>(&self, f: &mut fmt::Formatter<W>) -> fmt::Result {
        match self {
            ReadErr::Bad { at, code } => {
                let number = *code as u8;
                write!(f, "no module at byte {at}, code {number}")
            }
            ReadErr::Oom => write!(f, "out of memory"),
        }
    }
}
