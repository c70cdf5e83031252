// The number at the front of bytes, in any of its spellings. A spelling is ten bytes long at most, so a recursion along
// its bytes is shallow.
ghost use Rattle.std.specs.Prelude.{◌≤◌, ◌<◌, ℤ, [], ◌∷◌, MatchOption};
ghost use Rattle.zw_leb.specs.Leb.{IsSigned};
ghost use Rattle.zw_leb.specs.Reading.{BeginsUnsigned, BeginsSigned, NoUnsigned, NoSigned};

/// The unsigned number of 32 bits at the front, and how many bytes spell it. `None` where no front spells one.
pub fn get_u32(b: &[u8]) -> Option<(u32, usize)>
    ensures { MatchOption result (NoUnsigned 32 b.now) (λ r. BeginsUnsigned 32 b.now r.0 r.1) }
{
    unsigned(32, b)
}

/// The signed number of 32 bits at the front, and how many bytes spell it. `None` where no front spells one.
pub fn get_i32(b: &[u8]) -> Option<(i32, usize)>
    ensures { MatchOption result (NoSigned 32 b.now) (λ r. BeginsSigned 32 b.now r.0 r.1) }
{
    let (number, len) = signed(32, b)?;
    Some((number as i32, len))
}

/// The signed number of 64 bits at the front, and how many bytes spell it. `None` where no front spells one.
pub fn get_i64(b: &[u8]) -> Option<(i64, usize)>
    ensures { MatchOption result (NoSigned 64 b.now) (λ r. BeginsSigned 64 b.now r.0 r.1) }
{
    signed(64, b)
}

/// The unsigned number of so many bits at the front.
fn unsigned(bits: u32, b: &[u8]) -> Option<(u32, usize)>
    requires { bits ≤ 32 }
    ensures { MatchOption result (NoUnsigned bits b.now) (λ r. BeginsUnsigned bits b.now r.0 r.1) }
{
    let (first, rest) = b.split_first()?;
    if *first < 128 {
        if bits < 7 && *first >= 1 << bits {
            return None;
        }
        return Some((u32::from(*first), 1));
    }
    if bits <= 7 {
        return None;
    }
    let (high, len) = unsigned(bits - 7, rest)?;
    Some((high * 128 + u32::from(*first - 128), len + 1))
}

/// The signed number of so many bits at the front.
fn signed(bits: u32, b: &[u8]) -> Option<(i64, usize)>
    requires some { 0 < bits }
    requires few { bits ≤ 64 }
    ensures { MatchOption result (NoSigned bits b.now) (λ r. BeginsSigned bits b.now r.0 r.1) }
{
    let (first, rest) = b.split_first()?;
    if *first < 128 {
        let number = last_signed(bits, *first)?;
        return Some((number, 1));
    }
    if bits <= 7 {
        return None;
    }
    let (high, len) = signed(bits - 7, rest)?;
    Some((high * 128 + i64::from(*first - 128), len + 1))
}

/// The number that a last byte spells, with so many bits of the number in it.
fn last_signed(bits: u32, byte: u8) -> Option<i64>
    requires some { 0 < bits }
    requires last { byte < 128 }
    ensures { MatchOption result ((z : ℤ) → ¬ IsSigned bits (byte ∷ []) z) (λ z. IsSigned bits (byte ∷ []) z) }
{
    let half: u8 = if bits < 7 { 1 << (bits - 1) } else { 64 };
    if byte < half {
        return Some(i64::from(byte));
    }
    if byte + half >= 128 {
        return Some(i64::from(byte) - 128);
    }
    None
}
