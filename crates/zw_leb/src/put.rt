// The shortest spelling of a number.
ghost use Rattle.std.specs.Prelude.{◌≡◌, take};
ghost use Rattle.zw_leb.specs.Leb.{unsigned, signed};

use crate::Leb;

/// The shortest spelling of an unsigned number of 32 bits.
pub fn put_u32(v: u32) -> Leb
    ensures { take result.len result.bytes ≡ unsigned v }
{
    let mut leb = Leb::new();
    let mut rest = v;
    while rest >= 128 {
        leb.push((rest % 128) as u8 + 128);
        rest /= 128;
    }
    leb.push(rest as u8);
    leb
}

/// The shortest spelling of a signed number of 32 bits.
pub fn put_i32(v: i32) -> Leb
    ensures { take result.len result.bytes ≡ signed v }
{
    put_i64(i64::from(v))
}

/// The shortest spelling of a signed number of 64 bits.
pub fn put_i64(v: i64) -> Leb
    ensures { take result.len result.bytes ≡ signed v }
{
    let mut leb = Leb::new();
    let mut rest = v;
    while rest < -64 || rest >= 64 {
        leb.push(rest.rem_euclid(128) as u8 + 128);
        rest = rest.div_euclid(128);
    }
    leb.push(rest.rem_euclid(128) as u8);
    leb
}
