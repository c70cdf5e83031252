// Numbers modulo 2^32 and modulo 2^64, where they are in the range of an integer with or without a sign.
ghost use Rattle.std.specs.Option.{SomeIff};
ghost use Rattle.zw_calls.specs.Numbers.{IsNarrow, IsWide, modulo};

/// The number modulo 2^32, where it lies from -2^31 to 2^32 - 1.
pub(crate) fn narrow(number: i128) -> Option<u32>
    ensures { SomeIff result (IsNarrow number) (modulo 4294967296 number) }
{
    if number < -0x8000_0000 {
        return None;
    }
    if 0xffff_ffff < number {
        return None;
    }
    if number < 0 {
        return Some((number + 0x1_0000_0000) as u32);
    }
    Some(number as u32)
}

/// The number modulo 2^64, where it lies from -2^63 to 2^64 - 1.
pub(crate) fn wide(number: i128) -> Option<u64>
    ensures { SomeIff result (IsWide number) (modulo 18446744073709551616 number) }
{
    if number < -0x8000_0000_0000_0000 {
        return None;
    }
    if 0xffff_ffff_ffff_ffff < number {
        return None;
    }
    if number < 0 {
        return Some((number + 0x1_0000_0000_0000_0000) as u64);
    }
    Some(number as u64)
}
