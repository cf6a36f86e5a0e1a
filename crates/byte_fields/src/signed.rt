//! The bits of a signed number in two's complement.
ghost use Rattle.std.specs.Prelude.{◌≡◌};
ghost use Rattle.byte_fields.specs.Complement.{IsWithin, bits_of, half8, half16, half32, half64};

/// The two's complement in 8 bits.
pub fn bits8(n: i64) -> u8
    requires { IsWithin half8 n }
    ensures { result ≡ bits_of half8 n }
{
    if n < 0 {
        u8::MAX - (-(n + 1)) as u8
    } else {
        n as u8
    }
}

/// The two's complement in 16 bits.
pub fn bits16(n: i64) -> u16
    requires { IsWithin half16 n }
    ensures { result ≡ bits_of half16 n }
{
    if n < 0 {
        u16::MAX - (-(n + 1)) as u16
    } else {
        n as u16
    }
}

/// The two's complement in 32 bits.
pub fn bits32(n: i64) -> u32
    requires { IsWithin half32 n }
    ensures { result ≡ bits_of half32 n }
{
    if n < 0 {
        u32::MAX - (-(n + 1)) as u32
    } else {
        n as u32
    }
}

/// The two's complement in 64 bits.
pub fn bits64(n: i64) -> u64
    ensures { result ≡ bits_of half64 n }
{
    if n < 0 {
        u64::MAX - (-(n + 1)) as u64
    } else {
        n as u64
    }
}
