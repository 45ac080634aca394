//! The low bits of a number.
ghost use Rattle.std.specs.Prelude.{◌≡◌, ◌%◌, ◌^◌};

/// The low 32 bits.
pub(crate) fn low_32(v: u64) -> u32
    ensures { result ≡ v % 2 ^ 32 }
{
    (v % (1 << 32)) as u32
}

/// The low 16 bits.
pub(crate) fn low_16(v: u64) -> u16
    ensures { result ≡ v % 2 ^ 16 }
{
    (v % (1 << 16)) as u16
}

/// The low 8 bits.
pub(crate) fn low_8(v: u64) -> u8
    ensures { result ≡ v % 2 ^ 8 }
{
    (v % (1 << 8)) as u8
}
