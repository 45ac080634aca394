//! Widths of byte swaps.
/// The number of low bits that a byte swap instruction works on; it zeroes the others.
#[derive(Clone, Copy, Debug, PartialEq, Eq, Drop)]
pub enum Width {
    Bits16,
    Bits32,
    Bits64,
}

impl Width {
    ghost use Rattle.std.specs.Prelude.{◌≡◌};
    ghost use Rattle.bpf_insn.specs.Size.{width_bits};

    /// The number of bits: 16, 32 or 64.
    pub fn bits(self) -> u8
        ensures { result ≡ width_bits self }
    {
        match self {
            Width::Bits16 => 16,
            Width::Bits32 => 32,
            Width::Bits64 => 64,
        }
    }
}
