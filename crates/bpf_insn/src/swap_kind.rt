//! Kinds of byte swaps.
use std::fmt;

/// The effect of a byte swap instruction, on a little-endian machine.
#[derive(Clone, Copy, Debug, PartialEq, Eq, Drop)]
pub enum SwapKind {
    /// Keeps the bytes as they are.
    ToLittle,
    /// Reverses the bytes.
    ToBig,
    /// Reverses the bytes, on every machine.
    Swap,
}

impl SwapKind {
    ghost use Rattle.std.specs.Prelude.{◌≡◌};
    ghost use Rattle.bpf_insn.specs.Spelling.{swap_opcode};

    /// The instruction's opcode.
    pub(crate) fn opcode(self) -> u8
        ensures { result ≡ swap_opcode self }
    {
        match self {
            SwapKind::ToLittle => 0xd4,
            SwapKind::ToBig => 0xdc,
            SwapKind::Swap => 0xd7,
        }
    }
}

impl fmt::Display for SwapKind {
    ghost use Rattle.std.specs.Prelude.{Some};
    ghost use Rattle.bpf_insn.specs.Text.{swap_text};

    ghost output = { λ kind. Some (swap_text kind) };

    fn fmt<W: fmt::Write>(&self, f: &mut fmt::Formatter<W>) -> fmt::Result {
        f.write_str(match self {
            SwapKind::ToLittle => "le",
            SwapKind::ToBig => "be",
            SwapKind::Swap => "bswap",
        })
    }
}
