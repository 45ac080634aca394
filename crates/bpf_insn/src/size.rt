//! Sizes of accesses.
/// The number of bytes that a load, a store or a sign extension works on.
#[derive(Clone, Copy, Debug, PartialEq, Eq, Drop)]
pub enum Size {
    Byte,
    Half,
    Word,
    Double,
}

impl Size {
    ghost use Rattle.std.specs.Prelude.{◌≡◌, ◌≤◌};
    ghost use Rattle.bpf_insn.specs.Spelling.{size_code};
    ghost use Rattle.bpf_insn.specs.declared.size.Size.{Size};
    ghost use Rattle.bpf_insn.specs.Size.{size_bytes};

    /// The number of bytes: 1, 2, 4 or 8.
    pub fn bytes(self) -> usize
        ensures { result ≡ size_bytes self }
    {
        match self {
            Size::Byte => 1,
            Size::Half => 2,
            Size::Word => 4,
            Size::Double => 8,
        }
    }

    /// The opcode's two bits.
    pub(crate) fn code(self) -> u8
        ensures code { result ≡ size_code self }
        ensures high { result ≤ 0x18 }
    {
        match self {
            Size::Word => 0x00,
            Size::Half => 0x08,
            Size::Byte => 0x10,
            Size::Double => 0x18,
        }
    }
}
