//! The parts of instructions' text, in the notation of the Linux kernel's disassembler.
ghost use Rattle.std.specs.Prelude.{◌≡◌};

use crate::condition::Condition;
use crate::operand::Operand;
use crate::register::Register;
use crate::size::Size;
use std::fmt;

/// A register by its name: `r0`, or `w0` for its low half.
#[derive(Clone, Copy)]
pub(crate) struct Name {
    wide: bool,
    register: Register,
}

impl Name {
    pub fn new(wide: bool, register: Register) -> Name
        ensures wide { result.wide ≡ wide }
        ensures register { result.register ≡ register }
    {
        Name { wide, register }
    }
}

impl fmt::Display for Name {
    ghost use Rattle.std.specs.Prelude.{Some};
    ghost use Rattle.bpf_insn.specs.Text.{register_text};

    ghost output = { λ n. Some (register_text n.wide n.register) };

    fn fmt<W: fmt::Write>(&self, f: &mut fmt::Formatter<W>) -> fmt::Result {
        let number = self.register.number();
        if self.wide {
            write!(f, "r{number}")
        } else {
            write!(f, "w{number}")
        }
    }
}

/// A number with its sign: `+1` or `-8`.
#[derive(Clone, Copy)]
pub(crate) struct Signed(pub i32);

impl fmt::Display for Signed {
    ghost use Rattle.std.specs.Prelude.{Some};
    ghost use Rattle.bpf_insn.specs.Text.{offset_text};

    ghost output = { λ n. Some (offset_text n.0) };

    fn fmt<W: fmt::Write>(&self, f: &mut fmt::Formatter<W>) -> fmt::Result {
        let number = self.0;
        let magnitude = number.unsigned_abs();
        if number < 0 {
            write!(f, "-{magnitude}")
        } else {
            write!(f, "+{magnitude}")
        }
    }
}

/// The second operand of an arithmetic instruction, a constant in decimal.
#[derive(Clone, Copy)]
pub(crate) struct Source {
    pub wide: bool,
    pub operand: Operand,
}

impl fmt::Display for Source {
    ghost use Rattle.std.specs.Prelude.{Some};
    ghost use Rattle.bpf_insn.specs.Text.{source_text};

    ghost output = { λ s. Some (source_text s.wide s.operand) };

    fn fmt<W: fmt::Write>(&self, f: &mut fmt::Formatter<W>) -> fmt::Result {
        match self.operand {
            Operand::Register(register) => {
                let name = Name {
                    wide: self.wide,
                    register,
                };
                write!(f, "{name}")
            }
            Operand::Immediate(imm) => write!(f, "{imm}"),
        }
    }
}

/// The second operand of a jump, a constant as its 32 bits in hexadecimal.
#[derive(Clone, Copy)]
struct Compared {
    wide: bool,
    operand: Operand,
}

impl fmt::Display for Compared {
    ghost use Rattle.std.specs.Prelude.{Some};
    ghost use Rattle.bpf_insn.specs.Text.{compared_text};

    ghost output = { λ s. Some (compared_text s.wide s.operand) };

    fn fmt<W: fmt::Write>(&self, f: &mut fmt::Formatter<W>) -> fmt::Result {
        match self.operand {
            Operand::Register(register) => {
                let name = Name {
                    wide: self.wide,
                    register,
                };
                write!(f, "{name}")
            }
            Operand::Immediate(imm) => {
                let bits = imm.cast_unsigned();
                write!(f, "0x{bits:x}")
            }
        }
    }
}

/// The kind of a number in memory: `u8` to `u64`, `s8` to `s64`.
#[derive(Clone, Copy)]
pub(crate) struct Kind {
    pub signed: bool,
    pub size: Size,
}

impl fmt::Display for Kind {
    ghost use Rattle.std.specs.Prelude.{Some};
    ghost use Rattle.bpf_insn.specs.Text.{size_text};

    ghost output = { λ k. Some (size_text k.signed k.size) };

    fn fmt<W: fmt::Write>(&self, f: &mut fmt::Formatter<W>) -> fmt::Result {
        let bits = 8 * self.size.bytes();
        if self.signed {
            write!(f, "s{bits}")
        } else {
            write!(f, "u{bits}")
        }
    }
}

/// An address: `(r2 +0)`.
#[derive(Clone, Copy)]
struct Address {
    base: Register,
    off: i16,
}

impl Address {
    fn new(base: Register, off: i16) -> Address
        ensures base { result.base ≡ base }
        ensures off { result.off ≡ off }
    {
        Address { base, off }
    }
}

impl fmt::Display for Address {
    ghost use Rattle.std.specs.Prelude.{Some};
    ghost use Rattle.bpf_insn.specs.Text.{address_text};

    ghost output = { λ a. Some (address_text a.base a.off) };

    fn fmt<W: fmt::Write>(&self, f: &mut fmt::Formatter<W>) -> fmt::Result {
        let base = Name::new(true, self.base);
        let off = Signed(i32::from(self.off));
        write!(f, "({base} {off})")
    }
}

/// A number in memory: `*(u16 *)(r2 +12)`.
#[derive(Clone, Copy)]
pub(crate) struct Cell {
    kind: Kind,
    address: Address,
}

impl Cell {
    pub fn new(signed: bool, size: Size, base: Register, off: i16) -> Cell
        ensures signed { result.kind.signed ≡ signed }
        ensures size { result.kind.size ≡ size }
        ensures base { result.address.base ≡ base }
        ensures off { result.address.off ≡ off }
    {
        let kind = Kind { signed, size };
        let address = Address::new(base, off);
        Cell { kind, address }
    }
}

impl fmt::Display for Cell {
    ghost use Rattle.std.specs.Prelude.{Some};
    ghost use Rattle.bpf_insn.specs.Text.{cell_text};

    ghost output = { λ c. Some (cell_text c.kind.signed c.kind.size c.address.base c.address.off) };

    fn fmt<W: fmt::Write>(&self, f: &mut fmt::Formatter<W>) -> fmt::Result {
        let kind = self.kind;
        let address = self.address;
        write!(f, "*({kind} *){address}")
    }
}

/// An addition that returns the old number: `atomic64_fetch_add((u64 *)(r10 -8), r1)`.
#[derive(Clone, Copy)]
struct Fetch {
    address: Address,
    src: Register,
}

impl fmt::Display for Fetch {
    ghost use Rattle.std.specs.Prelude.{Some};
    ghost use Rattle.bpf_insn.specs.Text.{fetch_text};

    ghost output = { λ s. Some (fetch_text s.address.base s.address.off s.src) };

    #[tactic(auto, unfolding(crate::specs::Text::fetch_text))]
    fn fmt<W: fmt::Write>(&self, f: &mut fmt::Formatter<W>) -> fmt::Result {
        let address = self.address;
        let src = Name::new(true, self.src);
        write!(f, "atomic64_fetch_add((u64 *){address}, {src})")
    }
}

/// An addition to memory: `lock *(u64 *)(r10 -8) += r1`, or with the old number
/// `r1 = atomic64_fetch_add((u64 *)(r10 -8), r1)`.
#[derive(Clone, Copy)]
pub(crate) struct Addition {
    fetch: bool,
    address: Address,
    src: Register,
}

impl Addition {
    pub fn new(fetch: bool, base: Register, off: i16, src: Register) -> Addition
        ensures fetch { result.fetch ≡ fetch }
        ensures base { result.address.base ≡ base }
        ensures off { result.address.off ≡ off }
        ensures src { result.src ≡ src }
    {
        let address = Address::new(base, off);
        Addition {
            fetch,
            address,
            src,
        }
    }
}

impl fmt::Display for Addition {
    ghost use Rattle.std.specs.Prelude.{Some};
    ghost use Rattle.bpf_insn.specs.Text.{addition_text};

    ghost output = { λ a. Some (addition_text a.fetch a.address.base a.address.off a.src) };

    fn fmt<W: fmt::Write>(&self, f: &mut fmt::Formatter<W>) -> fmt::Result {
        let address = self.address;
        let src = Name::new(true, self.src);
        if self.fetch {
            write!(
                f,
                "{src} = {}",
                Fetch {
                    address,
                    src: self.src
                }
            )
        } else {
            write!(f, "lock *(u64 *){address} += {src}")
        }
    }
}

/// The test of a conditional jump: `w0 s< 0x5`.
#[derive(Clone, Copy)]
pub(crate) struct Test {
    pub cond: Condition,
    pub wide: bool,
    pub dst: Register,
    pub src: Operand,
}

impl fmt::Display for Test {
    ghost use Rattle.std.specs.Prelude.{Some};
    ghost use Rattle.bpf_insn.specs.Text.{test_text};

    ghost output = { λ t. Some (test_text t.cond t.wide t.dst t.src) };

    fn fmt<W: fmt::Write>(&self, f: &mut fmt::Formatter<W>) -> fmt::Result {
        let cond = self.cond;
        let dst = Name::new(self.wide, self.dst);
        let src = Compared {
            wide: self.wide,
            operand: self.src,
        };
        write!(f, "{dst} {cond} {src}")
    }
}
