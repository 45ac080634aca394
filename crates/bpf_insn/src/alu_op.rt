//! Arithmetic operations and their codes.
use std::fmt;

/// An arithmetic operation of two operands.
#[derive(Clone, Copy, Debug, PartialEq, Eq, Drop)]
pub enum AluOp {
    Add,
    Sub,
    Mul,
    Div,
    SignedDiv,
    Or,
    And,
    Lsh,
    Rsh,
    Mod,
    SignedMod,
    Xor,
    Mov,
    Arsh,
}

impl AluOp {
    ghost use Rattle.std.specs.Prelude.{◌≡◌, ◌≤◌, IfNone, IfSome, pos};
    ghost use Rattle.bpf_insn.specs.Spelling.{alu_code, alu_offset};
    ghost use Rattle.bpf_insn.specs.declared.alu_op.AluOp.{AluOp};

    /// The operation of an opcode's high four bits and an offset.
    pub(crate) fn of_code(code: u8, off: i16) -> Option<AluOp>
        ensures some { IfSome result (λ op. (alu_code op ≡ code) × (pos (alu_offset op) ≡ off)) }
        ensures none { IfNone result ((op : AluOp) → alu_code op ≡ code → pos (alu_offset op) ≡ off → ⊥) }
    {
        match (code, off) {
            (0x00, 0) => Some(AluOp::Add),
            (0x10, 0) => Some(AluOp::Sub),
            (0x20, 0) => Some(AluOp::Mul),
            (0x30, 0) => Some(AluOp::Div),
            (0x30, 1) => Some(AluOp::SignedDiv),
            (0x40, 0) => Some(AluOp::Or),
            (0x50, 0) => Some(AluOp::And),
            (0x60, 0) => Some(AluOp::Lsh),
            (0x70, 0) => Some(AluOp::Rsh),
            (0x90, 0) => Some(AluOp::Mod),
            (0x90, 1) => Some(AluOp::SignedMod),
            (0xa0, 0) => Some(AluOp::Xor),
            (0xb0, 0) => Some(AluOp::Mov),
            (0xc0, 0) => Some(AluOp::Arsh),
            _ => None,
        }
    }

    /// The opcode's high four bits.
    pub(crate) fn code(self) -> u8
        ensures code { result ≡ alu_code self }
        ensures high { result ≤ 0xc0 }
    {
        match self {
            AluOp::Add => 0x00,
            AluOp::Sub => 0x10,
            AluOp::Mul => 0x20,
            AluOp::Div | AluOp::SignedDiv => 0x30,
            AluOp::Or => 0x40,
            AluOp::And => 0x50,
            AluOp::Lsh => 0x60,
            AluOp::Rsh => 0x70,
            AluOp::Mod | AluOp::SignedMod => 0x90,
            AluOp::Xor => 0xa0,
            AluOp::Mov => 0xb0,
            AluOp::Arsh => 0xc0,
        }
    }

    /// The offset that its instruction has.
    pub(crate) fn offset(self) -> i16
        ensures { result ≡ pos (alu_offset self) }
    {
        match self {
            AluOp::SignedDiv | AluOp::SignedMod => 1,
            _ => 0,
        }
    }
}

impl fmt::Display for AluOp {
    ghost use Rattle.std.specs.Prelude.{Some};
    ghost use Rattle.bpf_insn.specs.Text.{operation_text};

    ghost output = { λ op. Some (operation_text op) };

    fn fmt<W: fmt::Write>(&self, f: &mut fmt::Formatter<W>) -> fmt::Result {
        f.write_str(match self {
            AluOp::Add => "+=",
            AluOp::Sub => "-=",
            AluOp::Mul => "*=",
            AluOp::Div => "/=",
            AluOp::SignedDiv => "s/=",
            AluOp::Or => "|=",
            AluOp::And => "&=",
            AluOp::Lsh => "<<=",
            AluOp::Rsh => ">>=",
            AluOp::Mod => "%=",
            AluOp::SignedMod => "s%=",
            AluOp::Xor => "^=",
            AluOp::Mov => "=",
            AluOp::Arsh => "s>>=",
        })
    }
}
