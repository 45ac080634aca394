//! Conditions of jumps and their codes.
use std::fmt;

/// The condition on which a jump is taken. `Set` is a non-zero AND; the `Signed` forms read their operands as signed.
#[derive(Clone, Copy, Debug, PartialEq, Eq, Drop)]
pub enum Condition {
    Equal,
    Greater,
    GreaterOrEqual,
    Set,
    NotEqual,
    SignedGreater,
    SignedGreaterOrEqual,
    Less,
    LessOrEqual,
    SignedLess,
    SignedLessOrEqual,
}

impl Condition {
    ghost use Rattle.std.specs.Prelude.{◌≡◌, ◌≤◌, IfNone, IfSome};
    ghost use Rattle.bpf_insn.specs.Spelling.{jump_code};
    ghost use Rattle.bpf_insn.specs.declared.condition.Condition.{Condition};

    /// The condition of an opcode's high four bits.
    pub(crate) fn of_code(code: u8) -> Option<Condition>
        ensures some { IfSome result (λ cond. jump_code cond ≡ code) }
        ensures none { IfNone result ((cond : Condition) → jump_code cond ≡ code → ⊥) }
    {
        match code {
            0x10 => Some(Condition::Equal),
            0x20 => Some(Condition::Greater),
            0x30 => Some(Condition::GreaterOrEqual),
            0x40 => Some(Condition::Set),
            0x50 => Some(Condition::NotEqual),
            0x60 => Some(Condition::SignedGreater),
            0x70 => Some(Condition::SignedGreaterOrEqual),
            0xa0 => Some(Condition::Less),
            0xb0 => Some(Condition::LessOrEqual),
            0xc0 => Some(Condition::SignedLess),
            0xd0 => Some(Condition::SignedLessOrEqual),
            _ => None,
        }
    }

    /// The opcode's high four bits.
    pub(crate) fn code(self) -> u8
        ensures code { result ≡ jump_code self }
        ensures high { result ≤ 0xd0 }
    {
        match self {
            Condition::Equal => 0x10,
            Condition::Greater => 0x20,
            Condition::GreaterOrEqual => 0x30,
            Condition::Set => 0x40,
            Condition::NotEqual => 0x50,
            Condition::SignedGreater => 0x60,
            Condition::SignedGreaterOrEqual => 0x70,
            Condition::Less => 0xa0,
            Condition::LessOrEqual => 0xb0,
            Condition::SignedLess => 0xc0,
            Condition::SignedLessOrEqual => 0xd0,
        }
    }
}

impl fmt::Display for Condition {
    ghost use Rattle.std.specs.Prelude.{Some};
    ghost use Rattle.bpf_insn.specs.Text.{condition_text};

    ghost output = { λ cond. Some (condition_text cond) };

    fn fmt<W: fmt::Write>(&self, f: &mut fmt::Formatter<W>) -> fmt::Result {
        f.write_str(match self {
            Condition::Equal => "==",
            Condition::Greater => ">",
            Condition::GreaterOrEqual => ">=",
            Condition::Set => "&",
            Condition::NotEqual => "!=",
            Condition::SignedGreater => "s>",
            Condition::SignedGreaterOrEqual => "s>=",
            Condition::Less => "<",
            Condition::LessOrEqual => "<=",
            Condition::SignedLess => "s<",
            Condition::SignedLessOrEqual => "s<=",
        })
    }
}
