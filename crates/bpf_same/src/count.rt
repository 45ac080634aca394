//! What is known inside a count, between its load and its store.
ghost use Rattle.std.specs.Prelude.{◌≡◌, ◌==◌, ◌≢◌, ◌⊎◌, ℕ, IsTrue, IfSome};
ghost use Rattle.bpf_same.specs.Stepped.{alters};
ghost use Rattle.bpf_insn.specs.Register.{number};
ghost use Rattle.bpf_same.specs.Fused.{IsAddition, IsCounted, IsPlain, IsStep, IsWritten};
ghost use Rattle.bpf_same.specs.LinearForms.{bit};

use crate::live::{is_set, reads_within, with, without};
use crate::step::alters;
use bpf_insn::{AluOp, Insn, Operand, Register, Size};

/// The counter's address, and masks of registers: those that hold the same in both programs, and those that hold what was loaded more
/// in the old one.
#[derive(Clone, Copy, PartialEq, Eq, Drop)]
pub(crate) struct Count {
    pub(crate) base: Register,
    pub(crate) off: i16,
    pub(crate) alike: u64,
    pub(crate) ahead: u64,
}

/// The register that a plain instruction writes: one that does nothing else.
fn plainly_written(insn: Insn) -> Option<Register>
    ensures { IfSome result (λ r. IsPlain insn × ((k : ℕ) → alters insn k ≡ (k == number r))) }
{
    match insn {
        Insn::Ldx {
            size: Size::Double,
            ..
        } => None,
        Insn::Alu { dst, .. }
        | Insn::Neg { dst, .. }
        | Insn::End { dst, .. }
        | Insn::MovSx { dst, .. }
        | Insn::Const { dst, .. }
        | Insn::MapRef { dst, .. }
        | Insn::Ldx { dst, .. } => Some(dst),
        _ => None,
    }
}

impl Count {
    /// A register holds the same.
    fn written(self, register: Register) -> Count
        ensures { IsWritten self (number register) result }
    {
        Count {
            alike: with(self.alike, register.number()),
            ahead: without(self.ahead, register.number()),
            ..self
        }
    }

    /// A register holds what was loaded more.
    fn counted(self, register: Register) -> Count
        ensures { IsCounted self (number register) result }
    {
        Count {
            alike: without(self.alike, register.number()),
            ahead: with(self.ahead, register.number()),
            ..self
        }
    }

    pub(crate) fn is_alike(self, register: Register) -> bool
        ensures { IsTrue result → bit self.alike (number register) ≡ 1 }
    {
        is_set(self.alike, register.number())
    }

    pub(crate) fn is_ahead(self, register: Register) -> bool
        ensures { IsTrue result → bit self.ahead (number register) ≡ 1 }
    {
        is_set(self.ahead, register.number())
    }

    /// Returns whether the sum of two registers holds what was loaded more.
    fn is_sum(self, first: Register, second: Register) -> bool
        ensures { IsTrue result → ((bit self.ahead (number first) ≡ 1) × (bit self.alike (number second) ≡ 1))
            ⊎ ((bit self.alike (number first) ≡ 1) × (bit self.ahead (number second) ≡ 1)) }
    {
        self.is_ahead(first) && self.is_alike(second)
            || self.is_alike(first) && self.is_ahead(second)
    }

    /// The register that holds what was loaded more after an instruction, by what it adds.
    fn added_to(self, insn: Insn) -> Option<Register>
        ensures { IfSome result (λ r. IsAddition self insn (number r)) }
    {
        match insn {
            Insn::Alu {
                op: AluOp::Mov,
                wide: true,
                dst,
                src: Operand::Register(src),
            } => self.is_ahead(src).then_some(dst),
            Insn::Alu {
                op: AluOp::Add,
                wide: true,
                dst,
                src: Operand::Immediate(_),
            } => self.is_ahead(dst).then_some(dst),
            Insn::Alu {
                op: AluOp::Add,
                wide: true,
                dst,
                src: Operand::Register(src),
            } => self.is_sum(dst, src).then_some(dst),
            _ => None,
        }
    }

    /// Returns what is known after an instruction inside the count.
    pub(crate) fn after(self, insn: Insn) -> Option<Count>
        ensures { IfSome result (IsStep self insn) }
    {
        if alters(insn, self.base.number()) {
            return None;
        }
        if let Some(register) = self.added_to(insn) {
            return Some(self.counted(register));
        }
        if !reads_within(insn, self.alike) {
            return None;
        }
        Some(self.written(plainly_written(insn)?))
    }
}
