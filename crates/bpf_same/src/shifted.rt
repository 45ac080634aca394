//! Numbers that are shifted to the upper half of a register and back, as where 32 bits are extended to 64.
ghost use Rattle.std.specs.Prelude.{◌≡◌, ◌<◌, pos, ℕ, Some, true, IsTrue, IfSome};
ghost use Rattle.bpf_insn.specs.declared.insn.Insn.TheVariants as insns;
ghost use Rattle.bpf_insn.specs.declared.operand.Operand.TheVariants as operands;
ghost use Rattle.bpf_insn.specs.Register.{number};
ghost use Rattle.bpf_note.specs.Parts.{facts};
ghost use Rattle.bpf_same.specs.LinearForms.{shifted_of};
ghost use Rattle.bpf_same.specs.Stepped.{BringsBack, IsNewAfter, IsShift, IsSmallAfter, PreservesShifted};
ghost use Rattle.bpf_same.specs.declared.linear_form.LinearForm.{LinearForm as ALinearForm};

use crate::linear_form::LinearForm;
use crate::relation::Relation;
use crate::step::Step;
use bpf_insn::{AluOp, Insn, Operand, Register};

/// The number of bits of half a register.
const HALF: i32 = 32;

/// The greatest number that each shift to the right brings back.
const GREATEST: u64 = 0x7fffffff;

impl Relation {
    /// The form that a register holds, shifted to its upper half.
    pub(crate) fn shifted_form(&self, register: u8) -> Option<LinearForm>
        ensures { result ≡ shifted_of self.now register }
    {
        match self.shifted.get(usize::from(register)) {
            Some(form) => *form,
            None => None,
        }
    }
}

fn is_half(src: Operand) -> bool
    ensures { IsTrue result → src ≡ operands.Immediate (pos 32) }
{
    match src {
        Operand::Immediate(value) => value == HALF,
        Operand::Register(_) => false,
    }
}

fn is_shift_left(op: AluOp, wide: bool, src: Operand) -> bool
    ensures { IsTrue result → (op ≡ AluOp.Lsh) × (wide ≡ true) × (src ≡ operands.Immediate (pos 32)) }
{
    match op {
        AluOp::Lsh => wide && is_half(src),
        _ => false,
    }
}

/// Returns whether an instruction shifts a register to its upper half.
pub(crate) fn is_shift(insn: Insn, register: u8) -> bool
    ensures { IsTrue result → IsShift insn register }
{
    match insn {
        Insn::Alu { op, wide, dst, src } => {
            is_shift_left(op, wide, src) && register == dst.number()
        }
        _ => false,
    }
}

fn brings_back(op: AluOp) -> bool
    ensures { IsTrue result → BringsBack op }
{
    match op {
        AluOp::Rsh => true,
        AluOp::Arsh => true,
        _ => false,
    }
}

impl Step<'_> {
    /// Returns whether a form after the step is what a register held before it, and small enough to be shifted and brought back.
    fn is_small(&self, register: u8, form: LinearForm) -> bool
        requires { register < 11 }
        ensures { IsTrue result → IsSmallAfter self.now.insn self.now.stutters self.now.low (facts self.now.after.now) self.now.before.now register form }
    {
        let Some(here) = self.pulled_back(form) else {
            return false;
        };
        let held = self.before.new_form(register);
        let Some(range) = self.range_before(here) else {
            return false;
        };
        range.high <= GREATEST && held.is(here)
    }

    /// Returns whether a register holds a form after the step, shifted to its upper half.
    pub(crate) fn is_shifted(&self, register: u8, form: LinearForm) -> bool
        requires { register < 11 }
        ensures { IsTrue result → PreservesShifted self.now.insn self.now.stutters self.now.low (facts self.now.after.now) self.now.before.now register form }
    {
        is_shift(self.insn, register) && self.is_small(register, form)
    }

    /// Returns whether the next relation's register holds its form after the step, shifted to its upper half.
    pub(crate) fn preserves_shifted(&self, next: &Relation, register: u8) -> bool
        requires { register < 11 }
        ensures { IsTrue result → (s : ALinearForm) → shifted_of next.now register ≡ Some s →
            PreservesShifted self.now.insn self.now.stutters self.now.low (facts self.now.after.now) self.now.before.now register s }
    {
        match next.shifted_form(register) {
            Some(form) => self.is_shifted(register, form),
            None => true,
        }
    }

    /// Returns what a shift of a register's upper half to its lower one brings back.
    pub(crate) fn brought_back(
        &self,
        op: AluOp,
        wide: bool,
        dst: Register,
        src: Operand,
    ) -> Option<LinearForm>
        requires { self.now.insn ≡ insns.Alu op wide dst src }
        ensures { IfSome result (IsNewAfter self.now.insn self.now.stutters self.now.low (facts self.now.after.now) self.now.before.now (number dst)) }
    {
        if wide && is_half(src) && brings_back(op) {
            self.before.shifted_form(dst.number())
        } else {
            None
        }
    }
}
