//! Whether a step preserves the relation.
ghost use Rattle.std.specs.Prelude.{◌≡◌, ◌<◌, ℕ, Some, true, IsTrue, IfSome};
ghost use Rattle.bpf_insn.specs.declared.insn.Insn.TheVariants as insns;
ghost use Rattle.bpf_insn.specs.declared.operand.Operand.TheVariants as operands;
ghost use Rattle.bpf_note.specs.Parts.{facts};
ghost use Rattle.bpf_same.specs.LinearForms.{new_of, old_of};
ghost use Rattle.bpf_same.specs.Contents.{IsNewFound, IsOldFound, Preserves};
ghost use Rattle.bpf_same.specs.Stepped.{IsPulledBack, IsWithTerm, IsOldAlike, PreservesNew, PreservesOld};

use crate::linear_form::{LinearForm, REGISTERS, TERMS};
use crate::relation::Relation;
use crate::room::ROOMS;
use crate::step::{Step, alters};
use bpf_insn::{AluOp, Insn, Operand, Register};

impl Step<'_> {
    /// A linear form before the step, and what one term is after it, if that is in the other form.
    fn with_term(&self, all: LinearForm, form: LinearForm, term: u8) -> Option<LinearForm>
        requires { term < 64 }
        ensures { IfSome result (IsWithTerm self.now.insn self.now.stutters self.now.low (facts self.now.after.now) self.now.before.now form term all) }
    {
        if form.has(term) {
            match self.new_after(term) {
                Some(part) => all.plus(part),
                None => None,
            }
        } else {
            Some(all)
        }
    }

    /// A linear form after the step, pulled back to one before it term by term.
    fn pulled_back_by_terms(&self, form: LinearForm) -> Option<LinearForm>
        ensures { IfSome result (IsPulledBack self.now.insn self.now.stutters self.now.low (facts self.now.after.now) self.now.before.now form) }
    {
        let mut all = LinearForm::constant(form.constant);
        for term in 0..TERMS {
            if form.terms >> term == 0 {
                return Some(all);
            }
            match self.with_term(all, form, term) {
                Some(with_term) => all = with_term,
                None => return None,
            }
        }
        Some(all)
    }

    /// A linear form after a step that makes a difference, which is one of its terms, pulled back to one before it.
    fn pulled_back_difference(
        &self,
        form: LinearForm,
        dst: Register,
        src: Register,
    ) -> Option<LinearForm>
        requires { self.now.insn ≡ insns.Alu AluOp.Sub true dst (operands.Register src) }
        ensures { IfSome result (IsPulledBack self.now.insn self.now.stutters self.now.low (facts self.now.after.now) self.now.before.now form) }
    {
        let term = dst.number();
        let subtracted = self.before.new_form(src.number());
        let Some(rest) = form.minus(LinearForm::held(term)) else {
            return None;
        };
        let Some(there) = self.pulled_back_by_terms(rest) else {
            return None;
        };
        let Some(less) = there.minus(subtracted) else {
            return None;
        };
        less.plus(self.before.new_form(term))
    }

    /// A linear form after the step, pulled back to one before it.
    pub(crate) fn pulled_back(&self, form: LinearForm) -> Option<LinearForm>
        ensures { IfSome result (IsPulledBack self.now.insn self.now.stutters self.now.low (facts self.now.after.now) self.now.before.now form) }
    {
        if let Some(here) = self.pulled_back_by_terms(form) {
            return Some(here);
        }
        match self.insn {
            Insn::Alu {
                op: AluOp::Sub,
                wide: true,
                dst,
                src: Operand::Register(src),
            } => self.pulled_back_difference(form, dst, src),
            _ => None,
        }
    }

    /// Returns whether both programs have written the same into a register.
    fn is_alike(&self, register: u8, form: LinearForm) -> bool
        requires { register < 11 }
        ensures { IsTrue result → IsOldAlike self.now.insn self.now.stutters self.now.low (facts self.now.after.now) register form }
    {
        if self.stutters {
            false
        } else if alters(self.insn, register) {
            form.is(LinearForm::held(register))
        } else {
            false
        }
    }

    /// Returns whether a register of the old program holds this linear form after the step.
    fn preserves_old(&self, register: u8, form: LinearForm) -> bool
        requires { register < 11 }
        ensures { IsTrue result → PreservesOld self.now.insn self.now.stutters self.now.low (facts self.now.after.now) self.now.before.now register form }
    {
        if self.is_alike(register, form) {
            return true;
        }
        let Some(there) = self.old_after(register) else {
            return false;
        };
        let Some(here) = self.pulled_back(form) else {
            return false;
        };
        there.is(here)
    }

    /// Returns whether a term of the new program holds this linear form after the step.
    fn preserves_new(&self, term: u8, form: LinearForm) -> bool
        requires { term < 64 }
        ensures { IsTrue result → PreservesNew self.now.insn self.now.stutters self.now.low (facts self.now.after.now) self.now.before.now term form }
    {
        let Some(there) = self.new_after(term) else {
            return false;
        };
        let Some(here) = self.pulled_back(form) else {
            return false;
        };
        there.is(here)
    }

    /// Returns whether both programs, alone, have loaded into a register what stands in a counter, which is this form after the step.
    fn is_old_found(&self, register: u8, form: LinearForm) -> bool
        requires { register < 11 }
        ensures { IsTrue result → IsOldFound self.now.alone self.now.insn self.now.stutters self.now.low (facts self.now.after.now) self.now.before.now register form }
    {
        if self.stutters || !alters(self.insn, register) {
            return false;
        }
        self.is_found(register, form)
    }

    /// Returns whether a register of the old program holds this linear form after the step, be it for what stands in a counter.
    fn holds_old(&self, register: u8, form: LinearForm) -> bool
        requires { register < 11 }
        ensures { IsTrue result → IsOldFound self.now.alone self.now.insn self.now.stutters self.now.low (facts self.now.after.now) self.now.before.now register form }
    {
        if self.preserves_old(register, form) {
            return true;
        }
        self.is_old_found(register, form)
    }

    /// Returns whether a term of the new program does.
    fn holds_new(&self, term: u8, form: LinearForm) -> bool
        requires { term < 64 }
        ensures { IsTrue result → IsNewFound self.now.alone self.now.insn self.now.stutters self.now.low (facts self.now.after.now) self.now.before.now term form }
    {
        if self.preserves_new(term, form) {
            return true;
        }
        self.is_found(term, form)
    }

    /// Returns whether the next relation holds of a register of the old program after the step.
    pub(crate) fn preserves_register(&self, next: &Relation, register: u8) -> bool
        requires { register < 11 }
        ensures { IsTrue result → (s : LinearForm) → old_of next.now register ≡ Some s →
            IsOldFound self.now.alone self.now.insn self.now.stutters self.now.low (facts self.now.after.now) self.now.before.now register s }
    {
        match next.old_form(register) {
            Some(form) => self.holds_old(register, form),
            None => true,
        }
    }

    /// Returns whether the next relation holds of a term after the step.
    pub(crate) fn preserves_term(&self, next: &Relation, term: u8) -> bool
        requires { term < 64 }
        ensures { IsTrue result → (s : LinearForm) → new_of next.now term ≡ Some s →
            IsNewFound self.now.alone self.now.insn self.now.stutters self.now.low (facts self.now.after.now) self.now.before.now term s }
    {
        match next.claimed(term) {
            Some(form) => self.holds_new(term, form),
            None => true,
        }
    }

    /// Returns whether the next relation holds after the step.
    pub(crate) fn preserves(&self, next: &Relation) -> bool
        ensures { IsTrue result → Preserves self.now.alone self.now.insn self.now.stutters self.now.low (facts self.now.after.now) self.now.before.now next.now }
    {
        for register in 0..REGISTERS {
            if !self.preserves_register(next, register) {
                return false;
            }
        }
        for term in 0..TERMS {
            if !self.preserves_term(next, term) {
                return false;
            }
        }
        for number in 0..ROOMS {
            if !self.preserves_room(next, number) {
                return false;
            }
        }
        for index in 0..REGISTERS {
            if !self.preserves_bound(next, index) {
                return false;
            }
        }
        for shifted in 0..REGISTERS {
            if !self.preserves_shifted(next, shifted) {
                return false;
            }
        }
        true
    }
}
