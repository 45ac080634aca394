//! Bounds: between which numbers registers lie, by the relation before a step and the note after it.
ghost use Rattle.std.specs.Prelude.{◌≡◌, ◌<◌, ℕ, Option, Some, IsTrue, IfSome};
ghost use Rattle.bpf_note.specs.Parts.{facts};
ghost use Rattle.bpf_same.specs.LinearForms.{Hold, bound_of, total};
ghost use Rattle.bpf_same.specs.Ranges.{Lies};
ghost use Rattle.bpf_same.specs.Stepped.{LiesBefore, PreservesBound};
ghost use Rattle.bpf_same.specs.declared.range.Range.{Range as ARange};

use crate::linear_form::{LinearForm, REGISTERS};
use crate::range::{Range, narrowed, range_by, range_of};
use crate::relation::Relation;
use crate::sharper::added;
use crate::step::Step;

impl Relation {
    /// The numbers that a register lies between, if they are kept.
    pub(crate) fn bound(&self, register: u8) -> Option<Range>
        ensures { result ≡ bound_of self.now register }
    {
        match self.bounds.get(usize::from(register)) {
            Some(range) => *range,
            None => None,
        }
    }

    /// The range that a form lies in by the bound of a register.
    fn range_by_bound(&self, form: LinearForm, register: u8) -> Option<Range>
        requires { register < 11 }
        ensures { IfSome result (λ r. (f g : ℕ → Option ℕ) → Hold self.now f g → Lies (total f form) r.low r.high) }
    {
        match self.bound(register) {
            Some(range) => range_by(form, self.new_form(register), range),
            None => None,
        }
    }

    /// The range that a form lies in by the bounds.
    pub(crate) fn bounded(&self, form: LinearForm) -> Option<Range>
        ensures { IfSome result (λ r. (f g : ℕ → Option ℕ) → Hold self.now f g → Lies (total f form) r.low r.high) }
    {
        let mut found = None;
        for register in 0..REGISTERS {
            found = narrowed(found, self.range_by_bound(form, register));
        }
        found
    }
}

impl Step<'_> {
    /// The range that a form before the step lies in, by what the note after it says of a register.
    fn range_by_register(&self, form: LinearForm, register: u8) -> Option<Range>
        requires { register < 11 }
        ensures { IfSome result (λ r. LiesBefore self.now.insn self.now.stutters self.now.low (facts self.now.after.now) self.now.before.now form r.low r.high) }
    {
        let Some(there) = self.new_after(register) else {
            return None;
        };
        if there.terms != form.terms {
            return None;
        }
        match range_of(self.after, self.after.register(register)) {
            Some(range) => range_by(form, there, range),
            None => None,
        }
    }

    /// The same by what the note says of all registers.
    fn range_by_note(&self, form: LinearForm) -> Option<Range>
        ensures { IfSome result (λ r. LiesBefore self.now.insn self.now.stutters self.now.low (facts self.now.after.now) self.now.before.now form r.low r.high) }
    {
        let mut found = None;
        for register in 0..REGISTERS {
            found = narrowed(found, self.range_by_register(form, register));
        }
        found
    }

    /// The same of a sum, by the bound of a register and what the note says of the rest. Of a rest that is a constant the bounds say as much.
    fn range_by_sum(&self, form: LinearForm, register: u8) -> Option<Range>
        requires { register < 11 }
        ensures { IfSome result (λ r. LiesBefore self.now.insn self.now.stutters self.now.low (facts self.now.after.now) self.now.before.now form r.low r.high) }
    {
        let Some(bound) = self.before.bound(register) else {
            return None;
        };
        let Some(rest) = form.minus(self.before.new_form(register)) else {
            return None;
        };
        if rest.terms == 0 || rest.terms == form.terms {
            return None;
        }
        match self.range_by_note(rest) {
            Some(range) => added(range, bound),
            None => None,
        }
    }

    /// The same by the bounds of all registers.
    fn range_by_sums(&self, form: LinearForm) -> Option<Range>
        ensures { IfSome result (λ r. LiesBefore self.now.insn self.now.stutters self.now.low (facts self.now.after.now) self.now.before.now form r.low r.high) }
    {
        let mut found = None;
        for register in 0..REGISTERS {
            found = narrowed(found, self.range_by_sum(form, register));
        }
        found
    }

    fn range_by_bounds(&self, form: LinearForm) -> Option<Range>
        ensures { IfSome result (λ r. LiesBefore self.now.insn self.now.stutters self.now.low (facts self.now.after.now) self.now.before.now form r.low r.high) }
    {
        self.before.bounded(form)
    }

    /// The range that a form before the step lies in.
    pub(crate) fn range_before(&self, form: LinearForm) -> Option<Range>
        ensures { IfSome result (λ r. LiesBefore self.now.insn self.now.stutters self.now.low (facts self.now.after.now) self.now.before.now form r.low r.high) }
    {
        let kept = narrowed(self.range_by_bounds(form), self.range_by_sums(form));
        narrowed(kept, self.range_by_note(form))
    }

    /// Returns whether a register holds a number of a range after the step.
    fn is_bounded(&self, register: u8, bound: Range) -> bool
        requires { register < 11 }
        ensures { IsTrue result → PreservesBound self.now.insn self.now.stutters self.now.low (facts self.now.after.now) self.now.before.now register bound }
    {
        let Some(here) = self.new_after(register) else {
            return false;
        };
        let Some(range) = self.range_before(here) else {
            return false;
        };
        bound.low <= range.low && range.high <= bound.high
    }

    /// Returns whether the next relation's bound of a register is one after the step.
    pub(crate) fn preserves_bound(&self, next: &Relation, register: u8) -> bool
        requires { register < 11 }
        ensures { IsTrue result → (r : ARange) → bound_of next.now register ≡ Some r →
            PreservesBound self.now.insn self.now.stutters self.now.low (facts self.now.after.now) self.now.before.now register r }
    {
        match next.bound(register) {
            Some(bound) => self.is_bounded(register, bound),
            None => true,
        }
    }
}
