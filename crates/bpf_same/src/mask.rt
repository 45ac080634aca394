//! A mask that leaves a number as it is.
ghost use Rattle.std.specs.Prelude.{◌≡◌, IfSome};
ghost use Rattle.bpf_insn.specs.Register.{number};
ghost use Rattle.bpf_insn.specs.declared.insn.Insn.TheVariants as insns;
ghost use Rattle.bpf_note.specs.Parts.{facts};
ghost use Rattle.bpf_same.specs.Stepped.{IsNewAfter};

use crate::linear_form::{LinearForm, REGISTERS, extended};
use crate::range::{range_by, range_of};
use crate::sharper::bits_of;
use crate::step::{Step, alters};
use bpf_insn::{AluOp, Operand, Register};

impl Step<'_> {
    /// Returns what a register holds that a mask leaves as it is: it has no bit above those of the mask, which are the lowest ones.
    pub(crate) fn left_by_mask(
        &self,
        op: AluOp,
        wide: bool,
        dst: Register,
        src: Operand,
    ) -> Option<LinearForm>
        requires { self.now.insn ≡ insns.Alu op wide dst src }
        ensures { IfSome result (IsNewAfter self.now.insn self.now.stutters self.now.low (facts self.now.after.now) self.now.before.now (number dst)) }
    {
        let Operand::Immediate(value) = src else {
            return None;
        };
        let form = self.before.new_form(dst.number());
        let register = form.terms.trailing_zeros();
        if register >= u32::from(REGISTERS) {
            return None;
        }
        let register = register as u8;
        if alters(self.insn, register) {
            return None;
        }
        let Some(there) = range_of(self.after, self.after.register(register)) else {
            return None;
        };
        let Some(range) = range_by(form, self.before.new_form(register), there) else {
            return None;
        };
        let Some(bits) = bits_of(extended(value)) else {
            return None;
        };
        if bits.from != 0 || range.high > extended(value) {
            return None;
        }
        match op {
            AluOp::And => { if wide { Some(form) } else { None } }
            _ => None,
        }
    }
}
