//! Arithmetic instructions.
ghost use Rattle.std.specs.Prelude.{◌≡◌, ◌<◌, ◌+◌, IfOk};
ghost use Rattle.bpf_insn.specs.Register.{number};
ghost use Rattle.bpf_insn.specs.declared.insn.Insn.{Insn};
ghost use Rattle.bpf_insn.specs.declared.refusal.Cause.{Cause};
ghost use Rattle.bpf_note.specs.Facts.{is_unset};
ghost use Rattle.bpf_note.specs.Parts.{facts};
ghost use Rattle.bpf_flow.specs.Edges.{unless, sets, sets_computed};
ghost use Rattle.bpf_flow.specs.Effect.{Allocates, Decides, IsFresh, MayAllocate};
ghost use Rattle.bpf_flow.specs.Rule.{after_of, is_first_unset};

use crate::alu::{extended_value, negated_value, operand_value, result_of, swapped_value};
use crate::computed::Computed;
use crate::effect::Effect;
use crate::point::{Point, is_frame, is_unset};
use bpf_insn::{AluOp, Cause, Operand, Register, Size, SwapKind, Width};
use bpf_note::Val;

fn is_first_unset(op: AluOp, value: Val) -> bool
    ensures { result ≡ is_first_unset op value }
{
    match op {
        AluOp::Mov => false,
        _ => is_unset(value),
    }
}

impl Point<'_> {
    /// A register gets what the instruction computes.
    fn sets_computed(&self, dst: Register, computed: Computed) -> Result<Effect, Cause>
        requires { self.now.pc < 4096 }
        ensures gives { Decides result self.now.pc (facts self.now.note.now)
            (sets_computed (facts self.now.note.now) self.now.pc (number dst) computed) }
        ensures spare { IfOk result (λ e. Allocates e → IsFresh computed) }
    {
        match computed {
            Computed::Plain(value) => self.sets(self.pc + 1, dst, value),
            Computed::Fresh { top } => {
                if is_frame(dst) {
                    return Err(Cause::FramePointer);
                }
                Ok(Effect::SetsFresh { dst, top })
            }
        }
    }

    pub fn alu(&self, op: AluOp, wide: bool, dst: Register, src: Operand) -> Result<Effect, Cause>
        requires { self.now.pc < 4096 }
        ensures gives { Decides result self.now.pc (facts self.now.note.now)
            (after_of (Insn.Alu op wide dst src) self.now.pc (facts self.now.note.now) self.now.shapes.now) }
        ensures spare { IfOk result (λ e. Allocates e → MayAllocate (Insn.Alu op wide dst src) (facts self.now.note.now)) }
    {
        let first = self.note.register(dst.number());
        let second = operand_value(self.note, src);
        if is_unset(second) || is_first_unset(op, first) {
            return Err(Cause::Unset);
        }
        self.sets_computed(dst, result_of(self.note, op, wide, first, second))
    }

    /// Sets `dst` to `made`, or refuses with V7 if `from` is unset.
    fn made_of(&self, from: Val, dst: Register, made: Val) -> Result<Effect, Cause>
        requires { self.now.pc < 4096 }
        ensures gives { Decides result self.now.pc (facts self.now.note.now)
            (unless (is_unset from) Cause.Unset (sets (facts self.now.note.now) (self.now.pc + 1) (number dst) made)) }
        ensures spare { IfOk result (λ e. Allocates e → ⊥) }
    {
        if is_unset(from) {
            return Err(Cause::Unset);
        }
        self.sets(self.pc + 1, dst, made)
    }

    pub fn neg(&self, wide: bool, dst: Register) -> Result<Effect, Cause>
        requires { self.now.pc < 4096 }
        ensures gives { Decides result self.now.pc (facts self.now.note.now)
            (after_of (Insn.Neg wide dst) self.now.pc (facts self.now.note.now) self.now.shapes.now) }
        ensures spare { IfOk result (λ e. Allocates e → ⊥) }
    {
        let value = self.note.register(dst.number());
        self.made_of(value, dst, negated_value(wide, value))
    }

    pub fn end(&self, kind: SwapKind, width: Width, dst: Register) -> Result<Effect, Cause>
        requires { self.now.pc < 4096 }
        ensures gives { Decides result self.now.pc (facts self.now.note.now)
            (after_of (Insn.End kind width dst) self.now.pc (facts self.now.note.now) self.now.shapes.now) }
        ensures spare { IfOk result (λ e. Allocates e → ⊥) }
    {
        let value = self.note.register(dst.number());
        self.made_of(value, dst, swapped_value(kind, width, value))
    }

    pub fn mov_sx(
        &self,
        wide: bool,
        bits: Size,
        dst: Register,
        src: Register,
    ) -> Result<Effect, Cause>
        requires { self.now.pc < 4096 }
        ensures gives { Decides result self.now.pc (facts self.now.note.now)
            (after_of (Insn.MovSx wide bits dst src) self.now.pc (facts self.now.note.now) self.now.shapes.now) }
        ensures spare { IfOk result (λ e. Allocates e → ⊥) }
    {
        let value = self.note.register(src.number());
        self.made_of(value, dst, extended_value(wide, bits, value))
    }
}
