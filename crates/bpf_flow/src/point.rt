//! A point of a program, and the plainest ways on from it.
ghost use Rattle.std.specs.Prelude.{◌≡◌, IfOk};
ghost use Rattle.bpf_insn.specs.Register.{number};
ghost use Rattle.bpf_note.specs.Facts.{is_unset};
ghost use Rattle.bpf_note.specs.Parts.{facts};
ghost use Rattle.bpf_flow.specs.Step.{is_frame};
ghost use Rattle.bpf_flow.specs.Edges.{sets, goes_to};
ghost use Rattle.bpf_flow.specs.Effect.{Allocates, Decides};

use crate::effect::Effect;
use bpf_insn::{Cause, Register};
use bpf_note::{MapShape, Note, Val};

/// A point of a program: a slot, what is known there, and the maps.
#[derive(Drop)]
pub(crate) struct Point<'a> {
    pub pc: u32,
    pub note: &'a Note,
    pub shapes: &'a [MapShape],
}

pub(crate) fn is_unset(value: Val) -> bool
    ensures { result ≡ is_unset value }
{
    matches!(value, Val::Unset)
}

pub(crate) fn is_frame(register: Register) -> bool
    ensures { result ≡ is_frame (number register) }
{
    register == Register::R10
}

impl Point<'_> {
    /// Slot `to` follows, and the same is known there.
    pub fn goes_to(&self, to: u32) -> Result<Effect, Cause>
        ensures gives { Decides result self.now.pc (facts self.now.note.now) (goes_to to (facts self.now.note.now)) }
        ensures spare { IfOk result (λ e. Allocates e → ⊥) }
    {
        Ok(Effect::Goes { to })
    }

    /// A register gets a value, and slot `to` follows.
    pub fn sets(&self, to: u32, dst: Register, value: Val) -> Result<Effect, Cause>
        ensures gives { Decides result self.now.pc (facts self.now.note.now) (sets (facts self.now.note.now) to (number dst) value) }
        ensures spare { IfOk result (λ e. Allocates e → ⊥) }
    {
        if is_frame(dst) {
            return Err(Cause::FramePointer);
        }
        Ok(Effect::Sets { to, dst, value })
    }
}
