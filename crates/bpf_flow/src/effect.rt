//! What an instruction does that the rule allows.
ghost use Rattle.std.specs.Prelude.{◌≡◌, ◌<◌, IfOk, OnOk, OnErr, Ok};
ghost use Rattle.bpf_insn.specs.Register.{number};
ghost use Rattle.bpf_note.specs.declared.val.Val.TheVariants.{Pkt};
ghost use Rattle.bpf_note.specs.Facts.{with_reg, with_id};
ghost use Rattle.bpf_note.specs.Parts.{facts};
ghost use Rattle.bpf_flow.specs.Call.{with_call};
ghost use Rattle.bpf_flow.specs.Effect.{Allocates, Fits, edges_by};
ghost use Rattle.bpf_flow.specs.Gives.{WantsMemory, edges_along, edges_of};

use crate::branch::{Test, branch};
use crate::call::call;
use crate::memory::store;
use crate::successors::{Successor, Successors, Ways};
use bpf_insn::{Register, Size};
use bpf_note::{Note, Spares, Val};
use std::alloc::{AllocError, Global};

/// The effect of an instruction that the rule allows. The next slot follows if no other is named.
#[derive(Clone, Copy, Drop)]
pub(crate) enum Effect {
    /// Slot `to` follows, and the same is known there.
    Goes { to: u32 },
    /// A register gets a value, and slot `to` follows.
    Sets { to: u32, dst: Register, value: Val },
    /// A register gets an address in the packet with a base of its own, at most `top`.
    SetsFresh { dst: Register, top: u32 },
    /// The stack gets a value, from byte `place` on.
    Stores { place: u32, size: Size, value: Val },
    /// `r0` gets the result of a lookup in map `m`.
    LooksUp { m: u32 },
    /// Slot `to` follows if the test is met.
    Branches { to: u32, test: Test },
    /// The program ends.
    Ends,
}

/// A register gets an address in the packet with a base of its own.
fn set_fresh(note: &mut Note, id: u16, dst: Register, top: u32) -> Result<(), AllocError>
    ensures { OnOk result (facts note.new ≡ with_reg (with_id (facts note.old) id top) (number dst) (Pkt id 0)) }
{
    note.make_id(id, top)?;
    note.set_register(dst.number(), Val::Pkt { id, off: 0 });
    Ok(())
}

/// Returns what is known after a lookup in map `m` by the call at slot `id`.
fn look_up(note: &mut Note, m: u32, id: u16) -> Result<(), AllocError>
    ensures { OnOk result (facts note.new ≡ with_call (with_id (facts note.old) id 0) m id) }
{
    note.make_id(id, 0)?;
    call(note, m, id);
    Ok(())
}

impl Effect {
    /// Changes what is known at slot `pc` to what is known where the first way leads. An `Err` leaves the note as it came out.
    pub fn apply(self, spares: &mut Spares, pc: u32, note: &mut Note) -> Result<Ways, AllocError>
        requires small { pc < 4096 }
        requires fits { Fits self }
        ensures ok { IfOk result (λ w. edges_along w (facts note.new) ≡ edges_by self pc (facts note.old)) }
        ensures err { OnErr result (WantsMemory (Ok (edges_by self pc (facts note.old)))) }
        ensures spare { OnErr result (Allocates self) }
    {
        match self {
            Effect::Goes { to } => return Ok(Ways::One(to)),
            Effect::Sets { to, dst, value } => {
                note.set_register(dst.number(), value);
                return Ok(Ways::One(to));
            }
            Effect::SetsFresh { dst, top } => set_fresh(note, pc as u16, dst, top)?,
            Effect::Stores { place, size, value } => store(note, place, size, value),
            Effect::LooksUp { m } => look_up(note, m, pc as u16)?,
            Effect::Branches { to, test } => return branch(spares, pc, to, note, test),
            Effect::Ends => return Ok(Ways::None),
        }
        Ok(Ways::One(pc + 1))
    }

    /// Returns where an instruction at slot `pc` leads, from a note that stays.
    pub fn applied(self, alloc: Global, pc: u32, note: &Note) -> Result<Successors, AllocError>
        requires small { pc < 4096 }
        requires fits { Fits self }
        ensures ok { IfOk result (λ s. edges_of s ≡ edges_by self pc (facts note.now)) }
        ensures err { OnErr result (WantsMemory (Ok (edges_by self pc (facts note.now)))) }
    {
        if matches!(self, Effect::Ends) {
            return Ok(Successors::None);
        }
        let mut next = note.boxed(alloc)?;
        match self.apply(&mut Spares::none(alloc), pc, &mut next)? {
            Ways::None => Ok(Successors::None),
            Ways::One(pc) => Ok(Successors::One(Successor { pc, note: next })),
            Ways::Two(pc, target) => Ok(Successors::Two(Successor { pc, note: next }, target)),
        }
    }
}
