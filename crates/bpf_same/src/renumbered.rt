//! Whether a program is another one but for the numbers of its slots.
ghost use Rattle.std.specs.Prelude.{◌≡◌, ◌+◌, ◌<◌, ◌≤◌, ◌↔◌, ℕ, ℤ, Bool, List, Option, Some, length, slice_get, IsTrue};
ghost use Rattle.bpf_insn.specs.declared.insn.Insn.{Insn as AnInsn};
ghost use Rattle.bpf_insn.specs.declared.insn.Insn.TheVariants.{Ja, Jump};
ghost use Rattle.bpf_note.specs.Shape.{Shape};
ghost use Rattle.bpf_flow.specs.Graph.{next_slot};
ghost use Rattle.bpf_flow.specs.Step.{target};
ghost use Rattle.bpf_same.specs.Renumbered.{AreWitnessed, IsWitnessed, IsRenumbered, IsRenumberedFrom, IsRenumbering};
ghost use Rattle.bpf_same.specs.Same.{IsSame};

use crate::at_slot::{insn_at, witness_at};
use crate::equal::{is_jump, is_same_insn};
use crate::witness::Witness;
use bpf_flow::{jump_target, next_slot};
use bpf_insn::{Condition, Insn, Operand, Register};

/// Returns whether a slot of the new program has this witness.
fn is_witnessed(witnesses: &[Witness], slot: u32, at: u32) -> bool
    ensures { IsTrue result ↔ IsWitnessed witnesses.now slot at }
{
    let Some(witness) = witness_at(witnesses, slot) else {
        return false;
    };
    witness.at == at
}

/// The same of slots that jumps lead to.
fn are_witnessed(witnesses: &[Witness], slot: Option<u32>, at: Option<u32>) -> bool
    ensures { IsTrue result ↔ AreWitnessed witnesses.now slot at }
{
    let Some(slot) = slot else {
        return false;
    };
    let Some(at) = at else {
        return false;
    };
    is_witnessed(witnesses, slot, at)
}

/// Returns whether an instruction of the old program jumps to the witness of the slot that a jump of the new one leads to.
fn is_ja(witnesses: &[Witness], to: i32, slot: u32, there: Insn, at: u32) -> bool
    requires slot { slot < 4096 }
    requires at { at < 4096 }
    ensures { IsTrue result ↔ (w : Bool) × (o : ℤ) × (there ≡ Ja w o) × AreWitnessed witnesses.now (target slot to) (target at o) }
{
    match there {
        Insn::Ja { to: onto, .. } => {
            are_witnessed(witnesses, jump_target(slot, to), jump_target(at, onto))
        }
        _ => false,
    }
}

/// Returns whether an instruction of the old program is this conditional jump but for its offset, and each way leads to its witness.
fn is_branch(
    witnesses: &[Witness],
    cond: Condition,
    wide: bool,
    dst: Register,
    src: Operand,
    off: i16,
    slot: u32,
    there: Insn,
    at: u32,
) -> bool
    requires slot { slot < 4096 }
    requires at { at < 4096 }
    ensures { IsTrue result ↔ (o : ℤ) × (there ≡ Jump cond wide dst src o) × AreWitnessed witnesses.now (target slot off) (target at o) × IsWitnessed witnesses.now (slot + 1) (at + 1) }
{
    match there {
        Insn::Jump { off: onto, .. } => {
            is_jump(there, cond, wide, dst, src, onto)
                && are_witnessed(
                    witnesses,
                    jump_target(slot, i32::from(off)),
                    jump_target(at, i32::from(onto)),
                )
                && is_witnessed(witnesses, slot + 1, at + 1)
        }
        _ => false,
    }
}

/// Returns whether an instruction that doesn't jump is the old program's, and the old one's next slot is the witness of the next slot.
fn is_plain(witnesses: &[Witness], insn: Insn, slot: u32, there: Insn, at: u32) -> bool
    requires slot { slot < 4096 }
    requires at { at < 4096 }
    ensures { IsTrue result ↔ (there ≡ insn) × IsWitnessed witnesses.now (next_slot insn slot) (next_slot insn at) }
{
    is_same_insn(there, insn) && is_witnessed(witnesses, next_slot(insn, slot), next_slot(insn, at))
}

/// Returns whether an instruction is the old program's but for a jump's offset, and each way leads to its witness.
fn is_renumbered(witnesses: &[Witness], insn: Insn, slot: u32, there: Insn, at: u32) -> bool
    requires slot { slot < 4096 }
    requires at { at < 4096 }
    ensures { IsTrue result ↔ IsRenumbered witnesses.now insn slot there at }
{
    match insn {
        Insn::Ja { to, .. } => is_ja(witnesses, to, slot, there, at),
        Insn::Jump {
            cond,
            wide,
            dst,
            src,
            off,
        } => is_branch(witnesses, cond, wide, dst, src, off, slot, there, at),
        Insn::Exit => is_same_insn(there, insn),
        Insn::Second => true,
        _ => is_plain(witnesses, insn, slot, there, at),
    }
}

/// Returns whether the instruction of a slot is that of a slot of the old program.
fn is_renumbered_from(witnesses: &[Witness], old: &[Insn], insn: Insn, slot: u32, at: u32) -> bool
    requires slot { slot < 4096 }
    requires short { length old.now ≤ 4096 }
    ensures { IsTrue result ↔ IsRenumberedFrom witnesses.now (slice_get old.now at) insn slot at }
{
    let Some(there) = insn_at(old, at) else {
        return false;
    };
    is_renumbered(witnesses, insn, slot, there, at)
}

/// Returns whether an instruction of a slot is its witness's, if it has one.
fn is_insn_renumbered(witnesses: &[Witness], old: &[Insn], insn: Insn, slot: u32) -> bool
    requires slot { slot < 4096 }
    requires short { length old.now ≤ 4096 }
    ensures { IsTrue result ↔ ((p : ℕ) → IsWitnessed witnesses.now slot p → IsRenumberedFrom witnesses.now (slice_get old.now p) insn slot p) }
{
    match witness_at(witnesses, slot) {
        Some(witness) => is_renumbered_from(witnesses, old, insn, slot, witness.at),
        None => true,
    }
}

/// Returns whether a slot is its witness's, if it has one.
fn is_slot_renumbered(witnesses: &[Witness], old: &[Insn], new: &[Insn], slot: u32) -> bool
    requires slot { slot < 4096 }
    requires short { length old.now ≤ 4096 }
    ensures { IsTrue result ↔ ((p : ℕ) (i : AnInsn) → slice_get new.now slot ≡ Some i → IsWitnessed witnesses.now slot p →
        IsRenumberedFrom witnesses.now (slice_get old.now p) i slot p) }
{
    match insn_at(new, slot) {
        Some(insn) => is_insn_renumbered(witnesses, old, insn, slot),
        None => true,
    }
}

/// Returns whether each slot is its witness's, if it has one.
fn are_renumbered(witnesses: &[Witness], old: &[Insn], new: &[Insn]) -> bool
    requires short { length old.now ≤ 4096 }
    requires few { length new.now ≤ 4096 }
    ensures { IsTrue result ↔ ((q p : ℕ) (i : AnInsn) → slice_get new.now q ≡ Some i → IsWitnessed witnesses.now q p →
        IsRenumberedFrom witnesses.now (slice_get old.now p) i q p) }
{
    for slot in 0..new.len() as u32 {
        if !is_slot_renumbered(witnesses, old, new, slot) {
            return false;
        }
    }
    true
}

/// Returns whether both programs begin at slot 0, and each slot is its witness's.
fn is_renumbering(witnesses: &[Witness], old: &[Insn], new: &[Insn]) -> bool
    requires short { length old.now ≤ 4096 }
    requires few { length new.now ≤ 4096 }
    ensures { IsTrue result ↔ IsRenumbering witnesses.now old.now new.now }
{
    is_witnessed(witnesses, 0, 0) && are_renumbered(witnesses, old, new)
}

/// Returns whether a program is another one but for the numbers of its slots, by its witnesses. Then it has its runs.
pub(crate) fn is_same_renumbered(witnesses: &[Witness], old: &[Insn], new: &[Insn]) -> bool
    requires short { length old.now ≤ 4096 }
    requires few { length new.now ≤ 4096 }
    ensures exact { IsTrue result ↔ IsRenumbering witnesses.now old.now new.now }
    ensures same { IsTrue result → (shapes : List Shape) → IsSame shapes old.now new.now }
{
    is_renumbering(witnesses, old, new)
}
