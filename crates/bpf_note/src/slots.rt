//! What is done to values, registers and slots of the stack.
ghost use Rattle.std.specs.Prelude.{◌≡◌, ◌<◌, ◌↔◌, IsTrue, ℕ, None, true, slice_index_or, length};
ghost use Rattle.bpf_note.specs.Slots.{replaced, set_bytes, slot_with};
ghost use Rattle.bpf_note.specs.State.{put};
ghost use Rattle.bpf_note.specs.Parts.{no_bytes, kept_of, set_of, IsBlankBelow};

use crate::replacement::Replacement;
use crate::slot::Slot;
use crate::val::Val;

fn replaced_value(change: Replacement, value: Val) -> Val
    ensures { result ≡ replaced change value }
{
    match (change, value) {
        (
            Replacement::Forget { id },
            Val::Pkt { id: carried, .. } | Val::MaybeValue { id: carried, .. },
        ) if carried == id => Val::FULL,
        (Replacement::Resolve { id, known }, Val::MaybeValue { id: carried, .. })
            if carried == id => known,
        _ => value,
    }
}

fn replaced_slot(change: Replacement, slot: Slot) -> Slot
    ensures { result ≡ slot_with (replaced change) slot }
{
    match slot {
        Slot::Kept(value) => Slot::Kept(replaced_value(change, value)),
        Slot::Bytes(_) => slot,
    }
}

pub(crate) fn replaced_registers(registers: &[Val; 11], change: Replacement) -> [Val; 11]
    ensures { (k : ℕ) → slice_index_or result k Val.Unset ≡ replaced change (slice_index_or registers.now k Val.Unset) }
{
    let mut changed = *registers;
    for i in 0..11 {
        changed[i] = replaced_value(change, registers[i]);
    }
    changed
}

/// No byte of the slots below `floor` is set.
pub(crate) fn replaced_slots(slots: &[Slot; 64], floor: usize, change: Replacement) -> [Slot; 64]
    requires { IsBlankBelow floor slots.now }
    ensures { (j : ℕ) → slice_index_or result j no_bytes ≡ slot_with (replaced change) (slice_index_or slots.now j no_bytes) }
{
    let mut changed = *slots;
    for i in floor..64 {
        changed[i] = replaced_slot(change, slots[i]);
    }
    changed
}

/// Makes a stack the same as another. No byte of the slots below `floor` is set.
pub(crate) fn copy_slots(to: &mut [Slot; 64], from: &[Slot; 64], floor: usize)
    requires to { IsBlankBelow floor to.old }
    requires from { IsBlankBelow floor from.now }
    ensures { to.new ≡ from.now }
{
    for i in floor..64 {
        to[i] = from[i];
    }
}

/// Returns whether two values are equal. Most are numbers, which are compared first.
#[tactic(auto, using(crate::proofs::EqualLemmas::vals_equal))]
pub(crate) fn is_same_value(a: &Val, b: &Val) -> bool
    ensures { IsTrue result ↔ (a.now ≡ b.now) }
{
    match (a, b) {
        (
            Val::Num { lo, hi },
            Val::Num {
                lo: other_lo,
                hi: other_hi,
            },
        ) => lo == other_lo && hi == other_hi,
        _ => *a == *b,
    }
}

#[tactic(auto, using(crate::proofs::EqualLemmas::slots_equal))]
fn is_same(a: &Slot, b: &Slot) -> bool
    ensures { IsTrue result ↔ (a.now ≡ b.now) }
{
    *a == *b
}

/// Returns whether the slots are equal. No byte of the slots below `floor` is set.
pub(crate) fn are_equal(a: &[Slot; 64], b: &[Slot; 64], floor: usize) -> bool
    requires a { IsBlankBelow floor a.now }
    requires b { IsBlankBelow floor b.now }
    ensures { IsTrue result ↔ (a.now ≡ b.now) }
{
    for i in floor..64 {
        if !is_same(&a[i], &b[i]) {
            return false;
        }
    }
    true
}

/// The bytes of a slot that are set.
pub(crate) fn set_bytes(slot: Slot) -> [bool; 8]
    ensures { result ≡ set_bytes slot }
{
    match slot {
        Slot::Kept(_) => [true; 8],
        Slot::Bytes(bytes) => bytes,
    }
}

/// A slot with one more byte set. It no longer keeps a value.
pub(crate) fn slot_with_byte(slot: Slot, byte: u16) -> Slot
    requires { byte < 8 }
    ensures kept { kept_of result ≡ None }
    ensures set { (k : ℕ) → k < 8 → set_of result k ≡ put (set_of slot) byte true k }
{
    let mut bytes = set_bytes(slot);
    bytes[usize::from(byte)] = true;
    Slot::Bytes(bytes)
}

/// A slot has eight bytes.
fn has_eight_bytes(slot: Slot)
    ensures { length (set_bytes slot) ≡ 8 }
{
    let _bytes = set_bytes(slot);
}

/// There are 64 slots, and each has eight bytes.
pub(crate) fn have_eight_bytes(slots: &[Slot; 64])
    ensures length { length slots.now ≡ 64 }
    ensures bytes { (j : ℕ) → length (set_bytes (slice_index_or slots.now j no_bytes)) ≡ 8 }
{
    for i in 0..64 {
        has_eight_bytes(slots[i]);
    }
}

/// There are eleven registers.
pub(crate) fn are_eleven(registers: &[Val; 11])
    ensures { length registers.now ≡ 11 }
{}
