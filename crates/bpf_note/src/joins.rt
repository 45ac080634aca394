//! What is known if either of two notes may describe the state.
ghost use Rattle.std.specs.Prelude.{◌≡◌, ◌⊎◌, ◌↔◌, ◌&&◌, ◌<◌, ℕ, slice_index_or, false, IfOk, OnOk, OnErr, IsTrue};
ghost use Rattle.bpf_note.specs.State.{State};
ghost use Rattle.bpf_note.specs.Describes.{Describes};
ghost use Rattle.bpf_note.specs.Join.{joined, joined_value, is_same_pointer};
ghost use Rattle.bpf_note.specs.Parts.{facts, no_bytes, IsBlankBelow};
ghost use Rattle.bpf_note.specs.Slots.{both, joined_slot, IsCovered};

use crate::note::Note;
use crate::slot::Slot;
use crate::slots::{is_same_value, set_bytes};
use crate::val::Val;
use std::alloc::{AllocError, Global};

/// Returns what is known if either of two notes may describe the state.
pub fn join(alloc: Global, a: &Note, b: &Note) -> Result<Note, AllocError>
    ensures joined { IfOk result (λ n. facts n ≡ joined (facts a.now) (facts b.now)) }
    ensures describes { IfOk result (λ n. (s : State) → Describes (facts a.now) s ⊎ Describes (facts b.now) s → Describes (facts n) s) }
{
    let mut joined = a.copy(alloc)?;
    join_in_place(&mut joined, b)?;
    Ok(joined)
}

/// [`join`], in the first note. An `Err` changes nothing.
pub fn join_in_place(a: &mut Note, b: &Note) -> Result<(), AllocError>
    ensures ok { OnOk result (facts a.new ≡ joined (facts a.old) (facts b.now)) }
    ensures err { OnErr result (a.new ≡ a.old) }
{
    let bounds = a.bounds.joined(&b.bounds)?;
    let floor = a.floor.min(b.floor);
    join_registers(&mut a.regs, &b.regs);
    join_stacks(&mut a.slots, &b.slots, floor);
    a.floor = floor;
    a.bounds = bounds;
    Ok(())
}

/// Returns whether the join of the two is the first.
pub fn covers(a: &Note, b: &Note) -> bool
    ensures exact { IsTrue result ↔ (joined (facts a.now) (facts b.now) ≡ facts a.now) }
    ensures describes { IsTrue result → (s : State) → Describes (facts b.now) s → Describes (facts a.now) s }
{
    covers_registers(&a.regs, &b.regs)
        && covers_stack(&a.slots, &b.slots, a.floor.min(b.floor))
        && a.bounds.covers(&b.bounds)
}

fn join_value(a: Val, b: Val) -> Val
    ensures { result ≡ joined_value a b }
{
    match (a, b) {
        (Val::Unset, _) | (_, Val::Unset) => Val::Unset,
        (
            Val::Num { lo, hi },
            Val::Num {
                lo: other_lo,
                hi: other_hi,
            },
        ) => Val::Num {
            lo: lo.min(other_lo),
            hi: hi.max(other_hi),
        },
        _ if is_same_pointer(a, b) => a,
        _ => Val::FULL,
    }
}

/// Returns whether the two are pointers, and equal.
fn is_same_pointer(a: Val, b: Val) -> bool
    ensures { result ≡ is_same_pointer a b }
{
    match (a, b) {
        (
            Val::Pkt { id, off },
            Val::Pkt {
                id: other_id,
                off: other_off,
            },
        ) => id == other_id && off == other_off,
        (Val::PktEnd, Val::PktEnd) | (Val::Ctx, Val::Ctx) => true,
        (Val::Stack { off }, Val::Stack { off: other }) => off == other,
        (Val::Map { m }, Val::Map { m: other }) | (Val::Value { m }, Val::Value { m: other }) => m
            == other,
        (
            Val::MaybeValue { m, id },
            Val::MaybeValue {
                m: other_m,
                id: other_id,
            },
        ) => m == other_m && id == other_id,
        _ => false,
    }
}

fn join_slots(a: Slot, b: Slot) -> Slot
    ensures { result ≡ joined_slot a b }
{
    match (a, b) {
        (Slot::Kept(a), Slot::Kept(b)) => Slot::Kept(join_value(a, b)),
        _ => Slot::Bytes(both(set_bytes(a), set_bytes(b))),
    }
}

/// The bytes that are set on both sides.
fn both(a: [bool; 8], b: [bool; 8]) -> [bool; 8]
    ensures { result ≡ both a b }
{
    [
        and(a[0], b[0]),
        and(a[1], b[1]),
        and(a[2], b[2]),
        and(a[3], b[3]),
        and(a[4], b[4]),
        and(a[5], b[5]),
        and(a[6], b[6]),
        and(a[7], b[7]),
    ]
}

fn and(a: bool, b: bool) -> bool
    ensures { result ≡ (a && b) }
{
    a && b
}

fn join_registers(a: &mut [Val; 11], b: &[Val; 11])
    ensures { (k : ℕ) → slice_index_or a.new k Val.Unset
        ≡ joined_value (slice_index_or a.old k Val.Unset) (slice_index_or b.now k Val.Unset) }
{
    for i in 0..11 {
        if !is_same_value(&a[i], &b[i]) {
            a[i] = join_value(a[i], b[i]);
        }
    }
}

/// Joins the stacks slot by slot. No byte of the slots below `floor` is set.
fn join_stacks(a: &mut [Slot; 64], b: &[Slot; 64], floor: usize)
    requires a { IsBlankBelow floor a.old }
    requires b { IsBlankBelow floor b.now }
    ensures { (j : ℕ) → slice_index_or a.new j no_bytes ≡ joined_slot (slice_index_or a.old j no_bytes) (slice_index_or b.now j no_bytes) }
{
    for i in floor..64 {
        a[i] = join_slots(a[i], b[i]);
    }
}

/// Returns whether each register of the first is the join of the two.
fn covers_registers(a: &[Val; 11], b: &[Val; 11]) -> bool
    ensures { IsTrue result ↔ ((k : ℕ) → joined_value (slice_index_or a.now k Val.Unset) (slice_index_or b.now k Val.Unset)
        ≡ slice_index_or a.now k Val.Unset) }
{
    for i in 0..11 {
        if !covers_value(a[i], b[i]) {
            return false;
        }
    }
    true
}

/// Returns whether the first is the join of the two.
fn covers_value(a: Val, b: Val) -> bool
    ensures { IsTrue result ↔ (joined_value a b ≡ a) }
{
    join_value(a, b) == a
}

/// Returns whether each slot of the first is the join of the two. No byte of the slots below `floor` is set.
fn covers_stack(a: &[Slot; 64], b: &[Slot; 64], floor: usize) -> bool
    requires a { IsBlankBelow floor a.now }
    requires b { IsBlankBelow floor b.now }
    ensures { IsTrue result ↔ ((j : ℕ) → IsCovered (slice_index_or a.now j no_bytes) (slice_index_or b.now j no_bytes)) }
{
    for i in floor..64 {
        if !covers_slot(a[i], b[i]) {
            return false;
        }
    }
    true
}

/// Returns whether the first is the join of the two.
fn covers_slot(a: Slot, b: Slot) -> bool
    ensures { IsTrue result ↔ IsCovered a b }
{
    match (a, b) {
        (Slot::Kept(a), Slot::Kept(b)) => covers_value(a, b),
        (Slot::Kept(_), Slot::Bytes(_)) => false,
        (Slot::Bytes(a), b) => covers_bytes(&a, &set_bytes(b)),
    }
}

/// Returns whether the bytes that are set on both sides are those of the first.
fn covers_bytes(a: &[bool; 8], b: &[bool; 8]) -> bool
    ensures { IsTrue result ↔ ((k : ℕ) → k < 8 → (slice_index_or a.now k false && slice_index_or b.now k false)
        ≡ slice_index_or a.now k false) }
{
    both(*a, *b) == *a
}
