//! What instructions touch of memory, and what they read.
ghost use Rattle.std.specs.Prelude.{◌≡◌, ◌+◌, ◌<◌, ◌≤◌, ◌⊎◌, ◌≤ℤ◌, ◌+ℤ◌, pos, ℕ, Option, IsTrue, IfSome};
ghost use Rattle.bpf_insn.specs.Register.{number};
ghost use Rattle.bpf_insn.specs.Size.{size_bytes};
ghost use Rattle.bpf_note.specs.Describes.{Describes};
ghost use Rattle.bpf_note.specs.Parts.{facts};
ghost use Rattle.bpf_note.specs.State.{State, constants_start, values_start};
ghost use Rattle.bpf_same.specs.LinearForms.{Hold};
ghost use Rattle.bpf_same.specs.Stepped.{IsAbove, IsBelowValues, IsOwnAccess, IsOwnStep, ReadsAlike, Shares, operand_in};

use crate::relation::Relation;
use crate::step::own_word;
use bpf_insn::{AluOp, Insn, Operand, Register, Size};
use bpf_note::{CONSTANTS_START, CONSTANTS_STRIDE, Note, Val};

/// Returns whether offsets from the stack's end lie at or above a byte.
fn is_at_least(low: u32, at: i16, off: i16) -> bool
    ensures { IsTrue result → pos low ≤ℤ ((pos 512 +ℤ at) +ℤ off) }
{
    i64::from(low) <= 512 + i64::from(at) + i64::from(off)
}

/// The first address past the constants of all maps.
const CONSTANTS_END: u64 = CONSTANTS_START + 16 * CONSTANTS_STRIDE;

/// Returns whether all numbers of a range are addresses of constants. So no offset leads from there to the stack or to the maps' values.
fn are_of_constants(lo: u64, hi: u64) -> bool
    ensures { IsTrue result → (constants_start ≤ lo) × (hi + 0x8000 < values_start) }
{
    CONSTANTS_START <= lo && hi < CONSTANTS_END
}

/// Returns whether an access doesn't touch the stack below `low`.
fn is_above(note: &Note, base: Register, off: i16, low: u32) -> bool
    ensures { IsTrue result → (z : ℕ) (s : State) → Describes (facts note.now) s → IsAbove low s (s.reg (number base)) off z }
{
    match note.register(base.number()) {
        Val::Stack { off: at } => is_at_least(low, at, off),
        Val::Pkt { .. } => true,
        Val::Ctx => true,
        Val::Value { .. } => true,
        Val::Num { lo, hi } if are_of_constants(lo, hi) => true,
        _ => low == 0,
    }
}

/// Returns whether an access lies below the maps' values.
fn is_below_values(note: &Note, base: Register, off: i16) -> bool
    ensures { IsTrue result → IsBelowValues base off (facts note.now) }
{
    match note.register(base.number()) {
        Val::Stack { .. } => true,
        Val::Pkt { .. } => true,
        Val::Ctx => true,
        Val::Num { lo, hi } => are_of_constants(lo, hi),
        _ => false,
    }
}

/// Returns whether an instruction doesn't touch the stack below `low`.
pub(crate) fn is_shared(insn: Insn, note: &Note, low: u32) -> bool
    ensures { IsTrue result → Shares low (facts note.now) insn }
{
    match insn {
        Insn::Ldx { src, off, .. } => is_above(note, src, off, low),
        Insn::St { dst, off, .. } => is_above(note, dst, off, low),
        Insn::Stx { dst, off, .. } => is_above(note, dst, off, low),
        Insn::Call { .. } => is_above(note, Register::R2, 0, low),
        _ => true,
    }
}

/// Returns whether one of the new program's own words is accessed.
fn is_own_access(base: Register, off: i16, note: &Note, low: u32) -> bool
    ensures { IsTrue result → IsOwnAccess base off low (facts note.now) }
{
    own_word(base, off, low).is_some() && matches!(note.register(10), Val::Stack { off: 0 })
}

/// Returns whether a load is of one of the new program's own words, or of fewer than eight bytes below the maps' values.
fn loads_no_counter(size: Size, base: Register, off: i16, note: &Note, low: u32) -> bool
    ensures { IsTrue result → ((size_bytes size ≡ 8 → ⊥) × IsBelowValues base off (facts note.now)) ⊎ (size ≡ Size.Double) × IsOwnAccess base off low (facts note.now) }
{
    match size {
        Size::Double => is_own_access(base, off, note, low),
        Size::Byte | Size::Half | Size::Word => is_below_values(note, base, off),
    }
}

/// Returns whether an instruction of the new program's own writes a register, or a word of its own, and does nothing else.
pub(crate) fn is_own_step(insn: Insn, note: &Note, low: u32) -> bool
    ensures { IsTrue result → IsOwnStep insn low (facts note.now) }
{
    match insn {
        Insn::Alu { .. }
        | Insn::Neg { .. }
        | Insn::End { .. }
        | Insn::MovSx { .. }
        | Insn::Const { .. }
        | Insn::MapRef { .. } => true,
        Insn::Ldx { size, src, off, .. } => loads_no_counter(size, src, off, note, low),
        Insn::Stx {
            size: Size::Double,
            dst,
            off,
            ..
        } => is_own_access(dst, off, note, low),
        _ => false,
    }
}

fn is_same(relation: &Relation, register: Register) -> bool
    ensures { IsTrue result → (f g : ℕ → Option ℕ) → Hold relation.now f g → g (number register) ≡ f (number register) }
{
    relation.is_same(register.number())
}

fn is_same_operand(relation: &Relation, src: Operand) -> bool
    ensures { IsTrue result → (f g : ℕ → Option ℕ) → Hold relation.now f g → operand_in g src ≡ operand_in f src }
{
    match src {
        Operand::Register(register) => is_same(relation, register),
        Operand::Immediate(_) => true,
    }
}

/// Returns whether both programs' operands are the same.
fn are_same(relation: &Relation, dst: Register, src: Operand) -> bool
    ensures { IsTrue result → (f g : ℕ → Option ℕ) → Hold relation.now f g →
        (g (number dst) ≡ f (number dst)) × (operand_in g src ≡ operand_in f src) }
{
    is_same(relation, dst) && is_same_operand(relation, src)
}

fn are_both_same(relation: &Relation, dst: Register, src: Register) -> bool
    ensures { IsTrue result → (f g : ℕ → Option ℕ) → Hold relation.now f g →
        (g (number dst) ≡ f (number dst)) × (g (number src) ≡ f (number src)) }
{
    is_same(relation, dst) && is_same(relation, src)
}

/// Returns whether both programs read the same registers with the same numbers.
pub(crate) fn reads_alike(relation: &Relation, insn: Insn) -> bool
    ensures { IsTrue result → ReadsAlike relation.now insn }
{
    match insn {
        Insn::Alu {
            op: AluOp::Mov,
            src,
            ..
        } => is_same_operand(relation, src),
        Insn::Alu { dst, src, .. } | Insn::Jump { dst, src, .. } => are_same(relation, dst, src),
        Insn::Neg { dst, .. } | Insn::End { dst, .. } | Insn::St { dst, .. } => is_same(
            relation, dst,
        ),
        Insn::MovSx { src, .. } | Insn::Ldx { src, .. } => is_same(relation, src),
        Insn::Stx { dst, src, .. } | Insn::AddCounter { dst, src, .. } => are_both_same(
            relation, dst, src,
        ),
        Insn::Call { .. } => are_both_same(relation, Register::R1, Register::R2),
        Insn::Exit => is_same(relation, Register::R0),
        Insn::Const { .. } | Insn::MapRef { .. } | Insn::Ja { .. } | Insn::Second => true,
    }
}
