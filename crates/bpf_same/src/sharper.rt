//! What an instruction leaves known: by the verifier's rule, and where that says less, of a sum, a product, or the bits of one or of
//! both, by the ranges of both numbers; and by a signed comparison.
ghost use Rattle.std.specs.Prelude.{List, ℕ, ◌≡◌, ◌<◌, ◌-◌, ◌*◌, ◌/◌, ◌^◌, length, true, IfOk, IfSome, IsTrue, None};
ghost use Rattle.bpf_insn.specs.declared.insn.Insn.TheVariants as insns;
ghost use Rattle.bpf_note.specs.Parts.{facts};
ghost use Rattle.bpf_flow.specs.Rule.{IsRuled, after_of};
ghost use Rattle.bpf_same.specs.Ranges.{IsAdded, IsMasked, IsMultiplied, IsNarrowed, IsOperandRead, IsParted, IsSummed, IsUnited};
ghost use Rattle.bpf_same.specs.Stepped.{IsCombined};
ghost use Rattle.bpf_same.specs.Simulated.{IsAccounted, IsRefused};
ghost use Rattle.bpf_flow.specs.Gives.{edges_of};
ghost use Rattle.bpf_flow.specs.declared.successors.Successors.TheVariants as ways;
ghost use Rattle.bpf_note.specs.Facts.{Facts};
ghost use Rattle.bpf_note.specs.Shape.{Shape};

use crate::jump::is_branch;
use crate::linear_form::extended;
use crate::range::{Range, moved, range_of};
use crate::shift::{shifted_left, shifted_right};
use crate::signed::{MOST, left_on};
use bpf_flow::{Successor, Successors, after};
use bpf_insn::{AluOp, Cause, Insn, Operand, Register};
use bpf_note::{MapShape, Note, Val};
use std::alloc::{AllocError, Global};

/// A register, and the numbers that it may hold.
#[derive(Clone, Copy, Drop)]
pub(crate) struct Bounded {
    pub(crate) register: u8,
    pub(crate) range: Range,
}

/// The numbers that an operand may be, by what is known of the state alone.
pub(crate) fn operand_range(note: &Note, src: Operand) -> Option<Range>
    ensures { IfSome result (λ r. IsOperandRead (facts note.now) src r.low r.high) }
{
    match src {
        Operand::Register(register) => range_of(note, note.register(register.number())),
        Operand::Immediate(value) => Some(Range {
            low: extended(value),
            high: extended(value),
        }),
    }
}

/// The sums of a number of each, if the other is one number alone, and none wraps or all do.
fn added_constant(one: Range, other: Range) -> Option<Range>
    ensures { IfSome result (λ r. IsAdded one.low one.high other.low other.high r.low r.high) }
{
    if other.low == other.high {
        moved(one, other.low)
    } else {
        None
    }
}

/// The sums of a number of each, if none wraps, or all do by one number.
pub(crate) fn added(one: Range, other: Range) -> Option<Range>
    ensures { IfSome result (λ r. IsAdded one.low one.high other.low other.high r.low r.high) }
{
    match one.high.checked_add(other.high) {
        Some(high) => Some(Range {
            low: one.low.wrapping_add(other.low),
            high,
        }),
        None => added_constant(one, other),
    }
}

/// The numbers that have the bits of a number of each, if no sum of both wraps.
fn united(one: Range, other: Range) -> Option<Range>
    ensures { IfSome result (λ r. IsUnited one.low one.high other.low other.high r.low r.high) }
{
    match one.high.checked_add(other.high) {
        Some(high) => Some(Range { low: one.low, high }),
        None => None,
    }
}

/// The products of a number of each, if none wraps.
fn multiplied(one: Range, other: Range) -> Option<Range>
    ensures { IfSome result (λ r. IsMultiplied one.low one.high other.low other.high r.low r.high) }
{
    match one.high.checked_mul(other.high) {
        Some(high) => Some(Range {
            low: one.low.wrapping_mul(other.low),
            high,
        }),
        None => None,
    }
}

/// The bits from one place up to another.
#[derive(Clone, Copy, Drop)]
pub(crate) struct Bits {
    pub(crate) from: u32,
    pub(crate) to: u32,
}

/// Returns whether a mask has all bits from one place up to another, and no other.
fn is_between(mask: u64, bits: Bits) -> bool
    requires below { bits.from < bits.to }
    requires few { bits.to < 64 }
    ensures { IsTrue result → mask ≡ 2 ^ bits.to - 2 ^ bits.from }
{
    (1_u64 << bits.to).wrapping_sub(1 << bits.from) == mask
}

/// Returns which bits a mask has, if these are all from one place up to another.
pub(crate) fn bits_of(mask: u64) -> Option<Bits>
    ensures { IfSome result (λ b. (b.from < b.to) × (b.to < 64) × (mask ≡ 2 ^ b.to - 2 ^ b.from)) }
{
    let bits = Bits {
        from: mask.trailing_zeros(),
        to: 64_u32.wrapping_sub(mask.leading_zeros()),
    };
    if bits.from < bits.to && bits.to < 64 && is_between(mask, bits) {
        Some(bits)
    } else {
        None
    }
}

/// A number without the bits below a place.
fn without_lower(number: u64, place: u32) -> u64
    requires { place < 64 }
    ensures { result ≡ number / 2 ^ place * 2 ^ place }
{
    (number >> place) << place
}

/// The numbers of a range with these bits alone, if they have none above.
fn masked_by(range: Range, bits: Bits) -> Option<Range>
    requires below { bits.from < bits.to }
    requires few { bits.to < 64 }
    ensures { IfSome result (λ r. IsMasked range.low range.high (2 ^ bits.to - 2 ^ bits.from) r.low r.high) }
{
    if range.high >> bits.to == 0 {
        Some(Range {
            low: without_lower(range.low, bits.from),
            high: without_lower(range.high, bits.from),
        })
    } else {
        None
    }
}

/// The numbers of a range with the bits of a mask alone, where these are all up to the range's highest.
fn masked(one: Range, mask: Range) -> Option<Range>
    ensures { IfSome result (λ r. (mask.low ≡ mask.high) × IsMasked one.low one.high mask.low r.low r.high) }
{
    if mask.low != mask.high {
        return None;
    }
    match bits_of(mask.low) {
        Some(bits) => masked_by(one, bits),
        None => None,
    }
}

/// The numbers that an operation of 64 bits makes of a number of each, where that is known.
fn combined(op: AluOp, one: Range, other: Range) -> Option<Range>
    ensures { IfSome result (λ r. IsCombined op one.low one.high other.low other.high r.low r.high) }
{
    match op {
        AluOp::Add => added(one, other),
        AluOp::Or => united(one, other),
        AluOp::Mul => multiplied(one, other),
        AluOp::And => masked(one, other),
        AluOp::Lsh => shifted_left(one, other),
        AluOp::Arsh => shifted_right(one, other),
        _ => None,
    }
}

/// The register that gets what an operation makes of both, and which numbers that may be.
fn combined_of(op: AluOp, note: &Note, dst: Register, src: Operand) -> Option<Bounded>
    ensures small { IfSome result (λ r. r.register < 11) }
    ensures lies { IfSome result (λ r. IsSummed (insns.Alu op true dst src) (facts note.now) r.register r.range.low r.range.high) }
{
    let register = dst.number();
    match range_of(note, note.register(register)) {
        Some(one) => match operand_range(note, src) {
            Some(other) => match combined(op, one, other) {
                Some(range) => Some(Bounded { register, range }),
                None => None,
            },
            None => None,
        },
        None => None,
    }
}

/// The register that gets what an operation of 64 bits makes, and which numbers that may be.
fn summed(insn: Insn, note: &Note) -> Option<Bounded>
    ensures small { IfSome result (λ r. r.register < 11) }
    ensures lies { IfSome result (λ r. IsSummed insn (facts note.now) r.register r.range.low r.range.high) }
{
    match insn {
        Insn::Alu { op, wide, dst, src } => {
            if wide {
                combined_of(op, note, dst, src)
            } else {
                None
            }
        }
        _ => None,
    }
}

/// Returns whether a value is a number that may lie outside a range.
fn is_wider(value: Val, range: Range) -> bool {
    match value {
        Val::Num { lo, hi } => lo <= range.low && range.high <= hi,
        _ => false,
    }
}

/// Returns what is known with the numbers that a register may hold too, where these are fewer.
fn with_range(there: Successor, known: Option<Bounded>) -> Successor
    requires { IfSome known (λ r. r.register < 11) }
    ensures { IsNarrowed there.pc (facts there.note.value) known result.pc (facts result.note.value) }
{
    let mut there = there;
    if let Some(known) = known {
        if is_wider(there.note.register(known.register), known.range) {
            let (lo, hi) = (known.range.low, known.range.high);
            there.note.set_register(known.register, Val::Num { lo, hi });
        }
    }
    there
}

/// A register, and the numbers that it may hold after a subtraction that doesn't wrap, or does.
#[derive(Clone, Copy, Drop)]
struct Difference {
    register: u8,
    above: Range,
    below: Range,
}

/// The register that gets the difference of two small numbers of which either may be the greater one.
fn difference_of(insn: Insn, note: &Note) -> Option<Difference>
    ensures small { IfSome result (λ r. r.register < 11) }
    ensures lies { IfSome result (λ r. IsParted insn (facts note.now) r.register r.above r.below) }
{
    let Insn::Alu { op, wide, dst, src } = insn else {
        return None;
    };
    if !wide {
        return None;
    }
    let register = dst.number();
    let Some(one) = range_of(note, note.register(register)) else {
        return None;
    };
    let Some(other) = operand_range(note, src) else {
        return None;
    };
    if one.high > MOST || other.high > MOST || one.low >= other.high || one.high < other.low {
        return None;
    }
    let above = Range {
        low: 0,
        high: one.high - other.low,
    };
    let below = Range {
        low: one.low.wrapping_sub(other.high),
        high: u64::MAX,
    };
    match op {
        AluOp::Sub => Some(Difference {
            register,
            above,
            below,
        }),
        _ => None,
    }
}

/// Returns what is known after an instruction that leads to one slot, with the numbers that what it makes may be.
fn with_result(
    alloc: Global,
    insn: Insn,
    note: &Note,
    there: Successor,
) -> Result<Successors, AllocError>
    ensures { IfOk result (λ e. (shapes : List Shape) (pc : ℕ) → IsAccounted (edges_of (ways.One there)) shapes insn (facts note.now) pc → IsAccounted (edges_of e) shapes insn (facts note.now) pc) }
{
    let Some(difference) = difference_of(insn, note) else {
        return Ok(Successors::One(with_range(there, summed(insn, note))));
    };
    let register = difference.register;
    let below = Successor {
        pc: there.pc,
        note: there.note.boxed(alloc)?,
    };
    Ok(Successors::Two(
        with_range(
            there,
            Some(Bounded {
                register,
                range: difference.above,
            }),
        ),
        with_range(
            below,
            Some(Bounded {
                register,
                range: difference.below,
            }),
        ),
    ))
}

/// Returns what is known on both ways of a conditional jump, with the numbers that a signed comparison leaves.
fn with_ways(insn: Insn, pc: u32, next: Successor, taken: Successor) -> Successors
    requires { pc < 4096 }
    ensures { (shapes : List Shape) (n : Facts) → IsAccounted (edges_of (ways.Two next taken)) shapes insn n pc → IsAccounted (edges_of result) shapes insn n pc }
{
    if !is_branch(insn, pc, next.pc, taken.pc) {
        return Successors::Two(next, taken);
    }
    let passed = left_on(insn, false, &next.note);
    let met = left_on(insn, true, &taken.note);
    Successors::Two(with_range(next, passed), with_range(taken, met))
}

/// Returns where an instruction leads from a slot, or nothing where the verifier's rule refuses it. Memory that the rule is refused is
/// no refusal of the instruction.
#[tactic(auto, using(crate::proofs::SharperLemmas::refused_by_rule))]
pub(crate) fn known_after(
    alloc: Global,
    insn: Insn,
    pc: u32,
    note: &Note,
    shapes: &[MapShape],
) -> Result<Option<Successors>, AllocError>
    requires inside { pc < 4096 }
    requires ruled { IsRuled insn pc (length shapes.now) }
    ensures accounted { IfOk result (λ known. IfSome known (λ e. IsAccounted (edges_of e) shapes.now insn (facts note.now) pc)) }
    ensures refused { IfOk result (λ known. known ≡ None → IsRefused (after_of insn pc (facts note.now) shapes.now)) }
{
    match after(alloc, &insn, pc, note, shapes) {
        Ok(Successors::One(there)) => Ok(Some(with_result(alloc, insn, note, there)?)),
        Ok(Successors::Two(next, taken)) => Ok(Some(with_ways(insn, pc, next, taken))),
        Ok(there) => Ok(Some(there)),
        Err(Cause::Memory) => Err(AllocError),
        Err(_) => Ok(None),
    }
}
