//! What decides a conditional jump.
ghost use Rattle.std.specs.Prelude.{◌≡◌, ◌≤◌, ◌<◌, ◌^◌, ℕ, ℤ, Bool, Option, true, IfSome, IsTrue};
ghost use Rattle.bpf_insn.specs.declared.insn.Insn.TheVariants as insns;
ghost use Rattle.bpf_note.specs.Parts.{facts};
ghost use Rattle.bpf_insn.specs.Conditions.{is_met, relation};
ghost use Rattle.bpf_insn.specs.Register.{number};
ghost use Rattle.bpf_same.specs.Decided.{IsAtLeast, IsBetween, IsDecided, IsOrdered, IsPacketEnd};
ghost use Rattle.bpf_same.specs.LinearForms.{Hold, IsAddress};

use crate::linear_form::REGISTERS;
use crate::range::{operand_span, range_by, span};
use crate::relation::Relation;
use crate::signed::between_signed;
use bpf_insn::{Condition, Insn, Operand, Register, holds};
use bpf_note::{Note, Val};

/// Returns whether a condition holds between each number of one range and each of another one, where that is the same for all.
fn between_ranges(cond: Condition, lo: u64, hi: u64, low: u64, high: u64) -> Option<bool>
    ensures { IfSome result (IsBetween cond lo hi low high) }
{
    match cond {
        Condition::Equal if hi < low || high < lo => Some(false),
        Condition::NotEqual if hi < low || high < lo => Some(true),
        Condition::Greater if high < lo => Some(true),
        Condition::Greater if hi <= low => Some(false),
        Condition::GreaterOrEqual if high <= lo => Some(true),
        Condition::GreaterOrEqual if hi < low => Some(false),
        Condition::Less if hi < low => Some(true),
        Condition::Less if high <= lo => Some(false),
        Condition::LessOrEqual if hi <= low => Some(true),
        Condition::LessOrEqual if high < lo => Some(false),
        _ => between_signed(cond, lo, hi, low, high),
    }
}

/// Returns whether a comparison of two known numbers, or of two ranges, is decided.
fn between_numbers(
    cond: Condition,
    wide: bool,
    lo: u64,
    hi: u64,
    low: u64,
    high: u64,
) -> Option<bool>
    ensures { IfSome result (λ b. (x y : ℕ) → lo ≤ x → x ≤ hi → low ≤ y → y ≤ high → x < 2 ^ 64 → y < 2 ^ 64 → is_met cond wide x y ≡ b) }
{
    if lo == hi && low == high {
        Some(holds(cond, wide, lo, low))
    } else if wide {
        between_ranges(cond, lo, hi, low, high)
    } else {
        None
    }
}

/// Returns whether a condition holds between a number and one that is at least as great.
fn between_ordered(cond: Condition) -> Option<bool>
    ensures { IfSome result (λ b. IsOrdered cond b) }
{
    match cond {
        Condition::Greater => Some(false),
        Condition::LessOrEqual => Some(true),
        _ => None,
    }
}

/// Returns whether a register holds the packet's end.
fn is_packet_end(note: &Note, register: Register) -> bool
    ensures { IsTrue result → IsPacketEnd (facts note.now) (number register) }
{
    matches!(note.register(register.number()), Val::PktEnd)
}

/// Returns whether a register holds an address in the packet.
fn is_in_packet(relation: &Relation, register: Register) -> bool
    ensures { IsTrue result → (f g : ℕ → Option ℕ) → Hold relation.now f g → IsAddress f (f (number register)) }
{
    relation.has_room_of(relation.new_form(register.number()))
}

/// Returns whether a jump is taken that compares 64 bits of an address in the packet with the packet's end.
fn decided_between(
    cond: Condition,
    dst: Register,
    src: Operand,
    relation: &Relation,
    note: &Note,
) -> Option<bool>
    ensures { (off : ℤ) → IfSome result (IsDecided (insns.Jump cond true dst src off) relation.now (facts note.now)) }
{
    let Operand::Register(end) = src else {
        return None;
    };
    if !is_packet_end(note, end) {
        return None;
    }
    if !is_in_packet(relation, dst) {
        return None;
    }
    between_ordered(cond)
}

/// Returns whether a jump is taken that compares an address in the packet with the packet's end.
fn decided_by_room(insn: Insn, relation: &Relation, note: &Note) -> Option<bool>
    ensures { IfSome result (IsDecided insn relation.now (facts note.now)) }
{
    match insn {
        Insn::Jump {
            cond,
            wide,
            dst,
            src,
            ..
        } => {
            if wide {
                decided_between(cond, dst, src, relation, note)
            } else {
                None
            }
        }
        _ => None,
    }
}

/// Returns whether a conditional jump is taken, where the ranges of both numbers decide it.
fn decided_by_spans(insn: Insn, relation: &Relation, note: &Note) -> Option<bool>
    ensures { IfSome result (IsDecided insn relation.now (facts note.now)) }
{
    match insn {
        Insn::Jump {
            cond,
            wide,
            dst,
            src,
            ..
        } => match span(note, relation, dst.number()) {
            Some(one) => match operand_span(note, relation, src) {
                Some(other) => {
                    between_numbers(cond, wide, one.low, one.high, other.low, other.high)
                }
                None => None,
            },
            None => None,
        },
        _ => None,
    }
}

/// Returns whether a register holds at least what another one does: the other one's form less its own, and less 1, is a number below 2 ^ 64
/// that the other one doesn't come to.
fn holds_at_least(relation: &Relation, note: &Note, one: u8, other: u8) -> bool
    requires small { one < 11 }
    requires other { other < 11 }
    ensures { IsTrue result → IsAtLeast (facts note.now) relation.now one other }
{
    let Some(rest) = relation.new_form(other).minus(relation.new_form(one)) else {
        return false;
    };
    let before = rest.moved(u64::MAX);
    let register = before.terms.trailing_zeros();
    if register >= u32::from(REGISTERS) {
        return false;
    }
    let register = register as u8;
    let Some(there) = span(note, relation, register) else {
        return false;
    };
    let Some(range) = range_by(before, relation.new_form(register), there) else {
        return false;
    };
    let Some(most) = span(note, relation, other) else {
        return false;
    };
    most.high <= range.low
}

/// Returns whether a jump is taken that compares 64 bits of registers of which one holds as much as the other one and a difference.
fn decided_by_difference(insn: Insn, relation: &Relation, note: &Note) -> Option<bool>
    ensures { IfSome result (IsDecided insn relation.now (facts note.now)) }
{
    let Insn::Jump {
        cond,
        wide,
        dst,
        src,
        ..
    } = insn
    else {
        return None;
    };
    let Operand::Register(other) = src else {
        return None;
    };
    if !wide {
        return None;
    }
    if !holds_at_least(relation, note, dst.number(), other.number()) {
        return None;
    }
    match cond {
        Condition::GreaterOrEqual => Some(true),
        Condition::Less => Some(false),
        _ => None,
    }
}

/// Returns whether a conditional jump compares a register that can hold no number: then no state is so.
pub(crate) fn is_never_reached(insn: Insn, relation: &Relation, note: &Note) -> bool
    ensures { IsTrue result → (b : Bool) → IsDecided insn relation.now (facts note.now) b }
{
    match insn {
        Insn::Jump { dst, .. } => match span(note, relation, dst.number()) {
            Some(range) => { if range.high < range.low { true } else { false } }
            None => false,
        },
        _ => false,
    }
}

/// Returns whether a conditional jump is taken, where what is known decides it.
pub(crate) fn decided(insn: Insn, relation: &Relation, note: &Note) -> Option<bool>
    ensures { IfSome result (IsDecided insn relation.now (facts note.now)) }
{
    if let Some(way) = decided_by_room(insn, relation, note) {
        return Some(way);
    }
    match decided_by_spans(insn, relation, note) {
        Some(way) => Some(way),
        None => decided_by_difference(insn, relation, note),
    }
}
