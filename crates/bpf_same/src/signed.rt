//! What a signed comparison with a constant says of a number on each way of a conditional jump.
ghost use Rattle.std.specs.Prelude.{◌<◌, IfSome};
ghost use Rattle.bpf_insn.specs.declared.condition.Condition.TheVariants as conditions;
ghost use Rattle.bpf_note.specs.Parts.{facts};
ghost use Rattle.bpf_same.specs.Decided.{IsBetween};
ghost use Rattle.bpf_same.specs.Ranges.{IsLeft, IsLeftOn};

use crate::range::{Range, range_of};
use crate::sharper::{Bounded, operand_range};
use bpf_insn::{Condition, Insn};
use bpf_note::Note;

/// The greatest number without a sign.
pub(crate) const MOST: u64 = 0x7fffffffffffffff;

/// The numbers of a range that are at least a bound, as signed ones, or the others, where these are in a row.
fn left_by_bound(is_least: bool, range: Range, bound: u64) -> Option<Range>
    ensures { IfSome result (λ r. IsLeft conditions.SignedGreaterOrEqual is_least range.low range.high bound r.low r.high) }
{
    if bound > MOST {
        None
    } else if is_least {
        Some(Range {
            low: range.low.max(bound),
            high: range.high.min(MOST),
        })
    } else if bound > 0 && range.high <= MOST {
        Some(Range {
            low: range.low,
            high: range.high.min(bound - 1),
        })
    } else {
        None
    }
}

/// The numbers of a range for which a signed comparison with a constant comes out so, where these are in a row.
fn left(cond: Condition, is_met: bool, range: Range, constant: u64) -> Option<Range>
    ensures { IfSome result (λ r. IsLeft cond is_met range.low range.high constant r.low r.high) }
{
    match cond {
        Condition::SignedGreaterOrEqual => left_by_bound(is_met, range, constant),
        Condition::SignedLess => left_by_bound(!is_met, range, constant),
        Condition::SignedGreater if constant != MOST => {
            left_by_bound(is_met, range, constant.wrapping_add(1))
        }
        Condition::SignedLessOrEqual if constant != MOST => {
            left_by_bound(!is_met, range, constant.wrapping_add(1))
        }
        _ => None,
    }
}

/// Returns whether a signed condition holds between each number of one range and a constant, where that is the same for all.
pub(crate) fn between_signed(cond: Condition, lo: u64, hi: u64, low: u64, high: u64) -> Option<bool>
    ensures { IfSome result (IsBetween cond lo hi low high) }
{
    if low != high {
        return None;
    }
    let range = Range { low: lo, high: hi };
    if let Some(met) = left(cond, true, range, low) {
        if met.high < met.low {
            return Some(false);
        }
    }
    if let Some(other) = left(cond, false, range, low) {
        if other.high < other.low {
            return Some(true);
        }
    }
    None
}

/// The register that a jump compares with a constant, and which numbers it may hold where the jump takes a way.
pub(crate) fn left_on(insn: Insn, is_taken: bool, note: &Note) -> Option<Bounded>
    ensures small { IfSome result (λ r. r.register < 11) }
    ensures lies { IfSome result (λ r. IsLeftOn insn is_taken (facts note.now) r.register r.range.low r.range.high) }
{
    let Insn::Jump {
        cond,
        wide,
        dst,
        src,
        ..
    } = insn
    else {
        return None;
    };
    if !wide {
        return None;
    }
    let register = dst.number();
    let Some(range) = range_of(note, note.register(register)) else {
        return None;
    };
    let Some(other) = operand_range(note, src) else {
        return None;
    };
    if other.low != other.high {
        return None;
    }
    match left(cond, is_taken, range, other.low) {
        Some(range) => Some(Bounded { register, range }),
        None => None,
    }
}
