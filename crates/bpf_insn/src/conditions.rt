//! When a conditional jump is taken.
ghost use Rattle.std.specs.Prelude.{◌≡◌, false, true};
ghost use Rattle.bpf_insn.specs.Conditions.{is_met};

use crate::condition::Condition;
use crate::truncated::low_32;

/// Returns whether a conditional jump is taken, by the numbers in destination and source: on 64 bits if `wide`, else on the low 32.
#[inline(always)]
pub fn holds(cond: Condition, wide: bool, a: u64, b: u64) -> bool
    ensures { result ≡ is_met cond wide a b }
{
    // An arm each, so that one jump finds the condition.
    match cond {
        Condition::Equal => at_width(Condition::Equal, wide, a, b),
        Condition::Greater => at_width(Condition::Greater, wide, a, b),
        Condition::GreaterOrEqual => at_width(Condition::GreaterOrEqual, wide, a, b),
        Condition::Set => at_width(Condition::Set, wide, a, b),
        Condition::NotEqual => at_width(Condition::NotEqual, wide, a, b),
        Condition::SignedGreater => at_width(Condition::SignedGreater, wide, a, b),
        Condition::SignedGreaterOrEqual => at_width(Condition::SignedGreaterOrEqual, wide, a, b),
        Condition::Less => at_width(Condition::Less, wide, a, b),
        Condition::LessOrEqual => at_width(Condition::LessOrEqual, wide, a, b),
        Condition::SignedLess => at_width(Condition::SignedLess, wide, a, b),
        Condition::SignedLessOrEqual => at_width(Condition::SignedLessOrEqual, wide, a, b),
    }
}

/// As [`holds`], for a condition that is known where this is inlined.
#[inline(always)]
fn at_width(cond: Condition, wide: bool, a: u64, b: u64) -> bool
    ensures { result ≡ is_met cond wide a b }
{
    if wide {
        holds64(cond, a, b)
    } else {
        holds32(cond, low_32(a), low_32(b))
    }
}

#[inline(always)]
#[tactic(auto, unfolding(crate::specs::Conditions::is_met))]
fn holds64(cond: Condition, a: u64, b: u64) -> bool
    ensures { result ≡ is_met cond true a b }
{
    match cond {
        Condition::Equal => a == b,
        Condition::Greater => a > b,
        Condition::GreaterOrEqual => a >= b,
        Condition::Set => a & b != 0,
        Condition::NotEqual => a != b,
        Condition::SignedGreater => a.cast_signed() > b.cast_signed(),
        Condition::SignedGreaterOrEqual => a.cast_signed() >= b.cast_signed(),
        Condition::Less => a < b,
        Condition::LessOrEqual => a <= b,
        Condition::SignedLess => a.cast_signed() < b.cast_signed(),
        Condition::SignedLessOrEqual => a.cast_signed() <= b.cast_signed(),
    }
}

#[inline(always)]
#[tactic(auto, unfolding(crate::specs::Conditions::is_met))]
fn holds32(cond: Condition, a: u32, b: u32) -> bool
    ensures { result ≡ is_met cond false a b }
{
    match cond {
        Condition::Equal => a == b,
        Condition::Greater => a > b,
        Condition::GreaterOrEqual => a >= b,
        Condition::Set => a & b != 0,
        Condition::NotEqual => a != b,
        Condition::SignedGreater => a.cast_signed() > b.cast_signed(),
        Condition::SignedGreaterOrEqual => a.cast_signed() >= b.cast_signed(),
        Condition::Less => a < b,
        Condition::LessOrEqual => a <= b,
        Condition::SignedLess => a.cast_signed() < b.cast_signed(),
        Condition::SignedLessOrEqual => a.cast_signed() <= b.cast_signed(),
    }
}
