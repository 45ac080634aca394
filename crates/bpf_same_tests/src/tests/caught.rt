//! Pairs of which the old program alone adds to the address of a map's value, where the new one has the sum in its offsets.
use crate::pairs::{NOT_SHOWN, Pair, compared};
use crate::tests::counts::{LOOKUP, PASS};
use bpf_same::Comparison;

/// Returns what is answered where the old program alone computes, and then makes one access, and the new one another.
fn accessed(
    rt: &HostRuntime,
    sum: &'static str,
    old: &'static str,
    new: &'static str,
) -> Option<Comparison> {
    let pair = Pair {
        old: &[LOOKUP, "b701000008000000", sum, old, PASS],
        new: &[LOOKUP, "b701000008000000", new, PASS],
        maps: 1,
        witnesses: "c0 c1 c2 c3 c4 c5 c6 c7 c8 c9 c10 c12 c13 c14",
    };
    compared(rt.alloc(), &pair)
}

/// The same where the old program loads from 8 bytes before `r0`, and the new one from `r0`.
fn computed(rt: &HostRuntime, sum: &'static str) -> Option<Comparison> {
    accessed(rt, sum, "7902f8ff00000000", "7902000000000000")
}

/// `r0 += 8`, and `r0 += r1`.
#[test]
fn added(rt: HostRuntime) {
    assert_eq!(rt; computed(&rt, "0700000008000000"), Some(Comparison::Same));
    assert_eq!(rt; computed(&rt, "0f10000000000000"), Some(Comparison::Same));
}

/// An atomic addition of `r1` to the same counter, and one elsewhere.
#[test]
fn counted(rt: HostRuntime) {
    let sum = "0700000008000000";
    let new = "db10000000000000";
    assert_eq!(rt;
        accessed(&rt, sum, "db10f8ff00000000", new),
        Some(Comparison::Same)
    );
    assert_eq!(rt;
        accessed(&rt, sum, "db10f0ff00000000", new),
        Some(NOT_SHOWN)
    );
}

/// Another constant, a number that isn't known, a sum of 32 bits, a difference, and a register without a number.
#[test]
fn not_added(rt: HostRuntime) {
    assert_eq!(rt; computed(&rt, "0700000010000000"), Some(NOT_SHOWN));
    assert_eq!(rt; computed(&rt, "0fa0000000000000"), Some(NOT_SHOWN));
    assert_eq!(rt; computed(&rt, "0400000008000000"), Some(NOT_SHOWN));
    assert_eq!(rt; computed(&rt, "1700000008000000"), Some(NOT_SHOWN));
    assert_eq!(rt; computed(&rt, "0f30000000000000"), Some(NOT_SHOWN));
}

/// Alone, the old program reads a register that nothing has written: it has no run.
#[test]
fn without_a_number(rt: HostRuntime) {
    let pair = Pair {
        old: &["0703000001000000", "b700000002000000", "9500000000000000"],
        new: &["b700000002000000", "9500000000000000"],
        maps: 0,
        witnesses: "c1 c2",
    };
    assert_eq!(rt; compared(rt.alloc(), &pair), Some(NOT_SHOWN));
}
