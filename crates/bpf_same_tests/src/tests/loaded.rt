//! Pairs that load a counter twice, where the new program, alone, takes what it has kept of the first load for the second number. Each
//! new program is accepted.
use crate::pairs::{NOT_SHOWN, Pair, compared, compared_with_counters};
use crate::tests::counts::{BOTH, LOOKUP, PASS};
use bpf_same::Comparison;

/// `r2 = *(u64 *)r0`, which is shifted and added to the same counter.
const AGAIN: &str = "7902000000000000";

const SHIFTED: &str = "6702000020000000";

const ADDED: &str = "db20000000000000";

/// `r1` is kept on the stack, and put into `r2`.
const KEPT: &str = "7b1af0ff00000000";

const TAKEN: &str = "79a2f0ff00000000";

/// What is answered where the first load is this one.
fn loaded(rt: &HostRuntime, first: &'static str) -> Option<Comparison> {
    let pair = Pair {
        old: &[BOTH, first, AGAIN, SHIFTED, ADDED, PASS],
        new: &[BOTH, first, KEPT, AGAIN, TAKEN, SHIFTED, ADDED, PASS],
        maps: 1,
        witnesses: "c0 c1 c2 c3 c4 c5 c6 c7 c8 c9 c10 c11 c12 c13 c14 c15 c16 c17 c18 c19 o20 c20 o21 c21 c22 c23 c24",
    };
    compared_with_counters(rt.alloc(), &pair, 2)
}

/// Of the same counter, of the value of key 0, and of the next counter of the value.
#[test]
fn again(rt: HostRuntime) {
    assert_eq!(rt;
        loaded(&rt, "7901000000000000"),
        Some(Comparison::SameAlone)
    );
    assert_eq!(rt; loaded(&rt, "7971000000000000"), Some(NOT_SHOWN));
    assert_eq!(rt; loaded(&rt, "7901080000000000"), Some(NOT_SHOWN));
}

/// Between both loads the counter is added to.
const ADDED_BETWEEN: Pair = Pair {
    old: &[
        LOOKUP,
        "7901000000000000",
        "db10000000000000",
        AGAIN,
        SHIFTED,
        ADDED,
        PASS,
    ],
    new: &[
        LOOKUP,
        "7901000000000000",
        KEPT,
        "db10000000000000",
        AGAIN,
        TAKEN,
        SHIFTED,
        ADDED,
        PASS,
    ],
    maps: 1,
    witnesses: "c0 c1 c2 c3 c4 c5 c6 c7 c8 c9 c10 o11 c11 c12 o13 c13 c14 c15 c16",
};

#[test]
fn added_between(rt: HostRuntime) {
    assert_eq!(rt; compared(rt.alloc(), &ADDED_BETWEEN), Some(NOT_SHOWN));
}
