//! Pairs that do the same alone: a counter that the old program sets, or reads and then adds to, is added a difference to in the new
//! program. Each new program is accepted.
use crate::pairs::{NOT_SHOWN, Pair, compared};
use crate::tests::counts::{BOTH, LOOKUP, PASS};
use bpf_same::Comparison;

/// Of a program that sets the value of key 1: what was in front stands where it stood, and the difference is the new program's own.
const SET: &str = "c0 c1 c2 c3 c4 c5 c6 c7 c8 c9 c10 o11 o11 o11 c11 c12 c13";

/// `*value = 5`.
const SET_TO_A_CONSTANT: Pair = Pair {
    old: &[LOOKUP, "b701000005000000", "7b10000000000000", PASS],
    new: &[
        LOOKUP,
        "b701000005000000",
        "7902000000000000",
        "bf13000000000000",
        "1f23000000000000",
        "db30000000000000",
        PASS,
    ],
    maps: 1,
    witnesses: SET,
};

#[test]
fn set_to_a_constant(rt: HostRuntime) {
    assert_eq!(rt;
        compared(rt.alloc(), &SET_TO_A_CONSTANT),
        Some(Comparison::SameAlone)
    );
}

/// The number itself is added, and no difference.
const SET_BY_ITS_NUMBER: Pair = Pair {
    old: &[LOOKUP, "b701000005000000", "7b10000000000000", PASS],
    new: &[
        LOOKUP,
        "b701000005000000",
        "7902000000000000",
        "bf13000000000000",
        "1f23000000000000",
        "db10000000000000",
        PASS,
    ],
    maps: 1,
    witnesses: SET,
};

#[test]
fn set_by_its_number(rt: HostRuntime) {
    assert_eq!(rt; compared(rt.alloc(), &SET_BY_ITS_NUMBER), Some(NOT_SHOWN));
}

/// `if (*value) *value -= 1`.
const COUNTED_DOWN: Pair = Pair {
    old: &[
        LOOKUP,
        "7901000000000000",
        "1501020000000000",
        "07010000ffffffff",
        "7b10000000000000",
        PASS,
    ],
    new: &[
        LOOKUP,
        "7901000000000000",
        "1501050000000000",
        "bf12000000000000",
        "07010000ffffffff",
        "bf13000000000000",
        "1f23000000000000",
        "db30000000000000",
        PASS,
    ],
    maps: 1,
    witnesses: "c0 c1 c2 c3 c4 c5 c6 c7 c8 c9 c10 c11 o12 c12 o13 o13 c13 c14 c15",
};

#[test]
fn counted_down(rt: HostRuntime) {
    assert_eq!(rt;
        compared(rt.alloc(), &COUNTED_DOWN),
        Some(Comparison::SameAlone)
    );
}

/// The difference to another counter, the value of key 0.
const ANOTHER_COUNTER: Pair = Pair {
    old: &[BOTH, "b701000005000000", "7b10000000000000", PASS],
    new: &[
        BOTH,
        "b701000005000000",
        "7972000000000000",
        "bf13000000000000",
        "1f23000000000000",
        "db30000000000000",
        PASS,
    ],
    maps: 1,
    witnesses: "c0 c1 c2 c3 c4 c5 c6 c7 c8 c9 c10 c11 c12 c13 c14 c15 c16 c17 c18 c19 o20 o20 o20 c20 c21 c22",
};

#[test]
fn another_counter(rt: HostRuntime) {
    assert_eq!(rt; compared(rt.alloc(), &ANOTHER_COUNTER), Some(NOT_SHOWN));
}
