//! Pairs with the same runs.
use crate::pairs::{NOT_SHOWN, Pair, compared};
use bpf_same::Comparison;

/// A loop of three turns, and its turns one after the other.
const COUNTED_LOOP: Pair = Pair {
    old: &[
        "b700000000000000",
        "0700000001000000",
        "a500feff03000000",
        "9500000000000000",
    ],
    new: &[
        "b700000000000000",
        "0700000001000000",
        "0700000001000000",
        "0700000001000000",
        "9500000000000000",
    ],
    maps: 0,
    witnesses: "c0 c1 c1 c1 c3",
};

#[test]
fn counted_loop(rt: HostRuntime) {
    assert_eq!(rt; compared(rt.alloc(), &COUNTED_LOOP), Some(Comparison::Same));
}

/// A jump that constants decide.
const DECIDED_JUMP: Pair = Pair {
    old: &[
        "b700000002000000",
        "b702000007000000",
        "5502010007000000",
        "9500000000000000",
        "b700000000000000",
        "9500000000000000",
    ],
    new: &["b700000002000000", "b702000007000000", "9500000000000000"],
    maps: 0,
    witnesses: "c0 c1 c3",
};

#[test]
fn decided_jump(rt: HostRuntime) {
    assert_eq!(rt; compared(rt.alloc(), &DECIDED_JUMP), Some(Comparison::Same));
}

/// A test of the new program's own, both of whose ways go on alike.
const OWN_TEST: Pair = Pair {
    old: &["61120c0000000000", "b700000002000000", "9500000000000000"],
    new: &[
        "61120c0000000000",
        "1502020005000000",
        "b700000002000000",
        "9500000000000000",
        "b700000002000000",
        "9500000000000000",
    ],
    maps: 0,
    witnesses: "c0 o1 c1 c2 c1 c2",
};

#[test]
fn own_test(rt: HostRuntime) {
    assert_eq!(rt; compared(rt.alloc(), &OWN_TEST), Some(Comparison::Same));
}

/// [`COUNTED_LOOP`] with a place that is wrong, and with none.
#[test]
fn wrong_places_show_nothing(rt: HostRuntime) {
    let wrong = Pair {
        witnesses: "c0 c1 c1 c2 c3",
        ..COUNTED_LOOP
    };
    let none = Pair {
        witnesses: "",
        ..COUNTED_LOOP
    };
    assert_eq!(rt; compared(rt.alloc(), &wrong), Some(NOT_SHOWN));
    assert_eq!(rt; compared(rt.alloc(), &none), Some(NOT_SHOWN));
}

/// An old program that never ends has runs of no accepted one.
const ENDLESS: Pair = Pair {
    old: &["0500ffff00000000"],
    new: &["b700000002000000", "9500000000000000"],
    maps: 0,
    witnesses: "c0 c0",
};

#[test]
fn an_endless_program_ends_in_an_answer(rt: HostRuntime) {
    assert_eq!(rt; compared(rt.alloc(), &ENDLESS), Some(NOT_SHOWN));
}

/// A program beside itself needs no places.
#[test]
fn a_program_is_the_same_as_itself(rt: HostRuntime) {
    let itself = Pair {
        old: OWN_TEST.new,
        witnesses: "",
        ..OWN_TEST
    };
    assert_eq!(rt; compared(rt.alloc(), &itself), Some(Comparison::Same));
}

/// A jump that the range of a number decides.
const RANGE_DECIDES: Pair = Pair {
    old: &[
        "61100c0000000000",
        "5700000007000000",
        "2500010007000000",
        "9500000000000000",
        "b700000000000000",
        "9500000000000000",
    ],
    new: &["61100c0000000000", "5700000007000000", "9500000000000000"],
    maps: 0,
    witnesses: "c0 c1 c3",
};

#[test]
fn a_range_decides_a_jump(rt: HostRuntime) {
    let wider = Pair {
        old: &[
            "61100c0000000000",
            "5700000007000000",
            "2500010006000000",
            "9500000000000000",
            "b700000000000000",
            "9500000000000000",
        ],
        ..RANGE_DECIDES
    };
    assert_eq!(rt;
        compared(rt.alloc(), &RANGE_DECIDES),
        Some(Comparison::Same)
    );
    assert_eq!(rt; compared(rt.alloc(), &wider), Some(NOT_SHOWN));
}

/// A test of the new program's own, of which one way is never taken: what stands there stands nowhere in the old program.
const RULED_OUT: Pair = Pair {
    old: &["61100c0000000000", "5700000007000000", "9500000000000000"],
    new: &[
        "61100c0000000000",
        "5700000007000000",
        "2500010007000000",
        "9500000000000000",
        "b700000000000000",
        "9500000000000000",
    ],
    maps: 0,
    witnesses: "c0 c1 o2 c2 o0 o0",
};

#[test]
fn a_way_is_ruled_out(rt: HostRuntime) {
    let taken = Pair {
        new: &[
            "61100c0000000000",
            "5700000007000000",
            "2500010006000000",
            "9500000000000000",
            "b700000000000000",
            "9500000000000000",
        ],
        ..RULED_OUT
    };
    assert_eq!(rt; compared(rt.alloc(), &RULED_OUT), Some(Comparison::Same));
    assert_eq!(rt; compared(rt.alloc(), &taken), Some(NOT_SHOWN));
}
