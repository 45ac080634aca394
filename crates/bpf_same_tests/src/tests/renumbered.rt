//! Pairs that differ by the numbers of their slots. A conditional jump to the next slot is followed in no other way.
use crate::pairs::{NOT_SHOWN, Pair, compared};
use bpf_same::Comparison;

/// A slot that nothing leads to is left out.
const LEFT_OUT: Pair = Pair {
    old: &[
        "0500010000000000",
        "9500000000000000",
        "61120c0000000000",
        "1502000000000000",
        "b700000002000000",
        "9500000000000000",
    ],
    new: &[
        "0500000000000000",
        "61120c0000000000",
        "1502000000000000",
        "b700000002000000",
        "9500000000000000",
    ],
    maps: 0,
    witnesses: "c0 c2 c3 c4 c5",
};

#[test]
fn left_out(rt: HostRuntime) {
    assert_eq!(rt; compared(rt.alloc(), &LEFT_OUT), Some(Comparison::Same));
}

/// [`LEFT_OUT`] with a wide load, whose second slot has any place.
#[test]
fn wide_load(rt: HostRuntime) {
    let wide = Pair {
        old: &[
            "18000000020000000000000000000000",
            "0500010000000000",
            "9500000000000000",
            "1500000002000000",
            "9500000000000000",
        ],
        new: &[
            "18000000020000000000000000000000",
            "0500000000000000",
            "1500000002000000",
            "9500000000000000",
        ],
        maps: 0,
        witnesses: "c0 o0 c2 c4 c5",
    };
    assert_eq!(rt; compared(rt.alloc(), &wide), Some(Comparison::Same));
}

/// [`LEFT_OUT`] with another number, another way, or another place.
#[test]
fn other_programs(rt: HostRuntime) {
    let number = Pair {
        old: &[
            "0500010000000000",
            "9500000000000000",
            "61120c0000000000",
            "1502000000000000",
            "b700000003000000",
            "9500000000000000",
        ],
        ..LEFT_OUT
    };
    let way = Pair {
        old: &[
            "0500010000000000",
            "9500000000000000",
            "61120c0000000000",
            "1502010000000000",
            "b700000002000000",
            "9500000000000000",
        ],
        ..LEFT_OUT
    };
    let witness = Pair {
        witnesses: "c0 c2 c3 c3 c5",
        ..LEFT_OUT
    };
    for pair in [number, way, witness] {
        assert_eq!(rt; compared(rt.alloc(), &pair), Some(NOT_SHOWN));
    }
}
