//! Loads of constants.
use crate::pairs::{NOT_SHOWN, Pair, compared_with_constants};
use bpf_same::Comparison;

/// `r5` is a byte of the packet, below 32.
const START: &str =
    "61120000000000006113040000000000bf24000000000000070400000e0000003d43020000000000b70000000200000095000000000000007125030000000000570500001f000000";

/// The last slot of a program.
const EXIT: &str = "9500000000000000";

/// Where each of the 16 slots is a copy of the same slot of the other program.
const COPIES: &str = "c0 c1 c2 c3 c4 c5 c6 c7 c8 c9 c10 c11 c12 c13 c14 c15";

/// `r6` is the address of one of the first 32 constants, and `r7` is four bytes past it.
const ADDRESSES: &str =
    "180600000000003800000000000000000f56000000000000bf670000000000000707000004000000";

/// Returns what is answered where the old program reads a constant by `r6`, and the new one by `r7`; both have 64 bytes of
/// constants.
fn beside(rt: &HostRuntime, new: &'static str) -> Option<Comparison> {
    let pair = Pair {
        old: &[START, ADDRESSES, "7160000000000000", EXIT],
        new: &[START, ADDRESSES, new, EXIT],
        maps: 1,
        witnesses: COPIES,
    };
    compared_with_constants(rt.alloc(), &pair, 64)
}

#[test]
fn by_another_register(rt: HostRuntime) {
    assert_eq!(rt; beside(&rt, "7170fcff00000000"), Some(Comparison::Same));
}

#[test]
fn at_another_address(rt: HostRuntime) {
    assert_eq!(rt; beside(&rt, "7170fdff00000000"), Some(NOT_SHOWN));
}

#[test]
fn of_more_bytes(rt: HostRuntime) {
    assert_eq!(rt; beside(&rt, "6970fcff00000000"), Some(NOT_SHOWN));
}

/// The new program reads a constant of its own between, and forgets it.
const OWN: Pair = Pair {
    old: &[
        "1803000000000038",
        "0000000000000000",
        "6930070000000000",
        EXIT,
    ],
    new: &[
        "1803000000000038",
        "0000000000000000",
        "6934010000000000",
        "6930070000000000",
        EXIT,
    ],
    maps: 1,
    witnesses: "c0 c1 o2 c2 c3",
};

#[test]
fn of_its_own(rt: HostRuntime) {
    assert_eq!(rt;
        compared_with_constants(rt.alloc(), &OWN, 9),
        Some(Comparison::Same)
    );
}

#[test]
fn past_the_end(rt: HostRuntime) {
    assert_eq!(rt; compared_with_constants(rt.alloc(), &OWN, 8), None);
}
