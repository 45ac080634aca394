//! Jumps that the ranges of addresses decide, or of a number that another one differs from by a constant.
use crate::pairs::{NOT_SHOWN, Pair, compared};
use bpf_same::Comparison;

/// A copy of the packet's first bytes in r3, a packet of at least 14 bytes at r6, and its end in r7.
const BEGINNING: [&str; 7] = [
    "6116000000000000",
    "6117040000000000",
    "bf62000000000000",
    "070200000e000000",
    "bd72020000000000",
    "b700000001000000",
    "9500000000000000",
];

/// Returns what is answered where the new program compares an address with the end again, whose distance from the packet's start a
/// mask bounds.
fn compared_again(rt: &HostRuntime, mask: &'static str) -> Option<Comparison> {
    let [a, b, c, d, e, f, g] = BEGINNING;
    let old = [
        a,
        b,
        c,
        d,
        e,
        f,
        g,
        "7163000000000000",
        mask,
        "bf64000000000000",
        "0f34000000000000",
        "7140000000000000",
        "9500000000000000",
    ];
    let new = [
        a,
        b,
        c,
        d,
        e,
        f,
        g,
        "7163000000000000",
        mask,
        "bf64000000000000",
        "0f34000000000000",
        "bf45000000000000",
        "0705000001000000",
        "2d75020000000000",
        "7140000000000000",
        "9500000000000000",
        "b700000000000000",
        "9500000000000000",
    ];
    let pair = Pair {
        old: &old,
        new: &new,
        maps: 0,
        witnesses: "c0 c1 c2 c3 c4 c5 c6 c7 c8 c9 c10 o11 o11 o11 c11 c12 o0 o0",
    };
    compared(rt.alloc(), &pair)
}

/// The packet has at least 14 bytes.
#[test]
fn an_address_before_the_last_known_byte(rt: HostRuntime) {
    assert_eq!(rt;
        compared_again(&rt, "570300000d000000"),
        Some(Comparison::Same)
    );
}

#[test]
fn an_address_behind_the_last_known_byte(rt: HostRuntime) {
    assert_eq!(rt; compared_again(&rt, "570300000e000000"), Some(NOT_SHOWN));
}

/// Returns what is answered where the program tests a number beyond which an address lies behind the packet.
fn beyond(rt: &HostRuntime, test: &'static str) -> Option<Comparison> {
    let [a, b, c, d, e, f, g] = BEGINNING;
    let old = [
        a,
        b,
        c,
        d,
        e,
        f,
        g,
        "6163000000000000",
        "bf64000000000000",
        "0f34000000000000",
        "2d74020000000000",
        "b700000001000000",
        "9500000000000000",
        "b700000002000000",
        "9500000000000000",
    ];
    let new = [
        a,
        b,
        c,
        d,
        e,
        f,
        g,
        "6163000000000000",
        test,
        "bf64000000000000",
        "0f34000000000000",
        "2d74020000000000",
        "b700000001000000",
        "9500000000000000",
        "b700000002000000",
        "9500000000000000",
        "bf64000000000000",
        "0f34000000000000",
        "b700000002000000",
        "9500000000000000",
    ];
    let pair = Pair {
        old: &old,
        new: &new,
        maps: 0,
        witnesses: "c0 c1 c2 c3 c4 c5 c6 c7 o8 c8 c9 c10 c11 c12 c13 c14 c8 c9 c13 c14",
    };
    compared(rt.alloc(), &pair)
}

/// A packet has at most 65,535 bytes.
#[test]
fn addresses_behind_the_longest_packet(rt: HostRuntime) {
    assert_eq!(rt; beyond(&rt, "25030700ffff0000"), Some(Comparison::Same));
    assert_eq!(rt; beyond(&rt, "25030700feff0000"), Some(NOT_SHOWN));
}

/// Returns what is answered where the verifier's rule forgets a sum: of an address that a byte moves and a number that is loaded,
/// which is tested.
fn forgotten(rt: &HostRuntime, load: &'static str, test: &'static str) -> Option<Comparison> {
    let [a, b, c, d, e, f, g] = BEGINNING;
    let old = [
        a,
        b,
        c,
        d,
        e,
        f,
        g,
        "7163000000000000",
        "570300000f000000",
        "bf64000000000000",
        "0f34000000000000",
        load,
        "0f54000000000000",
        "2d74020000000000",
        "b700000001000000",
        "9500000000000000",
        "b700000002000000",
        "9500000000000000",
    ];
    let new = [
        a,
        b,
        c,
        d,
        e,
        f,
        g,
        "7163000000000000",
        "570300000f000000",
        "bf64000000000000",
        "0f34000000000000",
        load,
        test,
        "0f54000000000000",
        "2d74020000000000",
        "b700000001000000",
        "9500000000000000",
        "b700000002000000",
        "9500000000000000",
        "0f54000000000000",
        "b700000002000000",
        "9500000000000000",
    ];
    let pair = Pair {
        old: &old,
        new: &new,
        maps: 0,
        witnesses: "c0 c1 c2 c3 c4 c5 c6 c7 c8 c9 c10 c11 o12 c12 c13 c14 c15 c16 c17 c12 c16 c17",
    };
    compared(rt.alloc(), &pair)
}

/// Numbers of four and of eight bytes, and tests for more than 65,535 and 65,534.
const FOUR_BYTES: &str = "6165040000000000";

const EIGHT_BYTES: &str = "7965000000000000";

const ABOVE_65535: &str = "25050600ffff0000";

const ABOVE_65534: &str = "25050600feff0000";

#[test]
fn sums_behind_the_longest_packet(rt: HostRuntime) {
    assert_eq!(rt;
        forgotten(&rt, FOUR_BYTES, ABOVE_65535),
        Some(Comparison::Same)
    );
    assert_eq!(rt; forgotten(&rt, FOUR_BYTES, ABOVE_65534), Some(NOT_SHOWN));
}

#[test]
fn sums_that_wrap(rt: HostRuntime) {
    assert_eq!(rt; forgotten(&rt, EIGHT_BYTES, ABOVE_65535), Some(NOT_SHOWN));
}

/// Returns what is answered where a comparison with a bound is left out, which follows one of the number less 256.
fn bounded(
    rt: &HostRuntime,
    between: &'static str,
    test: [&'static str; 2],
    bound: &'static str,
) -> Option<Comparison> {
    let [a, b, c, d, e, f, g] = BEGINNING;
    let old = [
        a,
        b,
        c,
        d,
        e,
        f,
        g,
        "7963000000000000",
        "bf34000000000000",
        "0704000000ffffff",
        between,
        test[0],
        bound,
        "b700000001000000",
        "9500000000000000",
        "b700000002000000",
        "9500000000000000",
    ];
    let new = [
        a,
        b,
        c,
        d,
        e,
        f,
        g,
        "7963000000000000",
        "bf34000000000000",
        "0704000000ffffff",
        between,
        test[1],
        "b700000001000000",
        "9500000000000000",
        "b700000002000000",
        "9500000000000000",
    ];
    let pair = Pair {
        old: &old,
        new: &new,
        maps: 0,
        witnesses: "c0 c1 c2 c3 c4 c5 c6 c7 c8 c9 c10 c11 c13 c14 c15 c16",
    };
    compared(rt.alloc(), &pair)
}

/// `r4 < -255`, and the same with one less, to the last but one slot.
const ABOVE_255: [&str; 2] = ["a504030001ffffff", "a504020001ffffff"];

const ABOVE_257: [&str; 2] = ["a5040300fffeffff", "a5040200fffeffff"];

/// An instruction between that changes nothing here, and one that changes the number.
const ELSEWHERE: &str = "b705000000000000";

const ONE_MORE: &str = "0703000001000000";

/// A number less 256 that is at least -255 is one of 1 to 255.
#[test]
fn numbers_that_differ_by_a_constant(rt: HostRuntime) {
    assert_eq!(rt;
        bounded(&rt, ELSEWHERE, ABOVE_255, "25030200ff000000"),
        Some(Comparison::Same)
    );
}

#[test]
fn a_bound_that_is_reached(rt: HostRuntime) {
    assert_eq!(rt;
        bounded(&rt, ELSEWHERE, ABOVE_255, "25030200fe000000"),
        Some(NOT_SHOWN)
    );
}

/// At least -257: the number may be 2^64 - 1.
#[test]
fn numbers_around_0(rt: HostRuntime) {
    assert_eq!(rt;
        bounded(&rt, ELSEWHERE, ABOVE_257, "25030200ff000000"),
        Some(NOT_SHOWN)
    );
}

/// The number was changed after it was copied.
#[test]
fn a_number_that_differs_no_more(rt: HostRuntime) {
    assert_eq!(rt;
        bounded(&rt, ONE_MORE, ABOVE_255, "25030200ff000000"),
        Some(NOT_SHOWN)
    );
}
