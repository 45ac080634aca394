//! Jumps of the old program alone that signed comparisons, shifts, differences and masks decide.
use crate::pairs::{NOT_SHOWN, Pair, compared};
use bpf_same::Comparison;

/// `r0 = 1`, and the end.
const END: &str = "b7000000010000009500000000000000";

/// The first field of the context that isn't an address, as a signed number of 32 bits, in r3.
const SIGNED_32: &str = "61130c00000000006703000020000000c703000020000000b700000002000000";

/// Returns what is answered where the new program doesn't ask whether a number is above a bound that is from 20 to 60 by signed comparisons.
fn bounded(rt: &HostRuntime, first: [&'static str; 2], asked: &'static str) -> Option<Comparison> {
    let old = [SIGNED_32, first[0], "650302003c000000", asked, END];
    let new = [SIGNED_32, first[1], "650301003c000000", END];
    compared(
        rt.alloc(),
        &Pair {
            old: &old,
            new: &new,
            maps: 0,
            witnesses: "c0 c1 c2 c3 c4 c5 c7 c8",
        },
    )
}

/// `if r3 s< 20`
const LESS: [&str; 2] = ["c503030014000000", "c503020014000000"];

/// `if r3 s<= 19`
const LESS_OR_EQUAL: [&str; 2] = ["d503030013000000", "d503020013000000"];

/// `if r3 > 60`, which is no more than what was asked
const ABOVE_60: &str = "250301003c000000";

/// `if r3 > 59`
const ABOVE_59: &str = "250301003b000000";

#[test]
fn bounded_by_signed_comparisons(rt: HostRuntime) {
    assert_eq!(rt; bounded(&rt, LESS, ABOVE_60), Some(Comparison::Same));
    assert_eq!(rt;
        bounded(&rt, LESS_OR_EQUAL, ABOVE_60),
        Some(Comparison::Same)
    );
    assert_eq!(rt; bounded(&rt, LESS, ABOVE_59), Some(NOT_SHOWN));
}

/// Returns what is answered where the new program has no jump of the old one, behind what is given. The old one takes it never.
fn left_out(
    rt: &HostRuntime,
    body: &'static str,
    jump: &'static str,
    witnesses: &str,
) -> Option<Comparison> {
    compared(
        rt.alloc(),
        &Pair {
            old: &[body, jump, END],
            new: &[body, END],
            maps: 0,
            witnesses,
        },
    )
}

/// A number from 0 to 7 less one from 1 to 8, extended by its sign of 32 bits.
const DIFFERENCE: &str =
    "61130c000000000057030000070000006114100000000000570400000700000007040000010000001f430000000000006703000020000000c703000020000000b700000002000000";

const OF_DIFFERENCE: &str = "c0 c1 c2 c3 c4 c5 c6 c7 c8 c10 c11";

#[test]
fn difference_that_wraps(rt: HostRuntime) {
    // `if r3 s> 6`, and 5
    assert_eq!(rt;
        left_out(&rt, DIFFERENCE, "6503010006000000", OF_DIFFERENCE),
        Some(Comparison::Same)
    );
    assert_eq!(rt;
        left_out(&rt, DIFFERENCE, "6503010005000000", OF_DIFFERENCE),
        Some(NOT_SHOWN)
    );
}

/// A number below 64, extended by its sign of 16 bits; and one below 65536.
const SHIFTED: &str =
    "61140c0000000000570400003f0000006704000030000000c704000030000000b700000002000000";

const SHIFTED_SIGN: &str =
    "61140c000000000057040000ffff00006704000030000000c704000030000000b700000002000000";

#[test]
fn extended_by_the_sign(rt: HostRuntime) {
    let witnesses = "c0 c1 c2 c3 c4 c6 c7";
    // `if r4 > 63`, and 65535
    assert_eq!(rt;
        left_out(&rt, SHIFTED, "250401003f000000", witnesses),
        Some(Comparison::Same)
    );
    assert_eq!(rt;
        left_out(&rt, SHIFTED_SIGN, "25040100ffff0000", witnesses),
        Some(NOT_SHOWN)
    );
}

/// Returns what is answered where the new program takes the register that a mask left for the one that it was copied from.
fn masked(rt: &HostRuntime, mask: &'static str) -> Option<Comparison> {
    let begin = "61140c000000000057040000ffff0000bf45000000000000";
    let end = "bf400000000000009500000000000000";
    compared(
        rt.alloc(),
        &Pair {
            old: &[begin, mask, end],
            new: &[begin, mask, "bf54000000000000", end],
            maps: 0,
            witnesses: "c0 c1 c2 c3 o4 c4 c5",
        },
    )
}

#[test]
fn left_by_a_mask(rt: HostRuntime) {
    // 65535, and 32767
    assert_eq!(rt; masked(&rt, "57050000ffff0000"), Some(Comparison::Same));
    assert_eq!(rt; masked(&rt, "57050000ff7f0000"), Some(NOT_SHOWN));
}

/// Returns what is answered where the new program doesn't ask whether an address is at least another one, which is at most 3 bytes behind
/// where it was before it went on.
fn ordered(rt: &HostRuntime, on: &'static str) -> Option<Comparison> {
    let begin = "61120400000000006111000000000000bf130000000000000703000022000000b700000002000000";
    let body = "71140000000000005704000003000000bf130000000000000f41000000000000";
    let old = [begin, "2d23070000000000", body, on, "3d13010000000000", END];
    let new = [begin, "2d23050000000000", body, on, "9500000000000000"];
    compared(
        rt.alloc(),
        &Pair {
            old: &old,
            new: &new,
            maps: 0,
            witnesses: "c0 c1 c2 c3 c4 c5 c6 c7 c8 c9 c10 c13",
        },
    )
}

#[test]
fn ordered_by_a_difference(rt: HostRuntime) {
    // 3 bytes, and 2
    assert_eq!(rt; ordered(&rt, "0703000003000000"), Some(Comparison::Same));
    assert_eq!(rt; ordered(&rt, "0703000002000000"), Some(NOT_SHOWN));
}
