//! Accesses of one address by another register or offset.
use crate::pairs::{NOT_SHOWN, Pair, compared};
use bpf_same::Comparison;

/// `r6` is the packet's start and `r3` its end, and 14 bytes lie between.
const START: &str =
    "61160000000000006113040000000000bf64000000000000070400000e000000bd34020000000000b7000000010000009500000000000000";

/// Returns what is answered where the old program makes one access, and the new one another.
fn accesses(rt: &HostRuntime, old: &'static str, new: &'static str) -> Option<Comparison> {
    let before = "bf670000000000000707000005000000b702000007000000";
    let after = "b7000000020000009500000000000000";
    let pair = Pair {
        old: &[START, before, old, after],
        new: &[START, before, new, after],
        maps: 0,
        witnesses: "c0 c1 c2 c3 c4 c5 c6 c7 c8 c9 c10 c11 c12",
    };
    compared(rt.alloc(), &pair)
}

#[test]
fn loads(rt: HostRuntime) {
    let old = "7170fdff00000000";
    assert_eq!(rt;
        accesses(&rt, old, "7160020000000000"),
        Some(Comparison::Same)
    );
    assert_eq!(rt; accesses(&rt, old, "7160030000000000"), Some(NOT_SHOWN));
    assert_eq!(rt; accesses(&rt, old, "6960020000000000"), Some(NOT_SHOWN));
}

#[test]
fn stores(rt: HostRuntime) {
    let old = "7327fdff00000000";
    assert_eq!(rt;
        accesses(&rt, old, "7326020000000000"),
        Some(Comparison::Same)
    );
    assert_eq!(rt; accesses(&rt, old, "7206020007000000"), Some(NOT_SHOWN));
    assert_eq!(rt; accesses(&rt, old, "7326010000000000"), Some(NOT_SHOWN));
}

/// `r5` is a byte of the packet, and `r4` an address as far from the start, at which a byte lies; `r7` is `r5`, shifted by 32 and back.
const BYTE_SHIFTED: &str =
    "7165000000000000bf640000000000000f54000000000000bf4800000000000007080000010000002d38070000000000bf57000000000000";

/// Returns what is answered where the old program loads by what is shifted back, and the new one by what wasn't shifted.
fn shifted_back(rt: &HostRuntime, shifts: &'static str) -> Option<Comparison> {
    let pair = Pair {
        old: &[
            START,
            BYTE_SHIFTED,
            shifts,
            "0f670000000000007172000000000000",
            "b7000000020000009500000000000000b7000000010000009500000000000000",
        ],
        new: &[
            START,
            BYTE_SHIFTED,
            shifts,
            "0f670000000000007142000000000000",
            "b7000000020000009500000000000000b7000000010000009500000000000000",
        ],
        maps: 0,
        witnesses: "c0 c1 c2 c3 c4 c5 c6 c7 c8 c9 c10 c11 c12 c13 c14 c15 c16 c17 c18 c19 c20 c21",
    };
    compared(rt.alloc(), &pair)
}

#[test]
fn shifts_of_32_bits(rt: HostRuntime) {
    assert_eq!(rt;
        shifted_back(&rt, "67070000200000007707000020000000"),
        Some(Comparison::Same)
    );
    assert_eq!(rt;
        shifted_back(&rt, "6707000020000000c707000020000000"),
        Some(Comparison::Same)
    );
    assert_eq!(rt;
        shifted_back(&rt, "67070000200000007707000021000000"),
        Some(NOT_SHOWN)
    );
}

/// Returns what is answered where the old program compares what two bytes make with a number, and the new one doesn't.
fn bytes_compared(rt: &HostRuntime, jump: &'static str) -> Option<Comparison> {
    let bytes = "7165000000000000670500000800000071670100000000004f75000000000000";
    let ends = "b7000000020000009500000000000000b7000000010000009500000000000000";
    let pair = Pair {
        old: &[START, bytes, jump, ends],
        new: &[START, bytes, ends],
        maps: 0,
        witnesses: "c0 c1 c2 c3 c4 c5 c6 c7 c8 c9 c10 c12 c13 c14 c15",
    };
    compared(rt.alloc(), &pair)
}

#[test]
fn bits_of_two_bytes(rt: HostRuntime) {
    assert_eq!(rt;
        bytes_compared(&rt, "25050200ffff0000"),
        Some(Comparison::Same)
    );
    assert_eq!(rt; bytes_compared(&rt, "25050200feff0000"), Some(NOT_SHOWN));
}
