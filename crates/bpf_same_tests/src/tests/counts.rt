//! Pairs whose counts, a load, an addition and a store of one counter, are atomic additions in the new program. Each new program is
//! accepted, and beside each load stands a 0, beside each store an addition.
use crate::pairs::{Pair, compared};
use bpf_same::Comparison;

/// `r0` is the value of key 1.
pub(crate) const LOOKUP: &str =
    "b701000001000000631afcff00000000bfa200000000000007020000fcffffff1811000000000000000000000000000085000000010000005500020000000000b7000000020000009500000000000000";

/// `r7` is the value of key 0, and `r0` that of key 1.
pub(crate) const BOTH: &str =
    "620afcff00000000bfa200000000000007020000fcffffff1811000000000000000000000000000085000000010000005500020000000000b7000000020000009500000000000000bf07000000000000620afcff01000000bfa200000000000007020000fcffffff1811000000000000000000000000000085000000010000005500020000000000b7000000020000009500000000000000";

/// `r6` is the start of a packet of at least 14 bytes.
pub(crate) const FRAME: &str =
    "61160000000000006113040000000000bf64000000000000070400000e000000bd34020000000000b7000000010000009500000000000000";

/// The end.
pub(crate) const PASS: &str = "b7000000020000009500000000000000";

/// Each slot stands where it stood.
pub(crate) const AS_THEY_STAND: &str =
    "c0 c1 c2 c3 c4 c5 c6 c7 c8 c9 c10 c11 c12 c13 c14 c15 c16 c17 c18 c19 c20 c21 c22 c23 c24 c25 c26";

/// `*value += 3`, as clang 19 makes it: up to the load.
const IMMEDIATE_BEGINS: &str =
    "b701000001000000631afcff00000000bfa200000000000007020000fcffffff1811000000000000000000000000000085000000010000001500030000000000";

/// The rest.
const IMMEDIATE: Pair = Pair {
    old: &[
        IMMEDIATE_BEGINS,
        "7901000000000000",
        "0701000003000000",
        "7b10000000000000",
        PASS,
    ],
    new: &[
        IMMEDIATE_BEGINS,
        "b701000000000000",
        "0701000003000000",
        "db10000000000000",
        PASS,
    ],
    maps: 1,
    witnesses: AS_THEY_STAND,
};

#[test]
fn immediate(rt: HostRuntime) {
    assert_eq!(rt;
        compared(rt.alloc(), &IMMEDIATE),
        Some(Comparison::SameByCounts)
    );
}

/// `*value += packet[12]`, as clang 19 makes it: up to the load.
const REGISTER_BEGINS: &str =
    "b700000001000000630afcff0000000061120400000000006116000000000000bf61000000000000070100000e0000002d210c0000000000bfa200000000000007020000fcffffff181100000000000000000000000000008500000001000000bf01000000000000b700000002000000150104000000000071620c0000000000";

/// The rest.
const REGISTER: Pair = Pair {
    old: &[
        REGISTER_BEGINS,
        "7913000000000000",
        "0f23000000000000",
        "7b31000000000000",
        "9500000000000000",
    ],
    new: &[
        REGISTER_BEGINS,
        "b703000000000000",
        "0f23000000000000",
        "db31000000000000",
        "9500000000000000",
    ],
    maps: 1,
    witnesses: AS_THEY_STAND,
};

#[test]
fn register(rt: HostRuntime) {
    assert_eq!(rt;
        compared(rt.alloc(), &REGISTER),
        Some(Comparison::SameByCounts)
    );
}

/// `*value += data_end - data`, as clang 19 makes it: what was loaded is added to the number.
const LOADED_ADDED_BEGINS: &str =
    "b702000001000000632afcff0000000061170000000000006116040000000000bfa200000000000007020000fcffffff18110000000000000000000000000000850000000100000015000400000000001f76000000000000";

/// The rest.
const LOADED_ADDED: Pair = Pair {
    old: &[
        LOADED_ADDED_BEGINS,
        "7901000000000000",
        "0f16000000000000",
        "7b60000000000000",
        PASS,
    ],
    new: &[
        LOADED_ADDED_BEGINS,
        "b701000000000000",
        "0f16000000000000",
        "db60000000000000",
        PASS,
    ],
    maps: 1,
    witnesses: AS_THEY_STAND,
};

#[test]
fn loaded_added(rt: HostRuntime) {
    assert_eq!(rt;
        compared(rt.alloc(), &LOADED_ADDED),
        Some(Comparison::SameByCounts)
    );
}

/// `*value += 1; *other += rx_queue_index`, as clang 19 makes them: up to the load.
const TWO_COUNTERS_BEGINS: &str =
    "bf16000000000000b701000000000000631afcff00000000b701000001000000631af8ff00000000bfa200000000000007020000fcffffff181100000000000000000000000000008500000001000000bf0700000000000015070d0000000000bfa200000000000007020000f8ffffff1811000000000000000000000000000085000000010000001500070000000000";

/// The rest.
const TWO_COUNTERS: Pair = Pair {
    old: &[
        TWO_COUNTERS_BEGINS,
        "7971000000000000",
        "0701000001000000",
        "7b17000000000000",
        "6161100000000000",
        "7902000000000000",
        "0f12000000000000",
        "7b20000000000000",
        PASS,
    ],
    new: &[
        TWO_COUNTERS_BEGINS,
        "b701000000000000",
        "0701000001000000",
        "db17000000000000",
        "6161100000000000",
        "b702000000000000",
        "0f12000000000000",
        "db20000000000000",
        PASS,
    ],
    maps: 1,
    witnesses: AS_THEY_STAND,
};

#[test]
fn two_counters(rt: HostRuntime) {
    assert_eq!(rt;
        compared(rt.alloc(), &TWO_COUNTERS),
        Some(Comparison::SameByCounts)
    );
}

/// Between the load and the store a byte of the packet is loaded, and shifted.
const PACKET_BETWEEN: Pair = Pair {
    old: &[
        FRAME,
        LOOKUP,
        "7901000000000000",
        "71630c0000000000",
        "6703000004000000",
        "0f31000000000000",
        "7b10000000000000",
        PASS,
    ],
    new: &[
        FRAME,
        LOOKUP,
        "b701000000000000",
        "71630c0000000000",
        "6703000004000000",
        "0f31000000000000",
        "db10000000000000",
        PASS,
    ],
    maps: 1,
    witnesses: AS_THEY_STAND,
};

#[test]
fn packet_between(rt: HostRuntime) {
    assert_eq!(rt;
        compared(rt.alloc(), &PACKET_BETWEEN),
        Some(Comparison::SameByCounts)
    );
}

/// Three turns of a loop that counts, as clang 19 makes it, and what `tools/straighten` makes of it: up to the load.
const TURNS_BEGINS: &str =
    "bf16000000000000b701000001000000631afcff00000000bfa200000000000007020000fcffffff181100000000000000000000000000008500000001000000";

/// The rest.
const TURNS: Pair = Pair {
    old: &[
        TURNS_BEGINS,
        "15000c0000000000",
        "b701000000000000",
        "6162100000000000",
        "bf23000000000000",
        "0f13000000000000",
        "7904000000000000",
        "0f43000000000000",
        "7b30000000000000",
        "0701000005000000",
        "bf13000000000000",
        "6703000020000000",
        "7703000020000000",
        "5503f6ff0f000000",
        PASS,
    ],
    new: &[
        TURNS_BEGINS,
        "15001d0000000000",
        "b701000000000000",
        "6162100000000000",
        "bf23000000000000",
        "0f13000000000000",
        "b704000000000000",
        "0f43000000000000",
        "db30000000000000",
        "0701000005000000",
        "bf13000000000000",
        "6703000020000000",
        "7703000020000000",
        "bf23000000000000",
        "0f13000000000000",
        "b704000000000000",
        "0f43000000000000",
        "db30000000000000",
        "0701000005000000",
        "bf13000000000000",
        "6703000020000000",
        "7703000020000000",
        "bf23000000000000",
        "0f13000000000000",
        "b704000000000000",
        "0f43000000000000",
        "db30000000000000",
        "0701000005000000",
        "bf13000000000000",
        "6703000020000000",
        "7703000020000000",
        PASS,
    ],
    maps: 1,
    witnesses: "c0 c1 c2 c3 c4 c5 c0 c7 c8 c9 c10 c11 c12 c13 c14 c15 c16 c17 c18 c19 c11 c12 c13 c14 c15 c16 c17 c18 c19 c11 c12 c13 c14 c15 c16 c17 c18 c19 c21 c22",
};

#[test]
fn turns(rt: HostRuntime) {
    assert_eq!(rt;
        compared(rt.alloc(), &TURNS),
        Some(Comparison::SameByCounts)
    );
}
