//! Pairs of which the new program has instructions of its own. Each new program is accepted.
use crate::pairs::{NOT_SHOWN, Pair, compared};
use bpf_same::Comparison;

/// A register that is saved, used and restored.
const RESTORED: Pair = Pair {
    old: &["61100c0000000000", "9500000000000000"],
    new: &[
        "7b1af8ff00000000",
        "b701000005000000",
        "79a1f8ff00000000",
        "61100c0000000000",
        "9500000000000000",
    ],
    maps: 0,
    witnesses: "o0 o0 o0 c0 c1",
};

#[test]
fn restored(rt: HostRuntime) {
    assert_eq!(rt; compared(rt.alloc(), &RESTORED), Some(Comparison::Same));
}

const LAST_BYTE: &[&str] = &[
    "6112040000000000",
    "6113000000000000",
    "bf34000000000000",
    "070400000e000000",
    "2d24020000000000",
    "7140ffff00000000",
    "9500000000000000",
    "b700000001000000",
    "9500000000000000",
];

/// An address that is made anew.
const MADE_ANEW: Pair = Pair {
    old: LAST_BYTE,
    new: &[
        "7b1af8ff00000000",
        "6112040000000000",
        "6113000000000000",
        "bf34000000000000",
        "070400000e000000",
        "2d24050000000000",
        "79a4f8ff00000000",
        "6144000000000000",
        "070400000e000000",
        "7140ffff00000000",
        "9500000000000000",
        "b700000001000000",
        "9500000000000000",
    ],
    maps: 0,
    witnesses: "o0 c0 c1 c2 c3 c4 o5 o5 o5 c5 c6 c7 c8",
};

#[test]
fn made_anew(rt: HostRuntime) {
    assert_eq!(rt; compared(rt.alloc(), &MADE_ANEW), Some(Comparison::Same));
}

/// Another address.
const MADE_OTHERWISE: Pair = Pair {
    old: LAST_BYTE,
    new: &[
        "7b1af8ff00000000",
        "6112040000000000",
        "6113000000000000",
        "bf34000000000000",
        "070400000e000000",
        "2d24050000000000",
        "79a4f8ff00000000",
        "6144000000000000",
        "070400000d000000",
        "7140ffff00000000",
        "9500000000000000",
        "b700000001000000",
        "9500000000000000",
    ],
    maps: 0,
    witnesses: "o0 c0 c1 c2 c3 c4 o5 o5 o5 c5 c6 c7 c8",
};

#[test]
fn made_otherwise(rt: HostRuntime) {
    assert_eq!(rt; compared(rt.alloc(), &MADE_OTHERWISE), Some(NOT_SHOWN));
}

/// A store of the new program's own to what the old one stored.
const STORE_TO_THE_OLD_WORD: Pair = Pair {
    old: &[
        "b702000007000000",
        "7b2af8ff00000000",
        "79a0f8ff00000000",
        "9500000000000000",
    ],
    new: &[
        "b702000007000000",
        "7b2af8ff00000000",
        "b703000009000000",
        "7b3af8ff00000000",
        "79a0f8ff00000000",
        "9500000000000000",
    ],
    maps: 0,
    witnesses: "c0 c1 o2 o2 c2 c3",
};

#[test]
fn store_to_the_old_word(rt: HostRuntime) {
    assert_eq!(rt;
        compared(rt.alloc(), &STORE_TO_THE_OLD_WORD),
        Some(NOT_SHOWN)
    );
}

/// A load of both, of what the new program alone has stored.
const LOAD_OF_AN_OWN_WORD: Pair = Pair {
    old: &["79a0f8ff00000000", "9500000000000000"],
    new: &[
        "b702000001000000",
        "7b2af8ff00000000",
        "79a0f8ff00000000",
        "9500000000000000",
    ],
    maps: 0,
    witnesses: "o0 o0 c0 c1",
};

#[test]
fn load_of_an_own_word(rt: HostRuntime) {
    assert_eq!(rt; compared(rt.alloc(), &LOAD_OF_AN_OWN_WORD), Some(NOT_SHOWN));
}

/// A register that differs where both read it.
const OTHER_NUMBER: Pair = Pair {
    old: &["b700000002000000", "9500000000000000"],
    new: &["b700000002000000", "b700000003000000", "9500000000000000"],
    maps: 0,
    witnesses: "c0 o1 c1",
};

#[test]
fn other_number(rt: HostRuntime) {
    assert_eq!(rt; compared(rt.alloc(), &OTHER_NUMBER), Some(NOT_SHOWN));
}

/// A store of the new program's own to the packet.
const STORE_TO_THE_PACKET: Pair = Pair {
    old: LAST_BYTE,
    new: &[
        "6112040000000000",
        "6113000000000000",
        "bf34000000000000",
        "070400000e000000",
        "2d24030000000000",
        "7204ffff01000000",
        "7140ffff00000000",
        "9500000000000000",
        "b700000001000000",
        "9500000000000000",
    ],
    maps: 0,
    witnesses: "c0 c1 c2 c3 c4 o5 c5 c6 c7 c8",
};

#[test]
fn store_to_the_packet(rt: HostRuntime) {
    assert_eq!(rt; compared(rt.alloc(), &STORE_TO_THE_PACKET), Some(NOT_SHOWN));
}

/// A copy of a number that is raised by five, lowered by as much, and copied back.
const LOWERED: Pair = Pair {
    old: &["61120c0000000000", "bf20000000000000", "9500000000000000"],
    new: &[
        "61120c0000000000",
        "bf23000000000000",
        "0703000005000000",
        "1703000005000000",
        "bf32000000000000",
        "bf20000000000000",
        "9500000000000000",
    ],
    maps: 0,
    witnesses: "c0 o1 o1 o1 o1 c1 c2",
};

#[test]
fn lowered(rt: HostRuntime) {
    assert_eq!(rt; compared(rt.alloc(), &LOWERED), Some(Comparison::Same));
}

/// [`LOWERED`] by six, and in 32 bits.
#[test]
fn lowered_otherwise(rt: HostRuntime) {
    for insn in ["1703000006000000", "1403000005000000"] {
        let pair = Pair {
            new: &[
                "61120c0000000000",
                "bf23000000000000",
                "0703000005000000",
                insn,
                "bf32000000000000",
                "bf20000000000000",
                "9500000000000000",
            ],
            ..LOWERED
        };
        assert_eq!(rt; compared(rt.alloc(), &pair), Some(NOT_SHOWN));
    }
}

/// Another number is added to a copy and subtracted again, or the sum from itself, or the copy from the other number.
#[test]
fn register_subtracted(rt: HostRuntime) {
    let cases = [
        ("1f34000000000000", Comparison::Same),
        ("1f44000000000000", NOT_SHOWN),
        ("1f43000000000000", NOT_SHOWN),
    ];
    for (insn, answer) in cases {
        let pair = Pair {
            old: &[
                "61120c0000000000",
                "6113100000000000",
                "bf20000000000000",
                "9500000000000000",
            ],
            new: &[
                "61120c0000000000",
                "6113100000000000",
                "bf24000000000000",
                "0f34000000000000",
                insn,
                "bf42000000000000",
                "bf20000000000000",
                "9500000000000000",
            ],
            maps: 0,
            witnesses: "c0 c1 o2 o2 o2 o2 c2 c3",
        };
        assert_eq!(rt; compared(rt.alloc(), &pair), Some(answer));
    }
}
