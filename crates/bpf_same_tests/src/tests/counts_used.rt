//! Pairs whose counts aren't additions: what was loaded, or the sum, is used otherwise.
use crate::pairs::{NOT_SHOWN, Pair, compared};
use crate::tests::counts::{AS_THEY_STAND, LOOKUP, PASS};

/// `++*value > 9`, as clang 19 makes it: the sum is read after the store.
const SUM_READ_BEGINS: &str =
    "b706000001000000636afcff00000000bfa200000000000007020000fcffffff1811000000000000000000000000000085000000010000001500040000000000";

/// The rest.
const SUM_READ: Pair = Pair {
    old: &[
        SUM_READ_BEGINS,
        "7901000000000000",
        "0701000001000000",
        "7b10000000000000",
        "2501010009000000",
        "b706000002000000",
        "bf60000000000000",
        "9500000000000000",
    ],
    new: &[
        SUM_READ_BEGINS,
        "b701000000000000",
        "0701000001000000",
        "db10000000000000",
        "2501010009000000",
        "b706000002000000",
        "bf60000000000000",
        "9500000000000000",
    ],
    maps: 1,
    witnesses: AS_THEY_STAND,
};

#[test]
fn sum_read(rt: HostRuntime) {
    assert_eq!(rt; compared(rt.alloc(), &SUM_READ), Some(NOT_SHOWN));
}

/// Another number is added.
const ANOTHER_NUMBER: Pair = Pair {
    old: &[
        LOOKUP,
        "7901000000000000",
        "0701000003000000",
        "7b10000000000000",
        PASS,
    ],
    new: &[
        LOOKUP,
        "b701000000000000",
        "0701000004000000",
        "db10000000000000",
        PASS,
    ],
    maps: 1,
    witnesses: AS_THEY_STAND,
};

#[test]
fn another_number(rt: HostRuntime) {
    assert_eq!(rt; compared(rt.alloc(), &ANOTHER_NUMBER), Some(NOT_SHOWN));
}

/// What was loaded is compared.
const COMPARED_INSIDE: Pair = Pair {
    old: &[
        LOOKUP,
        "7901000000000000",
        "2501020009000000",
        "0701000003000000",
        "7b10000000000000",
        PASS,
    ],
    new: &[
        LOOKUP,
        "b701000000000000",
        "2501020009000000",
        "0701000003000000",
        "db10000000000000",
        PASS,
    ],
    maps: 1,
    witnesses: AS_THEY_STAND,
};

#[test]
fn compared_inside(rt: HostRuntime) {
    assert_eq!(rt; compared(rt.alloc(), &COMPARED_INSIDE), Some(NOT_SHOWN));
}

/// What was loaded is shifted, and read after the store.
const SHIFTED: Pair = Pair {
    old: &[
        LOOKUP,
        "7901000000000000",
        "bf13000000000000",
        "6703000001000000",
        "0701000003000000",
        "7b10000000000000",
        "bf30000000000000",
        "9500000000000000",
    ],
    new: &[
        LOOKUP,
        "b701000000000000",
        "bf13000000000000",
        "6703000001000000",
        "0701000003000000",
        "db10000000000000",
        "bf30000000000000",
        "9500000000000000",
    ],
    maps: 1,
    witnesses: AS_THEY_STAND,
};

#[test]
fn shifted(rt: HostRuntime) {
    assert_eq!(rt; compared(rt.alloc(), &SHIFTED), Some(NOT_SHOWN));
}

/// What was loaded is added to itself.
const DOUBLED: Pair = Pair {
    old: &[
        LOOKUP,
        "7901000000000000",
        "0f11000000000000",
        "7b10000000000000",
        PASS,
    ],
    new: &[
        LOOKUP,
        "b701000000000000",
        "0f11000000000000",
        "db10000000000000",
        PASS,
    ],
    maps: 1,
    witnesses: AS_THEY_STAND,
};

#[test]
fn doubled(rt: HostRuntime) {
    assert_eq!(rt; compared(rt.alloc(), &DOUBLED), Some(NOT_SHOWN));
}

/// An addition of 32 bits.
const SUM_OF_32_BITS: Pair = Pair {
    old: &[
        LOOKUP,
        "7901000000000000",
        "0401000003000000",
        "7b10000000000000",
        PASS,
    ],
    new: &[
        LOOKUP,
        "b701000000000000",
        "0401000003000000",
        "db10000000000000",
        PASS,
    ],
    maps: 1,
    witnesses: AS_THEY_STAND,
};

#[test]
fn sum_of_32_bits(rt: HostRuntime) {
    assert_eq!(rt; compared(rt.alloc(), &SUM_OF_32_BITS), Some(NOT_SHOWN));
}

/// A number to which what was loaded is added is read after the store.
const NUMBER_READ: Pair = Pair {
    old: &[
        LOOKUP,
        "b703000007000000",
        "7901000000000000",
        "0f13000000000000",
        "7b30000000000000",
        "bf30000000000000",
        "9500000000000000",
    ],
    new: &[
        LOOKUP,
        "b703000007000000",
        "b701000000000000",
        "0f13000000000000",
        "db30000000000000",
        "bf30000000000000",
        "9500000000000000",
    ],
    maps: 1,
    witnesses: AS_THEY_STAND,
};

#[test]
fn number_read(rt: HostRuntime) {
    assert_eq!(rt; compared(rt.alloc(), &NUMBER_READ), Some(NOT_SHOWN));
}

/// The register of the sum has another number at the store.
const SUM_OVERWRITTEN: Pair = Pair {
    old: &[
        LOOKUP,
        "7901000000000000",
        "b701000005000000",
        "7b10000000000000",
        PASS,
    ],
    new: &[
        LOOKUP,
        "b701000000000000",
        "b701000005000000",
        "db10000000000000",
        PASS,
    ],
    maps: 1,
    witnesses: AS_THEY_STAND,
};

#[test]
fn sum_overwritten(rt: HostRuntime) {
    assert_eq!(rt; compared(rt.alloc(), &SUM_OVERWRITTEN), Some(NOT_SHOWN));
}
