//! Pairs whose counts aren't additions: the load and the store are of two counters, or something is between them.
use crate::pairs::{NOT_SHOWN, Pair, compared};
use crate::tests::counts::{AS_THEY_STAND, BOTH, LOOKUP, PASS};

/// Another counter was loaded.
const ANOTHER_COUNTER: Pair = Pair {
    old: &[
        BOTH,
        "7971000000000000",
        "0701000003000000",
        "7b10000000000000",
        PASS,
    ],
    new: &[
        BOTH,
        "b701000000000000",
        "0701000003000000",
        "db10000000000000",
        PASS,
    ],
    maps: 1,
    witnesses: AS_THEY_STAND,
};

#[test]
fn another_counter(rt: HostRuntime) {
    assert_eq!(rt; compared(rt.alloc(), &ANOTHER_COUNTER), Some(NOT_SHOWN));
}

/// A jump leads between the load and the store.
const JUMP_BETWEEN: Pair = Pair {
    old: &[
        "6116100000000000",
        LOOKUP,
        "b701000007000000",
        "5506010000000000",
        "7901000000000000",
        "0701000003000000",
        "7b10000000000000",
        PASS,
    ],
    new: &[
        "6116100000000000",
        LOOKUP,
        "b701000007000000",
        "5506010000000000",
        "b701000000000000",
        "0701000003000000",
        "db10000000000000",
        PASS,
    ],
    maps: 1,
    witnesses: AS_THEY_STAND,
};

#[test]
fn jump_between(rt: HostRuntime) {
    assert_eq!(rt; compared(rt.alloc(), &JUMP_BETWEEN), Some(NOT_SHOWN));
}

/// The address is another one at the store.
const ADDRESS_OVERWRITTEN: Pair = Pair {
    old: &[
        BOTH,
        "7901000000000000",
        "bf02000000000000",
        "bf70000000000000",
        "0701000003000000",
        "7b10000000000000",
        PASS,
    ],
    new: &[
        BOTH,
        "b701000000000000",
        "bf02000000000000",
        "bf70000000000000",
        "0701000003000000",
        "db10000000000000",
        PASS,
    ],
    maps: 1,
    witnesses: AS_THEY_STAND,
};

#[test]
fn address_overwritten(rt: HostRuntime) {
    assert_eq!(rt; compared(rt.alloc(), &ADDRESS_OVERWRITTEN), Some(NOT_SHOWN));
}

/// The store is of another register than the sum.
const ANOTHER_REGISTER_STORED: Pair = Pair {
    old: &[
        "6116100000000000",
        LOOKUP,
        "7901000000000000",
        "0701000003000000",
        "7b60000000000000",
        PASS,
    ],
    new: &[
        "6116100000000000",
        LOOKUP,
        "b701000000000000",
        "0701000003000000",
        "db60000000000000",
        PASS,
    ],
    maps: 1,
    witnesses: AS_THEY_STAND,
};

#[test]
fn another_register_stored(rt: HostRuntime) {
    assert_eq!(rt;
        compared(rt.alloc(), &ANOTHER_REGISTER_STORED),
        Some(NOT_SHOWN)
    );
}

/// Another counter is loaded between the load and the store.
const LOADED_BETWEEN: Pair = Pair {
    old: &[
        BOTH,
        "7901000000000000",
        "7972000000000000",
        "0701000003000000",
        "7b10000000000000",
        PASS,
    ],
    new: &[
        BOTH,
        "b701000000000000",
        "7972000000000000",
        "0701000003000000",
        "db10000000000000",
        PASS,
    ],
    maps: 1,
    witnesses: AS_THEY_STAND,
};

#[test]
fn loaded_between(rt: HostRuntime) {
    assert_eq!(rt; compared(rt.alloc(), &LOADED_BETWEEN), Some(NOT_SHOWN));
}

/// Another counter is added to between the load and the store.
const ADDED_BETWEEN: Pair = Pair {
    old: &[
        BOTH,
        "b702000001000000",
        "7901000000000000",
        "0701000003000000",
        "db27000000000000",
        "7b10000000000000",
        PASS,
    ],
    new: &[
        BOTH,
        "b702000001000000",
        "b701000000000000",
        "0701000003000000",
        "db27000000000000",
        "db10000000000000",
        PASS,
    ],
    maps: 1,
    witnesses: AS_THEY_STAND,
};

#[test]
fn added_between(rt: HostRuntime) {
    assert_eq!(rt; compared(rt.alloc(), &ADDED_BETWEEN), Some(NOT_SHOWN));
}

/// The sum is stored to the stack between the load and the store.
const STORED_BETWEEN: Pair = Pair {
    old: &[
        LOOKUP,
        "7901000000000000",
        "0701000003000000",
        "7b1af0ff00000000",
        "7b10000000000000",
        PASS,
    ],
    new: &[
        LOOKUP,
        "b701000000000000",
        "0701000003000000",
        "7b1af0ff00000000",
        "db10000000000000",
        PASS,
    ],
    maps: 1,
    witnesses: AS_THEY_STAND,
};

#[test]
fn stored_between(rt: HostRuntime) {
    assert_eq!(rt; compared(rt.alloc(), &STORED_BETWEEN), Some(NOT_SHOWN));
}

/// A store without a load.
const NO_LOAD: Pair = Pair {
    old: &[LOOKUP, "b701000003000000", "7b10000000000000", PASS],
    new: &[LOOKUP, "b701000003000000", "db10000000000000", PASS],
    maps: 1,
    witnesses: AS_THEY_STAND,
};

#[test]
fn no_load(rt: HostRuntime) {
    assert_eq!(rt; compared(rt.alloc(), &NO_LOAD), Some(NOT_SHOWN));
}
