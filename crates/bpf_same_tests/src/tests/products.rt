//! Jumps that are decided by what a product may be, or a number with the bits of a mask alone.
use crate::pairs::{NOT_SHOWN, Pair, compared};
use bpf_same::Comparison;

/// Returns what is answered where the new program tests `r3` once more, which three instructions make of a packet of at least 14
/// bytes at r6, and ends otherwise if it is greater.
fn tested(
    rt: &HostRuntime,
    load: &'static str,
    first: &'static str,
    second: &'static str,
    test: &'static str,
) -> Option<Comparison> {
    let old = [
        "6116000000000000",
        "6117040000000000",
        "bf62000000000000",
        "070200000e000000",
        "bd72020000000000",
        "b700000001000000",
        "9500000000000000",
        load,
        first,
        second,
        "bf30000000000000",
        "9500000000000000",
    ];
    let new = [
        "6116000000000000",
        "6117040000000000",
        "bf62000000000000",
        "070200000e000000",
        "bd72020000000000",
        "b700000001000000",
        "9500000000000000",
        load,
        first,
        second,
        test,
        "bf30000000000000",
        "9500000000000000",
        "b700000000000000",
        "9500000000000000",
    ];
    let pair = Pair {
        old: &old,
        new: &new,
        maps: 0,
        witnesses: "c0 c1 c2 c3 c4 c5 c6 c7 c8 c9 o10 c10 c11 o0 o0",
    };
    compared(rt.alloc(), &pair)
}

/// A byte, two bytes, and eight.
const BYTE: &str = "7163000000000000";

const TWO_BYTES: &str = "6963000000000000";

const EIGHT_BYTES: &str = "7963000000000000";

const TIMES_6: &str = "2703000006000000";

/// Each of eight places has six bytes.
#[test]
fn a_place_among_rows_of_six_bytes(rt: HostRuntime) {
    assert_eq!(rt;
        tested(&rt, BYTE, "5703000007000000", TIMES_6, "250302002a000000"),
        Some(Comparison::Same)
    );
    assert_eq!(rt;
        tested(&rt, BYTE, "5703000007000000", TIMES_6, "2503020029000000"),
        Some(NOT_SHOWN)
    );
}

/// Eight bytes times six may wrap.
#[test]
fn a_product_that_wraps(rt: HostRuntime) {
    assert_eq!(rt;
        tested(
            &rt,
            EIGHT_BYTES,
            "57030000ffffffff",
            TIMES_6,
            "25030200ffffff7f"
        ),
        Some(NOT_SHOWN)
    );
}

/// The seven highest of two bytes, of which the lowest three are cleared: 120 at most.
#[test]
fn a_place_among_words(rt: HostRuntime) {
    assert_eq!(rt;
        tested(
            &rt,
            TWO_BYTES,
            "7703000009000000",
            "57030000f81f0000",
            "2503020078000000"
        ),
        Some(Comparison::Same)
    );
    assert_eq!(rt;
        tested(
            &rt,
            TWO_BYTES,
            "7703000009000000",
            "57030000f81f0000",
            "2503020077000000"
        ),
        Some(NOT_SHOWN)
    );
}

/// A mask with a bit that is missing, and one that ends below the number's highest bit.
#[test]
fn masks_that_say_less(rt: HostRuntime) {
    assert_eq!(rt;
        tested(
            &rt,
            TWO_BYTES,
            "7703000009000000",
            "57030000e81f0000",
            "2503020068000000"
        ),
        Some(NOT_SHOWN)
    );
    assert_eq!(rt;
        tested(
            &rt,
            TWO_BYTES,
            "7703000009000000",
            "5703000038000000",
            "2503020037000000"
        ),
        Some(NOT_SHOWN)
    );
}
