//! Values, for the tests.

use bpf_note::Val;

/// A number that is known.
pub fn exactly(number: u64) -> Val {
    range(number, number)
}

/// A number that lies between two others.
pub fn range(lo: u64, hi: u64) -> Val {
    Val::Num { lo, hi }
}
