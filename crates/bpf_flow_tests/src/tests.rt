//! The note itself, changed in place, and what holds of instructions alone. What the rule answers is rows of `rule_rows`.

mod registers;
mod transfers;

use std::fmt::Debug;
use std::process::Abort;

/// Stops if a row's answer isn't the expected one.
fn same<R: Abort, N: Debug, T: Debug + PartialEq>(rt: &R, row: &N, answer: &T, wanted: &T) {
    assert_eq!(rt; answer, wanted, "{row:?}");
}
