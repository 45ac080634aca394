//! The fault of a ring.

use std::error::Error;
use std::fmt;

/// A producer index is more than a whole ring ahead.
#[derive(Clone, Copy, Debug, PartialEq, Eq, Hash)]
pub struct Overflow;

impl fmt::Display for Overflow {
    ghost use Rattle.std.specs.Prelude.{Some, codes};

    ghost output = { λ _. Some (codes "the producer is more than a whole ring ahead") };

    fn fmt<W: fmt::Write>(&self, f: &mut fmt::Formatter<W>) -> fmt::Result {
        f.write_str("the producer is more than a whole ring ahead")
    }
}

impl Error for Overflow {}
