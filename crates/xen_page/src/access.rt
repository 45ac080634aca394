//! One access to a page word.

ghost use Rattle.std.specs.Prelude.{◌≡◌};
ghost use Rattle.xen_page.specs.Answered.{answer_of};

use crate::place::Place;

/// An access to a page word, with its answer.
#[derive(Clone, Copy, Debug, PartialEq, Eq)]
pub enum Access {
    Read {
        at: Place,
        answer: u32,
    },
    Write {
        at: Place,
        value: u32,
    },
    /// A compare-exchange. It found `found`, and wrote `new` if that is `old`.
    Exchange {
        at: Place,
        old: u32,
        new: u32,
        found: u32,
    },
}

impl Access {
    /// Returns what a read or a compare-exchange returned.
    pub fn answer(&self) -> Option<u32>
        ensures { result ≡ answer_of self.now }
    {
        match self {
            Access::Read { answer, .. } => Some(*answer),
            Access::Write { .. } => None,
            Access::Exchange { found, .. } => Some(*found),
        }
    }
}
