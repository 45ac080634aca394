//! What becomes of the values that carry an id.

use crate::val::Val;

/// The fate of the values that carry an id.
#[derive(Clone, Copy, Debug, PartialEq, Eq, Drop)]
pub(crate) enum Replacement {
    /// A pointer into the packet and a lookup's result that carry the id become any number.
    Forget { id: u16 },
    /// A lookup's result that carries the id becomes `known`.
    Resolve { id: u16, known: Val },
}
