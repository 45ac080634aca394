//! What is known of eight bytes of the stack.

use crate::val::Val;

/// All that is known of a stack slot: the value that it keeps whole, or which of its bytes are set.
#[derive(Clone, Copy, Debug, PartialEq, Eq, Drop)]
pub(crate) enum Slot {
    Kept(Val),
    Bytes([bool; 8]),
}
