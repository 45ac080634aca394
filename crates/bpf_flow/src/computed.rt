//! What arithmetic makes.

use bpf_note::Val;

/// The result of an operation.
#[derive(Clone, Copy, Debug, PartialEq, Eq, Drop)]
pub(crate) enum Computed {
    /// A value.
    Plain(Val),
    /// An address in the packet with a base of its own, at most `top`.
    Fresh { top: u32 },
}
