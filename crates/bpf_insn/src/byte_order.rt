//! Byte swaps.
ghost use Rattle.std.specs.Prelude.{◌≡◌};
ghost use Rattle.bpf_insn.specs.ByteOrder.{swapped};

use crate::swap_kind::SwapKind;
use crate::truncated::{low_16, low_32};
use crate::width::Width;

/// Returns what a byte swap instruction leaves of a number: the low bytes of that width, kept or reversed, and zeros above.
#[tactic(auto, unfolding(crate::specs::ByteOrder::swapped))]
pub fn swap(kind: SwapKind, width: Width, v: u64) -> u64
    ensures { result ≡ swapped kind width v }
{
    match (kind, width) {
        (SwapKind::ToLittle, Width::Bits16) => u64::from(low_16(v)),
        (SwapKind::ToLittle, Width::Bits32) => u64::from(low_32(v)),
        (SwapKind::ToLittle, Width::Bits64) => v,
        (_, Width::Bits16) => u64::from(low_16(v).swap_bytes()),
        (_, Width::Bits32) => u64::from(low_32(v).swap_bytes()),
        (_, Width::Bits64) => v.swap_bytes(),
    }
}
