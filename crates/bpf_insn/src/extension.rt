//! Sign extension.
ghost use Rattle.std.specs.Prelude.{◌≡◌};
ghost use Rattle.bpf_insn.specs.Extension.{extended, moved_extended};

use crate::size::Size;
use crate::truncated::{low_8, low_16, low_32};

/// The low bytes of a number, read as signed, as 64 bits.
#[tactic(auto, unfolding(crate::specs::Extension::extended))]
pub fn extend(size: Size, v: u64) -> u64
    ensures { result ≡ extended size v }
{
    match size {
        Size::Byte => i64::from(low_8(v).cast_signed()).cast_unsigned(),
        Size::Half => i64::from(low_16(v).cast_signed()).cast_unsigned(),
        Size::Word => i64::from(low_32(v).cast_signed()).cast_unsigned(),
        Size::Double => v,
    }
}

/// Returns what a move with sign extension leaves in its destination; without `wide` the upper half is 0.
#[tactic(auto, unfolding(crate::specs::Extension::moved_extended))]
pub fn move_extended(wide: bool, size: Size, v: u64) -> u64
    ensures { result ≡ moved_extended wide size v }
{
    let extended = extend(size, v);
    if wide {
        extended
    } else {
        u64::from(low_32(extended))
    }
}
