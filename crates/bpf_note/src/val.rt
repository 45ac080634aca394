//! What is known of a register or of a kept stack slot.

/// The id of the packet's start.
pub const PACKET_ID: u16 = 0xffff;

/// All that is known of a number in a register, or in eight bytes of the stack. An id is the slot of the instruction that made it;
/// [`PACKET_ID`](crate::PACKET_ID) is the packet's start.
#[derive(Clone, Copy, Debug, PartialEq, Eq, Drop)]
pub enum Val {
    /// Anything, or nothing.
    Unset,
    /// A number from `lo` to `hi`, unsigned.
    Num { lo: u64, hi: u64 },
    /// The address `off` bytes past the base of `id` in the packet.
    Pkt { id: u16, off: u16 },
    /// The address of the packet's end.
    PktEnd,
    /// The address `off` bytes from the stack's end, -512 to 0.
    Stack { off: i16 },
    /// The address of the context.
    Ctx,
    /// A reference to map `m`.
    Map { m: u32 },
    /// The address of a value of map `m`, or 0: the same for all that carry `id`.
    MaybeValue { m: u32, id: u16 },
    /// The address of a value of map `m`.
    Value { m: u32 },
}

impl Val {
    /// Any number.
    pub const FULL: Val = Val::Num {
        lo: 0,
        hi: u64::MAX,
    };
}
