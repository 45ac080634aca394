//! What a turn comes to, without what it owns.

use bpf_vm::Action;
use xdp_world::Kept;
use xen_back::{Halt, PacketRefusal};

/// A turn, with the first bytes of its packet.
#[derive(Clone, Copy, Debug, PartialEq, Eq)]
pub(crate) enum Kind {
    Idle,
    Ran {
        action: Action,
        number: u32,
        /// The number of bytes that the packet has.
        length: usize,
        first: [u8; 14],
        ops: u32,
        slots: u32,
    },
    Refused {
        cause: PacketRefusal,
        ops: u32,
        slots: u32,
    },
    Halted {
        cause: Halt,
    },
}

/// The turn of a packet of 14 bytes in one slot that passes, without an operation.
pub(crate) fn passes(first: [u8; 14]) -> Kind {
    Kind::Ran {
        action: Action::Pass,
        number: 2,
        length: 14,
        first,
        ops: 0,
        slots: 1,
    }
}

/// The first bytes of a packet, and 0 if it has none.
fn first_of(packet: &[u8]) -> [u8; 14] {
    let mut first = [0; 14];
    for (byte, found) in first.iter_mut().zip(packet) {
        *byte = *found;
    }
    first
}

pub(crate) fn kind_of(kept: &Kept) -> Kind {
    match kept {
        Kept::Idle => Kind::Idle,
        Kept::Ran {
            action,
            number,
            packet,
            ops,
            slots,
        } => Kind::Ran {
            action: *action,
            number: *number,
            length: packet.len(),
            first: first_of(packet.as_slice()),
            ops: *ops,
            slots: *slots,
        },
        Kept::Refused { cause, ops, slots } => Kind::Refused {
            cause: *cause,
            ops: *ops,
            slots: *slots,
        },
        Kept::Halted { cause } => Kind::Halted { cause: *cause },
    }
}
