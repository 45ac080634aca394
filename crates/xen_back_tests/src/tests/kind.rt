//! A turn without its packet.

use xen_back::{Halt, PacketRefusal, Turn};

#[derive(Clone, Copy, Debug, PartialEq, Eq)]
pub enum Kind {
    Idle,
    Ran {
        number: u32,
        ops: u32,
        slots: u32,
    },
    Refused {
        cause: PacketRefusal,
        ops: u32,
        slots: u32,
    },
    Halted {
        cause: Halt,
    },
}

/// Returns what a turn came to.
pub fn kind_of(turn: &Turn) -> Kind {
    match turn {
        Turn::Idle => Kind::Idle,
        Turn::Ran {
            number,
            ops,
            slots,
            ..
        } => Kind::Ran {
            number: *number,
            ops: *ops,
            slots: *slots,
        },
        Turn::Refused { cause, ops, slots } => Kind::Refused {
            cause: *cause,
            ops: *ops,
            slots: *slots,
        },
        Turn::Halted { cause } => Kind::Halted { cause: *cause },
    }
}

impl Kind {
    /// The end of a packet in `slots` slots, under a program that ended with a number and used no counter.
    pub fn ran(number: u32, slots: u32) -> Kind {
        Kind::Ran {
            number,
            ops: 0,
            slots,
        }
    }

    /// The end of a packet in `slots` slots that is refused, before any counter is used.
    pub fn refused(cause: PacketRefusal, slots: u32) -> Kind {
        Kind::Refused {
            cause,
            ops: 0,
            slots,
        }
    }
}
