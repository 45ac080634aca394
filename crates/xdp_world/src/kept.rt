//! A turn that is kept.
ghost use Rattle.std.specs.Prelude.{◌≡◌, ◌≤◌, length, vec_len, vec_capacity};
ghost use Rattle.xen_turns.specs.Turned.{IsShort, Shows, Turned};
ghost use Rattle.xdp_world.specs.Keeping.{Keeps};

use std::mem;
use xen_back::{Action, Halt, PacketRefusal, Turn};

/// The most bytes that a packet has.
pub(crate) const ROOM: usize = 65535;

/// A turn, with the bytes of its packet.
#[derive(Debug, PartialEq, Eq, Drop)]
pub enum Kept {
    /// No request was there.
    Idle,
    /// A packet was copied, and the program ran on it.
    Ran {
        action: Action,
        number: u32,
        packet: Vec<u8>,
        ops: u32,
        slots: u32,
    },
    /// The packet was refused, and its slots answered.
    Refused {
        cause: PacketRefusal,
        ops: u32,
        slots: u32,
    },
    /// The queue has halted, and stays so.
    Halted {
        cause: Halt,
    },
}

/// Keeps a turn. Its packet's bytes go into the spare room, which is then used up.
pub(crate) fn keep(turn: Turn<'_>, spare: &mut Vec<u8>) -> Kept
    requires short { IsShort turn }
    requires empty { vec_len spare.old ≡ 0 }
    requires room { 65535 ≤ vec_capacity spare.old }
    ensures keeps { (u : Turned) → Shows u turn.entry → Keeps u result }
    ensures empty { vec_len spare.new ≡ 0 }
{
    match turn {
        Turn::Idle => Kept::Idle,
        Turn::Ran {
            action,
            number,
            packet,
            ops,
            slots,
        } => Kept::Ran {
            action,
            number,
            packet: taken(packet, spare),
            ops,
            slots,
        },
        Turn::Refused { cause, ops, slots } => Kept::Refused { cause, ops, slots },
        Turn::Halted { cause } => Kept::Halted { cause },
    }
}

/// The bytes, in the spare room.
fn taken(packet: &[u8], spare: &mut Vec<u8>) -> Vec<u8>
    requires short { length packet.now ≤ 65535 }
    requires empty { vec_len spare.old ≡ 0 }
    requires room { 65535 ≤ vec_capacity spare.old }
    ensures bytes { result.items ≡ packet.now }
    ensures empty { vec_len spare.new ≡ 0 }
{
    let mut bytes = mem::replace(spare, Vec::new(*spare.allocator()));
    match bytes.extend_from_slice(packet) {
        Ok(()) => {}
        Err(_) => unreachable!(),
    }
    bytes.shrink_to_fit();
    bytes
}
