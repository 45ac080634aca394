//! The copy of a packet, in the queue's buffer.

ghost use Rattle.std.specs.Prelude.{◌≡◌, []};

use bpf_lists::MapList;
use bpf_verify::Verified;
use bpf_vm::{Buffer, Fill, PacketBuf};
use std::marker::Model;
use xdp_program::Tallies;
use xen_host::{Ran, Room, run_packet};

/// A packet in the queue's buffer, which has room for the longest. It is out while the program runs on it.
#[derive(Drop)]
pub struct CopyBuf<'b> {
    packet: Option<PacketBuf<'b>>,
}

impl<'b> Model for CopyBuf<'b> {
    ghost use Rattle.std.specs.Prelude.{◌≡◌, List, ℕ};
    ghost use Rattle.xen_turns.specs.Held.{bytes_held, IsHeld};

    ghost Value = { List ℕ };

    ghost view = { λ c. bytes_held c.packet };

    ghost invariant = { λ c. IsHeld c.packet };
}

impl<'b> CopyBuf<'b> {
    /// A packet of no bytes.
    pub fn empty(buffer: &'b mut Buffer) -> CopyBuf<'b>
        ensures { result ≡ [] }
    {
        CopyBuf {
            packet: Some(PacketBuf::empty(buffer)),
        }
    }

    /// The packet that a program has left.
    pub fn of(packet: PacketBuf<'b>) -> CopyBuf<'b>
        requires { packet.room.size ≡ 65535 }
        ensures { result ≡ packet.entry.bytes }
    {
        CopyBuf {
            packet: Some(packet),
        }
    }

    /// The packet that a program runs on.
    pub fn into_packet(self) -> PacketBuf<'b>
        ensures bytes { result.bytes ≡ self.entry }
        ensures room { result.room.size ≡ 65535 }
    {
        match self.packet {
            Some(packet) => packet,
            None => unreachable!(),
        }
    }
}

impl<'b> Room for CopyBuf<'b> {
    ghost held = { λ c. c };

    fn bytes(&self) -> &[u8] {
        match &self.packet {
            Some(packet) => packet.bytes(),
            None => unreachable!(),
        }
    }

    fn clear(&mut self) {
        match &mut self.packet {
            Some(packet) => packet.clear(),
            None => unreachable!(),
        }
    }

    fn push_all(&mut self, bytes: &[u8]) {
        match &mut self.packet {
            Some(packet) => packet.push_all(bytes),
            None => unreachable!(),
        }
    }

    #[inline(always)]
    fn push_from<S, F: Fill<S>>(&mut self, count: usize, filler: &F, source: &mut S) {
        match &mut self.packet {
            Some(packet) => packet.push_from(count, filler, source),
            None => unreachable!(),
        }
    }

    fn run<T: Tallies>(
        &mut self,
        program: &Verified,
        lists: &[Option<MapList>],
        counters: &mut T,
        ifindex: u32,
        queue: u32,
    ) -> Ran {
        match self.packet.take() {
            Some(packet) => {
                let (packet, ran) = run_packet(program, lists, counters, packet, ifindex, queue);
                self.packet = Some(packet);
                ran
            }
            None => unreachable!(),
        }
    }
}
