//! A queue's whole turns, deliveries and waits over a bus.

ghost use Rattle.std.specs.Prelude.{◌≡◌, IsSome, List, Option, length};
ghost use Rattle.bpf_note.specs.declared.op.Op.{Op as Operation};
ghost use Rattle.xdp_program.specs.Tallies.{Went};
ghost use Rattle.xen_host.specs.Driven.{HasAwaitedAt, HasDeliveredAt, HasTurnedAt};
ghost use Rattle.xen_host.specs.Queues.{resting, seen, wired_to};

use crate::queue::Queue;
use crate::room::hold;
use crate::taking::is_taken;
use xdp_program::Tallies;
use xen_netif::RxOffload;
use xen_page::Bus;
use xen_ring::Ports;
use xen_turns::decisions::can_be_delivered;
use xen_turns::{Awaited, Delivery, Kind};

impl Queue {
    /// Takes a whole turn, between two, and returns how it ended.
    #[inline(always)]
    pub fn drive_turn<T: Tallies, B: Bus>(
        &mut self,
        counters: &mut T,
        bus: &mut B,
        ports: &Ports,
    ) -> Kind
        requires rests { IsSome (resting self.old) }
        requires size { B.size bus.old ≡ length (wired_to self.old).owners }
        requires serving { (labels : List (Option Operation)) (after : T) → Went (T.did (wired_to self.old).program.shapes) counters.old after
            labels → T.serves (wired_to self.old).program.shapes after }
        ensures size { B.size bus.new ≡ B.size bus.old }
        ensures turned { HasTurnedAt B.log B.access_gives (T.did (wired_to self.old).program.shapes) (seen self.old) (seen self.new) result
            bus.old bus.new counters.old counters.new }
        ensures wires { wired_to self.new ≡ wired_to self.old }
        ensures share { self.new.share ≡ self.old.share }
    {
        self.engine
            .drive_turn(&self.wires, &mut self.packet, counters, bus, ports)
    }

    /// Delivers a packet of the host's own to the frontend, between two turns, and returns what became of it. The packet is copied, into
    /// the room that the queue has for one. It leaves `offload` to the frontend.
    pub fn drive_delivery<T: Tallies, B: Bus>(
        &mut self,
        packet: &[u8],
        offload: RxOffload,
        counters: &mut T,
        bus: &mut B,
        ports: &Ports,
    ) -> Delivery
        requires rests { IsSome (resting self.old) }
        requires size { B.size bus.old ≡ length (wired_to self.old).owners }
        requires serving { (labels : List (Option Operation)) (after : T) → Went (T.did (wired_to self.old).program.shapes) counters.old after
            labels → T.serves (wired_to self.old).program.shapes after }
        ensures size { B.size bus.new ≡ B.size bus.old }
        ensures delivered { HasDeliveredAt B.log B.access_gives (seen self.old) (seen self.new) offload packet.now result bus.old bus.new
            counters.old counters.new }
        ensures wires { wired_to self.new ≡ wired_to self.old }
        ensures share { self.new.share ≡ self.old.share }
    {
        if !can_be_delivered(packet) {
            return Delivery::NoFrame;
        }
        if !is_taken(&self.wires.accepts, &offload, packet) {
            return Delivery::NotAccepted;
        }
        hold(packet, &mut self.packet);
        self.engine.deliver_held(offload, &self.wires, &mut self.packet, counters, bus, ports)
    }

    /// Asks the frontend for a notice as soon as it has posted `pages` rx slots, and looks whether it has by now, between two turns.
    pub fn drive_wait<T: Tallies, B: Bus>(
        &mut self,
        pages: u32,
        counters: &mut T,
        bus: &mut B,
        ports: &Ports,
    ) -> Awaited
        requires rests { IsSome (resting self.old) }
        requires size { B.size bus.old ≡ length (wired_to self.old).owners }
        requires serving { (labels : List (Option Operation)) (after : T) → Went (T.did (wired_to self.old).program.shapes) counters.old after
            labels → T.serves (wired_to self.old).program.shapes after }
        ensures size { B.size bus.new ≡ B.size bus.old }
        ensures awaited { HasAwaitedAt B.log B.access_gives (seen self.old) (seen self.new) pages result bus.old bus.new counters.old
            counters.new }
        ensures wires { wired_to self.new ≡ wired_to self.old }
        ensures share { self.new.share ≡ self.old.share }
    {
        self.engine
            .await_slots(pages, &self.wires, &mut self.packet, counters, bus, ports)
    }
}
