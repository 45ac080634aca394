//! A whole turn, a whole delivery and a whole wait of an engine over a bus.

ghost use Rattle.std.specs.Prelude.{◌≡◌, ◌<◌, ◌≤◌, IsSome, List, Option, length, ℕ};
ghost use Rattle.bpf_note.specs.declared.op.Op.{Op as Operation};
ghost use Rattle.xdp_program.specs.Tallies.{Went};
ghost use Rattle.xen_page.specs.Access.{Performs};
ghost use Rattle.xen_steps.specs.Drive.{accesses};
ghost use Rattle.xen_steps.specs.Event as event;
ghost use Rattle.xen_steps.specs.Places.{page_word};
ghost use Rattle.xen_turns.specs.Delivered.{IsDeliverable};
ghost use Rattle.xen_turns.specs.declared.wiring.Wiring.{Wiring};
ghost use Rattle.xen_host.specs.Driven.{HasAwaitedAt, HasDeliveredAt, HasTurnedAt};
ghost use Rattle.xen_host.specs.EngineAt.{engine_at};
ghost use Rattle.xen_host.specs.Going.{BeginsOnBus};
ghost use Rattle.xen_host.specs.Stands.{Stands};
ghost use Rattle.xen_host.specs.UnderWay.{IsBegunAt, IsWaitBegunAt, first_read, resting_at};

use crate::engine::Engine;
use crate::lent::LentPacket;
use crate::over_bus::{Over, OverBus};
use crate::room::Room;
use crate::stage::Stage;
use crate::taking::is_taken;
use crate::wires::Wires;
use xdp_program::Tallies;
use xen_netif::RxOffload;
use xen_page::{Bus, Place};
use xen_ring::Ports;
use xen_turns::decisions::can_be_delivered;
use xen_turns::laws::{
    deliveries_are_bounded, deliveries_are_rests, turns_are_bounded, turns_are_rests,
    waits_are_rests,
};
use xen_turns::{Awaited, Delivery, Kind};

/// More steps than a turn takes.
const TURN_STEPS: u32 = 33_033;

/// More steps than a delivery takes.
const DELIVERY_STEPS: u32 = 16_489;

/// More steps than a wait takes.
const WAIT_STEPS: u32 = 3;

impl Engine {
    /// Reads the producer of the ring whose page is in this frame, unless the queue has halted.
    fn look<B: Bus>(&self, frame: u32, bus: &mut B) -> u32
        requires frame { frame < B.size bus.old }
        ensures size { B.size bus.new ≡ B.size bus.old }
        ensures read { Performs B.log B.access_gives bus.old (accesses (first_read self.now.state.halt (event.Read (page_word frame 0)
            result))) bus.new }
    {
        match self.state.halt {
            None => bus.read(Place { frame, word: 0 }),
            Some(_) => 0,
        }
    }

    /// Begins a turn.
    #[inline(always)]
    fn begin_over<W: Wires, R: Room, B: Bus>(
        &mut self,
        producer: u32,
        wires: &W,
        packet: &mut R,
        host: &mut OverBus<'_, '_, B>,
    )
        requires stands { Stands (engine_at (W.wiring wires.now) (R.held packet.old) self.old) }
        requires rests { IsSome (resting_at (engine_at (W.wiring wires.now) (R.held packet.old) self.old)) }
        ensures stands { Stands (engine_at (W.wiring wires.now) (R.held packet.new) self.new) }
        ensures begun { BeginsOnBus B.log B.access_gives B.size (engine_at (W.wiring wires.now) (R.held packet.old) self.old) (engine_at
            (W.wiring wires.now) (R.held packet.new) self.new) producer host.old host.new }
        ensures loan { host.new.bus.ghost_name ≡ host.old.bus.ghost_name }
    {
        self.turn_by(producer, wires, packet, host)
    }

    /// Is to deliver the packet that its room holds.
    fn begin_delivery(&mut self, producer: u32, offload: RxOffload)
        ensures stands { (w : Wiring) (packet : List ℕ) → IsDeliverable w.accepts offload packet → Stands (engine_at w packet self.old) →
            Stands (engine_at w packet self.new) }
        ensures begun { (w : Wiring) (packet : List ℕ) → IsDeliverable w.accepts offload packet → IsSome (resting_at (engine_at w packet
            self.old)) → IsBegunAt (engine_at w packet self.old) (engine_at w packet self.new) producer offload packet }
    {
        self.work.offload = offload;
        self.stage = Stage::Deliver { producer };
    }

    /// Is to wait.
    fn begin_wait(&mut self, pages: u32)
        ensures stands { (w : Wiring) (packet : List ℕ) → Stands (engine_at w packet self.old) → Stands (engine_at w packet self.new) }
        ensures begun { (w : Wiring) (packet : List ℕ) → IsSome (resting_at (engine_at w packet self.old)) → IsWaitBegunAt (engine_at w
            packet self.old) (engine_at w packet self.new) pages }
    {
        self.stage = Stage::Wait { pages };
    }

    /// Takes a whole turn, and returns how it ended.
    #[inline(always)]
    pub fn drive_turn<W: Wires, R: Room, T: Tallies, B: Bus>(
        &mut self,
        wires: &W,
        packet: &mut R,
        counters: &mut T,
        bus: &mut B,
        ports: &Ports,
    ) -> Kind
        requires stands { Stands (engine_at (W.wiring wires.now) (R.held packet.old) self.old) }
        requires rests { IsSome (resting_at (engine_at (W.wiring wires.now) (R.held packet.old) self.old)) }
        requires size { B.size bus.old ≡ length (W.wiring wires.now).vif.owners.now }
        requires serving { (labels : List (Option Operation)) (after : T) → Went (T.did (W.wiring wires.now).program.now.shapes) counters.old
            after labels → T.serves (W.wiring wires.now).program.now.shapes after }
        ensures stands { Stands (engine_at (W.wiring wires.now) (R.held packet.new) self.new) }
        ensures size { B.size bus.new ≡ B.size bus.old }
        ensures turned { HasTurnedAt B.log B.access_gives (T.did (W.wiring wires.now).program.now.shapes) (engine_at (W.wiring wires.now)
            (R.held packet.old) self.old) (engine_at (W.wiring wires.now) (R.held packet.new) self.new) result bus.old bus.new counters.old
            counters.new }
    {
        // Only the proof uses what these calls ensure.
        turns_are_rests();
        turns_are_bounded();
        let producer = self.look(wires.tx(), bus);
        let mut host = OverBus::new(bus, ports);
        self.begin_over(producer, wires, packet, &mut host);
        match self.turn_until_over(TURN_STEPS, wires, packet, counters, &mut host) {
            Over::Turn(kind) => kind,
            Over::Delivery(_) => unreachable!(),
            Over::Wait(_) => unreachable!(),
        }
    }

    /// Delivers the packet that its room holds to the frontend, between two turns, and returns what became of it.
    pub(crate) fn deliver_held<W: Wires, R: Room, T: Tallies, B: Bus>(
        &mut self,
        offload: RxOffload,
        wires: &W,
        packet: &mut R,
        counters: &mut T,
        bus: &mut B,
        ports: &Ports,
    ) -> Delivery
        requires deliverable { IsDeliverable (W.wiring wires.now).accepts offload (R.held packet.old) }
        requires stands { Stands (engine_at (W.wiring wires.now) (R.held packet.old) self.old) }
        requires rests { IsSome (resting_at (engine_at (W.wiring wires.now) (R.held packet.old) self.old)) }
        requires size { B.size bus.old ≡ length (W.wiring wires.now).vif.owners.now }
        requires serving { (labels : List (Option Operation)) (after : T) → Went (T.did (W.wiring wires.now).program.now.shapes) counters.old
            after labels → T.serves (W.wiring wires.now).program.now.shapes after }
        ensures stands { Stands (engine_at (W.wiring wires.now) (R.held packet.new) self.new) }
        ensures size { B.size bus.new ≡ B.size bus.old }
        ensures delivered { HasDeliveredAt B.log B.access_gives (engine_at (W.wiring wires.now) (R.held packet.old) self.old) (engine_at
            (W.wiring wires.now) (R.held packet.new) self.new) offload (R.held packet.old) result bus.old bus.new counters.old
            counters.new }
    {
        // Only the proof uses what these calls ensure.
        deliveries_are_rests();
        deliveries_are_bounded();
        let producer = self.look(wires.rx(), bus);
        self.begin_delivery(producer, offload);
        let mut host = OverBus::new(bus, ports);
        self.step_over(wires, packet, counters, &mut host);
        match self.step_until_over(DELIVERY_STEPS, wires, packet, counters, &mut host) {
            Over::Delivery(delivery) => delivery,
            Over::Turn(_) => unreachable!(),
            Over::Wait(_) => unreachable!(),
        }
    }

    /// Delivers a packet of the host's own to the frontend, between two turns, and returns what became of it. The packet is read where it
    /// lies. It leaves `offload` to the frontend.
    pub fn deliver<W: Wires, R: Room, T: Tallies, B: Bus>(
        &mut self,
        packet: &[u8],
        offload: RxOffload,
        wires: &W,
        room: &mut R,
        counters: &mut T,
        bus: &mut B,
        ports: &Ports,
    ) -> Delivery
        requires stands { Stands (engine_at (W.wiring wires.now) (R.held room.old) self.old) }
        requires rests { IsSome (resting_at (engine_at (W.wiring wires.now) (R.held room.old) self.old)) }
        requires size { B.size bus.old ≡ length (W.wiring wires.now).vif.owners.now }
        requires serving { (labels : List (Option Operation)) (after : T) → Went (T.did (W.wiring wires.now).program.now.shapes) counters.old
            after labels → T.serves (W.wiring wires.now).program.now.shapes after }
        ensures stands { Stands (engine_at (W.wiring wires.now) (R.held room.new) self.new) }
        ensures size { B.size bus.new ≡ B.size bus.old }
        ensures delivered { HasDeliveredAt B.log B.access_gives (engine_at (W.wiring wires.now) (R.held room.old) self.old) (engine_at
            (W.wiring wires.now) packet.now self.new) offload packet.now result bus.old bus.new counters.old counters.new }
    {
        if !can_be_delivered(packet) {
            return Delivery::NoFrame;
        }
        if !is_taken(wires.accepts(), &offload, packet) {
            return Delivery::NotAccepted;
        }
        let mut lent = LentPacket::new(packet, room);
        self.deliver_held(offload, wires, &mut lent, counters, bus, ports)
    }

    /// Asks the frontend for a notice as soon as it has posted `pages` rx slots, and looks whether it has by now, between two turns.
    pub fn await_slots<W: Wires, R: Room, T: Tallies, B: Bus>(
        &mut self,
        pages: u32,
        wires: &W,
        packet: &mut R,
        counters: &mut T,
        bus: &mut B,
        ports: &Ports,
    ) -> Awaited
        requires stands { Stands (engine_at (W.wiring wires.now) (R.held packet.old) self.old) }
        requires rests { IsSome (resting_at (engine_at (W.wiring wires.now) (R.held packet.old) self.old)) }
        requires size { B.size bus.old ≡ length (W.wiring wires.now).vif.owners.now }
        requires serving { (labels : List (Option Operation)) (after : T) → Went (T.did (W.wiring wires.now).program.now.shapes) counters.old
            after labels → T.serves (W.wiring wires.now).program.now.shapes after }
        ensures stands { Stands (engine_at (W.wiring wires.now) (R.held packet.new) self.new) }
        ensures size { B.size bus.new ≡ B.size bus.old }
        ensures awaited { HasAwaitedAt B.log B.access_gives (engine_at (W.wiring wires.now) (R.held packet.old) self.old) (engine_at
            (W.wiring wires.now) (R.held packet.new) self.new) pages result bus.old bus.new counters.old counters.new }
    {
        // Only the proof uses what this call ensures.
        waits_are_rests();
        self.begin_wait(pages);
        let mut host = OverBus::new(bus, ports);
        self.step_over(wires, packet, counters, &mut host);
        match self.step_until_over(WAIT_STEPS, wires, packet, counters, &mut host) {
            Over::Wait(awaited) => awaited,
            Over::Turn(_) => unreachable!(),
            Over::Delivery(_) => unreachable!(),
        }
    }
}
