//! A queue's whole turns, deliveries and waits over a bus. The engine takes them, with the queue's wiring and the room of its packet.

ghost use Rattle.std.specs.Prelude.{◌≡◌, length};
ghost use Rattle.xdp_program.specs.Tallies.{IsSeated};
ghost use Rattle.xen_back.specs.Awaited.{HasAwaited};
ghost use Rattle.xen_back.specs.Delivered.{IsDelivered};
ghost use Rattle.xen_back.specs.InOneGo.{IsTaken};
ghost use Rattle.xen_back.specs.Queues.{IsReady, wiring_of};

use crate::by_event::stage::Stage;
use crate::queue::Queue;
use bpf_verify::MapShape;
use xdp_program::{Seated, Tallies};
use xen_netif::RxOffload;
use xen_page::Bus;
use xen_ring::Ports;
use xen_turns::{Awaited, Delivery, Kind};

/// Counters for what runs no program.
#[derive(Drop)]
struct NoCounters {}

impl Tallies for NoCounters {
    ghost serves = { λ shapes c. Unit {0} };

    ghost did = { λ shapes op old new. Unit {0} };

    fn load(&mut self, _shapes: &[MapShape], _m: u32, _k: u32, _j: u32) -> u64 {
        0
    }

    fn add(&mut self, _shapes: &[MapShape], _m: u32, _k: u32, _j: u32, _delta: u64) -> u64 {
        0
    }
}

impl<'p, 'b> Queue<'p, 'b> {
    /// Takes a whole turn, with the program's counters at a seat.
    #[inline(always)]
    pub(crate) fn take_turn<B: Bus>(
        &mut self,
        bus: &mut B,
        counters: &mut Seated<'_>,
        ports: &Ports,
    ) -> Kind
        requires ready { IsReady self.old }
        requires size { B.size bus.old ≡ length (wiring_of self.old).vif.owners.now }
        requires seated { IsSeated (wiring_of self.old).program.now.shapes counters.old }
        ensures ready { IsReady self.new }
        ensures size { B.size bus.new ≡ B.size bus.old }
        ensures taken { IsTaken B.log B.access_gives self.old self.new result bus.old bus.new counters.old counters.new }
        ensures loan { counters.new.seat.ghost_name ≡ counters.old.seat.ghost_name }
    {
        match &mut self.stage {
            Some(Stage::At(packet, _)) => {
                self.engine
                    .drive_turn(&self.wiring, packet, counters, bus, ports)
            }
            _ => unreachable!(),
        }
    }

    /// Delivers a packet, or says why not.
    pub(crate) fn send_out<B: Bus>(
        &mut self,
        packet: &[u8],
        offload: RxOffload,
        bus: &mut B,
        ports: &Ports,
    ) -> Delivery
        requires ready { IsReady self.old }
        requires size { B.size bus.old ≡ length (wiring_of self.old).vif.owners.now }
        ensures ready { IsReady self.new }
        ensures size { B.size bus.new ≡ B.size bus.old }
        ensures delivered { IsDelivered B.log B.access_gives self.old self.new offload packet.now result bus.old bus.new }
    {
        match &mut self.stage {
            Some(Stage::At(room, _)) => {
                self.engine.deliver(
                    packet,
                    offload,
                    &self.wiring,
                    room,
                    &mut NoCounters {},
                    bus,
                    ports,
                )
            }
            _ => unreachable!(),
        }
    }

    /// Stores the event index and then looks for `wanted` slots, unless the queue has halted.
    pub(crate) fn look_for<B: Bus>(&mut self, wanted: u32, bus: &mut B) -> Awaited
        requires ready { IsReady self.old }
        requires size { B.size bus.old ≡ length (wiring_of self.old).vif.owners.now }
        ensures ready { IsReady self.new }
        ensures size { B.size bus.new ≡ B.size bus.old }
        ensures awaited { HasAwaited B.log B.access_gives self.old self.new wanted result bus.old bus.new }
    {
        // A wait sends no notice.
        let ports = Ports::new();
        match &mut self.stage {
            Some(Stage::At(packet, _)) => {
                self.engine.await_slots(
                    wanted,
                    &self.wiring,
                    packet,
                    &mut NoCounters {},
                    bus,
                    &ports,
                )
            }
            _ => unreachable!(),
        }
    }
}
