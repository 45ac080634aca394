//! A queue's deliveries of the host's own packets, in one go and one event at a time.

ghost use Rattle.std.specs.Prelude.{◌≡◌, length};
ghost use Rattle.xen_steps.specs.Steps.{want_of};
ghost use Rattle.xen_back.specs.ByEvent.{IsBegun, IsDeliveryOf, IsDeliveryOver, left_of};
ghost use Rattle.xen_back.specs.Delivered.{IsDelivered};
ghost use Rattle.xen_back.specs.Queues.{IsReady, wiring_of};

use crate::delivery::by_event::{outcome_of, underway};
use crate::delivery::underway::Delivering;
use crate::queue::Queue;
use xen_netif::RxOffload;
use xen_page::Bus;
use xen_ring::Ports;
use xen_rx_fill::RxPacket;
use xen_steps::Want;
use xen_turns::Delivery;

impl<'p, 'b> Queue<'p, 'b> {
    /// Delivers a packet of the host's own to the frontend: it is copied into the buffers of posted rx slots, which are
    /// answered. No program runs on it. It leaves `offload` to the frontend.
    pub fn deliver<B: Bus>(
        &mut self,
        packet: &[u8],
        offload: RxOffload,
        bus: &mut B,
        ports: &Ports,
    ) -> Delivery
        requires ready { IsReady self.old }
        requires size { B.size bus.old ≡ length (wiring_of self.old).vif.owners.now }
        ensures ready { IsReady self.new }
        ensures size { B.size bus.new ≡ B.size bus.old }
        ensures delivered { IsDelivered B.log B.access_gives self.old self.new offload packet.now result bus.old bus.new }
    {
        // The borrow checker has to see this type in the body.
        let _vif = &self.wiring.vif;
        self.send_out(packet, offload, bus, ports)
    }

    /// Begins the delivery of a packet of the host's own, one event at a time. The queue takes no turn until
    /// [`Queue::end_delivery`].
    pub fn begin_delivery<'d>(&self, packet: &'d [u8], offload: RxOffload) -> Delivering<'p, 'd>
        requires ready { IsReady self.now }
        ensures { IsBegun self.now offload packet.now result }
    {
        let packet = RxPacket {
            offload,
            bytes: packet,
        };
        underway(&self.wiring, &self.engine.state(), packet)
    }

    /// Ends a delivery that wants nothing more; then the queue goes on.
    pub fn end_delivery(&mut self, delivering: Delivering<'_, '_>) -> Delivery
        requires ready { IsReady self.old }
        requires own { IsDeliveryOf self.old delivering }
        requires over { want_of (left_of delivering) ≡ Want.Done }
        ensures { IsDeliveryOver self.old self.new delivering.entry result }
    {
        // The borrow checker has to see this type in the body.
        let _vif = &self.wiring.vif;
        let (after, delivery) = outcome_of(&delivering.vif, &delivering.state, &delivering.moving);
        self.engine.resume(after);
        delivery
    }
}
