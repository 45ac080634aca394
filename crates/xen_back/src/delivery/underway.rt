//! A delivery that is under way.

ghost use Rattle.xen_turns.specs.Deliveries.{Arrives, Arrives-prop};
ghost use Rattle.xen_back.specs.Deliveries.{rest_moving};

use crate::delivery::moving::Moving;
use xen_rx_fill::Vif;
use xen_turns::State;

/// A delivery of a packet that is taken one event at a time: [`Queue::begin_delivery`](crate::Queue::begin_delivery) makes
/// it, and [`Queue::end_delivery`](crate::Queue::end_delivery) ends it. It lends the packet.
#[derive(Drop)]
pub struct Delivering<'p, 'd> {
    pub(crate) vif: Vif<'p>,
    pub(crate) state: State,
    pub(crate) moving: Moving<'d>,
    ghost left: { Arrives vif (rest_moving vif state moving) } by { Arrives-prop vif (rest_moving vif state moving) },
}
