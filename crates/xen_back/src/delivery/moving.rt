//! Where a delivery is that is taken one event at a time.

ghost use Rattle.std.specs.Prelude.{◌≤◌, length};

use xen_rx_fill::{RxPacket, Transmit};
use xen_turns::{Delivery, State};

/// A packet that is being sent.
#[derive(Drop)]
pub struct Sending<'d> {
    pub packet: RxPacket<'d>,
    pub transmit: Transmit,
    ghost short: { length packet.bytes.now ≤ 65535 },
}

/// The stage of a delivery.
#[derive(Drop)]
pub enum Moving<'d> {
    Sending(Sending<'d>),
    Over { after: State, delivery: Delivery },
}
