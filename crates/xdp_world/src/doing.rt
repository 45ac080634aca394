//! What a queue is doing.

use xen_back::{Awaiting, Delivering};

/// The activity of a queue.
#[derive(Drop)]
pub enum Doing<'p, 'd> {
    /// Nothing: it is between turns.
    Between,
    /// It is inside a turn.
    Turn,
    /// A packet of the host's own is being delivered.
    Delivery(Delivering<'p, 'd>),
    /// The host waits for rx slots.
    Wait(Awaiting),
}
