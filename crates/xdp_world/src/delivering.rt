//! Packets of the host's own.
ghost use Rattle.std.specs.Prelude.{◌≡◌, ◌<◌, IfOk, OnErr, vec_len};
ghost use Rattle.xdp_world.specs.Doings.{is_between as is_between_spec};
ghost use Rattle.xdp_world.specs.Stands.{IsDeliver, IsSame};

use crate::carrying::begun;
use crate::doing::Doing;
use crate::stepping::note_delivery;
use crate::world::World;
use std::alloc::AllocError;
use xen_back::Delivery;

/// The answer to a host that has a packet delivered.
#[derive(Clone, Copy, Debug, PartialEq, Eq)]
pub enum Begun {
    /// The delivery is under way, and the queue's next steps are its events until it is over.
    Underway,
    /// It is over by that: the packet is no frame, or the queue has halted. It is kept among the deliveries.
    Over(Delivery),
    /// The queue is inside a turn, a delivery or a wait. Nothing was done.
    Busy,
}

/// Returns whether nothing is under way.
pub(crate) fn is_between(doing: &Doing) -> bool
    ensures { result ≡ is_between_spec (Some doing.now) }
{
    matches!(doing, Doing::Between)
}

/// The answer if a delivery was begun, and is over or isn't.
fn begun_by(over: Option<Delivery>) -> Begun
    ensures under_way { over ≡ None → result ≡ Begun.Underway }
    ensures over { (what : Delivery) → over ≡ Some what → result ≡ Begun.Over what }
{
    match over {
        None => Begun::Underway,
        Some(delivery) => Begun::Over(delivery),
    }
}

impl<'p, 'b> World<'p, 'b> {
    /// Begins to deliver a packet of the host's own on a queue that is between turns. The packet is lent until the delivery is over.
    pub fn deliver(&mut self, queue: usize, packet: &'b [u8]) -> Result<Begun, AllocError>
        requires { queue < vec_len self.old.queues }
        ensures size { vec_len self.new.queues ≡ vec_len self.old.queues }
        ensures shapes { self.new.counters.shapes ≡ self.old.counters.shapes }
        ensures ok { IfOk result (IsDeliver self.old self.new queue packet.now) }
        ensures err { OnErr result (IsSame self.old self.new) }
    {
        if !is_between(&self.doing[queue]) {
            return Ok(Begun::Busy);
        }
        self.deliveries[queue].reserve(1)?;
        let turns = self.turns[queue].len();
        let (after, over) = begun(&mut self.queues[queue], packet);
        self.doing[queue] = after;
        note_delivery(&mut self.deliveries[queue], turns, over);
        Ok(begun_by(over))
    }
}
