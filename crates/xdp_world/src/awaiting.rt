//! Waits for rx slots.
ghost use Rattle.std.specs.Prelude.{◌≡◌, ◌<◌, IfOk, OnErr, vec_len};
ghost use Rattle.xdp_world.specs.Stands.{IsAwait, IsSame};

use crate::delivering::is_between;
use crate::stepping::note_wait;
use crate::wait_event::wait_begun;
use crate::world::World;
use std::alloc::AllocError;
use xen_back::Awaited;

/// The answer to a host that waits for rx slots.
#[derive(Clone, Copy, Debug, PartialEq, Eq)]
pub enum WaitBegun {
    /// The wait is under way, and the queue's next steps are its events until it is over.
    Underway,
    /// It is over by that: the queue has halted. It is kept among the waits.
    Over(Awaited),
    /// The queue is inside a turn, a delivery or a wait. Nothing was done.
    Busy,
}

/// The answer if a wait was begun, and is over or isn't.
fn begun_by(over: Option<Awaited>) -> WaitBegun
    ensures under_way { over ≡ None → result ≡ WaitBegun.Underway }
    ensures over { (answer : Awaited) → over ≡ Some answer → result ≡ WaitBegun.Over answer }
{
    match over {
        None => WaitBegun::Underway,
        Some(awaited) => WaitBegun::Over(awaited),
    }
}

impl World<'_, '_> {
    /// Begins to wait for `pages` rx slots on a queue that is between turns: the queue's event index is stored, and
    /// then its producer is read. If the answer is [`Awaited::Waiting`], the front's next push to `pages` slots owes a
    /// notice.
    pub fn await_slots(&mut self, queue: usize, pages: u32) -> Result<WaitBegun, AllocError>
        requires { queue < vec_len self.old.queues }
        ensures size { vec_len self.new.queues ≡ vec_len self.old.queues }
        ensures shapes { self.new.counters.shapes ≡ self.old.counters.shapes }
        ensures ok { IfOk result (IsAwait self.old self.new queue pages) }
        ensures err { OnErr result (IsSame self.old self.new) }
    {
        if !is_between(&self.doing[queue]) {
            return Ok(WaitBegun::Busy);
        }
        self.waits[queue].reserve(1)?;
        let turns = self.turns[queue].len();
        let deliveries = self.deliveries[queue].len();
        let (after, over) = wait_begun(&mut self.queues[queue], pages);
        self.doing[queue] = after;
        note_wait(&mut self.waits[queue], turns, deliveries, over);
        Ok(begun_by(over))
    }
}
