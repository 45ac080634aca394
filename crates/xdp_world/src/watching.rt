//! What a world's queues want, and what they did.
ghost use Rattle.std.specs.Prelude.{◌≡◌, ◌≢◌, ◌<◌, vec_len, slice_index_or};
ghost use Rattle.xen_back.specs.Queues.{state_of, wiring_of};
ghost use Rattle.xen_turns.specs.Within.{may_want};
ghost use Rattle.xen_back.specs.declared.queue.Queue.{Queue};
ghost use Rattle.xdp_world.specs.Doings.{want_at};
ghost use Rattle.xdp_world.specs.Stands.{delivered_in, doing_in, kept_in, waited_in};

use crate::doing::Doing;
use crate::kept::Kept;
use crate::report::{Delivered, Waited};
use crate::world::World;
use bpf_maps::Op;
use xen_back::{State, Want};

impl World<'_, '_> {
    /// Returns what a queue wants next: its delivery or its wait, if one is under way, else its turn.
    pub fn want(&self, queue: usize) -> Want
        requires { queue < vec_len self.now.queues }
        ensures within { (d : Queue) → result ≢ Want.Done → may_want (wiring_of (slice_index_or self.now.queues.items queue d)) result }
        ensures want { (d : Queue) → result ≡ want_at (slice_index_or self.now.queues.items queue d) (doing_in self.now queue) }
    {
        match &self.doing[queue] {
            Doing::Delivery(delivering) => delivering.want(),
            Doing::Wait(awaiting) => awaiting.want(),
            _ => self.queues[queue].want(),
        }
    }

    /// Returns what a queue is between turns; inside one, a delivery or a wait, what it was when that began.
    pub fn state(&self, queue: usize) -> State
        requires { queue < vec_len self.now.queues }
        ensures { (d : Queue) → result ≡ state_of (slice_index_or self.now.queues.items queue d) }
    {
        self.queues[queue].state()
    }

    /// The turns that a queue has done.
    pub fn turns(&self, queue: usize) -> &[Kept]
        requires { queue < vec_len self.now.queues }
        ensures { result.now ≡ kept_in self.now.turns.items queue }
    {
        self.turns[queue].as_slice()
    }

    /// Returns what became of the packets whose deliveries on a queue are over.
    pub fn deliveries(&self, queue: usize) -> &[Delivered]
        requires { queue < vec_len self.now.queues }
        ensures { result.now ≡ delivered_in self.now.deliveries.items queue }
    {
        self.deliveries[queue].as_slice()
    }

    /// The answers of the waits on a queue that are over.
    pub fn waits(&self, queue: usize) -> &[Waited]
        requires { queue < vec_len self.now.queues }
        ensures { result.now ≡ waited_in self.now.waits.items queue }
    {
        self.waits[queue].as_slice()
    }

    /// All counter operations so far, in order, with their queues.
    pub fn history(&self) -> &[(usize, Op)]
        ensures { result.now ≡ self.now.history.items }
    {
        self.history.as_slice()
    }
}
