//! A queue's waits for rx slots, in one go and one event at a time.

ghost use Rattle.std.specs.Prelude.{◌≡◌, length};
ghost use Rattle.xen_steps.specs.Steps.{want_of};
ghost use Rattle.xen_back.specs.Awaited.{HasAwaited};
ghost use Rattle.xen_back.specs.Queues.{IsReady, wiring_of};
ghost use Rattle.xen_back.specs.WaitsByEvent.{IsWaitBegun, IsWaitOf, IsWaitOver, left_of_wait};

use crate::delivery::wait_by_event::begun;
use crate::delivery::wait_stage::{Awaiting, Looking};
use crate::queue::Queue;
use xen_page::Bus;
use xen_steps::Want;
use xen_turns::Awaited;

impl<'p, 'b> Queue<'p, 'b> {
    /// Asks the frontend for a notice as soon as it has posted `wanted` rx slots, and looks whether it has by now: after
    /// [`Delivery::FewSlots`](crate::Delivery::FewSlots), with the packet's [`slots_of`](crate::slots_of). A ring has 256
    /// slots, so more are never there.
    pub fn await_slots<B: Bus>(&mut self, wanted: u32, bus: &mut B) -> Awaited
        requires ready { IsReady self.old }
        requires size { B.size bus.old ≡ length (wiring_of self.old).vif.owners.now }
        ensures ready { IsReady self.new }
        ensures size { B.size bus.new ≡ B.size bus.old }
        ensures awaited { HasAwaited B.log B.access_gives self.old self.new wanted result bus.old bus.new }
    {
        // The borrow checker has to see this type in the body.
        let _vif = &self.wiring.vif;
        self.look_for(wanted, bus)
    }

    /// Begins a wait for `wanted` rx slots, as [`Queue::await_slots`] makes it, one event at a time. The queue takes no
    /// turn and no delivery until [`Queue::end_wait`].
    pub fn begin_wait(&self, wanted: u32) -> Awaiting
        requires { IsReady self.now }
        ensures { IsWaitBegun self.now wanted result }
    {
        let state = self.engine.state();
        Awaiting {
            rx: self.wiring.vif.rx,
            state,
            wanted,
            looking: begun(&state),
        }
    }

    /// Ends a wait that wants nothing more; then the queue goes on.
    pub fn end_wait(&mut self, awaiting: Awaiting) -> Awaited
        requires ready { IsReady self.old }
        requires own { IsWaitOf self.old awaiting }
        requires over { want_of (left_of_wait awaiting) ≡ Want.Done }
        ensures { IsWaitOver self.old self.new awaiting result }
    {
        // The borrow checker has to see this type in the body.
        let _vif = &self.wiring.vif;
        let Looking::Over { after, awaited } = awaiting.looking else {
            unreachable!()
        };
        self.engine.resume(after);
        awaited
    }
}
