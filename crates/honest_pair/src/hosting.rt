//! What the back does for its host: deliveries and waits.
ghost use Rattle.std.specs.Prelude.{◌≡◌, All, OnOk, slice_get};
ghost use Rattle.honest_pair.specs.Machine.Law.{IsByte};
ghost use Rattle.honest_pair.specs.Machine.Pair.{Await, BackStep, Deliver};
ghost use Rattle.honest_pair.specs.Shows.{Does, answer_of, awaits_after as awaits_after_spec, calls_while as calls_while_spec, is_none};

use crate::awaits::Awaits;
use crate::calling::Calling;
use crate::pair::Pair;
use std::alloc::AllocError;
use xdp_world::{Begun, WaitBegun, Waited};
use xen_back::Awaited;

/// Returns what the back does for its host after an event of a call that goes on, or doesn't.
fn calls_while(call: Calling, going: bool) -> Calling
    ensures { result ≡ calls_while_spec call going }
{
    if going { call } else { Calling::Nothing }
}

/// The answer of this wait, if it is over.
fn answer_at(waits: &[Waited], at: usize) -> Option<Awaited>
    ensures { result ≡ answer_of (slice_get waits.now at) }
{
    match waits.get(at) {
        Some(wait) => Some(wait.awaited),
        None => None,
    }
}

/// Returns what the back awaits after an event of a wait for `pages` slots from `index` on.
fn awaits_after(index: u32, pages: u32, answer: Option<Awaited>) -> Awaits
    ensures { result ≡ awaits_after_spec index pages answer }
{
    match answer {
        None => Awaits::Asked { index, pages },
        Some(Awaited::Posted) => Awaits::Nothing,
        Some(Awaited::Waiting) => Awaits::Fewer { index, pages },
        Some(Awaited::Halted { cause: _ }) => Awaits::Asked { index, pages },
    }
}

/// Returns whether a wait goes on.
fn is_unanswered(answer: &Option<Awaited>) -> bool
    ensures { result ≡ is_none answer.now }
{
    answer.is_none()
}

impl Pair<'_, '_, '_> {
    /// The next event of the back's delivery. If it is over by that, the back is as before it, asleep or awake.
    pub(crate) fn step_delivery(&mut self) -> Result<(), AllocError>
        requires { self.old.calling ≡ Calling.Delivery }
        ensures { OnOk result (Does self.old self.new BackStep) }
    {
        let answer = self.memory.serve(self.world.want(0));
        let before = self.world.deliveries(0).len();
        self.world.step(0, answer)?;
        let going = self.world.deliveries(0).len() == before;
        self.calling = calls_while(Calling::Delivery, going);
        Ok(())
    }

    /// The next event of the back's wait. If it is over by that, the back is as before it, asleep or awake.
    pub(crate) fn step_wait(&mut self, pages: u32) -> Result<(), AllocError>
        requires { self.old.calling ≡ Calling.Wait pages }
        ensures { OnOk result (Does self.old self.new BackStep) }
    {
        let index = self.world.state(0).rx_index;
        let answer = self.memory.serve(self.world.want(0));
        let before = self.world.waits(0).len();
        self.world.step(0, answer)?;
        let answer = answer_at(self.world.waits(0), before);
        self.memory.awaits(awaits_after(index, pages, answer));
        self.calling = calls_while(Calling::Wait { pages }, is_unanswered(&answer));
        Ok(())
    }

    /// The back begins to wait for `pages` rx slots, unless it is inside a turn, a delivery or a wait.
    pub(crate) fn await_slots(&mut self, pages: u32) -> Result<(), AllocError>
        ensures { OnOk result (Does self.old self.new (Await pages)) }
    {
        match self.world.await_slots(0, pages)? {
            WaitBegun::Underway => self.calling = Calling::Wait { pages },
            WaitBegun::Over(_) => {}
            WaitBegun::Busy => {}
        }
        Ok(())
    }
}

impl<'b> Pair<'_, 'b, '_> {
    /// The back begins to deliver a packet of the host's own, unless it is inside a turn or a delivery.
    pub(crate) fn deliver(&mut self, packet: &'b [u8]) -> Result<(), AllocError>
        requires { All IsByte packet.now }
        ensures { OnOk result (Does self.old self.new (Deliver packet.now)) }
    {
        match self.world.deliver(0, packet)? {
            Begun::Underway => self.calling = Calling::Delivery,
            Begun::Over(_) => {}
            Begun::Busy => {}
        }
        Ok(())
    }
}
