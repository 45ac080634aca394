//! Events of a pair.
ghost use Rattle.std.specs.Prelude.{◌≡◌, All, OnOk, false, true, slice_get};
ghost use Rattle.honest_pair.specs.Machine.Law.{IsByte};
ghost use Rattle.xen_front.specs.Fronts.{rest as front_rest};
ghost use Rattle.honest_pair.specs.Machine.Pair.{BackStep, FrontStep, Poll, Post, Send};
ghost use Rattle.xen_steps.specs.Steps.{want_of};
ghost use Rattle.honest_pair.specs.Events.{event_in};
ghost use Rattle.honest_pair.specs.Shows.{Does, Received, is_idle as is_idle_spec};

use crate::calling::Calling;
use crate::event::PairEvent;
use crate::pair::Pair;
use std::alloc::AllocError;
use xdp_world::Kept;
use xen_back::Want;
use xen_front::{GrantedPage, RxTurn};
use xen_page::Table;

/// Returns whether this turn is there and is idle.
fn is_idle(turns: &[Kept], at: usize) -> bool
    ensures { result ≡ is_idle_spec (slice_get turns.now at) }
{
    match turns.get(at) {
        Some(Kept::Idle) => true,
        _ => false,
    }
}

/// A law of every list of bytes, empty at run time.
fn are_bytes(bytes: &[u8])
    ensures { All IsByte bytes.now }
{
    let _bytes = bytes;
}

impl Pair<'_, '_, '_> {
    /// The activity is over: what it received is kept.
    fn receive(&mut self) -> Result<(), AllocError>
        requires { want_of (front_rest self.old.front) ≡ Want.Done }
        ensures { OnOk result (Received self.old self.new) }
    {
        // The borrow checker has to see these types in the body.
        let _table: Option<&Table> = None;
        let _buffer: Option<&GrantedPage> = None;
        let alloc = *self.received.allocator();
        match self.front.received() {
            RxTurn::Packet { bytes, .. } => {
                let mut packet = Vec::new(alloc);
                packet.extend_from_slice(bytes)?;
                self.received.push(packet)?;
                Ok(())
            }
            RxTurn::Idle => Ok(()),
            RxTurn::Refused => Ok(()),
            RxTurn::Halted { cause: _ } => Ok(()),
        }
    }

    /// The next event of the front's activity, if it is inside one.
    fn front_step(&mut self) -> Result<(), AllocError>
        ensures { OnOk result (Does self.old self.new FrontStep) }
    {
        // The borrow checker has to see these types in the body.
        let _table: Option<&Table> = None;
        let _buffer: Option<&GrantedPage> = None;
        let want = self.front.want();
        match want {
            Want::Done => return Ok(()),
            _ => {}
        }
        let answer = self.memory.answer(want);
        self.front.feed(answer);
        match self.front.want() {
            Want::Done => self.receive(),
            _ => Ok(()),
        }
    }

    /// A back that sleeps wakes if its port is pending.
    fn wake(&mut self)
        requires asleep { self.old.asleep ≡ true }
        requires calls { self.old.calling ≡ Calling.Nothing }
        ensures { Does self.old self.new BackStep }
    {
        if self.memory.take() {
            self.asleep = false;
        }
    }

    /// The next event of the back's turn, and a halted back's none.
    fn step_turn(&mut self) -> Result<(), AllocError>
        requires asleep { self.old.asleep ≡ false }
        requires calls { self.old.calling ≡ Calling.Nothing }
        ensures { OnOk result (Does self.old self.new BackStep) }
    {
        let answer = self.memory.serve(self.world.want(0));
        let before = self.world.turns(0).len();
        self.world.step(0, answer)?;
        self.asleep = is_idle(self.world.turns(0), before);
        Ok(())
    }

    /// The next event of a back that does nothing for its host.
    fn wake_or_step_turn(&mut self) -> Result<(), AllocError>
        requires { self.old.calling ≡ Calling.Nothing }
        ensures { OnOk result (Does self.old self.new BackStep) }
    {
        if self.asleep {
            self.wake();
            Ok(())
        } else {
            self.step_turn()
        }
    }

    /// The next event of the back.
    fn back_step(&mut self) -> Result<(), AllocError>
        ensures { OnOk result (Does self.old self.new BackStep) }
    {
        match self.calling {
            Calling::Delivery => self.step_delivery(),
            Calling::Wait { pages } => self.step_wait(pages),
            Calling::Nothing => self.wake_or_step_turn(),
        }
    }
}

impl<'b> Pair<'_, 'b, '_> {
    /// One event.
    pub(crate) fn step(&mut self, event: &'b PairEvent) -> Result<(), AllocError>
        ensures { OnOk result (Does self.old self.new (event_in event.now)) }
    {
        match event {
            PairEvent::Send { packet } => {
                let bytes = packet.as_slice();
                // Only the proof uses what this call ensures.
                are_bytes(bytes);
                // A call that is refused leaves the front as it was.
                let _ = self.front.send(bytes);
                Ok(())
            }
            PairEvent::Post => {
                // A call that is refused leaves the front as it was.
                let _ = self.front.post_rx();
                Ok(())
            }
            PairEvent::Poll => {
                // A call that is refused leaves the front as it was.
                let _ = self.front.poll();
                Ok(())
            }
            PairEvent::FrontStep => self.front_step(),
            PairEvent::BackStep => self.back_step(),
            PairEvent::Deliver { packet } => {
                let bytes = packet.as_slice();
                // Only the proof uses what this call ensures.
                are_bytes(bytes);
                self.deliver(bytes)
            }
            PairEvent::Await { pages } => self.await_slots(*pages),
        }
    }
}
