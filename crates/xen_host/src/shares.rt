//! What queues do with counters that they share.

ghost use Rattle.std.specs.Prelude.{◌≡◌, ◌↔◌, IfErr, IfOk, IsSome, IsTrue, None, false, length};
ghost use Rattle.xen_host.specs.LentWords.{lent_words};
ghost use Rattle.xen_host.specs.Sharing.{HasPassed, IsPassFault, IsShareFault, SharesNow, StepsShared};
ghost use Rattle.xen_host.specs.Queues.{wired_to};

use crate::op::HostOp;
use crate::queue::Queue;
use crate::sharing::{Share, ShareFault, SharedCounters};
use crate::words::LentWord;
use xdp_program::Program;

impl Queue {
    /// Returns whether a program's maps are those of its own, in size.
    pub fn has_maps_of(&self, program: &Program) -> bool
        ensures { IsTrue result ↔ (program.now.shapes ≡ (wired_to self.now).program.shapes) }
    {
        program.verified().shapes() == self.wires.program.verified().shapes()
    }

    /// Shares counters with other queues, from the next step on: [`Queue::step_shared`]. It is asked between two turns.
    pub fn share(&mut self, counters: &mut SharedCounters) -> Result<(), ShareFault>
        ensures shared { IfOk result (λ _. SharesNow self.old self.new counters.old counters.new) }
        ensures kept { IfErr result (λ _. (self.new ≡ self.old) × (counters.new ≡ counters.old)) }
        ensures fault { IfErr result (IsShareFault self.old counters.old) }
    {
        if self.state().is_none() {
            return Err(ShareFault::Busy);
        }
        if self.share.is_some() {
            return Err(ShareFault::Shared);
        }
        if !self.has_maps_of(counters.program()) {
            return Err(ShareFault::Maps);
        }
        self.share = Some(counters.share()?);
        Ok(())
    }

    /// Gives its share in counters to another queue, as to the one that follows it. Both are between two turns.
    pub fn pass_share(&mut self, to: &mut Queue) -> Result<(), ShareFault>
        ensures passed { IfOk result (λ _. HasPassed self.old self.new to.old to.new) }
        ensures kept { IfErr result (λ _. (self.new ≡ self.old) × (to.new ≡ to.old)) }
        ensures fault { IfErr result (IsPassFault self.old to.old) }
    {
        if self.state().is_none() || to.state().is_none() {
            return Err(ShareFault::Busy);
        }
        if to.share.is_some() {
            return Err(ShareFault::Shared);
        }
        if self.share.is_none() {
            return Err(ShareFault::Seats);
        }
        if !self.has_maps_of(&to.wires.program) {
            return Err(ShareFault::Maps);
        }
        to.share = self.share.take();
        Ok(())
    }

    /// Returns whether it shares counters.
    #[inline(always)]
    pub fn is_shared(&self) -> bool
        ensures shared { IsTrue result → IsSome self.now.share }
        ensures own { result ≡ false → self.now.share ≡ None }
    {
        self.share.is_some()
    }

    /// As [`Queue::step`], with the counters that it shares.
    #[inline(always)]
    pub fn step_shared(&mut self, words: &mut [LentWord], ops: &mut [HostOp]) -> usize
        requires { IsSome self.old.share }
        ensures words { length words.new ≡ length words.old }
        ensures steps { StepsShared self.old self.new (lent_words words.old) (lent_words words.new) ops.old ops.new result }
    {
        let Some(share) = self.share.take() else {
            unreachable!()
        };
        let Share { counters, mut seat } = share;
        let count = self.step_at_seat(words, &counters, &mut seat, ops);
        self.share = Some(Share { counters, seat });
        count
    }
}
