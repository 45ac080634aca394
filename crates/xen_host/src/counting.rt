//! A step over any host, with the program's counters where they are: in words of the host's, or at a seat.

ghost use Rattle.std.specs.Prelude.{◌≡◌, ◌≤◌, length, true};
ghost use Rattle.bpf_maps.specs.Layout.{total};
ghost use Rattle.bpf_maps.specs.Seats.{IsSeatOf};
ghost use Rattle.xdp_program.specs.Tallies.{HasWords, IsSeated, Went};
ghost use Rattle.xen_host.specs.Over.{SteppedOver, StepsOver, StepsOverAtSeat};
ghost use Rattle.xen_host.specs.Queues.{has_steps, wired_to};

use crate::host::Host;
use crate::queue::Queue;
use bpf_maps::{CounterSeat, Counters};
use xdp_program::{CounterWords, Seated, Tallies};

impl Queue {
    /// Goes on with what is under way: takes the answer that it waits for, and asks its host for what comes then.
    #[inline(always)]
    fn step_counting<H: Host, T: Tallies>(&mut self, counters: &mut T, host: &mut H)
        requires busy { has_steps self.old ≡ true }
        requires counts { T.serves (wired_to self.old).program.shapes counters.old }
        requires fresh { H.is_fresh host.old }
        requires free { H.is_free host.old }
        ensures stepped { SteppedOver H.was_asked H.is_full H.has_given (Went (T.did (wired_to self.old).program.shapes) counters.old counters.new)
            (counters.new ≡ counters.old) self.old self.new host.old host.new }
        ensures share { self.new.share ≡ self.old.share }
    {
        self.engine
            .step(&self.wires, &mut self.packet, counters, host)
    }

    /// As [`Queue::step_by`], in words that are lent.
    #[inline(always)]
    fn step_in_words<H: Host>(&mut self, counters: &mut CounterWords<'_>, host: &mut H)
        requires busy { has_steps self.old ≡ true }
        requires counts { HasWords (wired_to self.old).program.shapes counters.old }
        requires fresh { H.is_fresh host.old }
        requires free { H.is_free host.old }
        ensures counters { length counters.new.words.now ≡ length counters.old.words.now }
        ensures stepped { StepsOver H.was_asked H.is_full H.has_given self.old self.new counters.old.words.now counters.new.words.now
            host.old host.new }
        ensures share { self.new.share ≡ self.old.share }
        ensures loan { counters.new.words.ghost_name ≡ counters.old.words.ghost_name }
    {
        self.step_counting(counters, host)
    }

    /// Goes on with what is under way: takes the answer that it waits for, and asks its host for what comes then. The program's
    /// counters are words of the host's.
    #[inline(always)]
    pub fn step_by<H: Host>(&mut self, counters: &mut [u64], host: &mut H)
        requires busy { has_steps self.old ≡ true }
        requires counts { total (wired_to self.old).program.shapes ≤ length counters.old }
        requires fresh { H.is_fresh host.old }
        requires free { H.is_free host.old }
        ensures counters { length counters.new ≡ length counters.old }
        ensures stepped { StepsOver H.was_asked H.is_full H.has_given self.old self.new counters.old counters.new host.old host.new }
        ensures share { self.new.share ≡ self.old.share }
    {
        let mut own = CounterWords { words: counters };
        self.step_in_words(&mut own, host)
    }

    /// As [`Queue::step_by_at_seat`], at a seat that is lent.
    #[inline(always)]
    fn step_seated<H: Host>(&mut self, counters: &mut Seated<'_>, host: &mut H)
        requires busy { has_steps self.old ≡ true }
        requires counts { IsSeated (wired_to self.old).program.shapes counters.old }
        requires fresh { H.is_fresh host.old }
        requires free { H.is_free host.old }
        ensures stepped { StepsOverAtSeat H.was_asked H.is_full H.has_given self.old self.new counters.old.seat.now counters.new.seat.now
            host.old host.new }
        ensures share { self.new.share ≡ self.old.share }
        ensures loan { counters.new.seat.ghost_name ≡ counters.old.seat.ghost_name }
    {
        self.step_counting(counters, host)
    }

    /// As [`Queue::step_by`], with the program's counters at a seat, as queues share them.
    #[inline(always)]
    pub fn step_by_at_seat<H: Host>(
        &mut self,
        counters: &Counters,
        seat: &mut CounterSeat,
        host: &mut H,
    )
        requires busy { has_steps self.old ≡ true }
        requires shapes { counters.now.shapes ≡ (wired_to self.old).program.shapes }
        requires seat { IsSeatOf counters.now seat.old }
        requires fresh { H.is_fresh host.old }
        requires free { H.is_free host.old }
        ensures stepped { StepsOverAtSeat H.was_asked H.is_full H.has_given self.old self.new seat.old seat.new host.old host.new }
        ensures share { self.new.share ≡ self.old.share }
    {
        let mut shared = Seated { counters, seat };
        self.step_seated(&mut shared, host)
    }
}
