//! A turn's beginning and a step, for a host in C: what is asked stands in its ops.

ghost use Rattle.std.specs.Prelude.{◌≡◌, ◌<◌, ◌≤◌, IsSome, length, true};
ghost use Rattle.bpf_maps.specs.Layout.{total};
ghost use Rattle.bpf_maps.specs.Seats.{IsSeatOf};
ghost use Rattle.xen_host.specs.Hosts.{IsFresh, IsFree, IsSameLoan};
ghost use Rattle.xen_host.specs.LentWords.{lent_words};
ghost use Rattle.xen_host.specs.Queues.{HasBegun, HasStepped, HasSteppedAtSeat, has_steps, resting, wired_to};

use crate::host::Ops;
use crate::op::HostOp;
use crate::queue::Queue;
use crate::words::LentWord;
use bpf_maps::{CounterSeat, Counters};

impl Queue {
    /// Begins a turn over a host that lends no words.
    #[inline(always)]
    fn begin_ops(&mut self, producer: u32, host: &mut Ops<'_>)
        requires rests { IsSome (resting self.old) }
        requires none { host.old.count ≡ 0 }
        requires unlent { length host.old.words.now < 1024 }
        requires free { IsFree host.old }
        ensures begun { HasBegun self.old self.new producer host.old.ops.now host.new.ops.now host.new.count }
        ensures loan { IsSameLoan host.old host.new }
    {
        self.turn_by(producer, host)
    }

    /// Begins a turn, with what was read of the tx producer, and says its first op. How many: one.
    #[inline(always)]
    pub(crate) fn say_first(&mut self, producer: u32, ops: &mut [HostOp]) -> usize
        requires rests { IsSome (resting self.old) }
        requires room { 1 ≤ length ops.old }
        ensures begun { HasBegun self.old self.new producer ops.old ops.new result }
    {
        let mut host = Ops {
            ops,
            count: 0,
            words: &mut [],
        };
        self.begin_ops(producer, &mut host);
        host.count
    }

    /// Goes on with what is under way, over a host that has said nothing yet.
    #[inline(always)]
    fn step_ops(&mut self, counters: &mut [u64], host: &mut Ops<'_>)
        requires busy { has_steps self.old ≡ true }
        requires counts { total (wired_to self.old).program.shapes ≤ length counters.old }
        requires fresh { IsFresh host.old }
        ensures counters { length counters.new ≡ length counters.old }
        ensures words { length host.new.words.now ≡ length host.old.words.now }
        ensures stepped { HasStepped self.old self.new (lent_words host.old.words.now) (lent_words host.new.words.now) counters.old counters.new
            host.old.ops.now host.new.ops.now host.new.count }
        ensures share { self.new.share ≡ self.old.share }
        ensures loan { IsSameLoan host.old host.new }
    {
        self.step_by(counters, host)
    }

    /// Goes on with what is under way, with the words that were read, and says what is next. How many ops.
    #[inline(always)]
    pub(crate) fn say_next(
        &mut self,
        words: &mut [LentWord],
        counters: &mut [u64],
        ops: &mut [HostOp],
    ) -> usize
        requires busy { has_steps self.old ≡ true }
        requires enough { 1024 ≤ length words.old }
        requires counts { total (wired_to self.old).program.shapes ≤ length counters.old }
        requires room { 1 ≤ length ops.old }
        ensures words { length words.new ≡ length words.old }
        ensures counters { length counters.new ≡ length counters.old }
        ensures stepped { HasStepped self.old self.new (lent_words words.old) (lent_words words.new) counters.old counters.new ops.old ops.new result }
        ensures share { self.new.share ≡ self.old.share }
    {
        let mut host = Ops {
            ops,
            count: 0,
            words,
        };
        self.step_ops(counters, &mut host);
        host.count
    }

    /// As `step_ops`, at a seat.
    #[inline(always)]
    fn step_ops_at_seat(&mut self, counters: &Counters, seat: &mut CounterSeat, host: &mut Ops<'_>)
        requires busy { has_steps self.old ≡ true }
        requires shapes { counters.now.shapes ≡ (wired_to self.old).program.shapes }
        requires seat { IsSeatOf counters.now seat.old }
        requires fresh { IsFresh host.old }
        ensures words { length host.new.words.now ≡ length host.old.words.now }
        ensures stepped { HasSteppedAtSeat self.old self.new (lent_words host.old.words.now) (lent_words host.new.words.now) seat.old seat.new
            host.old.ops.now host.new.ops.now host.new.count }
        ensures share { self.new.share ≡ self.old.share }
        ensures loan { IsSameLoan host.old host.new }
    {
        self.step_by_at_seat(counters, seat, host)
    }

    /// As `say_next`, with the program's counters at a seat.
    #[inline(always)]
    pub(crate) fn say_next_at_seat(
        &mut self,
        words: &mut [LentWord],
        counters: &Counters,
        seat: &mut CounterSeat,
        ops: &mut [HostOp],
    ) -> usize
        requires busy { has_steps self.old ≡ true }
        requires enough { 1024 ≤ length words.old }
        requires shapes { counters.now.shapes ≡ (wired_to self.old).program.shapes }
        requires seat { IsSeatOf counters.now seat.old }
        requires room { 1 ≤ length ops.old }
        ensures words { length words.new ≡ length words.old }
        ensures stepped { HasSteppedAtSeat self.old self.new (lent_words words.old) (lent_words words.new) seat.old seat.new ops.old ops.new result }
        ensures share { self.new.share ≡ self.old.share }
    {
        let mut host = Ops {
            ops,
            count: 0,
            words,
        };
        self.step_ops_at_seat(counters, seat, &mut host);
        host.count
    }
}
