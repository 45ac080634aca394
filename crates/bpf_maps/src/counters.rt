//! The counters, as threads share them.
ghost use Rattle.std.specs.Prelude.{◌≡◌, ℕ, ◌+◌, ◌%◌, ◌^◌, ◌<◌, ◌≤◌, ◌++◌, ◌∷◌, [], All, Contains, length, map, sum_by, IfOk};
ghost use Rattle.bpf_note.specs.declared.op.Op.TheVariants.{Load, Add};
ghost use Rattle.bpf_maps.specs.Seats.{IsSeatOf, new_seats, StandTogether, Account, begin_of, total_at, most_seats};
ghost use Rattle.bpf_note.specs.History.{added};
ghost use Rattle.bpf_note.specs.Shape.{IsCounter, most_maps};

use crate::layout;
use crate::plays::{Fetched, JoinBoth, Loaded, Look, SplitFirst};
use crate::rule::{Plan, Rule};
use crate::seat::CounterSeat;
use crate::totals::{Totals, table_words};
use crate::view::View;
use atomic_table::Table;
use bpf_note::MapShape;
use std::alloc::{AllocError, Global};
use std::marker::Model;

/// The counters of all maps, which threads borrow. Contracts see their table, the maps' shapes, the numbers that they began with
/// and how many seats there are.
#[derive(Drop)]
pub struct Counters {
    /// Word 0 is spare, for joins, splits and looks. The counters follow.
    table: Table<(), View, Plan, Rule, Global>,
    /// `close` answers in the room of its numbers.
    plan: Plan,
}

impl Model for Counters {
    ghost use Rattle.std.specs.Prelude.{◌≡◌, ◌<◌, ◌≤◌, ◌+◌, length};
    ghost use Rattle.bpf_note.specs.Shape.{most_maps};
    ghost use Rattle.bpf_maps.specs.Layout.{total};
    ghost use Rattle.bpf_maps.specs.Seats.{CountersView};

    ghost Value = { CountersView };

    ghost view = { λ c. record { table = c.table.shared.table_id; shapes = c.plan.shapes.items; begin = c.plan.begin.items; seats = c.plan.seats } };

    ghost invariant = { λ c. (c.table.shared.key ≡ c.plan) × (length c.plan.shapes.items ≤ most_maps) ×
        (c.table.shared.table_id.words ≡ 1 + total c.plan.shapes.items) × (c.table.shared.table_id.slots ≡ 0) ×
        (length c.plan.begin.items ≡ total c.plan.shapes.items) × (0 < c.plan.seats) };
}

impl Counters {
    /// Counters for the maps, all 0, and as many seats as asked for, numbered from 0.
    pub fn make(
        alloc: Global,
        shapes: &[MapShape],
        seats: usize,
    ) -> Result<(Counters, Vec<CounterSeat>), AllocError>
        requires maps { length shapes.now ≤ most_maps }
        requires seats { (0 < seats) × (seats ≤ most_seats) }
        ensures counters { IfOk result (λ r. (r.0.shapes ≡ shapes.now) × (r.0.seats ≡ seats)) }
        ensures seats { IfOk result (λ r. r.1.items ≡ new_seats r.0 seats) }
        ensures zeros { IfOk result (λ r. (m k j : ℕ) → begin_of r.0 m k j ≡ 0) }
    {
        let first = Totals::make(alloc, shapes)?;
        Counters::begin(alloc, first, seats)
    }

    /// Counters that begin with these numbers, and as many seats as asked for, numbered from 0.
    pub fn begin(
        alloc: Global,
        first: Totals,
        seats: usize,
    ) -> Result<(Counters, Vec<CounterSeat>), AllocError>
        requires { (0 < seats) × (seats ≤ most_seats) }
        ensures counters { IfOk result (λ r. (r.0.shapes ≡ first.shapes) × (r.0.seats ≡ seats)) }
        ensures seats { IfOk result (λ r. r.1.items ≡ new_seats r.0 seats) }
        ensures begin { IfOk result (λ r. (m k j : ℕ) → begin_of r.0 m k j ≡ total_at first m k j) }
    {
        let (shapes, begin) = first.into_parts();
        let words = table_words(alloc, begin.as_slice())?;
        let plan = Plan {
            shapes,
            begin,
            seats,
        };
        let mut dealt = Vec::with_capacity(alloc, seats)?;
        let (table, mut rest) = Table::of_words(alloc, words.as_slice(), &plan)?;
        for _number in 0..seats {
            let seat = table.shared.split_seat::<SplitFirst>(&mut rest);
            dealt.push(CounterSeat { seat })?;
        }
        Ok((Counters { table, plan }, dealt))
    }

    /// Counter `j` of value `k` of map `m`, by one atomic load.
    pub fn load(&self, seat: &mut CounterSeat, m: u32, k: u32, j: u32) -> u64
        requires seat { IsSeatOf self.now seat.old }
        requires place { IsCounter self.now.shapes m k j }
        ensures { seat.new ≡ record seat.old { ops = seat.old.ops ++ Load m k j result ∷ [] } }
    {
        let place = layout::place(self.plan.shapes.as_slice(), m, k, j);
        self.table.shared.load::<Loaded>(&mut seat.seat, place + 1)
    }

    /// Adds to counter `j` of value `k` of map `m` by one atomic step, and answers what it was. The sum wraps.
    pub fn add(&self, seat: &mut CounterSeat, m: u32, k: u32, j: u32, delta: u64) -> u64
        requires seat { IsSeatOf self.now seat.old }
        requires place { IsCounter self.now.shapes m k j }
        ensures { seat.new ≡ record seat.old { ops = seat.old.ops ++ Add m k j delta result ∷ [] } }
    {
        let place = layout::place(self.plan.shapes.as_slice(), m, k, j);
        self.table
            .shared
            .fetch_add::<Fetched>(&mut seat.seat, place + 1, delta)
    }

    /// Hands both seats back as they were. Their operations stand in one legal history.
    pub fn meet(&self, first: CounterSeat, second: CounterSeat) -> (CounterSeat, CounterSeat)
        requires first { IsSeatOf self.now first }
        requires second { IsSeatOf self.now second }
        ensures same { (result.0 ≡ first) × (result.1 ≡ second) }
        ensures history { StandTogether (begin_of self.now) first second }
    {
        let CounterSeat { seat: mut one } = first;
        let CounterSeat { seat: two } = second;
        self.table.shared.join_seat::<JoinBoth>(&mut one, two);
        self.table.shared.load::<Look>(&mut one, 0);
        let two = self.table.shared.split_seat::<SplitFirst>(&mut one);
        (CounterSeat { seat: one }, CounterSeat { seat: two })
    }

    /// Ends the counters, given every seat that `make` gave. It takes no memory.
    pub fn close(self, mut seats: Vec<CounterSeat>) -> Totals
        requires own { All (IsSeatOf self) seats.items }
        requires every { (number : ℕ) → number < self.seats → Contains (map (λ s. s.number) seats.items) number }
        ensures shapes { result.shapes ≡ self.shapes }
        ensures history { Account (begin_of self) seats.items result }
        ensures sums { (m k j : ℕ) → IsCounter self.shapes m k j →
            total_at result m k j ≡ (begin_of self m k j + sum_by (λ s. sum_by (added m k j) s.ops) seats.items) % 2 ^ 64 }
    {
        let Counters { table, plan } = self;
        let Some(last) = seats.pop() else {
            unreachable!()
        };
        let CounterSeat { seat: mut all } = last;
        while let Some(next) = seats.pop() {
            let CounterSeat { seat } = next;
            table.shared.join_seat::<JoinBoth>(&mut all, seat);
        }
        let closed = table.close_with(all);
        let mut totals = Totals::of(plan.shapes, plan.begin);
        totals.take_words(&closed);
        closed.free();
        totals
    }
}
