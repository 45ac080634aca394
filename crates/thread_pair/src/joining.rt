//! Waiting for the threads.
ghost use Rattle.std.specs.Prelude.{◌≡◌, ◌≢◌, ◌<◌, ◌≤◌, ℕ, [], All, Contains, Some, map, option_map, slice_get, vec_len};
ghost use Rattle.std.specs.Prelude.{vec_capacity, IfOk};
ghost use Rattle.std.specs.List.{range_with_len};
ghost use Rattle.bpf_maps.specs.Seats.{CountersView, IsSeatOf};
ghost use Rattle.thread_pair.specs.Leaving.{HasWorked, back_of};
ghost use Rattle.thread_pair.specs.Promised.{PromisesSeatOf, promised_number};
ghost use Rattle.thread_pair.specs.Working.{Task};

use crate::back::{BackDone, BackThread};
use crate::front::FrontThread;
use crate::report::{BackRow, Deliveries, FrontRow, PairRow};
use bpf_maps::CounterSeat;
use std::alloc::{AllocError, Global};
use std::thread::Threads;

/// A row for each queue, before anything is done.
pub(crate) fn empty_rows(alloc: Global, queues: usize) -> Result<Vec<PairRow>, AllocError>
    ensures { IfOk result (λ v. vec_len v ≡ queues) }
{
    let row = PairRow {
        sent: 0,
        copied: 0,
        refused: 0,
        halted: None,
        received: 0,
        deliveries: Deliveries::NONE,
    };
    Vec::from_elem(alloc, row, queues)
}

/// Notes what the back of a queue did.
fn note_back(rows: &mut Vec<PairRow>, queue: usize, done: &BackRow)
    requires { queue < vec_len rows.old }
    ensures count { vec_len rows.new ≡ vec_len rows.old }
    ensures noted { option_map back_of (slice_get rows.new.items queue) ≡ Some done.now }
    ensures others { (n : ℕ) → n ≢ queue → slice_get rows.new.items n ≡ slice_get rows.old.items n }
{
    let row = rows[queue];
    rows[queue] = PairRow {
        copied: done.copied,
        refused: done.refused,
        halted: done.halted,
        deliveries: done.deliveries,
        ..row
    };
}

/// Notes what the front of a queue did.
fn note_front(rows: &mut Vec<PairRow>, queue: usize, done: &FrontRow)
    requires { queue < vec_len rows.old }
    ensures { vec_len rows.new ≡ vec_len rows.old }
{
    let row = rows[queue];
    rows[queue] = PairRow {
        sent: done.sent,
        received: done.received,
        ..row
    };
}

/// Waits for each back, takes its seat back, and notes what it did. The threads are in the queues' order, and there is room
/// for the seats.
pub(crate) fn join_backs<R: Threads>(
    rt: &R,
    mut threads: Vec<BackThread>,
    rows: &mut Vec<PairRow>,
    mut seats: Vec<CounterSeat>,
) -> Vec<CounterSeat>
    requires room { (seats.items ≡ []) × (vec_len threads ≤ vec_capacity seats) }
    requires numbers { map promised_number threads.items ≡ range_with_len 0 (vec_len threads) }
    requires rows { vec_len threads ≡ vec_len rows.old }
    ensures own { (task : Task) (turns : ℕ) (c : CountersView) → All (PromisesSeatOf task turns c) threads.items →
        All (IsSeatOf c) result.items × All (HasWorked task turns rows.new.items) result.items }
    ensures numbers { (q : ℕ) → q < vec_len rows.old → Contains (map (λ s. s.number) result.items) q }
    ensures rows { vec_len rows.new ≡ vec_len rows.old }
{
    while let Some(thread) = threads.pop() {
        let BackDone { seat, row } = thread.join(rt);
        note_back(rows, threads.len(), &row);
        seats.push_reserved(seat);
    }
    seats
}

/// Waits for each front, and notes what it did. The threads are in the queues' order.
pub(crate) fn join_fronts<R: Threads>(
    rt: &R,
    mut threads: Vec<FrontThread>,
    rows: &mut Vec<PairRow>,
)
    requires { vec_len threads ≤ vec_len rows.old }
    ensures { vec_len rows.new ≡ vec_len rows.old }
{
    while let Some(thread) = threads.pop() {
        let row = thread.join(rt);
        note_front(rows, threads.len(), &row);
    }
}
