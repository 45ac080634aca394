//! How runs end, and their notices.

use super::fixtures::rows_behind;
use crate::bench::{Bench, PASSES, Rows, TURNS, passed, program, rows_of, setup_of};
use std::alloc::Global;
use std::sync::Wait;
use std::thread::Threads;
use thread_pair::{Discard, Gate, Open, PairFault, PairRow, Shared};
use xen_back::Halt;
use xen_page::{Bus, PageBus, Place};
use xen_ring::{Port, Ports};

/// Returns whether there are `count` queues, of which none has sent more than `sent` or copied more than `copied`.
fn are_within(rows: &Rows, count: usize, sent: u64, copied: u64) -> bool {
    for row in rows.1.as_slice() {
        if let Some(row) = row {
            if row.sent > sent || row.copied > copied {
                return false;
            }
        }
    }
    rows.0 == count
}

/// Returns whether there was a run like that.
fn is_within(rows: &Option<Rows>, count: usize, sent: u64, copied: u64) -> bool {
    match rows {
        Some(rows) => are_within(rows, count, sent, copied),
        None => false,
    }
}

#[test]
fn the_last_turn_ends_the_front(rt: HostRuntime) {
    let rows = rows_behind(&rt, rt.alloc(), PASSES, &[5000, 5000], 3, &Open);
    assert!(rt; is_within(&rows, 2, 4999, 3));
}

#[test]
fn no_turn_ends_the_front(rt: HostRuntime) {
    let rows = rows_behind(&rt, rt.alloc(), PASSES, &[5000], 0, &Open);
    assert!(rt; is_within(&rows, 1, 5000, 0));
}

/// Queue 1 has nothing to send, and its back ends once its front has.
#[test]
fn a_front_that_ends_early_ends_its_back(rt: HostRuntime) {
    let rows = rows_behind(&rt, rt.alloc(), PASSES, &[300, 0, 1], TURNS, &Open);
    let wanted = [passed(300), passed(0), passed(1)];
    assert_eq!(rt; rows, Some(rows_of(&wanted)));
}

/// Returns which of the first 64 ports are pending.
fn pending(ports: &Ports) -> [bool; 64] {
    let mut pending = [false; 64];
    let mut number = 0;
    for is_pending in pending.iter_mut() {
        if let Some(port) = Port::of(number) {
            *is_pending = ports.take(port);
        }
        number = number.saturating_add(1);
    }
    pending
}

/// Returns which ports are pending after a run of a packet for each of eight queues.
fn ports_after(rt: &(impl Threads + Wait + Sync), alloc: Global) -> Option<[bool; 64]> {
    let setup = setup_of(alloc, &[1; 8], 0)?;
    let (bench, parkers) = Bench::make(alloc, setup)?;
    let program = program(alloc, PASSES, &[])?;
    match bench.rows(rt, alloc, &program, TURNS, &Open, &Discard, parkers) {
        Some(_) => Some(pending(&bench.shared.ports)),
        None => None,
    }
}

/// A worker that drops its notices leaves a port that isn't pending.
#[test]
fn both_ends_get_notices(rt: HostRuntime) {
    let mut wanted = [false; 64];
    for is_pending in wanted[..16].iter_mut() {
        *is_pending = true;
    }
    assert_eq!(rt; ports_after(&rt, rt.alloc()), Some(wanted));
}

/// Returns what comes of a run of eight queues whose threads can't have their stacks.
fn fault_of_stacks(rt: &(impl Threads + Wait + Sync), alloc: Global) -> Option<PairFault> {
    let setup = setup_of(alloc, &[5000, 0, 0, 0, 0, 0, 0, 0], 0)?;
    let (bench, parkers) = Bench::make(alloc, setup)?;
    let program = program(alloc, PASSES, &[])?;
    bench.fault_of_stacks(rt, alloc, &program, TURNS, parkers)
}

/// All backs run when the first front is refused, for the size of its stack.
#[test]
fn a_refused_thread_ends_all(rt: HostRuntime) {
    assert_eq!(rt; fault_of_stacks(&rt, rt.alloc()), Some(PairFault::Thread));
}

/// Before the first turn of queue 0, whose front sends nothing, its tx ring shows more requests than a ring has.
#[derive(Drop)]
struct Overflown<'s> {
    shared: &'s Shared,
}

impl Gate for Overflown<'_> {
    fn pass(&self, queue: usize, call: u32) {
        let mut bus = PageBus::of(&self.shared.frames);
        let at = Place { frame: 17, word: 0 };
        if queue == 0 && call == 1 && at.frame < bus.frames() {
            bus.write(at, 1000);
        }
    }
}

/// The rows of a run with that gate.
fn overflown_rows(
    rt: &(impl Threads + Wait + Sync),
    alloc: Global,
    times: &[u32; 2],
) -> Option<Rows> {
    let setup = setup_of(alloc, times, 0)?;
    let (bench, parkers) = Bench::make(alloc, setup)?;
    let gate = Overflown {
        shared: &bench.shared,
    };
    match program(alloc, PASSES, &[]) {
        Some(program) => bench.rows(rt, alloc, &program, TURNS, &gate, &Discard, parkers),
        None => None,
    }
}

#[test]
fn a_halted_back_ends_its_queue(rt: HostRuntime) {
    let halted = PairRow {
        halted: Some(Halt::TxProducer),
        ..passed(0)
    };
    let rows = overflown_rows(&rt, rt.alloc(), &[0, 50]);
    assert_eq!(rt; rows, Some(rows_of(&[halted, passed(50)])));
}
