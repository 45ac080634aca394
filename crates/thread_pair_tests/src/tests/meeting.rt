//! Queues that run at the same time. A pair whose workers all run on one thread, one after another, misses here.

use crate::bench::{Rows, TURNS, accepted, rows_of};
use std::alloc::Global;
use std::sync::Wait;
use std::sync::atomic::{AtomicBool, AtomicU32, Ordering};
use std::thread;
use std::thread::Threads;
use std::time::{Clock, Duration};
use thread_pair::{Deliveries, Gate, OnPass, PairRow, pair_with};
use xdp_load::load_listed;

/// Each of two queues sends two packets, which pass.
const SETTINGS: &str = r#"
program = ["b700000002000000", "9500000000000000"]
queues = 2
packet = [
    { queue = 0, bytes = "000102030405060708090a0b0c0d", times = 2 },
    { queue = 1, bytes = "000102030405060708090a0b0c0d", times = 2 },
]
"#;

/// The row of a queue whose two packets passed.
const ROW: PairRow = PairRow {
    sent: 2,
    copied: 2,
    refused: 0,
    halted: None,
    received: 0,
    deliveries: Deliveries::NONE,
};

/// Holds each of two queues before its second turn until the other has come there too.
#[derive(Drop)]
struct Meet<R: Clock> {
    rt: R,
    came: [AtomicBool; 2],
    missed: AtomicU32,
}

impl<R: Clock> Meet<R> {
    /// Returns whether this queue reaches its second turn within 10,000 looks.
    fn sees(&self, queue: usize) -> bool {
        for _look in 0..10_000 {
            for _load in 0..1000 {
                if self.came[queue % 2].load(Ordering::SeqCst) {
                    return true;
                }
            }
            thread::sleep(&self.rt, Duration::from_millis(1));
        }
        false
    }
}

impl<R: Clock> Gate for Meet<R> {
    fn pass(&self, queue: usize, call: u32) {
        if call == 2 {
            self.came[queue % 2].store(true, Ordering::SeqCst);
            if !self.sees(1 - queue % 2) {
                self.missed.fetch_add(1, Ordering::SeqCst);
            }
        }
    }
}

/// The rows of a run of these settings.
fn rows_behind<R: Threads + Wait + Sync, C: Clock + Sync>(
    rt: &R,
    alloc: Global,
    gate: &Meet<C>,
) -> Option<Rows> {
    let listed = load_listed(alloc, SETTINGS.as_bytes()).ok()?;
    let program = accepted(alloc, listed.setup.program.as_slice(), &[])?;
    match pair_with(rt, alloc, &listed, &program, OnPass::Takes, TURNS, gate) {
        Ok(report) => Some(rows_of(report.rows.as_slice())),
        Err(_) => None,
    }
}

#[test]
fn two_queues_see_each_other(rt: HostRuntime) {
    let gate = Meet {
        rt: &rt,
        came: [AtomicBool::new(false), AtomicBool::new(false)],
        missed: AtomicU32::new(0),
    };
    let rows = rows_behind(&rt, rt.alloc(), &gate);
    assert_eq!(rt; rows, Some(rows_of(&[ROW, ROW])));
    assert_eq!(rt; gate.missed.load(Ordering::SeqCst), 0);
}
