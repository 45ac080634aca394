//! What becomes of the host's answers: each test's gate fixes what the first of them finds.

use crate::bench::{
    Bench, PASSES, Rows, SENDS_BACK, TURNS, passed, program, rows_of, setup_of, word,
};
use std::alloc::Global;
use std::sync::Wait;
use std::thread;
use std::thread::Threads;
use std::time::{Clock, Duration};
use thread_pair::{Deliveries, Discard, Gate, OnPass, PairRow, Shared};
use xen_back::Halt;
use xen_page::{Bus, PageBus, Place};

/// Drops each packet.
const DROPS: &[&str] = &["b700000001000000", "9500000000000000"];

/// The word that has the number of posted buffers, in a run whose rings begin at 0.
const POSTED: Place = Place { frame: 18, word: 0 };

/// The first word of the grant of the first rx buffer.
const FIRST_BUFFER: Place = Place {
    frame: 1,
    word: 516,
};

/// Holds the back before its first turn until its front has sent a packet, and then writes a word.
#[derive(Drop)]
struct Written<'s, R: Clock> {
    rt: R,
    shared: &'s Shared,
    word: Option<(Place, u32)>,
}

impl<R: Clock> Written<'_, R> {
    fn wait(&self, bus: &mut PageBus<'_>) {
        for _look in 0..10_000 {
            if word(bus, 17, 0) != 0 {
                return;
            }
            thread::sleep(&self.rt, Duration::from_millis(1));
        }
    }
}

impl<R: Clock> Gate for Written<'_, R> {
    fn pass(&self, _queue: usize, call: u32) {
        let Some((at, value)) = self.word else {
            return;
        };
        if call != 1 {
            return;
        }
        let mut bus = PageBus::of(&self.shared.frames);
        self.wait(&mut bus);
        if at.frame < bus.frames() && at.word < 1024 {
            bus.write(at, value);
        }
    }
}

/// The rows of a run of `packets` packets. Before its first turn a word is written.
fn rows_with<R: Threads + Wait + Sync + Clock>(
    rt: &R,
    alloc: Global,
    slots: &[&str],
    packets: u32,
    host: OnPass,
    word: Option<(Place, u32)>,
) -> Option<Rows> {
    let setup = setup_of(alloc, &[packets], 0)?;
    let (bench, parkers) = Bench::with_host(alloc, setup, host)?;
    let program = program(alloc, slots, &[])?;
    let gate = Written {
        rt,
        shared: &bench.shared,
        word,
    };
    bench.rows(rt, alloc, &program, TURNS, &gate, &Discard, parkers)
}

/// The row of a queue whose five packets were passed on. `received` answers came.
fn answered(received: u64, deliveries: Deliveries) -> Option<Rows> {
    let row = PairRow {
        received,
        deliveries,
        ..passed(5)
    };
    Some(rows_of(&[row]))
}

#[test]
fn passed_packets_alone_are_answered(rt: HostRuntime) {
    let alloc = rt.alloc();
    let five = Deliveries {
        sent: 5,
        ..Deliveries::NONE
    };
    let rows = rows_with(&rt, alloc, PASSES, 5, OnPass::Answers, None);
    assert_eq!(rt; rows, answered(5, five));
    let rows = rows_with(&rt, alloc, PASSES, 5, OnPass::Takes, None);
    assert_eq!(rt; rows, answered(0, Deliveries::NONE));
    let rows = rows_with(&rt, alloc, DROPS, 5, OnPass::Answers, None);
    assert_eq!(rt; rows, answered(0, Deliveries::NONE));
    let rows = rows_with(&rt, alloc, SENDS_BACK, 5, OnPass::Answers, None);
    assert_eq!(rt; rows, answered(5, Deliveries::NONE));
}

/// The front's sixteen buffers are taken back, and it posts no more.
#[test]
fn answers_without_slots_are_counted(rt: HostRuntime) {
    let few = Deliveries {
        few: 5,
        ..Deliveries::NONE
    };
    let rows = rows_with(
        &rt,
        rt.alloc(),
        PASSES,
        5,
        OnPass::Answers,
        Some((POSTED, 0)),
    );
    assert_eq!(rt; rows, answered(0, few));
}

#[test]
fn an_answer_without_a_grant_is_counted(rt: HostRuntime) {
    let refused = Deliveries {
        sent: 4,
        refused: 1,
        ..Deliveries::NONE
    };
    let ended = Some((FIRST_BUFFER, 0));
    let rows = rows_with(&rt, rt.alloc(), PASSES, 5, OnPass::Answers, ended);
    assert_eq!(rt; rows, answered(4, refused));
}

/// The turn that passed the packet is counted, the answer isn't, and the next turn finds the queue halted.
#[test]
fn an_answer_that_halts_ends_the_back(rt: HostRuntime) {
    let overflown = Some((POSTED, 1000));
    let rows = rows_with(&rt, rt.alloc(), PASSES, 1, OnPass::Answers, overflown);
    let row = PairRow {
        halted: Some(Halt::RxProducer),
        ..passed(1)
    };
    assert_eq!(rt; rows, Some(rows_of(&[row])));
}
