//! A back that has nothing to do.

use crate::bench::{Bench, SENDS_BACK, TURNS, program, setup_of};
use std::alloc::Global;
use std::sync::Wait;
use std::sync::atomic::{AtomicU32, Ordering};
use std::thread;
use std::thread::Threads;
use std::time::{Clock, Duration};
use thread_pair::{Gate, Inbox};

/// More turns than a back makes that is woken after each activity of a front which posts its buffers and sends one packet.
const HANDFUL: u32 = 100;

/// Knows the number of the latest turn.
#[derive(Drop)]
struct Latest {
    turn: AtomicU32,
}

impl Gate for Latest {
    fn pass(&self, _queue: usize, call: u32) {
        self.turn.store(call, Ordering::SeqCst);
    }
}

/// Holds a front for a while if a packet came, so that it sends nothing and hasn't ended.
#[derive(Drop)]
struct Holding<R: Clock> {
    rt: R,
}

impl<R: Clock> Inbox for Holding<R> {
    fn take(&self, _queue: usize, _packet: &[u8]) {
        thread::sleep(&self.rt, Duration::from_millis(200));
    }
}

/// Returns the number of turns that a back makes in a run of one packet, whose front is held once the packet came back.
fn turns_beside_a_held_front(
    rt: &(impl Threads + Wait + Sync + Clock),
    alloc: Global,
) -> Option<u32> {
    let setup = setup_of(alloc, &[1], 0)?;
    let (bench, parkers) = Bench::make(alloc, setup)?;
    let program = program(alloc, SENDS_BACK, &[])?;
    let gate = Latest {
        turn: AtomicU32::new(0),
    };
    let inbox = Holding { rt };
    match bench.rows(rt, alloc, &program, TURNS, &gate, &inbox, parkers) {
        Some(_) => Some(gate.turn.load(Ordering::SeqCst)),
        None => None,
    }
}

/// One that doesn't sleep makes many thousands of turns meanwhile.
#[test]
fn a_back_sleeps_while_its_front_sends_nothing(rt: HostRuntime) {
    let turns = turns_beside_a_held_front(&rt, rt.alloc());
    assert!(rt; turns.is_some_and(|turns| 1 <= turns && turns <= HANDFUL));
}
