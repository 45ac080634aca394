//! Turns whose frontend answers at random.

use super::fixtures::SENDS;
use crate::bench::{Bench, ready};
use bpf_vm::Buffer;
use std::alloc::Global;
use xen_back::{Answer, Queue, Want};
use xen_page::Place;

const QUEUES: u32 = 2_000;

const TURNS: u32 = 50;

/// The number of events of each kind that a turn had.
#[derive(Clone, Copy)]
struct Events {
    accesses: u32,
    instructions: u32,
    notices: u32,
}

/// The indices of the next request of each ring, as the response producers show them.
#[derive(Clone, Copy)]
struct Indices {
    tx: u32,
    rx: u32,
}

/// The next number of a generator (Marsaglia's xorshift with shifts 13, 17 and 5).
fn next(number: u32) -> u32 {
    let number = number ^ number << 13;
    let number = number ^ number >> 17;
    number ^ number << 5
}

/// For a producer mostly one just ahead, and else a number that often is small, a granted entry's word or a slot's.
fn answer(at: Place, indices: &Indices, number: u32) -> u32 {
    match (at.frame, at.word) {
        (17, 0) => indices.tx.wrapping_add(number / 8 % 258),
        (18, 0) => indices.rx.wrapping_add(number / 8 % 258),
        _ => word(number),
    }
}

fn word(number: u32) -> u32 {
    match number % 8 {
        0 => 1,
        1 => number / 8 % 20,
        2 => number / 8 % 300,
        3 => 0x0010_0007,
        4 => number / 8 % 8 * 0x1_0000,
        5 => number,
        _ => 2,
    }
}

impl Events {
    fn are_within_the_bounds(self) -> bool {
        self.accesses <= 33_026 && self.instructions <= 2 && self.notices <= 2
    }
}

/// A turn fed with random answers, and the generator's next number. None if the turn has no end.
fn random_turn(queue: &mut Queue, indices: &mut Indices, seed: u32) -> Option<(Events, u32)> {
    let mut number = seed;
    let mut events = Events {
        accesses: 0,
        instructions: 0,
        notices: 0,
    };
    for _event in 0..40_000u32 {
        number = next(number);
        match queue.wanted() {
            Want::Read(at) => {
                events.accesses = events.accesses.saturating_add(1);
                queue.feed(Answer::Word(answer(at, indices, number)));
            }
            Want::Write(at, value) => {
                match (at.frame, at.word) {
                    (17, 2) => indices.tx = value,
                    (18, 2) => indices.rx = value,
                    _ => {}
                }
                events.accesses = events.accesses.saturating_add(1);
                queue.feed(Answer::Nothing);
            }
            Want::Instr => {
                events.instructions = events.instructions.saturating_add(1);
                queue.feed(Answer::Nothing);
            }
            Want::Load { .. } | Want::Add { .. } => queue.feed(Answer::Counter(0)),
            Want::Notify(_) => {
                events.notices = events.notices.saturating_add(1);
                queue.feed(Answer::Nothing);
            }
            Want::Done => return Some((events, number)),
        }
    }
    None
}

/// The generator's next number after the turns of one queue. None if a turn isn't within the bounds.
fn random_turns(queue: &mut Queue, start: u32, seed: u32) -> Option<u32> {
    let mut indices = Indices {
        tx: start,
        rx: start,
    };
    let mut seed = seed;
    for _turn in 0..TURNS {
        let (events, later) = random_turn(queue, &mut indices, seed)?;
        if !events.are_within_the_bounds() || queue.wanted() != Want::Done {
            return None;
        }
        queue.turn();
        seed = later;
    }
    Some(seed)
}

/// [`random_turns`] for a new queue.
fn queue_turns(
    alloc: Global,
    bench: &Bench,
    buffer: &mut Buffer,
    start: u32,
    seed: u32,
) -> Option<u32> {
    let mut queue = bench.queue(alloc, start, buffer)?;
    random_turns(&mut queue, start, seed)
}

/// Returns the number of queues that have turns that are all within the bounds.
fn queues_within_the_bounds(alloc: Global, bench: &Bench, buffer: &mut Buffer) -> u32 {
    let mut seed = 2_463_534_242;
    for number in 0..QUEUES {
        let start = if number % 2 == 0 { 0 } else { 0xffff_ffff };
        match queue_turns(alloc, bench, buffer, start, seed) {
            Some(later) => seed = later,
            None => return number,
        }
    }
    QUEUES
}

/// [`queues_within_the_bounds`] for a program that sends packets back.
fn within_the_bounds(alloc: Global) -> Option<u32> {
    let (bench, mut buffer) = ready(alloc, &SENDS, &[])?;
    Some(queues_within_the_bounds(alloc, &bench, &mut buffer))
}

#[test]
fn random_answers_stay_within_the_bounds(rt: HostRuntime) {
    assert_eq!(rt; within_the_bounds(rt.alloc()), Some(QUEUES));
}
