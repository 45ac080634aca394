//! Waits for rx slots, a row for each answer.

ghost use Rattle.std.specs.Prelude.{◌≡◌, length};
ghost use Rattle.xen_back.specs.Queues.{IsReady, wiring_of};

use super::fixtures::{PASSES, Seen, Told, seen_with, told_by};
use crate::bench::{counters, shipped};
use std::alloc::Global;
use xen_back::Awaited;
use xen_back_tests::bench::{FRAMES, ready};
use xen_drive::await_slots;
use xen_page::{Access, Place, ScriptBus};
use xen_ring::Ports;

/// Returns what an op of the same wait tells.
fn told_of(awaited: Awaited) -> Told {
    match awaited {
        Awaited::Posted => [9, 0, 0, 0, 0],
        Awaited::Waiting => [10, 0, 0, 0, 0],
        Awaited::Halted { cause } => [11, 0, u32::from(cause.number()), 0, 0],
    }
}

/// A wait of the shipped queue.
fn of_shipped(alloc: Global, pages: u32, producer: u32) -> Option<Seen> {
    let mut queue = shipped(alloc, &PASSES, &[], 0)?;
    let mut counters = counters(alloc, &queue)?;
    let mut bus = ScriptBus::make(alloc, FRAMES, &[producer], 100).ok()?;
    let ports = Ports::new();
    let op = await_slots(&mut queue, pages, &mut bus, counters.as_mut_slice(), &ports);
    seen_with(alloc, told_by(&op)?, &[], bus.accesses(), &ports)
}

/// A wait of `xen_back`'s queue.
fn of_back(alloc: Global, queue: &mut xen_back::Queue, pages: u32, producer: u32) -> Option<Seen>
    requires ready { IsReady queue.old }
    requires owners { length (wiring_of queue.old).vif.owners.now ≡ 20 }
{
    let mut bus = ScriptBus::make(alloc, FRAMES, &[producer], 100).ok()?;
    let awaited = queue.await_slots(pages, &mut bus);
    seen_with(alloc, told_of(awaited), &[], bus.accesses(), &Ports::new())
}

/// A wait of a new queue of `xen_back`.
fn of_new_back(alloc: Global, pages: u32, producer: u32) -> Option<Seen> {
    let (bench, mut buffer) = ready(alloc, &PASSES, &[])?;
    match bench.queue(alloc, 0, &mut buffer) {
        Some(mut queue) => of_back(alloc, &mut queue, pages, producer),
        None => None,
    }
}

/// The accesses of a wait: the event index is stored before the producer is read.
fn last_look(pages: u32, producer: u32) -> [Access; 2] {
    [
        Access::Write {
            at: Place { frame: 18, word: 1 },
            value: pages,
        },
        Access::Read {
            at: Place { frame: 18, word: 0 },
            answer: producer,
        },
    ]
}

/// Returns how a wait ends that makes those accesses, if both queues make the same.
fn awaited(alloc: Global, pages: u32, producer: u32) -> Option<Told> {
    let seen = of_shipped(alloc, pages, producer)?;
    let wanted = of_new_back(alloc, pages, producer)?;
    let looked = seen.accesses.as_slice() == last_look(pages, producer).as_slice();
    (looked && seen == wanted).then_some(seen.told)
}

/// The number of slots that are awaited, the producer, and the end.
const ROWS: [(u32, u32, Told); 5] = [
    (2, 1, [10, 0, 0, 0, 0]),
    (2, 2, [9, 0, 0, 0, 0]),
    (16, 256, [9, 0, 0, 0, 0]),
    (257, 256, [10, 0, 0, 0, 0]),
    (2, 257, [11, 0, 6, 0, 0]),
];

#[test]
fn both_queues_make_the_waits_of_the_table(rt: HostRuntime) {
    for (pages, producer, told) in ROWS {
        assert_eq!(rt; awaited(rt.alloc(), pages, producer), Some(told));
    }
}
