//! Waiting for rx slots, a test for each row of the table.

ghost use Rattle.std.specs.Prelude.{◌≡◌, length};
ghost use Rattle.xen_back.specs.Queues.{IsReady, IsSameWiring, wiring_of};

use super::deliveries::{OVERFLOWN, delivered_behind};
use super::fixtures::{PASSES, read, write};
use super::slots::STARTS;
use crate::bench::{Bench, FRAMES, ready};
use bpf_vm::Buffer;
use std::alloc::Global;
use xen_back::{Awaited, Delivery, Halt, Queue};
use xen_page::ScriptBus;

/// The outcome of a wait, and the number of accesses that it makes.
type Waited = (Awaited, usize);

/// Returns what waiting for `wanted` slots comes to if the producer is this.
fn awaited(alloc: Global, queue: &mut Queue, wanted: u32, producer: u32) -> Option<Waited>
    requires ready { IsReady queue.old }
    requires owners { length (wiring_of queue.old).vif.owners.now ≡ 20 }
    ensures ready { IsReady queue.new }
    ensures same { IsSameWiring queue.old queue.new }
{
    let mut bus = ScriptBus::make(alloc, FRAMES, &[producer], 100).ok()?;
    let awaited = queue.await_slots(wanted, &mut bus);
    Some((awaited, bus.accesses().len()))
}

/// Returns what waiting for `wanted` slots comes to with `posted` slots posted, if it writes the event index and then reads the
/// producer.
fn waited(alloc: Global, queue: &mut Queue, start: u32, wanted: u32, posted: u32) -> Option<Awaited>
    requires ready { IsReady queue.old }
    requires owners { length (wiring_of queue.old).vif.owners.now ≡ 20 }
{
    let producer = start.wrapping_add(posted);
    let accesses = [
        write(18, 1, start.wrapping_add(wanted)),
        read(18, 0, producer),
    ];
    let mut bus = ScriptBus::make(alloc, FRAMES, &[producer], 100).ok()?;
    let awaited = queue.await_slots(wanted, &mut bus);
    (bus.accesses() == accesses.as_slice()).then_some(awaited)
}

/// [`waited`] for a new queue.
fn waited_first(
    alloc: Global,
    bench: &Bench,
    buffer: &mut Buffer,
    start: u32,
    (wanted, posted): (u32, u32),
) -> Option<Awaited> {
    let mut queue = bench.queue(alloc, start, buffer)?;
    waited(alloc, &mut queue, start, wanted, posted)
}

/// The numbers of slots that are awaited and that are posted, and the outcome.
const ROWS: [(u32, u32, Awaited); 7] = [
    (2, 1, Awaited::Waiting),
    (2, 2, Awaited::Posted),
    (2, 3, Awaited::Posted),
    (16, 15, Awaited::Waiting),
    (16, 256, Awaited::Posted),
    (0, 0, Awaited::Posted),
    (257, 256, Awaited::Waiting),
];

/// The first row that comes out otherwise, if the rings begin at `start`: its slots, and what that comes to.
fn differing(
    alloc: Global,
    bench: &Bench,
    buffer: &mut Buffer,
    start: u32,
) -> Option<(u32, u32, Option<Awaited>)> {
    for (wanted, posted, answer) in ROWS {
        let awaited = waited_first(alloc, bench, buffer, start, (wanted, posted));
        if awaited != Some(answer) {
            return Some((wanted, posted, awaited));
        }
    }
    None
}

/// [`differing`] for new rings.
fn differing_from(alloc: Global, start: u32) -> Option<Option<(u32, u32, Option<Awaited>)>> {
    let (bench, mut buffer) = ready(alloc, &PASSES, &[])?;
    Some(differing(alloc, &bench, &mut buffer, start))
}

#[test]
fn slots_are_awaited(rt: HostRuntime) {
    for start in STARTS {
        assert_eq!(rt; differing_from(rt.alloc(), start), Some(None));
    }
}

/// Returns what two waits come to, the first with a producer past the ring, and then a delivery.
fn halting(
    alloc: Global,
    queue: &mut Queue,
    start: u32,
) -> ([Option<Waited>; 2], Option<(Delivery, usize)>)
    requires ready { IsReady queue.old }
    requires owners { length (wiring_of queue.old).vif.owners.now ≡ 20 }
{
    let first = awaited(alloc, queue, 1, start.wrapping_add(257));
    let second = awaited(alloc, queue, 1, start);
    let delivered = delivered_behind(alloc, queue, start.wrapping_add(1));
    ([first, second], delivered)
}

/// [`halting`] for a new queue.
fn halting_from(
    alloc: Global,
    start: u32,
) -> Option<([Option<Waited>; 2], Option<(Delivery, usize)>)> {
    let (bench, mut buffer) = ready(alloc, &PASSES, &[])?;
    match bench.queue(alloc, start, &mut buffer) {
        Some(mut queue) => Some(halting(alloc, &mut queue, start)),
        None => None,
    }
}

#[test]
fn waiting_halts_behind_a_producer_past_the_ring(rt: HostRuntime) {
    let halted = Awaited::Halted {
        cause: Halt::RxProducer,
    };
    let waits = [Some((halted, 2)), Some((halted, 0))];
    for start in STARTS {
        let found = halting_from(rt.alloc(), start);
        assert_eq!(rt; found, Some((waits, Some((OVERFLOWN, 0)))));
    }
}
