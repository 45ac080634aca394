//! Packets of the host's own, a row for each thing that may become of one.

ghost use Rattle.std.specs.Prelude.{◌≡◌, length};
ghost use Rattle.xen_back.specs.Queues.{IsReady, wiring_of};

use super::fixtures::{PASSES, Seen, Told, seen_with, told_by};
use crate::bench::{ACCEPTS, counters, shipped};
use std::alloc::Global;
use xen_back::Delivery;
use xen_back_tests::bench::{FRAMES, ready};
use xen_drive::deliver;
use xen_netif::{GsoType, RxOffload, Segments};
use xen_page::ScriptBus;
use xen_ring::Ports;

/// Returns what an op of the same delivery tells.
fn told_of(delivery: Delivery) -> Told {
    match delivery {
        Delivery::Sent { slots } => [4, 0, 0, 0, slots],
        Delivery::FewSlots => [5, 0, 0, 0, 0],
        Delivery::Refused { slots } => [6, 0, 0, 0, slots],
        Delivery::Halted { cause } => [7, 0, u32::from(cause.number()), 0, 0],
        Delivery::NoFrame => [8, 0, 0, 0, 0],
        Delivery::NotAccepted => [12, 0, 0, 0, 0],
    }
}

/// A delivery by the shipped queue.
fn of_shipped(alloc: Global, packet: &[u8], offload: RxOffload, answers: &[u32]) -> Option<Seen> {
    let mut queue = shipped(alloc, &PASSES, &[], 0)?;
    let mut counters = counters(alloc, &queue)?;
    let mut bus = ScriptBus::make(alloc, FRAMES, answers, 34_000).ok()?;
    let ports = Ports::new();
    let op = deliver(
        &mut queue,
        packet,
        offload,
        &mut bus,
        counters.as_mut_slice(),
        &ports,
    );
    seen_with(alloc, told_by(&op)?, packet, bus.accesses(), &ports)
}

/// A delivery by `xen_back`'s queue.
fn of_back(
    alloc: Global,
    queue: &mut xen_back::Queue,
    packet: &[u8],
    offload: RxOffload,
    answers: &[u32],
) -> Option<Seen>
    requires ready { IsReady queue.old }
    requires owners { length (wiring_of queue.old).vif.owners.now ≡ 20 }
{
    let mut bus = ScriptBus::make(alloc, FRAMES, answers, 34_000).ok()?;
    let ports = Ports::new();
    let delivery = queue.deliver(packet, offload, &mut bus, &ports);
    seen_with(alloc, told_of(delivery), packet, bus.accesses(), &ports)
}

/// A delivery by a new queue of `xen_back`.
fn of_new_back(alloc: Global, packet: &[u8], offload: RxOffload, answers: &[u32]) -> Option<Seen> {
    let (bench, mut buffer) = ready(alloc, &PASSES, &[])?;
    let bench = bench.with_accepts(ACCEPTS);
    match bench.queue(alloc, 0, &mut buffer) {
        Some(mut queue) => of_back(alloc, &mut queue, packet, offload, answers),
        None => None,
    }
}

/// Returns how the delivery of `length` bytes of 4 ends, and how many accesses it makes, if both queues make the same.
fn delivered(
    alloc: Global,
    length: usize,
    offload: RxOffload,
    answers: &[u32],
) -> Option<(Told, usize)> {
    let packet = vec![in alloc; 4u8; length].ok()?;
    let seen = of_shipped(alloc, packet.as_slice(), offload, answers)?;
    let wanted = of_new_back(alloc, packet.as_slice(), offload, answers)?;
    (seen == wanted).then_some((seen.told, seen.accesses.len()))
}

/// To be segmented over IPv4, and over IPv6.
const TCPV4: RxOffload = RxOffload::Segmented(Segments {
    kind: GsoType::TcpV4,
    size: 14,
});

const TCPV6: RxOffload = RxOffload::Segmented(Segments {
    kind: GsoType::TcpV6,
    size: 14,
});

/// The number of bytes, what they leave to the frontend, the answers to the reads, the end, and the number of accesses.
const ROWS: [(usize, RxOffload, &'static [u32], Told, usize); 10] = [
    (
        14,
        RxOffload::Whole,
        &[1, 9, 5, 1, 16, 1],
        [4, 0, 0, 0, 1],
        13,
    ),
    (
        4097,
        RxOffload::Whole,
        &[2, 9, 5, 1, 16, 10, 6, 1, 14, 0],
        [4, 0, 0, 0, 2],
        1_040,
    ),
    (4097, RxOffload::Whole, &[1], [5, 0, 0, 0, 0], 1),
    (
        14,
        RxOffload::Whole,
        &[1, 9, 5, 0, 16, 0],
        [6, 0, 0, 0, 1],
        9,
    ),
    (14, RxOffload::Whole, &[257], [7, 0, 6, 0, 0], 1),
    (13, RxOffload::Whole, &[], [8, 0, 0, 0, 0], 0),
    (65_536, RxOffload::Whole, &[], [8, 0, 0, 0, 0], 0),
    (
        14,
        RxOffload::Blank,
        &[1, 9, 5, 1, 16, 1],
        [4, 0, 0, 0, 1],
        13,
    ),
    (14, TCPV4, &[2, 9, 5, 1, 16, 10, 99, 0], [4, 0, 0, 0, 2], 17),
    (14, TCPV6, &[], [12, 0, 0, 0, 0], 0),
];

#[test]
fn both_queues_make_the_deliveries_of_the_table(rt: HostRuntime) {
    for (length, offload, answers, told, accesses) in ROWS {
        assert_eq!(rt;
            delivered(rt.alloc(), length, offload, answers),
            Some((told, accesses))
        );
    }
}
