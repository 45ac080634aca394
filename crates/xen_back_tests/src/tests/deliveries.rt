//! Packets that the host delivers, a test for each row of the table.

ghost use Rattle.std.specs.Prelude.{◌≡◌, [], length};
ghost use Rattle.xen_back.specs.Queues.{IsReady, IsSameWiring, wiring_of};

use super::delivered::{Delivered, FOURTEEN, deliver, delivered_first, rx};
use super::fixtures::{PASSES, SENDS, joined, read, write, wrote};
use super::kind::{Kind, kind_of};
use super::slots::{STARTS, slot};
use crate::bench::{FRAMES, ready, seated};
use std::alloc::{AllocError, Global};
use xen_back::{Delivery, Halt, Queue};
use xen_page::{Access, ScriptBus};
use xen_ring::Ports;

/// Returns what their delivery into the first slot makes, with this event index read at its end.
fn fourteen_accesses(start: u32, event: u32) -> [Access; 13] {
    let one = start.wrapping_add(1);
    [
        read(18, 0, one),
        read(18, rx(start, 0, 0), 9),
        read(18, rx(start, 0, 1), 5),
        read(1, 10, 1),
        read(1, 11, 16),
        write(16, 0, 0x0302_0100),
        write(16, 1, 0x0706_0504),
        write(16, 2, 0x0b0a_0908),
        write(16, 3, 0x0000_0d0c),
        write(18, rx(start, 0, 0), 9),
        write(18, rx(start, 0, 1), 0x000e_0000),
        write(18, 2, one),
        read(18, 3, event),
    ]
}

/// Returns what the delivery of fourteen bytes comes to, and whether a notice is sent, if it makes these accesses.
fn short_packet(alloc: Global, start: u32, event: u32) -> Option<(Delivery, bool)> {
    let answers = [start.wrapping_add(1), 9, 5, 1, 16, event];
    let seen = delivered_first(alloc, start, &FOURTEEN, &answers)?;
    let accesses = fourteen_accesses(start, event);
    (seen.accesses.as_slice() == accesses.as_slice()).then_some((seen.delivery, seen.notified))
}

#[test]
fn a_short_packet_takes_one_slot(rt: HostRuntime) {
    let sent = Delivery::Sent { slots: 1 };
    for start in STARTS {
        let due = short_packet(rt.alloc(), start, start.wrapping_add(1));
        let not_due = short_packet(rt.alloc(), start, start);
        assert_eq!(rt; (due, not_due), (Some((sent, true)), Some((sent, false))));
    }
}

/// `length` bytes of 4.
pub fn fours(alloc: Global, length: usize) -> Result<Vec<u8>, AllocError> {
    vec![in alloc; 4u8; length]
}

/// The delivery of `length` bytes of 4.
fn fours_delivered(alloc: Global, start: u32, length: usize, answers: &[u32]) -> Option<Delivered> {
    let packet = fours(alloc, length).ok()?;
    delivered_first(alloc, start, packet.as_slice(), answers)
}

/// Returns what the delivery of 4,097 bytes comes to, and how many accesses it makes, if it writes the second buffer and the rx
/// ring.
fn two_pages(alloc: Global, start: u32) -> Option<(Delivery, usize)> {
    let two = start.wrapping_add(2);
    let responses = [
        write(18, rx(start, 0, 0), 9),
        write(18, rx(start, 0, 1), 0x1000_0004),
        write(18, rx(start, 1, 0), 10),
        write(18, rx(start, 1, 1), 0x0001_0000),
        write(18, 2, two),
    ];
    let answers = [two, 9, 5, 1, 16, 10, 6, 1, 14, start];
    let seen = fours_delivered(alloc, start, 4097, &answers)?;
    let wrote = seen.wrote(14, &[write(14, 0, 4)]) && seen.wrote(18, &responses);
    wrote.then_some((seen.delivery, seen.accesses.len()))
}

#[test]
fn a_packet_longer_than_a_page_takes_two_slots(rt: HostRuntime) {
    let wanted = (Delivery::Sent { slots: 2 }, 1 + 8 + 1025 + 4 + 2);
    for start in STARTS {
        assert_eq!(rt; two_pages(rt.alloc(), start), Some(wanted));
    }
}

/// The answers for sixteen posted slots.
fn sixteen_slots(alloc: Global, start: u32) -> Result<Vec<u32>, AllocError> {
    let sixteen = start.wrapping_add(16);
    joined(alloc, &[sixteen], &[9, 5, 1, 16], 16, &[sixteen])
}

/// Returns what the delivery of 65,535 bytes comes to, how many accesses it makes, and whether a notice is sent.
fn longest(alloc: Global, start: u32) -> Option<(Delivery, usize, bool)> {
    let answers = sixteen_slots(alloc, start).ok()?;
    let seen = fours_delivered(alloc, start, 65_535, answers.as_slice())?;
    Some((seen.delivery, seen.accesses.len(), seen.notified))
}

#[test]
fn the_longest_packet_takes_sixteen_slots(rt: HostRuntime) {
    let sent = Delivery::Sent { slots: 16 };
    let wanted = (sent, 1 + 64 + 16_384 + 32 + 2, true);
    for start in STARTS {
        assert_eq!(rt; longest(rt.alloc(), start), Some(wanted));
    }
}

/// Returns what the delivery of 4,097 bytes comes to with one slot posted, and whether a notice is sent, if it only reads the
/// producer.
fn too_few_slots(alloc: Global, start: u32) -> Option<(Delivery, bool)> {
    let one = start.wrapping_add(1);
    let seen = fours_delivered(alloc, start, 4097, &[one])?;
    let is_all = seen.accesses.as_slice() == [read(18, 0, one)].as_slice();
    is_all.then_some((seen.delivery, seen.notified))
}

#[test]
fn too_few_slots_take_nothing(rt: HostRuntime) {
    for start in STARTS {
        let found = too_few_slots(rt.alloc(), start);
        assert_eq!(rt; found, Some((Delivery::FewSlots, false)));
    }
}

/// Returns what the delivery of 4,097 bytes comes to whose second grant is refused, and whether a notice is sent, if it writes the
/// rx ring and no buffer.
fn second_grant_refused(alloc: Global, start: u32) -> Option<(Delivery, bool)> {
    let two = start.wrapping_add(2);
    let responses = [
        write(18, rx(start, 0, 0), 9),
        write(18, rx(start, 0, 1), 0xffff_0000),
        write(18, rx(start, 1, 0), 10),
        write(18, rx(start, 1, 1), 0xffff_0000),
        write(18, 2, two),
    ];
    // The second entry's flags, 5, allow reading alone.
    let answers = [two, 9, 5, 1, 16, 10, 6, 5, 14, two];
    let seen = fours_delivered(alloc, start, 4097, &answers)?;
    let wrote = seen.wrote(16, &[]) && seen.wrote(14, &[]) && seen.wrote(18, &responses);
    wrote.then_some((seen.delivery, seen.notified))
}

#[test]
fn a_refused_grant_writes_no_buffer(rt: HostRuntime) {
    for start in STARTS {
        let found = second_grant_refused(rt.alloc(), start);
        assert_eq!(rt; found, Some((Delivery::Refused { slots: 2 }, true)));
    }
}

/// Returns what the delivery of 4,097 bytes comes to whose first grant is refused, and whether a notice is sent, if it writes the
/// rx ring.
fn first_grant_refused(alloc: Global, start: u32) -> Option<(Delivery, bool)> {
    let responses = [
        write(18, rx(start, 0, 0), 9),
        write(18, rx(start, 0, 1), 0xffff_0000),
        write(18, 2, start.wrapping_add(1)),
    ];
    let answers = [start.wrapping_add(2), 9, 5, 0, 16, start];
    let seen = fours_delivered(alloc, start, 4097, &answers)?;
    seen.wrote(18, &responses)
        .then_some((seen.delivery, seen.notified))
}

#[test]
fn a_first_grant_that_is_refused_takes_one_slot(rt: HostRuntime) {
    for start in STARTS {
        let found = first_grant_refused(rt.alloc(), start);
        assert_eq!(rt; found, Some((Delivery::Refused { slots: 1 }, false)));
    }
}

/// The halt of a producer that is more than a whole ring ahead.
pub const OVERFLOWN: Delivery = Delivery::Halted {
    cause: Halt::RxProducer,
};

/// Returns what the delivery of fourteen bytes comes to if the producer is this, and how many accesses it makes.
pub fn delivered_behind(
    alloc: Global,
    queue: &mut Queue,
    producer: u32,
) -> Option<(Delivery, usize)>
    requires ready { IsReady queue.old }
    requires owners { length (wiring_of queue.old).vif.owners.now ≡ 20 }
    ensures ready { IsReady queue.new }
    ensures same { IsSameWiring queue.old queue.new }
{
    let seen = deliver(alloc, queue, &FOURTEEN, &[producer])?;
    Some((seen.delivery, seen.accesses.len()))
}

/// Returns what two deliveries come to, the first with a producer past the ring.
fn past_the_ring(alloc: Global, start: u32) -> Option<[Option<(Delivery, usize)>; 2]> {
    let (bench, mut buffer) = ready(alloc, &PASSES, &[])?;
    match bench.queue(alloc, start, &mut buffer) {
        Some(mut queue) => Some([
            delivered_behind(alloc, &mut queue, start.wrapping_add(257)),
            delivered_behind(alloc, &mut queue, start.wrapping_add(1)),
        ]),
        None => None,
    }
}

#[test]
fn a_producer_past_the_ring_halts(rt: HostRuntime) {
    let wanted = [Some((OVERFLOWN, 1)), Some((OVERFLOWN, 0))];
    for start in STARTS {
        assert_eq!(rt; past_the_ring(rt.alloc(), start), Some(wanted));
    }
}

/// Returns what the delivery of bytes comes to with all slots posted, how many accesses it makes, and whether a notice is sent.
fn delivery(alloc: Global, packet: &[u8]) -> Option<(Delivery, usize, bool)> {
    let seen = delivered_first(alloc, 0, packet, &[256])?;
    Some((seen.delivery, seen.accesses.len(), seen.notified))
}

/// [`delivery`] for `length` bytes of 4.
fn fours_delivery(alloc: Global, length: usize) -> Option<(Delivery, usize, bool)> {
    let packet = fours(alloc, length).ok()?;
    delivery(alloc, packet.as_slice())
}

#[test]
fn what_is_no_packet_does_nothing(rt: HostRuntime) {
    let short = delivery(rt.alloc(), &FOURTEEN[..13]);
    let long = fours_delivery(rt.alloc(), 65_536);
    let wanted = Some((Delivery::NoFrame, 0, false));
    assert_eq!(rt; [short, long], [wanted; 2]);
}

/// The writes of a response of fourteen bytes to the i-th slot, with id 9.
fn fourteen_responses(start: u32, i: u32) -> [Access; 3] {
    [
        write(18, rx(start, i, 0), 9),
        write(18, rx(start, i, 1), 0x000e_0000),
        write(18, 2, start.wrapping_add(i).wrapping_add(1)),
    ]
}

/// Returns whether fourteen bytes are delivered into the i-th slot.
fn delivers_into(alloc: Global, queue: &mut Queue, start: u32, i: u32) -> bool
    requires ready { IsReady queue.old }
    requires owners { length (wiring_of queue.old).vif.owners.now ≡ 20 }
    requires program { (wiring_of queue.old).program.now.shapes ≡ [] }
    ensures ready { IsReady queue.new }
    ensures owners { length (wiring_of queue.new).vif.owners.now ≡ 20 }
    ensures program { (wiring_of queue.new).program.now.shapes ≡ [] }
{
    let answers = [start.wrapping_add(i).wrapping_add(1), 9, 5, 1, 16];
    match deliver(alloc, queue, &FOURTEEN, &answers) {
        Some(seen) => {
            let wrote = seen.wrote(18, &fourteen_responses(start, i));
            wrote && seen.delivery == Delivery::Sent { slots: 1 }
        }
        None => false,
    }
}

/// The answers to a turn of a packet of fourteen bytes in the first slot, which is sent back into the i-th rx slot.
fn sent_back(alloc: Global, start: u32, i: u32) -> Result<Vec<u32>, AllocError> {
    let one = start.wrapping_add(1);
    let head = [
        one,
        2,
        0,
        slot(7, 14),
        1,
        19,
        0x0302_0100,
        0x0706_0504,
        0x0b0a_0908,
        0x0000_0d0c,
    ];
    let later = [start.wrapping_add(i).wrapping_add(1), 9, 5, 1, 16];
    joined(alloc, &head, &later, 1, &[])
}

/// Returns what a turn that finds these answers comes to, if these are its writes to the rx ring.
fn answering(
    alloc: Global,
    queue: &mut Queue,
    answers: &[u32],
    responses: &[Access],
) -> Option<Kind>
    requires ready { IsReady queue.old }
    requires owners { length (wiring_of queue.old).vif.owners.now ≡ 20 }
    requires program { (wiring_of queue.old).program.now.shapes ≡ [] }
    ensures ready { IsReady queue.new }
    ensures same { IsSameWiring queue.old queue.new }
{
    let (counters, mut seat) = seated(alloc, &[])?;
    let mut bus = ScriptBus::make(alloc, FRAMES, answers, 100).ok()?;
    let ports = Ports::new();
    let kind = kind_of(&queue.drive_turn(&mut bus, &counters, &mut seat, &ports));
    wrote(bus.accesses(), 18, responses).then_some(kind)
}

/// Returns what a turn of a packet of fourteen bytes comes to, if it sends them back into the i-th slot.
fn sent_into(alloc: Global, queue: &mut Queue, start: u32, i: u32) -> Option<Kind>
    requires ready { IsReady queue.old }
    requires owners { length (wiring_of queue.old).vif.owners.now ≡ 20 }
    requires program { (wiring_of queue.old).program.now.shapes ≡ [] }
    ensures ready { IsReady queue.new }
    ensures same { IsSameWiring queue.old queue.new }
{
    let answers = sent_back(alloc, start, i).ok()?;
    let responses = fourteen_responses(start, i);
    answering(alloc, queue, answers.as_slice(), &responses)
}

/// Returns whether a delivery takes the first slot and one after a turn the third, and what the turn comes to, if it takes the
/// second.
fn in_order(alloc: Global, start: u32) -> Option<([bool; 2], Option<Kind>)> {
    let (bench, mut buffer) = ready(alloc, &SENDS, &[])?;
    match bench.queue(alloc, start, &mut buffer) {
        Some(mut queue) => {
            let first = delivers_into(alloc, &mut queue, start, 0);
            let second = sent_into(alloc, &mut queue, start, 1);
            Some(([first, delivers_into(alloc, &mut queue, start, 2)], second))
        }
        None => None,
    }
}

#[test]
fn deliveries_and_turns_take_their_slots_in_order(rt: HostRuntime) {
    let wanted = ([true, true], Some(Kind::ran(3, 1)));
    for start in STARTS {
        assert_eq!(rt; in_order(rt.alloc(), start), Some(wanted));
    }
}
