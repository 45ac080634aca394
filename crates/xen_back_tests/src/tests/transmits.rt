//! Turns that send the packet back.

ghost use Rattle.std.specs.Prelude.{◌<◌};

use super::fixtures::{SENDS, Seen, joined, turn, write};
use super::kind::Kind;
use super::slots::{STARTS, slot, tx};
use std::alloc::{AllocError, Global};
use xen_back::{Halt, PacketRefusal};

/// Returns where word `word` of the i-th rx slot from `start` lies in the rx ring's page.
fn rx(start: u32, i: u32, word: u32) -> u32
    requires { word < 2 }
{
    16 + 2 * (start.wrapping_add(i) % 256) + word
}

/// A packet of the bytes 0 to 13, with these answers after its run.
fn fourteen(alloc: Global, start: u32, later: &[u32]) -> Option<Seen> {
    let head = [
        start.wrapping_add(1),
        2,
        0,
        slot(7, 14),
        1,
        19,
        50_462_976,
        117_835_012,
        185_207_048,
        252_579_084,
    ];
    let answers = joined(alloc, &head, later, 1, &[]).ok()?;
    turn(alloc, &SENDS, start, answers.as_slice())
}

/// The answers for a packet of 4,097 bytes in two slots, with these after its run.
fn two_pages_answers(alloc: Global, start: u32, later: &[u32]) -> Result<Vec<u32>, AllocError> {
    let head = [
        start.wrapping_add(2),
        2,
        0x4_0000,
        slot(7, 4097),
        3,
        0,
        slot(8, 1),
        1,
        19,
    ];
    let pages = joined(alloc, &head, &[0x0403_0201], 1024, &[1, 15, 9])?;
    joined(alloc, pages.as_slice(), later, 1, &[])
}

/// A packet of 4,097 bytes in two slots, with these answers after its run.
fn two_pages(alloc: Global, start: u32, later: &[u32]) -> Option<Seen> {
    let answers = two_pages_answers(alloc, start, later).ok()?;
    turn(alloc, &SENDS, start, answers.as_slice())
}

/// Returns whether these are a turn's writes to the frame of the buffer, to the rx ring and to the tx ring of fourteen bytes that
/// are sent back.
fn sends_fourteen(seen: &Seen, start: u32) -> bool {
    let one = start.wrapping_add(1);
    let words = [
        write(16, 0, 0x0302_0100),
        write(16, 1, 0x0706_0504),
        write(16, 2, 0x0b0a_0908),
        write(16, 3, 0x0000_0d0c),
    ];
    let responses = [
        write(18, rx(start, 0, 0), 9),
        write(18, rx(start, 0, 1), 0x000e_0000),
        write(18, 2, one),
    ];
    let answered = [write(17, tx(start, 0, 0), 7), write(17, 2, one)];
    seen.wrote(16, &words) && seen.wrote(18, &responses) && seen.wrote(17, &answered)
}

/// Returns what fourteen bytes that are sent back come to, and how many accesses they make, if they are written.
fn fourteen_sent(alloc: Global, start: u32) -> Option<(Kind, usize)> {
    let one = start.wrapping_add(1);
    let seen = fourteen(alloc, start, &[one, 9, 5, 1, 16, one, one])?;
    sends_fourteen(&seen, start).then_some((seen.kind, seen.accesses.len()))
}

#[test]
fn fourteen_bytes_are_sent_back(rt: HostRuntime) {
    let count = 10 + 5 + 4 + 2 + 2 + 1 + 2;
    for start in STARTS {
        let sent = fourteen_sent(rt.alloc(), start);
        assert_eq!(rt; sent, Some((Kind::ran(3, 1), count)));
    }
}

/// The length of a packet of two slots that is sent back, and how often its first buffer is written, if the second one and the
/// rx ring are written.
fn two_pages_sent(alloc: Global, start: u32) -> Option<(usize, usize)> {
    let two = start.wrapping_add(2);
    let responses = [
        write(18, rx(start, 0, 0), 9),
        write(18, rx(start, 0, 1), 0x1000_0004),
        write(18, rx(start, 1, 0), 10),
        write(18, rx(start, 1, 1), 0x0001_0000),
        write(18, 2, two),
    ];
    let later = [two, 9, 5, 1, 16, 10, 6, 1, 14, start, start];
    let seen = two_pages(alloc, start, &later)?;
    let wrote = seen.wrote(14, &[write(14, 0, 9)]) && seen.wrote(18, &responses);
    wrote.then_some((seen.packet.len(), seen.writes(16)))
}

#[test]
fn a_longer_packet_takes_two_slots(rt: HostRuntime) {
    for start in STARTS {
        assert_eq!(rt; two_pages_sent(rt.alloc(), start), Some((4097, 1024)));
    }
}

/// Returns what a packet comes to whose second buffer can't be written, and how often both buffers are written, if the rx ring is.
fn second_grant_fails(alloc: Global, start: u32) -> Option<(Kind, [usize; 2])> {
    let two = start.wrapping_add(2);
    let responses = [
        write(18, rx(start, 0, 0), 9),
        write(18, rx(start, 0, 1), 0xffff_0000),
        write(18, rx(start, 1, 0), 10),
        write(18, rx(start, 1, 1), 0xffff_0000),
        write(18, 2, two),
    ];
    let later = [two, 9, 5, 1, 16, 10, 6, 5, 14, start, start];
    let seen = two_pages(alloc, start, &later)?;
    let written = [seen.writes(16), seen.writes(14)];
    seen.wrote(18, &responses).then_some((seen.kind, written))
}

#[test]
fn a_second_grant_that_fails_writes_no_buffer(rt: HostRuntime) {
    for start in STARTS {
        let found = second_grant_fails(rt.alloc(), start);
        assert_eq!(rt;
            found,
            Some((Kind::refused(PacketRefusal::RxGrant, 2), [0, 0]))
        );
    }
}

/// Returns what a packet of two pages comes to with one slot posted, and how often the rx ring is written, if the tx ring is.
fn one_posted_slot(alloc: Global, start: u32) -> Option<(Kind, usize)> {
    let answered = [
        write(17, tx(start, 0, 0), 0xffff_0007),
        write(17, tx(start, 1, 0), 0xffff_0008),
        write(17, 2, start.wrapping_add(2)),
    ];
    let seen = two_pages(alloc, start, &[start.wrapping_add(1), start])?;
    seen.wrote(17, &answered)
        .then_some((seen.kind, seen.writes(18)))
}

#[test]
fn one_posted_slot_is_too_few_for_two_pages(rt: HostRuntime) {
    for start in STARTS {
        let found = one_posted_slot(rt.alloc(), start);
        assert_eq!(rt; found, Some((Kind::refused(PacketRefusal::FewSlots, 2), 0)));
    }
}

/// Returns what a packet comes to if the rx producer is past the ring, and how many accesses it makes.
fn past_the_ring(alloc: Global, start: u32) -> Option<(Kind, usize)> {
    let seen = fourteen(alloc, start, &[start.wrapping_add(257)])?;
    Some((seen.kind, seen.accesses.len()))
}

#[test]
fn an_rx_producer_past_the_ring_halts(rt: HostRuntime) {
    let halted = Kind::Halted {
        cause: Halt::RxProducer,
    };
    for start in STARTS {
        assert_eq!(rt; past_the_ring(rt.alloc(), start), Some((halted, 11)));
    }
}

/// The first words of a packet of 65,535 bytes in sixteen slots: the producer and the slots.
fn longest_chain(alloc: Global, start: u32) -> Result<Vec<u32>, AllocError> {
    let head = [start.wrapping_add(16), 2, 0x4_0000, slot(0, 65_535)];
    let later = [2, 0x4_0000, slot(0, 4096)];
    joined(alloc, &head, &later, 14, &[2, 0, slot(0, 4096)])
}

/// The answers for that packet: its slots, sixteen fragments of 4,096 bytes that are 0, and sixteen posted rx slots.
fn longest_answers(alloc: Global, start: u32) -> Result<Vec<u32>, AllocError> {
    let chain = longest_chain(alloc, start)?;
    let fragment = joined(alloc, &[1, 19], &[0], 1024, &[])?;
    let shown = [start.wrapping_add(16)];
    let answers = joined(alloc, chain.as_slice(), fragment.as_slice(), 16, &shown)?;
    joined(alloc, answers.as_slice(), &[0, 2, 1, 16], 16, &[])
}

/// Returns what that packet comes to, its length, and how often the buffer is written.
fn longest(alloc: Global, start: u32) -> Option<(Kind, [usize; 2])> {
    let answers = longest_answers(alloc, start).ok()?;
    let seen = turn(alloc, &SENDS, start, answers.as_slice())?;
    Some((seen.kind, [seen.packet.len(), seen.writes(16)]))
}

#[test]
fn the_longest_packet_takes_sixteen_slots(rt: HostRuntime) {
    for start in STARTS {
        let found = longest(rt.alloc(), start);
        assert_eq!(rt; found, Some((Kind::ran(3, 16), [65_535, 16_384])));
    }
}
