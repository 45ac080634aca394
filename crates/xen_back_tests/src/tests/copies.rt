//! Turns that copy a packet.

use super::fixtures::{PASSES, Seen, count, joined, read, turn, write};
use super::kind::Kind;
use super::slots::{STARTS, slot, tx};
use std::alloc::{AllocError, Global};
use xen_back::PacketRefusal;
use xen_page::Access;

/// The answers for a packet of one slot, id 7, whose entry and page words are these.
fn one_slot_answers(
    alloc: Global,
    start: u32,
    second: u32,
    size: u16,
    later: &[u32],
) -> Result<Vec<u32>, AllocError> {
    let head = [start.wrapping_add(1), 2, second, slot(7, size)];
    joined(alloc, &head, later, 1, &[])
}

/// A packet of one slot, id 7, whose entry and page words are these.
fn one_slot(alloc: Global, start: u32, second: u32, size: u16, later: &[u32]) -> Option<Seen> {
    let answers = one_slot_answers(alloc, start, second, size, later).ok()?;
    turn(alloc, &PASSES, start, answers.as_slice())
}

/// Returns what it comes to if its fourteen bytes begin the page, and how many accesses it makes.
fn one_slot_count(alloc: Global, start: u32, later: &[u32]) -> Option<(Kind, usize)> {
    let seen = one_slot(alloc, start, 0, 14, later)?;
    Some((seen.kind, seen.accesses.len()))
}

/// The accesses of a packet of the bytes 0 to 13.
fn fourteen_accesses(start: u32) -> [Access; 13] {
    let shown = start.wrapping_add(1);
    [
        read(17, 0, shown),
        read(17, tx(start, 0, 0), 2),
        read(17, tx(start, 0, 1), 0),
        read(17, tx(start, 0, 2), 917_511),
        read(1, 4, 1),
        read(1, 5, 19),
        read(19, 0, 50_462_976),
        read(19, 1, 117_835_012),
        read(19, 2, 185_207_048),
        read(19, 3, 252_579_084),
        write(17, tx(start, 0, 0), 7),
        write(17, 2, shown),
        read(17, 3, shown),
    ]
}

/// Returns whether the bytes 0 to 13 pass with these accesses, and with a notice.
fn fourteen_pass(alloc: Global, start: u32) -> bool {
    let shown = start.wrapping_add(1);
    let later = [
        1,
        19,
        50_462_976,
        117_835_012,
        185_207_048,
        252_579_084,
        shown,
    ];
    let packet = [0, 1, 2, 3, 4, 5, 6, 7, 8, 9, 10, 11, 12, 13];
    match one_slot(alloc, start, 0, 14, &later) {
        Some(seen) => {
            let is_shown = seen.shows(Kind::ran(2, 1), &packet);
            is_shown && seen.made(&fourteen_accesses(start)) && seen.notified
        }
        None => false,
    }
}

#[test]
fn fourteen_bytes_pass_with_a_notice(rt: HostRuntime) {
    for start in STARTS {
        assert!(rt; fourteen_pass(rt.alloc(), start), "from {start}");
    }
}

/// Returns the number of accesses that such a packet makes, and whether a notice is sent.
fn one_slot_notice(alloc: Global, start: u32, later: &[u32]) -> Option<(usize, bool)> {
    let seen = one_slot(alloc, start, 0, 14, later)?;
    Some((seen.accesses.len(), seen.notified))
}

#[test]
fn no_notice_is_sent_for_a_later_event_index(rt: HostRuntime) {
    for start in STARTS {
        let later = [1, 19, 0, 0, 0, 0, start.wrapping_add(2)];
        let found = one_slot_notice(rt.alloc(), start, &later);
        assert_eq!(rt; found, Some((13, false)));
    }
}

/// Two slots, ids 7 and 8, of which the first has 60 bytes that are 1, and the second 40 that are 2.
fn two_slots(alloc: Global, start: u32) -> Result<Vec<u32>, AllocError> {
    let head = [
        start.wrapping_add(2),
        2,
        0x4_0000,
        slot(7, 100),
        3,
        0,
        slot(8, 40),
        1,
        19,
    ];
    let first = joined(alloc, &head, &[0x0101_0101], 15, &[1, 16])?;
    joined(alloc, first.as_slice(), &[0x0202_0202], 10, &[])
}

fn two_slots_turn(alloc: Global, start: u32) -> Option<Seen> {
    let answers = two_slots(alloc, start).ok()?;
    turn(alloc, &PASSES, start, answers.as_slice())
}

/// Returns how many bytes of a packet there are, and how many of them are 1 and 2.
fn ones_and_twos(packet: &[u8]) -> [usize; 3] {
    let ones = packet.iter().filter(|byte| **byte == 1).count();
    let twos = packet.iter().filter(|byte| **byte == 2).count();
    [packet.len(), ones, twos]
}

/// Returns how many bytes of the packet of two slots there are, and how many of them are 1 and 2, if both are answered.
fn two_slots_packet(alloc: Global, start: u32) -> Option<[usize; 3]> {
    let writes = [
        write(17, tx(start, 0, 0), 7),
        write(17, tx(start, 1, 0), 8),
        write(17, 2, start.wrapping_add(2)),
    ];
    let seen = two_slots_turn(alloc, start)?;
    seen.wrote(17, &writes)
        .then_some(ones_and_twos(seen.packet.as_slice()))
}

#[test]
fn two_slots_are_one_packet(rt: HostRuntime) {
    for start in STARTS {
        let packet = two_slots_packet(rt.alloc(), start);
        assert_eq!(rt; packet, Some([100, 60, 40]));
    }
}

/// Returns what a packet whose second fragment is empty comes to, and how many accesses it makes, if that fragment's entry is read
/// before the packet is answered.
fn empty_fragment(alloc: Global, start: u32) -> Option<(Kind, usize)> {
    let answers = [
        start.wrapping_add(2),
        2,
        0x4_0000,
        slot(7, 14),
        3,
        0,
        slot(8, 0),
        1,
        19,
        1,
        2,
        3,
        4,
        1,
        16,
    ];
    let later = [read(1, 7, 16), write(17, tx(start, 0, 0), 7)];
    let seen = turn(alloc, &PASSES, start, &answers)?;
    let is_read = seen.accesses.get(14..16) == Some(later.as_slice());
    is_read.then_some((seen.kind, seen.accesses.len()))
}

#[test]
fn an_empty_fragment_reads_its_entry_alone(rt: HostRuntime) {
    for start in STARTS {
        let count = 1 + 6 + 2 + 4 + 2 + 2 + 2;
        let found = empty_fragment(rt.alloc(), start);
        assert_eq!(rt; found, Some((Kind::ran(2, 2), count)));
    }
}

/// The length of a packet that ends with its page, if these words are read.
fn last_words(alloc: Global, start: u32) -> Option<usize> {
    let words = [
        read(19, 1020, 5),
        read(19, 1021, 6),
        read(19, 1022, 7),
        read(19, 1023, 8),
    ];
    let seen = one_slot(alloc, start, 4082, 14, &[1, 19, 5, 6, 7, 8])?;
    let are_read = seen.accesses.get(6..10) == Some(words.as_slice());
    are_read.then_some(seen.packet.len())
}

#[test]
fn the_last_words_of_a_page_are_read(rt: HostRuntime) {
    for start in STARTS {
        assert_eq!(rt; last_words(rt.alloc(), start), Some(14));
    }
}

/// Returns how often one of two accesses was made.
fn made(accesses: &[Access], first: Access, second: Access) -> usize {
    accesses
        .iter()
        .filter(|access| **access == first || **access == second)
        .count()
}

/// Returns how often a word is read in which one fragment ends and the next one begins, if each has its own bytes of it.
fn reads_of_shared_word(alloc: Global, start: u32) -> Option<usize> {
    let answers = [
        start.wrapping_add(2),
        2,
        0x4_0000,
        slot(7, 60),
        2,
        30,
        slot(8, 30),
        1,
        19,
        0,
        0,
        0,
        0,
        0,
        0,
        0,
        0x4433_2211,
        1,
        19,
        0x8877_6655,
    ];
    let reads = (read(19, 7, 0x4433_2211), read(19, 7, 0x8877_6655));
    let seen = turn(alloc, &PASSES, start, &answers)?;
    let has_bytes = seen.packet.get(28..32) == Some([0x11, 0x22, 0x77, 0x88].as_slice());
    has_bytes.then_some(made(seen.accesses.as_slice(), reads.0, reads.1))
}

#[test]
fn a_word_of_two_fragments_is_read_for_each(rt: HostRuntime) {
    for start in STARTS {
        assert_eq!(rt; reads_of_shared_word(rt.alloc(), start), Some(2));
    }
}

#[test]
fn a_grant_that_fails_its_check_is_refused(rt: HostRuntime) {
    for start in STARTS {
        for entry in [[0, 19], [0x2_0001, 19], [1, 0], [1, 20]] {
            let found = one_slot_count(rt.alloc(), start, &entry);
            assert_eq!(rt;
                found,
                Some((Kind::refused(PacketRefusal::Grant, 1), 4 + 2 + 3))
            );
        }
    }
}

#[test]
fn a_reference_outside_the_table_makes_no_access(rt: HostRuntime) {
    for start in STARTS {
        let answers = [start.wrapping_add(1), 512, 0, slot(7, 14)];
        let found = count(rt.alloc(), &PASSES, start, &answers);
        assert_eq!(rt;
            found,
            Some((Kind::refused(PacketRefusal::Grant, 1), 4 + 3))
        );
    }
}
