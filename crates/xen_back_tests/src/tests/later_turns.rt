//! What a turn leaves for the next one, and what a packet that is sent back takes.

ghost use Rattle.std.specs.Prelude.{◌<◌};

use super::fixtures::{SENDS, Seen, fed, joined, kind, turn, turn_with_maps, write};
use super::kind::Kind;
use super::slots::{STARTS, slot, tx};
use crate::bench::{IFINDEX, QUEUE, ready};
use bpf_note::MapShape;
use std::alloc::{AllocError, Global};
use xen_back::{Halt, PacketRefusal, Queue};
use xen_netif::ChainFault;

/// Adds 1 to the counter of key 1, and then TX: ST W [r10 - 4], 1; MOV r2, r10; ADD r2, -4; r1 = map 0; CALL 1;
/// JEQ r0, 0, +2; MOV r1, 1; atomic ADD DW [r0], r1; MOV r0, 3; EXIT.
const COUNTS_AND_SENDS: [u8; 88] = [
    0x62, 0x0a, 0xfc, 0xff, 1, 0, 0, 0, 0xbf, 0xa2, 0, 0, 0, 0, 0, 0, 0x07, 0x02, 0, 0, 0xfc, 0xff,
    0xff, 0xff, 0x18, 0x11, 0, 0, 0, 0, 0, 0, 0, 0, 0, 0, 0, 0, 0, 0, 0x85, 0, 0, 0, 1, 0, 0, 0,
    0x15, 0, 2, 0, 0, 0, 0, 0, 0xb7, 1, 0, 0, 1, 0, 0, 0, 0xdb, 0x10, 0, 0, 0, 0, 0, 0, 0xb7, 0, 0,
    0, 3, 0, 0, 0, 0x95, 0, 0, 0, 0, 0, 0, 0,
];

/// Returns where word `word` of the i-th rx slot from `start` lies in the rx ring's page.
fn rx(start: u32, i: u32, word: u32) -> u32
    requires { word < 2 }
{
    16 + 2 * (start.wrapping_add(i) % 256) + word
}

/// The answers for a packet of the bytes 0 to 13 in the i-th slot from `start`, with later ones after its run.
fn fourteen(alloc: Global, start: u32, i: u32, later: &[u32]) -> Result<Vec<u32>, AllocError> {
    let head = [
        start.wrapping_add(i).wrapping_add(1),
        2,
        0,
        slot(7, 14),
        1,
        19,
        50_462_976,
        117_835_012,
        185_207_048,
        252_579_084,
    ];
    joined(alloc, &head, later, 1, &[])
}

/// A packet of a whole page in the first slot, which is sent back.
fn a_page(alloc: Global, start: u32) -> Option<Seen> {
    let one = start.wrapping_add(1);
    let head = [one, 2, 0, slot(7, 4096), 1, 19];
    let later = [one, 9, 5, 1, 16, start, start];
    let answers = joined(alloc, &head, &[0x0403_0201], 1024, &later).ok()?;
    turn(alloc, &SENDS, start, answers.as_slice())
}

/// Returns what it comes to, how often its buffer is written, and whether a notice is sent, if the rx ring is written.
fn a_page_sent(alloc: Global, start: u32) -> Option<(Kind, usize, bool)> {
    let responses = [
        write(18, rx(start, 0, 0), 9),
        write(18, rx(start, 0, 1), 0x1000_0000),
        write(18, 2, start.wrapping_add(1)),
    ];
    let seen = a_page(alloc, start)?;
    seen.wrote(18, &responses)
        .then_some((seen.kind, seen.writes(16), seen.notified))
}

#[test]
fn a_whole_page_takes_one_rx_slot(rt: HostRuntime) {
    for start in STARTS {
        let sent = a_page_sent(rt.alloc(), start);
        assert_eq!(rt; sent, Some((Kind::ran(3, 1), 1024, false)));
    }
}

/// Returns whether a notice is sent for a packet that is sent back, if the rx ring's event index is `event`.
fn is_told(alloc: Global, start: u32, event: u32) -> Option<bool> {
    let later = [start.wrapping_add(1), 9, 5, 1, 16, event, start];
    let answers = fourteen(alloc, start, 0, &later).ok()?;
    Some(turn(alloc, &SENDS, start, answers.as_slice())?.notified)
}

#[test]
fn a_notice_of_the_rx_ring_is_sent(rt: HostRuntime) {
    for start in STARTS {
        let due = is_told(rt.alloc(), start, start.wrapping_add(1));
        let not_due = is_told(rt.alloc(), start, start);
        assert_eq!(rt; (due, not_due), (Some(true), Some(false)));
    }
}

/// Returns what a packet of 14 bytes that counts and is then sent comes to with these later answers, by the driver and by hand.
fn counted(alloc: Global, start: u32, later: &[u32]) -> Option<Kind> {
    let shape = MapShape::of(2, 1)?;
    let answers = fourteen(alloc, start, 0, later).ok()?;
    Some(
        turn_with_maps(
            alloc,
            &COUNTS_AND_SENDS,
            &[shape],
            start,
            answers.as_slice(),
        )?
        .kind,
    )
}

#[test]
fn operations_count_though_the_packet_is_sent(rt: HostRuntime) {
    let wanted = Kind::Ran {
        number: 3,
        ops: 1,
        slots: 1,
    };
    for start in STARTS {
        let one = start.wrapping_add(1);
        let kind = counted(rt.alloc(), start, &[one, 9, 5, 1, 16]);
        assert_eq!(rt; kind, Some(wanted));
    }
}

/// The end of a packet in one slot whose program counts and then sends it, and which is refused then.
fn refused_after_counting(cause: PacketRefusal) -> Kind {
    Kind::Refused {
        cause,
        ops: 1,
        slots: 1,
    }
}

#[test]
fn operations_count_though_no_rx_slot_is_posted(rt: HostRuntime) {
    let wanted = refused_after_counting(PacketRefusal::FewSlots);
    for start in STARTS {
        assert_eq!(rt; counted(rt.alloc(), start, &[start]), Some(wanted));
    }
}

#[test]
fn operations_count_though_an_rx_grant_is_refused(rt: HostRuntime) {
    let wanted = refused_after_counting(PacketRefusal::RxGrant);
    for start in STARTS {
        // The entry's flags, 5, allow reading alone.
        let kind = counted(rt.alloc(), start, &[start.wrapping_add(1), 9, 5, 5, 16]);
        assert_eq!(rt; kind, Some(wanted));
    }
}

/// The answers for a packet of 4,097 bytes, which wants two rx slots. The first one's grant is for reading alone.
fn two_pages(alloc: Global, start: u32) -> Result<Vec<u32>, AllocError> {
    let two = start.wrapping_add(2);
    let head = [two, 2, 0x4_0000, slot(7, 4097), 3, 0, slot(8, 1), 1, 19];
    let later = [1, 15, 0, two, 9, 5, 5, 16, start, start];
    joined(alloc, &head, &[0], 1024, &later)
}

/// Returns what that packet comes to.
fn fed_two_pages(alloc: Global, queue: &mut Queue, start: u32) -> Option<Seen> {
    let answers = two_pages(alloc, start).ok()?;
    fed(alloc, queue, answers.as_slice())
}

/// Returns what a packet of 14 bytes after it comes to.
fn fed_fourteen(alloc: Global, queue: &mut Queue, start: u32) -> Option<Seen> {
    let later = [start.wrapping_add(2), 10, 6, 1, 14, start, start];
    let answers = fourteen(alloc, start, 2, &later).ok()?;
    fed(alloc, queue, answers.as_slice())
}

/// Returns what the first packet comes to, if it has one response.
fn first_of_two(alloc: Global, queue: &mut Queue, start: u32) -> Option<Kind> {
    let responses = [
        write(18, rx(start, 0, 0), 9),
        write(18, rx(start, 0, 1), 0xffff_0000),
        write(18, 2, start.wrapping_add(1)),
    ];
    let seen = fed_two_pages(alloc, queue, start)?;
    seen.wrote(18, &responses).then_some(seen.kind)
}

/// Returns what the next packet comes to, if it goes on after it, on both rings.
fn second_of_two(alloc: Global, queue: &mut Queue, start: u32) -> Option<Kind> {
    let responses = [
        write(18, rx(start, 1, 0), 10),
        write(18, rx(start, 1, 1), 0x000e_0000),
        write(18, 2, start.wrapping_add(2)),
    ];
    let answered = [
        write(17, tx(start, 2, 0), 7),
        write(17, 2, start.wrapping_add(3)),
    ];
    let seen = fed_fourteen(alloc, queue, start)?;
    let wrote = seen.wrote(18, &responses) && seen.wrote(17, &answered);
    wrote.then_some(seen.kind)
}

/// Returns what the two packets come to on a new queue.
fn both_of_two(alloc: Global, start: u32) -> Option<[Option<Kind>; 2]> {
    let (bench, mut buffer) = ready(alloc, &SENDS, &[])?;
    match bench.queue(alloc, start, &mut buffer) {
        Some(mut queue) => Some([
            first_of_two(alloc, &mut queue, start),
            second_of_two(alloc, &mut queue, start),
        ]),
        None => None,
    }
}

#[test]
fn a_refused_rx_slot_is_the_last_that_is_used(rt: HostRuntime) {
    let refused = Kind::refused(PacketRefusal::RxGrant, 2);
    let wanted = [Some(refused), Some(Kind::ran(3, 1))];
    for start in STARTS {
        assert_eq!(rt; both_of_two(rt.alloc(), start), Some(wanted));
    }
}

/// Returns what a turn with these answers comes to.
fn first_kind(alloc: Global, queue: &mut Queue, answers: &[u32]) -> Option<Kind> {
    Some(fed(alloc, queue, answers)?.kind)
}

/// Returns what the next turn comes to, if it makes no access.
fn next_kind(alloc: Global, queue: &mut Queue) -> Option<Kind> {
    let seen = fed(alloc, queue, &[1])?;
    seen.made(&[]).then_some(seen.kind)
}

/// Returns what a turn with these answers comes to, and the next one, if that makes no access.
fn two_turns(alloc: Global, answers: &[u32]) -> Option<[Option<Kind>; 2]> {
    let (bench, mut buffer) = ready(alloc, &SENDS, &[])?;
    match bench.queue(alloc, 0, &mut buffer) {
        Some(mut queue) => Some([
            first_kind(alloc, &mut queue, answers),
            next_kind(alloc, &mut queue),
        ]),
        None => None,
    }
}

/// The third word of a slot with id 7 and fourteen bytes.
const FOURTEEN: u32 = 0x000e_0007;

/// Answers, and the cause for which their turn halts.
const HALTS: [(&[u32], Halt); 4] = [
    (&[257], Halt::TxProducer),
    (&[1, 2, 0x4_0000, FOURTEEN], Halt::ShortChain),
    (
        &[2, 2, 0x8_0000, FOURTEEN, 6, 0, 0],
        Halt::Chain(ChainFault::UnknownExtra),
    ),
    (
        &[
            1,
            2,
            0,
            FOURTEEN,
            1,
            19,
            50_462_976,
            117_835_012,
            185_207_048,
            252_579_084,
            257,
        ],
        Halt::RxProducer,
    ),
];

#[test]
fn each_halt_lasts(rt: HostRuntime) {
    for (answers, cause) in HALTS {
        let halted = Some(Kind::Halted { cause });
        assert_eq!(rt; two_turns(rt.alloc(), answers), Some([halted; 2]));
    }
}

/// Returns what a program comes to that ends with the word of its context at an offset.
fn ends_with_its_word_at(alloc: Global, offset: u8) -> Option<Kind> {
    let code = [0x61, 0x10, offset, 0, 0, 0, 0, 0, 0x95, 0, 0, 0, 0, 0, 0, 0];
    let answers = fourteen(alloc, 0, 0, &[]).ok()?;
    kind(alloc, &code, 0, answers.as_slice())
}

/// LDX W r0, [r1 + 12] or [r1 + 16]; EXIT.
#[test]
fn the_program_sees_its_interface_and_its_queue(rt: HostRuntime) {
    for (offset, number) in [(12, IFINDEX), (16, QUEUE)] {
        let kind = ends_with_its_word_at(rt.alloc(), offset);
        assert_eq!(rt; kind, Some(Kind::ran(number, 1)));
    }
}
