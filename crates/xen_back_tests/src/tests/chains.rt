//! Turns that end with what their slots say.

use super::fixtures::{PASSES, joined, kind, notice, read, turn, write};
use super::kind::Kind;
use super::slots::{STARTS, slot, tx};
use std::alloc::Global;
use xen_back::{Halt, PacketRefusal};
use xen_netif::{ChainFault, SizeFault};
use xen_page::Access;

/// Returns what a queue answers a chain of two slots with, ids 7 and 8, if it is refused.
fn refused(start: u32) -> [Access; 3] {
    [
        write(17, tx(start, 0, 0), 0xffff_0007),
        write(17, tx(start, 1, 0), 0xffff_0008),
        write(17, 2, start.wrapping_add(2)),
    ]
}

/// Returns the number of accesses that a turn makes that halts, with no notice.
fn halts(alloc: Global, start: u32, answers: &[u32], cause: Halt) -> Option<usize> {
    let seen = turn(alloc, &PASSES, start, answers)?;
    (seen.kind == Kind::Halted { cause } && !seen.notified).then_some(seen.accesses.len())
}

#[test]
fn nothing_shown_is_idle_after_a_second_look(rt: HostRuntime) {
    for start in STARTS {
        let accesses = [
            read(17, 0, start),
            write(17, 1, start.wrapping_add(1)),
            read(17, 0, start),
        ];
        let wanted = (Kind::Idle, accesses.as_slice());
        let notice = notice(rt.alloc(), &PASSES, start, &[start, start], wanted);
        assert!(rt; notice.is_some(), "from {start}");
    }
}

/// Returns whether a packet of fourteen bytes that are 0 passes, with a notice.
fn passes_zeros(alloc: Global, start: u32, answers: &[u32]) -> bool {
    match turn(alloc, &PASSES, start, answers) {
        Some(seen) => seen.shows(Kind::ran(2, 1), &[0; 14]) && seen.notified,
        None => false,
    }
}

#[test]
fn a_packet_that_the_second_look_shows_is_taken(rt: HostRuntime) {
    for start in STARTS {
        let one = start.wrapping_add(1);
        let answers = [start, one, 2, 0, slot(7, 14), 1, 19, 0, 0, 0, 0, one];
        assert!(rt; passes_zeros(rt.alloc(), start, &answers), "from {start}");
    }
}

#[test]
fn a_producer_past_the_ring_halts(rt: HostRuntime) {
    for start in STARTS {
        let beyond = start.wrapping_add(257);
        let first = halts(rt.alloc(), start, &[beyond], Halt::TxProducer);
        let second = halts(rt.alloc(), start, &[start, beyond], Halt::TxProducer);
        assert_eq!(rt; (first, second), (Some(1), Some(3)));
    }
}

#[test]
fn a_full_ring_goes_on(rt: HostRuntime) {
    for start in STARTS {
        let answers = [start.wrapping_add(256), 2, 0, slot(7, 14), 1, 19];
        let kind = kind(rt.alloc(), &PASSES, start, &answers);
        assert_eq!(rt; kind, Some(Kind::ran(2, 1)));
    }
}

#[test]
fn a_chain_past_the_producer_halts(rt: HostRuntime) {
    for start in STARTS {
        let answers = [start.wrapping_add(1), 2, 0x4_0000, slot(7, 14)];
        let accesses = halts(rt.alloc(), start, &answers, Halt::ShortChain);
        assert_eq!(rt; accesses, Some(4));
    }
}

/// Words of a first slot that announces more, and so often those of a later one.
fn halts_after(
    alloc: Global,
    start: u32,
    first: &[u32],
    (later, times): ([u32; 3], u32),
    cause: ChainFault,
) -> Option<usize> {
    let answers = joined(alloc, first, &later, times, &[]).ok()?;
    halts(alloc, start, answers.as_slice(), Halt::Chain(cause))
}

#[test]
fn a_nineteenth_data_slot_halts(rt: HostRuntime) {
    for start in STARTS {
        let slots = ([2, 0x4_0000, slot(7, 100)], 18);
        let shown = [start.wrapping_add(30)];
        let accesses = halts_after(rt.alloc(), start, &shown, slots, ChainFault::TooManySlots);
        assert_eq!(rt; accesses, Some(55));
    }
}

#[test]
fn extras_that_break_the_chain_halt(rt: HostRuntime) {
    for start in STARTS {
        let first = [start.wrapping_add(30), 2, 0x8_0000, slot(7, 100)];
        let (one, five) = (([6, 0, 0], 1), ([0x101, 0, 0], 5));
        let accesses = [
            halts_after(rt.alloc(), start, &first, one, ChainFault::UnknownExtra),
            halts_after(rt.alloc(), start, &first, five, ChainFault::TooManyExtras),
        ];
        assert_eq!(rt; accesses, [Some(7), Some(19)]);
    }
}

/// The accesses of a packet in two slots, the second of which is an offload.
fn offload_accesses(start: u32) -> [Access; 11] {
    [
        read(17, 0, start.wrapping_add(2)),
        read(17, tx(start, 0, 0), 2),
        read(17, tx(start, 0, 1), 0x8_0000),
        read(17, tx(start, 0, 2), slot(7, 100)),
        read(17, tx(start, 1, 0), 1),
        read(17, tx(start, 1, 1), 0),
        read(17, tx(start, 1, 2), 0),
        write(17, tx(start, 0, 0), 0xffff_0007),
        write(17, tx(start, 1, 0), 0x0001_0000),
        write(17, 2, start.wrapping_add(2)),
        read(17, 3, start),
    ]
}

#[test]
fn an_offload_is_refused(rt: HostRuntime) {
    for start in STARTS {
        let answers = [
            start.wrapping_add(2),
            2,
            0x8_0000,
            slot(7, 100),
            1,
            0,
            0,
            start,
        ];
        let accesses = offload_accesses(start);
        let kind = Kind::refused(PacketRefusal::Size(SizeFault::ExtraInfo), 2);
        let notice = notice(rt.alloc(), &PASSES, start, &answers, (kind, &accesses));
        assert_eq!(rt; notice, Some(false));
    }
}

#[test]
fn a_packet_below_fourteen_bytes_is_refused(rt: HostRuntime) {
    for start in STARTS {
        let answers = [start.wrapping_add(1), 2, 0, slot(7, 13)];
        let kind = kind(rt.alloc(), &PASSES, start, &answers);
        let wanted = Kind::refused(PacketRefusal::Size(SizeFault::ShortPacket), 1);
        assert_eq!(rt; kind, Some(wanted));
    }
}

/// Returns whether a packet below fourteen bytes is refused, and a notice is sent, if the event index is `event`.
fn is_told(alloc: Global, start: u32, event: u32) -> Option<bool> {
    let answers = [start.wrapping_add(1), 2, 0, slot(7, 13), event];
    let seen = turn(alloc, &PASSES, start, &answers)?;
    let wanted = Kind::refused(PacketRefusal::Size(SizeFault::ShortPacket), 1);
    (seen.kind == wanted).then_some(seen.notified)
}

#[test]
fn a_refusal_is_told_where_a_notice_is_due(rt: HostRuntime) {
    for start in STARTS {
        let due = is_told(rt.alloc(), start, start.wrapping_add(1));
        let not_due = is_told(rt.alloc(), start, start);
        assert_eq!(rt; (due, not_due), (Some(true), Some(false)));
    }
}

/// Returns whether a packet whose later sizes are larger than it is refused, with a refusal's writes.
fn refuses_later_sizes(alloc: Global, start: u32) -> bool {
    let answers = [
        start.wrapping_add(2),
        2,
        0x4_0000,
        slot(7, 100),
        3,
        0,
        slot(8, 101),
    ];
    let kind = Kind::refused(PacketRefusal::Size(SizeFault::LaterSizes), 2);
    match turn(alloc, &PASSES, start, &answers) {
        Some(seen) => seen.kind == kind && seen.wrote(17, &refused(start)),
        None => false,
    }
}

#[test]
fn later_sizes_past_the_packet_are_refused(rt: HostRuntime) {
    for start in STARTS {
        assert!(rt; refuses_later_sizes(rt.alloc(), start), "from {start}");
    }
}

#[test]
fn a_fragment_past_its_page_is_refused(rt: HostRuntime) {
    for start in STARTS {
        let answers = [start.wrapping_add(1), 2, 4083, slot(7, 14)];
        let kind = kind(rt.alloc(), &PASSES, start, &answers);
        let wanted = Kind::refused(PacketRefusal::Size(SizeFault::PastPage), 1);
        assert_eq!(rt; kind, Some(wanted));
    }
}

#[test]
fn halts_have_their_numbers(rt: HostRuntime) {
    let numbers = [
        Halt::TxProducer.number(),
        Halt::ShortChain.number(),
        Halt::Chain(ChainFault::TooManySlots).number(),
        Halt::Chain(ChainFault::UnknownExtra).number(),
        Halt::Chain(ChainFault::TooManyExtras).number(),
        Halt::RxProducer.number(),
    ];
    assert_eq!(rt; numbers, [1, 2, 3, 4, 5, 6]);
}

#[test]
fn refusals_have_their_numbers(rt: HostRuntime) {
    let numbers = [
        PacketRefusal::Size(SizeFault::ShortPacket).number(),
        PacketRefusal::Size(SizeFault::LaterSizes).number(),
        PacketRefusal::Size(SizeFault::PastPage).number(),
        PacketRefusal::Grant.number(),
        PacketRefusal::Size(SizeFault::ExtraInfo).number(),
        PacketRefusal::FewSlots.number(),
        PacketRefusal::RxGrant.number(),
    ];
    assert_eq!(rt; numbers, [1, 2, 3, 4, 5, 6, 7]);
}
