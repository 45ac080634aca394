//! Packets that are to be segmented, and what their queue offers.

use super::fixtures::{PASSES, Seen, driven, fed, write};
use super::kind::Kind;
use super::slots::{STARTS, slot, tx};
use crate::bench::ready;
use std::alloc::Global;
use xen_back::PacketRefusal;
use xen_netif::{NO_OFFERS, Offers, SizeFault};

const TCPV4: Offers = Offers {
    gso_tcpv4: true,
    gso_tcpv6: false,
};

const TCPV6: Offers = Offers {
    gso_tcpv4: false,
    gso_tcpv6: true,
};

/// An extra that is GSO, with segments of 536 bytes.
const GSO: u32 = 0x0218_0001;

/// The turn of a new queue with these offers by `drive_turn`.
fn by_driver(alloc: Global, offers: Offers, start: u32, answers: &[u32]) -> Option<Seen> {
    let (bench, mut buffer) = ready(alloc, &PASSES, &[])?;
    let bench = bench.with_offers(offers);
    match bench.queue(alloc, start, &mut buffer) {
        Some(mut queue) => driven(alloc, &mut queue, &[], answers),
        None => None,
    }
}

/// The same by `want` and `feed`.
fn by_hand(alloc: Global, offers: Offers, start: u32, answers: &[u32]) -> Option<Seen> {
    let (bench, mut buffer) = ready(alloc, &PASSES, &[])?;
    let bench = bench.with_offers(offers);
    match bench.queue(alloc, start, &mut buffer) {
        Some(mut queue) => fed(alloc, &mut queue, answers),
        None => None,
    }
}

/// The turn that comes out both ways.
fn turn(alloc: Global, offers: Offers, start: u32, answers: &[u32]) -> Option<Seen> {
    let seen = by_driver(alloc, offers, start, answers)?;
    let same = by_hand(alloc, offers, start, answers)?;
    (seen == same).then_some(seen)
}

/// The words of a packet of 600 bytes with one extra, and its grant's entry.
fn words(start: u32, extra: u32, kind: u32) -> [u32; 9] {
    [
        start.wrapping_add(2),
        2,
        0x8_0000,
        slot(7, 600),
        extra,
        kind,
        0,
        1,
        19,
    ]
}

/// Returns what becomes of that packet.
fn kind(alloc: Global, offers: Offers, start: u32, extra: u32, kind: u32) -> Option<Kind> {
    Some(turn(alloc, offers, start, &words(start, extra, kind))?.kind)
}

/// A packet with an extra that isn't taken.
fn refused(slots: u32) -> Option<Kind> {
    Some(Kind::refused(PacketRefusal::Size(SizeFault::ExtraInfo), slots))
}

/// Returns whether a packet passes, and its extra's slot is answered with NULL.
fn passes(alloc: Global, start: u32) -> bool {
    let answers = [
        write(17, tx(start, 0, 0), 7),
        write(17, tx(start, 1, 0), 0x1_0000),
        write(17, 2, start.wrapping_add(2)),
    ];
    match turn(alloc, TCPV4, start, &words(start, GSO, 1)) {
        Some(seen) => seen.kind == Kind::ran(2, 2) && seen.wrote(17, &answers),
        None => false,
    }
}

#[test]
fn an_offered_packet_is_taken(rt: HostRuntime) {
    for start in STARTS {
        assert!(rt; passes(rt.alloc(), start), "from {start}");
    }
}

#[test]
fn only_an_offered_type_is_taken(rt: HostRuntime) {
    for start in STARTS {
        let taken = Some(Kind::ran(2, 2));
        let ends = [
            kind(rt.alloc(), TCPV4, start, GSO, 1),
            kind(rt.alloc(), TCPV6, start, GSO, 2),
            kind(rt.alloc(), TCPV4, start, GSO, 2),
            kind(rt.alloc(), TCPV6, start, GSO, 1),
            kind(rt.alloc(), TCPV4, start, GSO, 3),
            kind(rt.alloc(), NO_OFFERS, start, GSO, 1),
        ];
        assert_eq!(rt;
            ends,
            [taken, taken, refused(2), refused(2), refused(2), refused(2)]
        );
    }
}

#[test]
fn a_segment_is_of_536_bytes_up_to_the_packet(rt: HostRuntime) {
    for start in STARTS {
        let taken = Some(Kind::ran(2, 2));
        let ends = [
            kind(rt.alloc(), TCPV4, start, 0x0000_0001, 1),
            kind(rt.alloc(), TCPV4, start, 0x0001_0001, 1),
            kind(rt.alloc(), TCPV4, start, 0x0217_0001, 1),
            kind(rt.alloc(), TCPV4, start, 0x0258_0001, 1),
            kind(rt.alloc(), TCPV4, start, 0x0259_0001, 1),
        ];
        assert_eq!(rt;
            ends,
            [refused(2), refused(2), refused(2), taken, refused(2)]
        );
    }
}

#[test]
fn an_extra_of_another_type_is_refused(rt: HostRuntime) {
    for start in STARTS {
        let end = kind(rt.alloc(), TCPV4, start, 0x0218_0002, 1);
        assert_eq!(rt; end, refused(2));
    }
}

/// Returns what becomes of that packet with two extras, each of which would be taken alone.
fn kind_of_two(alloc: Global, start: u32) -> Option<Kind> {
    let words = [
        start.wrapping_add(3),
        2,
        0x8_0000,
        slot(7, 600),
        0x0218_0101,
        1,
        0,
        GSO,
        1,
        0,
    ];
    Some(turn(alloc, TCPV4, start, &words)?.kind)
}

#[test]
fn two_extras_are_refused(rt: HostRuntime) {
    for start in STARTS {
        assert_eq!(rt; kind_of_two(rt.alloc(), start), refused(3));
    }
}
