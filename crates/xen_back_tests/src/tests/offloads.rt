//! Packets of the host's that leave the frontend something to do.

use super::delivered::{Delivered, FOURTEEN, delivered_to, rx};
use super::deliveries::fours;
use super::fixtures::{joined, read, write};
use super::slots::STARTS;
use std::alloc::{AllocError, Global};
use xen_back::{Delivery, RxPacket, slots_of};
use xen_netif::{ACCEPTS_WHOLE, Accepts, GsoType, NO_OFFERS, Offers, RxOffload, Segments};
use xen_page::Access;

const ACCEPTS_BLANK: Accepts = Accepts {
    blank_checksums: true,
    segments: NO_OFFERS,
};

const ACCEPTS_TCPV4: Accepts = Accepts {
    blank_checksums: true,
    segments: Offers {
        gso_tcpv4: true,
        gso_tcpv6: false,
    },
};

const ACCEPTS_ALL: Accepts = Accepts {
    blank_checksums: true,
    segments: Offers {
        gso_tcpv4: true,
        gso_tcpv6: true,
    },
};

fn segmented(kind: GsoType, size: u16) -> RxOffload {
    RxOffload::Segmented(Segments { kind, size })
}

/// The delivery of `length` bytes of 4 to a frontend that accepts all.
fn fours_as(
    alloc: Global,
    offload: RxOffload,
    start: u32,
    length: usize,
    answers: &[u32],
) -> Option<Delivered> {
    let bytes = fours(alloc, length).ok()?;
    let packet = RxPacket {
        offload,
        bytes: bytes.as_slice(),
    };
    delivered_to(alloc, ACCEPTS_ALL, start, packet, answers)
}

/// Returns what the delivery of fourteen bytes makes that stand for segments of ten. The second slot is read, and its entry isn't.
fn fourteen_accesses(start: u32, kind: u32) -> [Access; 17] {
    let two = start.wrapping_add(2);
    [
        read(18, 0, two),
        read(18, rx(start, 0, 0), 9),
        read(18, rx(start, 0, 1), 5),
        read(1, 10, 1),
        read(1, 11, 16),
        read(18, rx(start, 1, 0), 10),
        read(18, rx(start, 1, 1), 6),
        write(16, 0, 0x0302_0100),
        write(16, 1, 0x0706_0504),
        write(16, 2, 0x0b0a_0908),
        write(16, 3, 0x0000_0d0c),
        write(18, rx(start, 0, 0), 9),
        // netif.h: data_validated 1, csum_blank 2, extra_info 8
        write(18, rx(start, 0, 1), 0x000e_000b),
        // an extra of type 1 without a flag, of the size and its type
        write(18, rx(start, 1, 0), 0x000a_0001),
        write(18, rx(start, 1, 1), kind),
        write(18, 2, two),
        read(18, 3, two),
    ]
}

/// Returns what that delivery comes to, and whether a notice is sent, if it makes these accesses.
fn short_packet(alloc: Global, start: u32, kind: GsoType) -> Option<(Delivery, bool)> {
    let two = start.wrapping_add(2);
    let packet = RxPacket {
        offload: segmented(kind, 10),
        bytes: &FOURTEEN,
    };
    let answers = [two, 9, 5, 1, 16, 10, 6, two];
    let seen = delivered_to(alloc, ACCEPTS_ALL, start, packet, &answers)?;
    let accesses = fourteen_accesses(start, u32::from(kind.number()));
    (seen.accesses.as_slice() == accesses.as_slice()).then_some((seen.delivery, seen.notified))
}

#[test]
fn segments_of_a_short_packet_take_a_second_slot(rt: HostRuntime) {
    let wanted = Some((Delivery::Sent { slots: 2 }, true));
    for start in STARTS {
        for kind in [GsoType::TcpV4, GsoType::TcpV6] {
            assert_eq!(rt; short_packet(rt.alloc(), start, kind), wanted);
        }
    }
}

/// Returns what the delivery of 4,097 bytes comes to that stand for segments of 1,440, and how many accesses it makes, if it writes
/// the buffer of the third slot and the rx ring.
fn two_pages(alloc: Global, start: u32) -> Option<(Delivery, usize)> {
    let three = start.wrapping_add(3);
    let responses = [
        write(18, rx(start, 0, 0), 9),
        write(18, rx(start, 0, 1), 0x1000_000f),
        write(18, rx(start, 1, 0), 0x05a0_0001),
        write(18, rx(start, 1, 1), 2),
        write(18, rx(start, 2, 0), 11),
        write(18, rx(start, 2, 1), 0x0001_0000),
        write(18, 2, three),
    ];
    let answers = [three, 9, 5, 1, 16, 10, 6, 11, 7, 1, 14, start];
    let offload = segmented(GsoType::TcpV6, 1440);
    let seen = fours_as(alloc, offload, start, 4097, &answers)?;
    let wrote = seen.wrote(14, &[write(14, 0, 4)]) && seen.wrote(18, &responses);
    wrote.then_some((seen.delivery, seen.accesses.len()))
}

#[test]
fn segments_of_two_pages_take_three_slots(rt: HostRuntime) {
    let wanted = (Delivery::Sent { slots: 3 }, 1 + 10 + 1025 + 6 + 2);
    for start in STARTS {
        assert_eq!(rt; two_pages(rt.alloc(), start), Some(wanted));
    }
}

/// The answers for seventeen posted slots, of which the second isn't a page's.
fn seventeen_slots(alloc: Global, start: u32) -> Result<Vec<u32>, AllocError> {
    let seventeen = start.wrapping_add(17);
    let head = [seventeen, 9, 5, 1, 16, 10, 6];
    joined(alloc, &head, &[9, 5, 1, 16], 15, &[seventeen])
}

/// Returns what the delivery of 65,535 bytes comes to that stand for segments, how many accesses it makes, and whether a notice is
/// sent.
fn longest(alloc: Global, start: u32) -> Option<(Delivery, usize, bool)> {
    let answers = seventeen_slots(alloc, start).ok()?;
    let offload = segmented(GsoType::TcpV4, 1448);
    let seen = fours_as(alloc, offload, start, 65_535, answers.as_slice())?;
    Some((seen.delivery, seen.accesses.len(), seen.notified))
}

#[test]
fn segments_of_the_longest_packet_take_seventeen_slots(rt: HostRuntime) {
    let sent = Delivery::Sent { slots: 17 };
    let wanted = (sent, 1 + 66 + 16_384 + 34 + 2, true);
    for start in STARTS {
        assert_eq!(rt; longest(rt.alloc(), start), Some(wanted));
    }
}

/// Returns what the delivery of 65,535 bytes comes to with sixteen slots posted, and how many accesses it makes.
fn one_slot_too_few(alloc: Global, start: u32) -> Option<(Delivery, usize)> {
    let offload = segmented(GsoType::TcpV4, 1448);
    let sixteen = start.wrapping_add(16);
    let seen = fours_as(alloc, offload, start, 65_535, &[sixteen])?;
    Some((seen.delivery, seen.accesses.len()))
}

#[test]
fn sixteen_slots_are_too_few_for_segments_of_sixteen_pages(rt: HostRuntime) {
    for start in STARTS {
        let found = one_slot_too_few(rt.alloc(), start);
        assert_eq!(rt; found, Some((Delivery::FewSlots, 1)));
    }
}

/// Returns how many slots `length` bytes take, whole and as segments.
fn slots(alloc: Global, length: usize) -> Option<[u32; 2]> {
    if length > 65_535 {
        return None;
    }
    let bytes = fours(alloc, length).ok()?;
    let bytes = bytes.as_slice();
    if bytes.len() > 65_535 {
        return None;
    }
    let whole = RxPacket {
        offload: RxOffload::Whole,
        bytes,
    };
    let offload = segmented(GsoType::TcpV4, 1448);
    Some([slots_of(&whole), slots_of(&RxPacket { offload, bytes })])
}

#[test]
fn a_host_awaits_a_slot_more_for_segments(rt: HostRuntime) {
    for (length, wanted) in [(14, [1, 2]), (4097, [2, 3]), (65_535, [16, 17])] {
        assert_eq!(rt; slots(rt.alloc(), length), Some(wanted));
    }
}

/// Returns what the delivery of 4,097 bytes comes to that stand for segments, whose third slot's grant is refused, if it writes the
/// rx ring and no buffer.
fn third_grant_refused(alloc: Global, start: u32) -> Option<Delivery> {
    let three = start.wrapping_add(3);
    let responses = [
        write(18, rx(start, 0, 0), 9),
        write(18, rx(start, 0, 1), 0xffff_0000),
        write(18, rx(start, 1, 0), 10),
        write(18, rx(start, 1, 1), 0xffff_0000),
        write(18, rx(start, 2, 0), 11),
        write(18, rx(start, 2, 1), 0xffff_0000),
        write(18, 2, three),
    ];
    // The entry's flags, 5, allow reading alone.
    let answers = [three, 9, 5, 1, 16, 10, 6, 11, 7, 5, 14, three];
    let offload = segmented(GsoType::TcpV4, 1448);
    let seen = fours_as(alloc, offload, start, 4097, &answers)?;
    let wrote = seen.wrote(16, &[]) && seen.wrote(14, &[]) && seen.wrote(18, &responses);
    wrote.then_some(seen.delivery)
}

#[test]
fn a_refused_packet_has_no_extra(rt: HostRuntime) {
    let wanted = Some(Delivery::Refused { slots: 3 });
    for start in STARTS {
        assert_eq!(rt; third_grant_refused(rt.alloc(), start), wanted);
    }
}

/// Returns what the delivery of 4,097 bytes in two slots comes to, if these are the flags of its responses.
fn two_flags(alloc: Global, offload: RxOffload, first: u32) -> Option<Delivery> {
    let responses = [
        write(18, rx(0, 0, 0), 9),
        write(18, rx(0, 0, 1), 0x1000_0000 + first % 0x1_0000),
        write(18, rx(0, 1, 0), 10),
        write(18, rx(0, 1, 1), 0x0001_0000),
        write(18, 2, 2),
    ];
    let seen = fours_as(alloc, offload, 0, 4097, &[2, 9, 5, 1, 16, 10, 6, 1, 14])?;
    seen.wrote(18, &responses).then_some(seen.delivery)
}

#[test]
fn a_checksum_takes_no_slot(rt: HostRuntime) {
    let wanted = Some(Delivery::Sent { slots: 2 });
    // netif.h: data_validated 1, csum_blank 2, more_data 4
    for (offload, first) in [
        (RxOffload::Whole, 4),
        (RxOffload::Validated, 5),
        (RxOffload::Blank, 7),
    ] {
        assert_eq!(rt; two_flags(rt.alloc(), offload, first), wanted);
    }
}

/// Returns whether a frontend that accepts so much gets fourteen bytes. `None` if that comes to anything else, or a packet that it
/// doesn't get is begun.
fn gets(alloc: Global, accepts: Accepts, offload: RxOffload) -> Option<bool> {
    let packet = RxPacket {
        offload,
        bytes: &FOURTEEN,
    };
    let answers = [2, 9, 5, 1, 16];
    let seen = delivered_to(alloc, accepts, 0, packet, &answers)?;
    match seen.delivery {
        Delivery::Sent { .. } => Some(true),
        Delivery::NotAccepted => seen.accesses.is_empty().then_some(false),
        _ => None,
    }
}

#[test]
fn a_frontend_gets_what_it_accepts(rt: HostRuntime) {
    for (accepts, blank, v4, v6) in [
        (ACCEPTS_WHOLE, false, false, false),
        (ACCEPTS_BLANK, true, false, false),
        (ACCEPTS_TCPV4, true, true, false),
        (ACCEPTS_ALL, true, true, true),
    ] {
        for (offload, wanted) in [
            (RxOffload::Whole, true),
            (RxOffload::Validated, true),
            (RxOffload::Blank, blank),
            (segmented(GsoType::TcpV4, 14), v4),
            (segmented(GsoType::TcpV6, 14), v6),
        ] {
            assert_eq!(rt; gets(rt.alloc(), accepts, offload), Some(wanted));
        }
    }
    for size in [0, 15] {
        let offload = segmented(GsoType::TcpV4, size);
        assert_eq!(rt; gets(rt.alloc(), ACCEPTS_ALL, offload), Some(false));
    }
}
