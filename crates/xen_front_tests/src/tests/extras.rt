//! What a front takes of packets that leave it a checksum or a segmentation. Flags of a response (netif.h, `XEN_NETRXF_*`):
//! 1 `data_validated`, 2 `csum_blank`, 4 `more_data`, 8 `extra_info`. An extra of GSO: type 1, the size in the high half; then
//! 1 for TCP over IPv4, 2 over IPv6.

use super::fixtures::{Call, End, READ, STARTS, WRITE};
use super::steps::{Step, after, after_accepting};
use crate::bench::RX;
use std::alloc::Global;
use xen_front::{Accepts, FrontHalt, RxOffload};
use xen_netif::{GsoType, Offers, Segments};

/// Both types are accepted.
const ACCEPTS: Accepts = Accepts {
    blank_checksums: true,
    segments: Offers {
        gso_tcpv4: true,
        gso_tcpv6: true,
    },
};

/// TCP over IPv4 alone.
const ACCEPTS_IPV4: Accepts = Accepts {
    blank_checksums: true,
    segments: Offers {
        gso_tcpv4: true,
        gso_tcpv6: false,
    },
};

/// Segments of 1,448 bytes.
fn segmented(kind: GsoType) -> RxOffload {
    RxOffload::Segmented(Segments { kind, size: 1448 })
}

/// The extra has no id: its buffer is that of the request in its entry, and its page isn't read. Both buffers come back, so that
/// the next post takes id 0.
#[test]
fn an_extra_behind_one_slot(rt: HostRuntime) {
    for start in STARTS {
        for (number, kind) in [(1, GsoType::TcpV4), (2, GsoType::TcpV6)] {
            let shown = start.wrapping_add(2);
            let slot = if start == 0 { 18 } else { 16 };
            let answers = [
                start,
                start,
                shown,
                0,
                0x0004_000b,
                0x0403_0201,
                0x05a8_0001,
                number,
            ];
            let end = [
                (WRITE, 1, 516, 0),
                (READ, 275, 0, 0x0403_0201),
                (READ, RX, slot, 0x05a8_0001),
                (READ, RX, slot + 1, number),
                (WRITE, 1, 518, 0),
            ];
            let receives = Step::receives(&answers, &[1, 2, 3, 4])
                .leaves(segmented(kind))
                .ends(6, &end);
            let again = [(WRITE, 1, 517, 275), (WRITE, 1, 516, 1)];
            let steps = [Step::posts(2), receives, Step::posts(1).shows(0, &again)];
            let seen = after_accepting(rt.alloc(), start, ACCEPTS, &steps);
            assert_eq!(rt; seen, Ok([0; 4]), "{number}");
        }
    }
}

/// Of three slots the second takes the extra. Ids come in another order than their requests.
#[test]
fn an_extra_before_a_further_slot(rt: HostRuntime) {
    for start in STARTS {
        let shown = start.wrapping_add(3);
        let answers = [
            start,
            start,
            shown,
            2,
            0x0004_000f,
            0x0403_0201,
            0x05a8_0001,
            1,
            0,
            0x0002_0000,
            0x0605,
        ];
        let receives = Step::receives(&answers, &[1, 2, 3, 4, 5, 6])
            .leaves(segmented(GsoType::TcpV4))
            .makes(4 + 4 + 3 + 4);
        let steps = [Step::posts(3), receives];
        let seen = after_accepting(rt.alloc(), start, ACCEPTS, &steps);
        assert_eq!(rt; seen, Ok([0; 4]));
    }
}

/// What the flags of the first response say of the checksum, also to a front that accepts whole packets alone. Those of a later one
/// say nothing.
#[test]
fn a_checksum_as_the_first_response_says(rt: HostRuntime) {
    for (flags, offload) in [
        (0, RxOffload::Whole),
        (1, RxOffload::Validated),
        (2, RxOffload::Blank),
        (3, RxOffload::Blank),
    ] {
        let alone = [0, 0, 1, 0, 0x0002_0000 | flags, 0x0201];
        let first = [0, 0, 2, 0, 0x0002_0004 | flags, 0x0201, 1, 0];
        let later = [0, 0, 2, 0, 0x0002_0004, 0x0201, 1, flags];
        for (answers, said) in [
            (&alone[..], offload),
            (&first[..], offload),
            (&later[..], RxOffload::Whole),
        ] {
            let receives = Step::receives(answers, &[1, 2]).leaves(said);
            let seen = after(rt.alloc(), 0, &[Step::posts(2), receives]);
            assert_eq!(rt; seen, Ok([0; 4]), "{flags}");
        }
    }
}

/// A packet whose first status is negative, with its extra: both slots are consumed.
#[test]
fn an_extra_of_a_refused_packet(rt: HostRuntime) {
    let answers = [0, 0, 2, 0, 0xffff_000b, 0x05a8_0001, 1];
    let refuses = Step::of(Call::Poll, &answers, End::Refused).makes(4 + 3 + 3);
    let nothing = Step::of(Call::Poll, &[0, 0, 2, 2], End::Idle);
    let steps = [Step::posts(2), refuses, nothing];
    assert_eq!(rt; after_accepting(rt.alloc(), 0, ACCEPTS, &steps), Ok([0; 4]));
}

/// A poll of a front with three posted buffers that halts.
fn after_halting(
    alloc: Global,
    answers: &[u32],
    cause: FrontHalt,
    accesses: usize,
) -> Result<[u64; 4], usize> {
    let halts = Step::of(Call::Poll, answers, End::Halted(cause)).makes(accesses);
    after_accepting(alloc, 0, ACCEPTS_IPV4, &[Step::posts(3), halts])
}

/// No grant of the extra's buffer is ended.
#[test]
fn an_extra_that_is_not_taken(rt: HostRuntime) {
    for (first, second) in [
        // Of TCP over IPv6, of no type, and of a type without a name.
        (0x05a8_0001, 2),
        (0x05a8_0001, 0),
        (0x05a8_0001, 3),
        // Segments of no bytes.
        (0x0000_0001, 1),
        // Another extra would follow.
        (0x05a8_0101, 1),
        // An extra of a hash, and of no type.
        (0x05a8_0004, 1),
        (0x05a8_0000, 1),
    ] {
        let answers = [0, 0, 2, 0, 0x0000_000b, first, second];
        let seen = after_halting(rt.alloc(), &answers, FrontHalt::RxSlot, 4 + 3 + 2);
        assert_eq!(rt; seen, Ok([0; 4]), "{first} {second}");
    }
}

/// An extra in the entry of a request that was answered already, one behind a later slot, and one that the producer doesn't show.
#[test]
fn an_extra_in_a_wrong_place(rt: HostRuntime) {
    let answered = [0, 0, 2, 1, 0x0000_000b, 0x05a8_0001, 1];
    let seen = after_halting(rt.alloc(), &answered, FrontHalt::RxSlot, 4 + 3 + 2);
    assert_eq!(rt; seen, Ok([0; 4]));
    let later = [0, 0, 3, 0, 0x0000_0004, 1, 0x0000_000b];
    let seen = after_halting(rt.alloc(), &later, FrontHalt::RxSlot, 4 + 3 + 2);
    assert_eq!(rt; seen, Ok([0; 4]));
    let short = [0, 0, 1, 0, 0x0000_000b];
    let seen = after_halting(rt.alloc(), &short, FrontHalt::ShortChain, 4 + 3);
    assert_eq!(rt; seen, Ok([0; 4]));
}
