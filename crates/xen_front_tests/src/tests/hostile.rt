//! What a front does before a back that breaks the protocol.

use super::fixtures::{Call, End, READ, Row, SMALL, STARTS, WRITE};
use super::steps::{Step, after, filled};
use crate::bench::{RX, TX};
use std::alloc::{AllocError, Global};
use xen_front::{FrontHalt, PollRefusal, PostRefusal, SendRefusal};

/// A poll for which the front halts.
fn halting(answers: &[u32], cause: FrontHalt) -> Step<'_> {
    Step::of(Call::Poll, answers, End::Halted(cause))
}

/// `sent` packets are sent and `posted` buffers posted, and then a poll is made, after which the front refuses every
/// call for good, without an access.
fn after_the_last(
    alloc: Global,
    start: u32,
    sent: u32,
    posted: u32,
    last: Step,
) -> Result<[u64; 4], usize> {
    let steps = [
        Step::sends(sent),
        Step::posts(posted),
        last,
        Step::of(Call::Send(&SMALL), &[], End::NotSent(SendRefusal::Halted)).makes(0),
        Step::of(Call::Post, &[], End::NotPosted(PostRefusal::Halted)).makes(0),
        Step::of(Call::Poll, &[], End::NotPolled(PollRefusal::Halted)).makes(0),
    ];
    after(alloc, start, &steps)
}

/// The answers of the chain of sixteen slots that is too long in a new ring: ids 0 to 15, each of which wants another.
#[rattlefmt::skip]
const LONG: [u32; 35] = [
    0, 0, 16,
    0, 4, 1, 4, 2, 4, 3, 4, 4, 4, 5, 4, 6, 4, 7, 4,
    8, 4, 9, 4, 10, 4, 11, 4, 12, 4, 13, 4, 14, 4, 15, 4,
];

/// The shortest lists of answers that give each halt in a new ring, as in docs/NETFRONT.md.
#[test]
fn the_shortest_scripts(rt: HostRuntime) {
    let scripts: [(u32, u32, &[u32], FrontHalt); 7] = [
        (0, 0, &[1], FrontHalt::TxProducer),
        (1, 0, &[1, 5], FrontHalt::TxId),
        (0, 0, &[0, 0, 1], FrontHalt::RxProducer),
        (0, 1, &[0, 0, 1, 5, 0], FrontHalt::RxSlot),
        (0, 1, &[0, 0, 1, 0, 0x1001_0000], FrontHalt::RxSize),
        (0, 1, &[0, 0, 1, 0, 4], FrontHalt::ShortChain),
        (0, 16, &LONG, FrontHalt::LongChain),
    ];
    let mut number = 0u8;
    for (sent, posted, answers, cause) in scripts {
        let seen = after_the_last(rt.alloc(), 0, sent, posted, halting(answers, cause));
        number = number.saturating_add(1);
        assert_eq!(rt; (seen, cause.number()), (Ok([0; 4]), number));
    }
}

#[test]
fn a_tx_producer_beyond_what_is_outstanding(rt: HostRuntime) {
    for start in STARTS {
        let producer = start.wrapping_add(4);
        let read = [(READ, TX, 2, producer)];
        let beyond = [producer];
        let back = [start.wrapping_sub(1)];
        let second = [start, producer];
        for last in [
            halting(&beyond, FrontHalt::TxProducer).ends(0, &read),
            // A producer that goes back.
            halting(&back, FrontHalt::TxProducer),
            // At the second look.
            halting(&second, FrontHalt::TxProducer).makes(3),
        ] {
            assert_eq!(rt; after_the_last(rt.alloc(), start, 3, 0, last), Ok([0; 4]));
        }
    }
}

/// No grant is ended.
#[test]
fn a_tx_response_to_nothing(rt: HostRuntime) {
    for start in STARTS {
        let slot = if start == 0 { 16 } else { 781 };
        let producer = start.wrapping_add(1);
        for id in [1, 255, 256, 0xFFFF] {
            let log = [(READ, TX, 2, producer), (READ, TX, slot, id)];
            let answers = [producer, id];
            let last = halting(&answers, FrontHalt::TxId).ends(0, &log);
            let seen = after_the_last(rt.alloc(), start, 1, 0, last);
            assert_eq!(rt; seen, Ok([0; 4]), "{id}");
        }
    }
}

#[test]
fn a_second_response_to_one_request(rt: HostRuntime) {
    for start in STARTS {
        let answers = [start.wrapping_add(2), 1, 1];
        let last = halting(&answers, FrontHalt::TxId).makes(4);
        let seen = after_the_last(rt.alloc(), start, 2, 0, last);
        assert_eq!(rt; seen, Ok([1, 0, 0, 0]));
    }
}

#[test]
fn an_rx_producer_beyond_what_is_outstanding(rt: HostRuntime) {
    for start in STARTS {
        let producer = start.wrapping_add(1);
        let answers = [start, start, producer];
        let read = [(READ, RX, 2, producer)];
        let last = halting(&answers, FrontHalt::RxProducer).ends(3, &read);
        assert_eq!(rt; after_the_last(rt.alloc(), start, 0, 0, last), Ok([0; 4]));
    }
}

/// No grant is ended and no page is read.
#[test]
fn an_rx_response_with_a_wrong_id_or_flags(rt: HostRuntime) {
    for start in STARTS {
        for (first, second) in [
            (1, 0x000e_0000),
            (256, 0x000e_0000),
            (0, 0x000e_0008),
            (0, 0x000e_0010),
            // Before a size that passes the page.
            (0, 0x1001_0008),
        ] {
            let answers = [start, start, start.wrapping_add(1), first, second];
            let last = halting(&answers, FrontHalt::RxSlot).makes(6);
            let seen = after_the_last(rt.alloc(), start, 0, 1, last);
            assert_eq!(rt; seen, Ok([0; 4]), "{first} {second}");
        }
    }
}

#[test]
fn an_rx_response_past_its_page(rt: HostRuntime) {
    for start in STARTS {
        for (first, second) in [
            (0, 0x1001_0000),
            (0x0001_0000, 0x1000_0000),
            // Status -1 at offset 4,098.
            (0x1002_0000, 0xFFFF_0000),
            // Before a chain that the producer didn't show.
            (0, 0x1001_0004),
        ] {
            let answers = [start, start, start.wrapping_add(1), first, second];
            let last = halting(&answers, FrontHalt::RxSize).makes(6);
            let seen = after_the_last(rt.alloc(), start, 0, 1, last);
            assert_eq!(rt; seen, Ok([0; 4]), "{first} {second}");
        }
    }
}

/// The chain ends after its slot's page words.
#[test]
fn a_chain_past_the_producer(rt: HostRuntime) {
    for start in STARTS {
        let answers = [start, start, start.wrapping_add(1), 0, 0x0005_0004, 1, 2];
        let end = [(WRITE, 1, 516, 0), (READ, 275, 0, 1), (READ, 275, 1, 2)];
        let last = halting(&answers, FrontHalt::ShortChain).ends(6, &end);
        assert_eq!(rt; after_the_last(rt.alloc(), start, 0, 2, last), Ok([0; 4]));
    }
}

/// A chain of responses, of ids from 0 on.
#[derive(Clone, Copy)]
struct Chain {
    slots: u32,
    /// The second word of each response but the last.
    second: u32,
    last: u32,
    /// The number of words of each page that are read.
    words: u32,
}

/// Adds the answers of a poll whose tx ring has nothing, and whose rx ring shows a chain.
fn add_chain(answers: &mut Vec<u32>, start: u32, chain: Chain) -> Result<(), AllocError> {
    answers.extend_from_slice(&[start, start, start.wrapping_add(chain.slots)])?;
    for id in 0..chain.slots {
        let is_last = id.saturating_add(1) == chain.slots;
        answers.push(id)?;
        answers.push(if is_last { chain.last } else { chain.second })?;
        for _word in 0..chain.words {
            answers.push(0x0707_0707)?;
        }
    }
    Ok(())
}

/// A chain for which the front halts, after `accesses` accesses.
fn after_a_chain(
    alloc: Global,
    start: u32,
    chain: Chain,
    cause: FrontHalt,
    accesses: usize,
) -> Result<[u64; 4], usize> {
    let mut answers = Vec::new(alloc);
    match add_chain(&mut answers, start, chain) {
        Ok(()) => {
            let last = halting(answers.as_slice(), cause).makes(accesses);
            after_the_last(alloc, start, 0, chain.slots, last)
        }
        Err(_) => Err(0),
    }
}

/// A sixteenth slot that wants another.
#[test]
fn a_seventeenth_slot(rt: HostRuntime) {
    let chain = Chain {
        slots: 17,
        second: 4,
        last: 0,
        words: 0,
    };
    for start in STARTS {
        let accesses = 4 + 15 * 3 + 2;
        let seen = after_a_chain(rt.alloc(), start, chain, FrontHalt::LongChain, accesses);
        assert_eq!(rt; seen, Ok([0; 4]));
    }
}

#[test]
fn a_packet_of_more_than_65_535_bytes(rt: HostRuntime) {
    let chain = Chain {
        slots: 16,
        second: 0x1000_0004,
        last: 0x1000_0000,
        words: 1024,
    };
    for start in STARTS {
        let accesses = 4 + 15 * 1027 + 2;
        let seen = after_a_chain(rt.alloc(), start, chain, FrontHalt::LongChain, accesses);
        assert_eq!(rt; seen, Ok([0; 4]));
    }
}

/// A sixteenth slot that wants another and also passes its page: the page comes first.
#[test]
fn a_page_is_passed_before_a_chain_is_too_long(rt: HostRuntime) {
    let chain = Chain {
        slots: 16,
        second: 4,
        last: 0x1001_0004,
        words: 0,
    };
    for start in STARTS {
        let accesses = 4 + 15 * 3 + 2;
        let seen = after_a_chain(rt.alloc(), start, chain, FrontHalt::RxSize, accesses);
        assert_eq!(rt; seen, Ok([0; 4]));
    }
}

/// Fifteen full pages and one of 4,095 bytes.
fn after_the_longest(alloc: Global, start: u32) -> Result<[u64; 4], usize> {
    let chain = Chain {
        slots: 16,
        second: 0x1000_0004,
        last: 0x0FFF_0000,
        words: 1024,
    };
    let Some(bytes) = filled(alloc, 7, 65_535) else {
        return Err(0);
    };
    let mut answers = Vec::new(alloc);
    match add_chain(&mut answers, start, chain) {
        Ok(()) => {
            let receives = Step::receives(answers.as_slice(), bytes.as_slice());
            after(alloc, start, &[Step::posts(16), receives])
        }
        Err(_) => Err(0),
    }
}

#[test]
fn a_packet_of_65_535_bytes_is_received(rt: HostRuntime) {
    for start in STARTS {
        assert_eq!(rt; after_the_longest(rt.alloc(), start), Ok([0; 4]));
    }
}

/// Two responses, of which one has a negative status: three page words are read in all.
#[test]
fn a_negative_status_refuses_the_packet(rt: HostRuntime) {
    for start in STARTS {
        let shown = start.wrapping_add(2);
        for answers in [
            [start, start, shown, 0, 0x000A_0004, 1, 2, 3, 1, 0xFFFF_0000],
            [start, start, shown, 1, 0xFFFF_0004, 0, 0x000A_0000, 1, 2, 3],
        ] {
            let refuses = Step::of(Call::Poll, &answers, End::Refused).makes(4 + 3 + 3 + 3);
            let seen = after(rt.alloc(), start, &[Step::posts(2), refuses]);
            assert_eq!(rt; seen, Ok([0; 4]));
        }
    }
}

/// A poll of nothing after a packet that was refused.
#[test]
fn the_slots_of_a_refused_packet_are_consumed(rt: HostRuntime) {
    for start in STARTS {
        let shown = start.wrapping_add(2);
        let refused = [start, start, shown, 0, 0x000A_0004, 1, 2, 3, 1, 0xFFFF_0000];
        let nothing = [start, start, shown, shown];
        let event: [Row; 1] = [(WRITE, RX, 3, start.wrapping_add(3))];
        let steps = [
            Step::posts(2),
            Step::of(Call::Poll, &refused, End::Refused),
            Step::of(Call::Poll, &nothing, End::Idle).shows(4, &event),
        ];
        assert_eq!(rt; after(rt.alloc(), start, &steps), Ok([0; 4]));
    }
}

#[test]
fn a_status_of_minus_1_at_offset_4_097(rt: HostRuntime) {
    for start in STARTS {
        let answers = [
            start,
            start,
            start.wrapping_add(1),
            0x1001_0000,
            0xFFFF_0000,
        ];
        let refuses = Step::of(Call::Poll, &answers, End::Refused);
        let seen = after(rt.alloc(), start, &[Step::posts(1), refuses]);
        assert_eq!(rt; seen, Ok([0; 4]));
    }
}
