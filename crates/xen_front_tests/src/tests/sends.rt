//! Sends, posts, and the polls of an honest back.

use super::fixtures::{Call, End, READ, SMALL, STARTS, WRITE};
use super::steps::{Step, after, filled};
use crate::bench::{Bench, RX, TX};
use std::alloc::Global;
use xen_front::{Front, PollRefusal, PostRefusal, SendRefusal};
use xen_steps::{Answer, Want};

#[test]
fn a_send_lends_a_page_and_pushes_a_slot(rt: HostRuntime) {
    for start in STARTS {
        let next = start.wrapping_add(1);
        let slot = if start == 0 { 16 } else { 781 };
        let accesses = [
            (WRITE, 1, 5, 19),
            (WRITE, 1, 4, 5),
            (WRITE, 19, 0, 0x0302_0100),
            (WRITE, 19, 1, 0x0706_0504),
            (WRITE, 19, 2, 0x0b0a_0908),
            (WRITE, 19, 3, 0x0000_0d0c),
            (WRITE, TX, slot, 2),
            (WRITE, TX, slot + 1, 0),
            (WRITE, TX, slot + 2, 0x000e_0000),
            (WRITE, TX, 0, next),
            (READ, TX, 1, next),
        ];
        let answers = [next];
        let send = Step::of(Call::Send(&SMALL), &answers, End::Idle);
        let steps = [
            // The back asked to be told of this slot.
            send.ends(0, &accesses).tells(true),
            // It didn't ask to be told of the second, which has id 1.
            send.makes(11).shows(0, &[(WRITE, 1, 7, 20)]).tells(false),
        ];
        assert_eq!(rt; after(rt.alloc(), start, &steps), Ok([0; 4]));
    }
}

#[test]
fn a_post_lends_a_page_for_writing(rt: HostRuntime) {
    for start in STARTS {
        let next = start.wrapping_add(1);
        let slot = if start == 0 { 16 } else { 526 };
        let accesses = [
            (WRITE, 1, 517, 275),
            (WRITE, 1, 516, 1),
            (WRITE, RX, slot, 0),
            (WRITE, RX, slot + 1, 258),
            (WRITE, RX, 0, next),
            (READ, RX, 1, next),
        ];
        let answers = [next];
        let posts = Step::of(Call::Post, &answers, End::Idle)
            .ends(0, &accesses)
            .tells(true);
        assert_eq!(rt; after(rt.alloc(), start, &[posts]), Ok([0; 4]));
    }
}

/// The poll of a response and a packet.
#[test]
fn a_poll_takes_responses_and_a_packet(rt: HostRuntime) {
    for start in STARTS {
        let next = start.wrapping_add(1);
        let (tx_slot, rx_slot) = if start == 0 { (16, 16) } else { (781, 526) };
        let words = [0x0302_0100, 0x0706_0504, 0x0b0a_0908, 0x0000_0d0c];
        let answers = [
            next,
            0,
            next,
            0,
            0x000e_0000,
            words[0],
            words[1],
            words[2],
            words[3],
        ];
        let accesses = [
            (READ, TX, 2, next),
            (READ, TX, tx_slot, 0),
            (WRITE, 1, 4, 0),
            (READ, RX, 2, next),
            (READ, RX, rx_slot, 0),
            (READ, RX, rx_slot + 1, 0x000e_0000),
            (WRITE, 1, 516, 0),
            (READ, 275, 0, words[0]),
            (READ, 275, 1, words[1]),
            (READ, 275, 2, words[2]),
            (READ, 275, 3, words[3]),
        ];
        let begun = [next];
        let steps = [
            Step::of(Call::Send(&SMALL), &begun, End::Idle),
            Step::of(Call::Post, &begun, End::Idle),
            Step::receives(&answers, &SMALL).ends(0, &accesses),
        ];
        assert_eq!(rt; after(rt.alloc(), start, &steps), Ok([1, 0, 0, 0]));
    }
}

#[test]
fn a_poll_of_nothing_looks_twice(rt: HostRuntime) {
    for start in STARTS {
        let next = start.wrapping_add(1);
        let accesses = [
            (READ, TX, 2, start),
            (WRITE, TX, 3, next),
            (READ, TX, 2, start),
            (READ, RX, 2, start),
            (WRITE, RX, 3, next),
            (READ, RX, 2, start),
        ];
        let answers = [start; 4];
        let polls = Step::of(Call::Poll, &answers, End::Idle)
            .ends(0, &accesses)
            .tells(false);
        assert_eq!(rt; after(rt.alloc(), start, &[polls]), Ok([0; 4]));
    }
}

/// A poll whose first looks show nothing.
#[test]
fn what_the_second_look_shows_is_taken(rt: HostRuntime) {
    for start in STARTS {
        let next = start.wrapping_add(1);
        let answers = [
            start,
            next,
            0xFFFE_0000,
            start,
            next,
            0x0004_0000,
            0x0002_0000,
            0x4433_2211,
            0,
        ];
        let begun = [next];
        let steps = [
            Step::of(Call::Send(&SMALL), &begun, End::Idle),
            Step::of(Call::Post, &begun, End::Idle),
            // The packet lies at offset 4.
            Step::receives(&answers, &[0x11, 0x22]).ends(11, &[(READ, 275, 1, 0x4433_2211)]),
        ];
        assert_eq!(rt; after(rt.alloc(), start, &steps), Ok([0, 1, 0, 0]));
    }
}

#[test]
fn each_status_is_counted(rt: HostRuntime) {
    let responses = [6, 0, 0xFFFF_0001, 0xFFFE_0002, 0x0001_0003, 0xFFFD_0004, 5];
    let steps = [Step::sends(6), Step::of(Call::Poll, &responses, End::Idle)];
    assert_eq!(rt; after(rt.alloc(), 0, &steps), Ok([2, 1, 1, 2]));
}

/// A send of 65,535 bytes, in sixteen slots.
fn after_sixteen(alloc: Global, start: u32) -> Result<[u64; 4], usize> {
    let Some(bytes) = filled(alloc, 0xA5, 65_535) else {
        return Err(0);
    };
    let (first, last) = if start == 0 { (16, 61) } else { (781, 58) };
    // The whole size.
    let slot = [
        (WRITE, TX, first, 2),
        (WRITE, TX, first + 1, 0x0004_0000),
        (WRITE, TX, first + 2, 0xFFFF_0000),
    ];
    let end = [
        (WRITE, 34, 1022, 0xA5A5_A5A5),
        (WRITE, 34, 1023, 0x00A5_A5A5),
        (WRITE, TX, last, 17),
        (WRITE, TX, last + 1, 0),
        (WRITE, TX, last + 2, 0x0FFF_000F),
        (WRITE, TX, 0, start.wrapping_add(16)),
        (READ, TX, 1, start),
    ];
    let answers = [start];
    // In all 16 times 2, 1,024 and 3 words, and the push.
    let sends = Step::of(Call::Send(bytes.as_slice()), &answers, End::Idle)
        .shows(1026, &slot)
        .ends(16_459, &end);
    after(alloc, start, &[sends])
}

#[test]
fn a_send_of_65_535_bytes_takes_sixteen_slots(rt: HostRuntime) {
    for start in STARTS {
        assert_eq!(rt; after_sixteen(rt.alloc(), start), Ok([0; 4]));
    }
}

/// A send of 13 bytes, which is refused.
fn short() -> Step<'static> {
    let refusal = End::NotSent(SendRefusal::TooShort);
    Step::of(Call::Send(&SMALL[..13]), &[], refusal)
}

/// Sends of 13 bytes and of 65,536.
fn after_other_sizes(alloc: Global) -> Result<[u64; 4], usize> {
    let Some(bytes) = filled(alloc, 0, 65_536) else {
        return Err(0);
    };
    let refusal = End::NotSent(SendRefusal::TooLong);
    let long = Step::of(Call::Send(bytes.as_slice()), &[], refusal);
    after(alloc, 0, &[short(), long])
}

#[test]
fn a_packet_has_14_to_65_535_bytes(rt: HostRuntime) {
    assert_eq!(rt; after_other_sizes(rt.alloc()), Ok([0; 4]));
}

#[test]
fn two_hundred_fifty_six_packets_are_on_their_way(rt: HostRuntime) {
    let full = End::NotSent(SendRefusal::NoSlot);
    let slot = [
        (WRITE, TX, 16, 11),
        (WRITE, TX, 17, 0),
        (WRITE, TX, 18, 0x000e_0009),
    ];
    let steps = [
        Step::sends(256),
        Step::of(Call::Send(&SMALL), &[], full),
        // Its size is looked at before the lack of an id.
        short(),
        Step::of(Call::Poll, &[1, 9], End::Idle),
        // Id 9 came back.
        Step::of(Call::Send(&SMALL), &[257], End::Idle).shows(6, &slot),
    ];
    assert_eq!(rt; after(rt.alloc(), 0, &steps), Ok([1, 0, 0, 0]));
}

#[test]
fn two_hundred_fifty_six_buffers_are_posted(rt: HostRuntime) {
    let full = End::NotPosted(PostRefusal::NoSlot);
    let steps = [Step::posts(256), Step::of(Call::Post, &[], full)];
    assert_eq!(rt; after(rt.alloc(), 0, &steps), Ok([0; 4]));
}

/// The outcomes of a poll, a post, a send and a send of one byte.
type Calls = (
    Result<(), PollRefusal>,
    Result<(), PostRefusal>,
    [Result<(), SendRefusal>; 2],
);

fn calls(front: &mut Front) -> Calls {
    (
        front.poll(),
        front.post_rx(),
        [front.send(&SMALL), front.send(&SMALL[..1])],
    )
}

/// Returns what calls come to after a poll has begun.
fn calls_during_a_poll(alloc: Global) -> Option<(Result<(), PollRefusal>, Calls)> {
    let Ok(bench) = Bench::make(alloc) else {
        return None;
    };
    match bench.front(0) {
        Some(mut front) => Some((front.poll(), calls(&mut front))),
        None => None,
    }
}

/// A send is refused before its length is looked at.
#[test]
fn one_activity_at_a_time(rt: HostRuntime) {
    let busy = (
        Err(PollRefusal::Busy),
        Err(PostRefusal::Busy),
        [Err(SendRefusal::Busy); 2],
    );
    assert_eq!(rt; calls_during_a_poll(rt.alloc()), Some((Ok(()), busy)));
}

/// Lets a front poll that finds a producer beyond the ring. Whether it then wants nothing more.
fn halts(front: &mut Front) -> bool {
    if front.poll() != Ok(()) {
        return false;
    }
    match front.wanted() {
        Want::Read(_) => front.feed(Answer::Word(1)),
        _ => return false,
    }
    front.wanted() == Want::Done
}

/// Returns what calls come to after a front has halted, which isn't asked what it gave.
fn calls_after_a_halt(alloc: Global) -> Option<(bool, Calls)> {
    let Ok(bench) = Bench::make(alloc) else {
        return None;
    };
    match bench.front(0) {
        Some(mut front) => Some((halts(&mut front), calls(&mut front))),
        None => None,
    }
}

/// A front that has halted is still busy until it was asked what it gave: `Halted` comes first.
#[test]
fn a_halted_front_is_halted_before_it_is_busy(rt: HostRuntime) {
    let halted = (
        Err(PollRefusal::Halted),
        Err(PostRefusal::Halted),
        [Err(SendRefusal::Halted); 2],
    );
    assert_eq!(rt; calls_after_a_halt(rt.alloc()), Some((true, halted)));
}
