//! Which buffer is lent, what it holds, and to whom.

use super::fixtures::{Call, End, READ, SMALL, WRITE};
use super::steps::{Step, after, filled};
use crate::bench::{Bench, RX, TX};
use std::alloc::Global;
use xen_front::Front;
use xen_steps::{Answer, Want};

#[test]
fn each_rx_buffer_is_its_own(rt: HostRuntime) {
    let accesses = [
        (WRITE, 1, 519, 276),
        (WRITE, 1, 518, 1),
        (WRITE, RX, 18, 1),
        (WRITE, RX, 19, 259),
        (WRITE, RX, 0, 2),
        (READ, RX, 1, 9),
    ];
    let end = [(WRITE, 1, 518, 0), (READ, 276, 0, 0x0605_0403)];
    let steps = [
        Step::posts(1),
        Step::of(Call::Post, &[9], End::Idle)
            .ends(0, &accesses)
            .tells(false),
        // The answer to the second.
        Step::receives(&[0, 0, 1, 1, 0x0004_0000, 0x0605_0403], &[3, 4, 5, 6]).ends(6, &end),
    ];
    assert_eq!(rt; after(rt.alloc(), 0, &steps), Ok([0; 4]));
}

/// The send of a page of ones and a byte.
fn after_a_second_page(alloc: Global) -> Result<[u64; 4], usize> {
    let Some(mut bytes) = filled(alloc, 1, 4096) else {
        return Err(0);
    };
    if bytes.push(2).is_err() {
        return Err(0);
    }
    let end = [
        (WRITE, 1, 7, 20),
        (WRITE, 1, 6, 5),
        (WRITE, 20, 0, 2),
        (WRITE, TX, 19, 3),
        (WRITE, TX, 20, 0),
        (WRITE, TX, 21, 0x0001_0001),
        (WRITE, TX, 0, 2),
        (READ, TX, 1, 0),
    ];
    let sends = Step::of(Call::Send(bytes.as_slice()), &[0], End::Idle).ends(2 + 1024 + 3, &end);
    after(alloc, 0, &[sends])
}

#[test]
fn a_second_page_has_the_later_bytes(rt: HostRuntime) {
    assert_eq!(rt; after_a_second_page(rt.alloc()), Ok([0; 4]));
}

/// The flags word of the first grant of an activity.
fn flags_word(front: &mut Front) -> Option<u32> {
    match front.wanted() {
        Want::Write(..) => front.feed(Answer::Nothing),
        _ => return None,
    }
    match front.wanted() {
        Want::Write(_, value) => Some(value),
        _ => None,
    }
}

/// The flags word of a send's grant.
fn sent_flags(front: &mut Front) -> Option<u32> {
    match front.send(&SMALL) {
        Ok(()) => flags_word(front),
        Err(_) => None,
    }
}

/// The flags word of a post's grant.
fn posted_flags(front: &mut Front) -> Option<u32> {
    match front.post_rx() {
        Ok(()) => flags_word(front),
        Err(_) => None,
    }
}

/// The flags words of a send's grant and of a post's, of fronts whose back is domain 7.
fn flags_of_grants(alloc: Global) -> Option<[Option<u32>; 2]> {
    let Ok(bench) = Bench::make(alloc) else {
        return None;
    };
    match (bench.front_of(7), bench.front_of(7)) {
        (Some(mut sender), Some(mut poster)) => Some([
            sent_flags(&mut sender),
            posted_flags(&mut poster),
        ]),
        _ => None,
    }
}

/// A send's grant is for reading, and a post's for writing.
#[test]
fn grants_name_the_back(rt: HostRuntime) {
    let flags = flags_of_grants(rt.alloc());
    assert_eq!(rt; flags, Some([Some(0x0007_0005), Some(0x0007_0001)]));
}
