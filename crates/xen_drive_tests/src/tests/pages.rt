//! A turn over pages that a frontend has filled.

ghost use Rattle.std.specs.Prelude.{◌≡◌, IfSome};

use super::fixtures::{PASSES, Seen, seen_with, told_by, turn};
use crate::bench::{counters, shipped};
use std::alloc::Global;
use xen_drive::drive;
use xen_page::{Bus, Frames, PageBus, Place, Recorder};
use xen_ring::Ports;

/// A packet of 14 bytes on a new tx ring, whose response is to be told: frame, word and value of each word that isn't 0.
const ONE_PACKET: [(u32, u32, u32); 10] = [
    (17, 0, 1),
    (17, 3, 1),
    (17, 16, 2),
    (17, 18, 0x000e_0007),
    (1, 4, 1),
    (1, 5, 19),
    (19, 0, 0x0302_0100),
    (19, 1, 0x0706_0504),
    (19, 2, 0x0b0a_0908),
    (19, 3, 0x0f0e_0d0c),
];

/// Pages with the packet.
fn filled(alloc: Global) -> Option<Frames>
    ensures { IfSome result (λ frames. frames ≡ 20) }
{
    let mut domains = [1; 20];
    domains[0] = 0;
    let frames = Frames::make(alloc, &domains).ok()?;
    for (frame, word, value) in ONE_PACKET {
        let mut pages = PageBus::of(&frames);
        if frame < pages.frames() && word < 1024 {
            pages.write(Place { frame, word }, value);
        }
    }
    Some(frames)
}

/// A turn over those pages, and the answers that it found.
fn turn_over_pages(alloc: Global) -> Option<(Seen, Vec<u32>)> {
    let frames = filled(alloc)?;
    let mut queue = shipped(alloc, &PASSES, &[], 0)?;
    let mut counters = counters(alloc, &queue)?;
    let mut bus = Recorder::make(alloc, PageBus::of(&frames), 100).ok()?;
    let ports = Ports::new();
    let op = drive(&mut queue, &mut bus, counters.as_mut_slice(), &ports);
    let seen = seen_with(alloc, told_by(&op)?, queue.packet(), bus.accesses(), &ports)?;
    match bus.answers(alloc) {
        Ok(answers) => Some((seen, answers)),
        Err(_) => None,
    }
}

/// Returns whether it is the turn of those answers, with the packet and a notice.
fn is_its_answers_turn(alloc: Global) -> Option<bool> {
    let (seen, answers) = turn_over_pages(alloc)?;
    let replayed = turn(alloc, &PASSES, 0, answers.as_slice())?;
    let bytes = [0, 1, 2, 3, 4, 5, 6, 7, 8, 9, 10, 11, 12, 13];
    Some(replayed == seen && seen.packet.as_slice() == bytes.as_slice() && seen.notified)
}

#[test]
fn a_turn_over_pages_is_the_turn_of_its_answers(rt: HostRuntime) {
    assert_eq!(rt; is_its_answers_turn(rt.alloc()), Some(true));
}
