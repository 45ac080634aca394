//! Turns over pages, and turns in a row.

ghost use Rattle.std.specs.Prelude.{◌≡◌, [], length, IfSome};
ghost use Rattle.xen_back.specs.Queues.{IsReady, wiring_of};

use super::fixtures::{PASSES, Seen, feed_turn, seen_of, turn_by_driver};
use super::kind::{Kind, kind_of};
use super::slots::slot;
use crate::bench::{FRAMES, ready, seated};
use std::alloc::Global;
use xen_back::{Halt, Queue, Want};
use xen_page::{Bus, Frames, PageBus, Place, Recorder, ScriptBus};
use xen_ring::{Port, Ports};

/// A packet of 14 bytes on a new tx ring, whose response is to be told: frame, word and value of each word that isn't 0.
const ONE_PACKET: [(u32, u32, u32); 12] = [
    (17, 0, 1),
    (17, 3, 1),
    (17, 16, 2),
    (17, 18, 917_511),
    (1, 4, 1),
    (1, 5, 19),
    (19, 0, 50_462_976),
    (19, 1, 117_835_012),
    (19, 2, 185_207_048),
    (19, 3, 252_579_084),
    (18, 1, 1),
    (18, 3, 1),
];

/// Writes the packet into the pages.
fn fill(frames: &Frames) {
    for (frame, word, value) in ONE_PACKET {
        let mut pages = PageBus::of(frames);
        if frame < pages.frames() && word < 1024 {
            pages.write(Place { frame, word }, value);
        }
    }
}

/// Pages with the packet.
fn pages(alloc: Global) -> Option<Frames>
    ensures { IfSome result (λ frames. frames ≡ 20) }
{
    let mut domains = [1; 20];
    domains[0] = 0;
    let frames = Frames::make(alloc, &domains).ok()?;
    fill(&frames);
    Some(frames)
}

/// A turn over these pages, with its accesses and the answers that they found.
fn turn_over(alloc: Global, queue: &mut Queue, frames: &Frames) -> Option<(Seen, Vec<u32>)>
    requires ready { IsReady queue.old }
    requires owners { length (wiring_of queue.old).vif.owners.now ≡ 20 }
    requires program { (wiring_of queue.old).program.now.shapes ≡ [] }
    requires frames { frames.now ≡ 20 }
{
    let (counters, mut seat) = seated(alloc, &[])?;
    let mut bus = Recorder::make(alloc, PageBus::of(frames), 100).ok()?;
    let ports = Ports::new();
    let turn = queue.drive_turn(&mut bus, &counters, &mut seat, &ports);
    let seen = seen_of(alloc, &turn, bus.accesses(), &ports)?;
    match bus.answers(alloc) {
        Ok(answers) => Some((seen, answers)),
        Err(_) => None,
    }
}

/// The turn over new pages, with its accesses and the answers that they found.
fn turn_over_pages(alloc: Global, queue: &mut Queue) -> Option<(Seen, Vec<u32>)>
    requires ready { IsReady queue.old }
    requires owners { length (wiring_of queue.old).vif.owners.now ≡ 20 }
    requires program { (wiring_of queue.old).program.now.shapes ≡ [] }
{
    turn_over(alloc, queue, &pages(alloc)?)
}

/// Returns whether a new queue's turn over pages is the turn of the answers that it found, of a packet of 14 bytes.
fn is_its_answers_turn(alloc: Global, queue: &mut Queue) -> Option<bool>
    requires ready { IsReady queue.old }
    requires owners { length (wiring_of queue.old).vif.owners.now ≡ 20 }
    requires program { (wiring_of queue.old).program.now.shapes ≡ [] }
{
    let (seen, answers) = turn_over_pages(alloc, queue)?;
    match turn_by_driver(alloc, &PASSES, &[], 0, answers.as_slice()) {
        Some(replayed) => Some(replayed == seen && seen.packet.len() == 14),
        None => None,
    }
}

fn pages_answer_a_turn(alloc: Global) -> Option<bool> {
    let (bench, mut buffer) = ready(alloc, &PASSES, &[])?;
    match bench.queue(alloc, 0, &mut buffer) {
        Some(mut queue) => is_its_answers_turn(alloc, &mut queue),
        None => None,
    }
}

#[test]
fn a_turn_over_pages_is_the_turn_of_its_answers(rt: HostRuntime) {
    assert_eq!(rt; pages_answer_a_turn(rt.alloc()), Some(true));
}

/// Returns what two turns over a script come to, the accesses of both, and whether a notice was sent by the first one and by the
/// second one.
fn driven_twice(
    alloc: Global,
    queue: &mut Queue,
    answers: &[u32],
) -> Option<([Kind; 2], usize, [bool; 2])>
    requires ready { IsReady queue.old }
    requires owners { length (wiring_of queue.old).vif.owners.now ≡ 20 }
    requires program { (wiring_of queue.old).program.now.shapes ≡ [] }
{
    let port = Port::of(1)?;
    let (counters, mut seat) = seated(alloc, &[])?;
    let mut bus = ScriptBus::make(alloc, FRAMES, answers, 100).ok()?;
    let ports = Ports::new();
    let first = kind_of(&queue.drive_turn(&mut bus, &counters, &mut seat, &ports));
    let told_first = ports.take(port);
    let second = kind_of(&queue.drive_turn(&mut bus, &counters, &mut seat, &ports));
    let told = [told_first, ports.take(port)];
    Some(([first, second], bus.accesses().len(), told))
}

/// [`driven_twice`] for a new queue.
fn driven_twice_first(alloc: Global, answers: &[u32]) -> Option<([Kind; 2], usize, [bool; 2])> {
    let (bench, mut buffer) = ready(alloc, &PASSES, &[])?;
    match bench.queue(alloc, 0, &mut buffer) {
        Some(mut queue) => driven_twice(alloc, &mut queue, answers),
        None => None,
    }
}

#[test]
fn a_halted_queue_makes_no_more_accesses(rt: HostRuntime) {
    let halted = Kind::Halted {
        cause: Halt::TxProducer,
    };
    let seen = driven_twice_first(rt.alloc(), &[257]);
    assert_eq!(rt; seen, Some(([halted, halted], 1, [false, false])));
}

/// Returns what a turn over a script comes to, and whether a notice was sent before it, by it and after it.
fn notices(alloc: Global, queue: &mut Queue, answers: &[u32]) -> Option<(Kind, [bool; 3])>
    requires ready { IsReady queue.old }
    requires owners { length (wiring_of queue.old).vif.owners.now ≡ 20 }
    requires program { (wiring_of queue.old).program.now.shapes ≡ [] }
{
    let port = Port::of(1)?;
    let (counters, mut seat) = seated(alloc, &[])?;
    let mut bus = ScriptBus::make(alloc, FRAMES, answers, 100).ok()?;
    let ports = Ports::new();
    let before = ports.take(port);
    let kind = kind_of(&queue.drive_turn(&mut bus, &counters, &mut seat, &ports));
    let by_turn = ports.take(port);
    Some((kind, [before, by_turn, ports.take(port)]))
}

/// [`notices`] for a new queue.
fn first_notices(alloc: Global, answers: &[u32]) -> Option<(Kind, [bool; 3])> {
    let (bench, mut buffer) = ready(alloc, &PASSES, &[])?;
    match bench.queue(alloc, 0, &mut buffer) {
        Some(mut queue) => notices(alloc, &mut queue, answers),
        None => None,
    }
}

#[test]
fn a_due_notice_sets_the_port(rt: HostRuntime) {
    let answers = [
        1,
        2,
        0,
        slot(7, 14),
        1,
        19,
        50_462_976,
        117_835_012,
        185_207_048,
        252_579_084,
        1,
    ];
    let seen = first_notices(rt.alloc(), &answers);
    assert_eq!(rt; seen, Some((Kind::ran(2, 1), [false, true, false])));
}

/// Returns what a turn comes to whose ring shows nothing, and the frames of the rings that the queue hands back then.
fn closed_after(alloc: Global, mut queue: Queue) -> Option<(Kind, (u32, u32))> {
    feed_turn(alloc, &mut queue, &[0, 0])?;
    if queue.want() != Want::Done {
        return None;
    }
    let kind = kind_of(&queue.turn());
    let (tx, rx) = queue.close();
    Some((kind, (tx.frame(), rx.frame())))
}

/// [`closed_after`] for a new queue.
fn closed(alloc: Global) -> Option<(Kind, (u32, u32))> {
    let (bench, mut buffer) = ready(alloc, &PASSES, &[])?;
    match bench.queue(alloc, 0, &mut buffer) {
        Some(queue) => closed_after(alloc, queue),
        None => None,
    }
}

#[test]
fn a_closed_queue_hands_its_rings_back(rt: HostRuntime) {
    assert_eq!(rt; closed(rt.alloc()), Some((Kind::Idle, (17, 18))));
}
