//! A queue whose frontend answers from a list.

ghost use Rattle.std.specs.Prelude.{◌≡◌, ◌≤◌, length, IfSome, IfNone};
ghost use Rattle.xen_back.specs.Queues.{IsReady, wiring_of};
ghost use Rattle.xen_steps.specs.Answers.{Fits};

use super::kind::{Kind, kind_of};
use crate::bench::{FRAMES, ready, seated};
use bpf_note::MapShape;
use std::alloc::{AllocError, Global};
use xen_back::{Answer, Queue, Turn, Want};
use xen_page::{Access, Place, ScriptBus};
use xen_ring::{Port, Ports};

/// MOV r0, 2; EXIT: PASS.
pub const PASSES: [u8; 16] = [0xb7, 0, 0, 0, 2, 0, 0, 0, 0x95, 0, 0, 0, 0, 0, 0, 0];

/// MOV r0, 3; EXIT: TX.
pub const SENDS: [u8; 16] = [0xb7, 0, 0, 0, 3, 0, 0, 0, 0x95, 0, 0, 0, 0, 0, 0, 0];

/// A turn, without what it borrows.
#[derive(Debug, PartialEq, Drop)]
pub struct Seen {
    pub kind: Kind,
    pub packet: Vec<u8>,
    pub accesses: Vec<Access>,
    pub notified: bool,
}

pub fn read(frame: u32, word: u32, answer: u32) -> Access {
    Access::Read {
        at: Place { frame, word },
        answer,
    }
}

pub fn write(frame: u32, word: u32, value: u32) -> Access {
    Access::Write {
        at: Place { frame, word },
        value,
    }
}

impl Seen {
    /// Returns whether these are the turn's writes to a frame, in order.
    pub fn wrote(&self, frame: u32, wanted: &[Access]) -> bool {
        wrote(self.accesses.as_slice(), frame, wanted)
    }

    /// Returns how often the turn wrote to a frame.
    pub fn writes(&self, frame: u32) -> usize {
        let mut writes: usize = 0;
        for access in self.accesses.as_slice() {
            if written_frame(access) == Some(frame) {
                writes = writes.saturating_add(1);
            }
        }
        writes
    }

    /// Returns whether it came to this end, with this packet.
    pub fn shows(&self, kind: Kind, packet: &[u8]) -> bool {
        self.kind == kind && self.packet.as_slice() == packet
    }

    /// Returns whether these are all of the turn's accesses.
    pub fn made(&self, accesses: &[Access]) -> bool {
        self.accesses.as_slice() == accesses
    }
}

/// The frame that an access writes to.
fn written_frame(access: &Access) -> Option<u32> {
    match access {
        Access::Write { at, .. } => Some(at.frame),
        _ => None,
    }
}

/// Returns whether these are the writes to a frame, in order.
pub fn wrote(accesses: &[Access], frame: u32, wanted: &[Access]) -> bool {
    let mut left = wanted.iter();
    for access in accesses {
        if written_frame(access) == Some(frame) && left.next() != Some(access) {
            return false;
        }
    }
    left.next().is_none()
}

/// The packet that a turn shows.
pub fn packet_of(alloc: Global, turn: &Turn) -> Result<Vec<u8>, AllocError> {
    match turn {
        Turn::Ran { packet, .. } => Vec::from_slice(alloc, packet),
        _ => Ok(Vec::new(alloc)),
    }
}

/// The answer to a want: this word to a read, and 0 for a counter. None if the turn is over.
pub fn answer_to(want: Want, word: u32) -> Option<Answer>
    ensures fits { IfSome result (Fits want) }
    ensures over { IfNone result (want ≡ Want.Done) }
{
    match want {
        Want::Read(_) => Some(Answer::Word(word)),
        Want::Write(..) | Want::Instr | Want::Notify(_) => Some(Answer::Nothing),
        Want::Load { .. } | Want::Add { .. } => Some(Answer::Counter(0)),
        Want::Done => None,
    }
}

/// The access that the queue wants; a read of it gives this word.
pub fn access_to(want: Want, answer: u32) -> Option<Access> {
    match want {
        Want::Read(at) => Some(Access::Read { at, answer }),
        Want::Write(at, value) => Some(Access::Write { at, value }),
        _ => None,
    }
}

/// Feeds a queue until its turn is over; each counter holds 0. Returns the accesses, and whether a notice was sent. None if the
/// turn has no end.
pub fn feed_turn(alloc: Global, queue: &mut Queue, answers: &[u32]) -> Option<(Vec<Access>, bool)> {
    let mut accesses = Vec::new(alloc);
    let mut given = answers.iter();
    let mut notified = false;
    for _event in 0..100_000u32 {
        let want = queue.wanted();
        let word = match want {
            Want::Read(_) => given.next().copied().unwrap_or(0),
            _ => 0,
        };
        let Some(answer) = answer_to(want, word) else {
            return Some((accesses, notified));
        };
        if let Some(access) = access_to(want, word) {
            accesses.push(access).ok()?;
        }
        notified |= matches!(want, Want::Notify(_));
        queue.feed(answer);
    }
    None
}

/// Returns whether a notice was sent to the queue's port.
pub fn is_notified(ports: &Ports) -> bool {
    match Port::of(1) {
        Some(port) => ports.take(port),
        None => false,
    }
}

/// A turn, with its accesses and its notice.
fn with_packet(alloc: Global, turn: &Turn, accesses: Vec<Access>, notified: bool) -> Option<Seen> {
    match packet_of(alloc, turn) {
        Ok(packet) => Some(Seen {
            kind: kind_of(turn),
            packet,
            accesses,
            notified,
        }),
        Err(_) => None,
    }
}

/// A turn, with the accesses of its bus and its notice.
pub fn seen_of(alloc: Global, turn: &Turn, accesses: &[Access], ports: &Ports) -> Option<Seen> {
    let accesses = Vec::from_slice(alloc, accesses).ok()?;
    with_packet(alloc, turn, accesses, is_notified(ports))
}

/// A turn by `want` and `feed`, of which the counters are 0.
pub fn fed(alloc: Global, queue: &mut Queue, answers: &[u32]) -> Option<Seen> {
    let (accesses, notified) = feed_turn(alloc, queue, answers)?;
    if queue.wanted() == Want::Done {
        with_packet(alloc, &queue.turn(), accesses, notified)
    } else {
        None
    }
}

/// The turn of a new queue by `want` and `feed`.
pub fn turn_by_hand(
    alloc: Global,
    bytes: &[u8],
    shapes: &[MapShape],
    start: u32,
    answers: &[u32],
) -> Option<Seen>
    requires { length shapes.now ≤ 4 }
{
    let (bench, mut buffer) = ready(alloc, bytes, shapes)?;
    match bench.queue(alloc, start, &mut buffer) {
        Some(mut queue) => fed(alloc, &mut queue, answers),
        None => None,
    }
}

/// A turn by `drive_turn`, of which the counters are 0.
pub fn driven(
    alloc: Global,
    queue: &mut Queue,
    shapes: &[MapShape],
    answers: &[u32],
) -> Option<Seen>
    requires few { length shapes.now ≤ 4 }
    requires ready { IsReady queue.old }
    requires owners { length (wiring_of queue.old).vif.owners.now ≡ 20 }
    requires program { (wiring_of queue.old).program.now.shapes ≡ shapes.now }
{
    let (counters, mut seat) = seated(alloc, shapes)?;
    let mut bus = ScriptBus::make(alloc, FRAMES, answers, 34_000).ok()?;
    let ports = Ports::new();
    let turn = queue.drive_turn(&mut bus, &counters, &mut seat, &ports);
    seen_of(alloc, &turn, bus.accesses(), &ports)
}

/// The turn of a new queue by `drive_turn`, of which the counters are 0.
pub fn turn_by_driver(
    alloc: Global,
    bytes: &[u8],
    shapes: &[MapShape],
    start: u32,
    answers: &[u32],
) -> Option<Seen>
    requires { length shapes.now ≤ 4 }
{
    let (bench, mut buffer) = ready(alloc, bytes, shapes)?;
    match bench.queue(alloc, start, &mut buffer) {
        Some(mut queue) => driven(alloc, &mut queue, shapes, answers),
        None => None,
    }
}

/// Returns what was seen, if the turn by hand gives the same.
fn if_same(seen: Option<Seen>, by_hand: Option<Seen>) -> Option<Seen> {
    if seen == by_hand { seen } else { None }
}

/// The turn that comes out both ways, under a program with these maps. None if the two ways differ.
pub fn turn_with_maps(
    alloc: Global,
    bytes: &[u8],
    shapes: &[MapShape],
    start: u32,
    answers: &[u32],
) -> Option<Seen>
    requires { length shapes.now ≤ 4 }
{
    let seen = turn_by_driver(alloc, bytes, shapes, start, answers);
    if_same(seen, turn_by_hand(alloc, bytes, shapes, start, answers))
}

/// The turn that comes out both ways, under a program without maps.
pub fn turn(alloc: Global, bytes: &[u8], start: u32, answers: &[u32]) -> Option<Seen> {
    turn_with_maps(alloc, bytes, &[], start, answers)
}

/// Returns what a turn under a program without maps comes to, and how many accesses it makes.
pub fn count(alloc: Global, bytes: &[u8], start: u32, answers: &[u32]) -> Option<(Kind, usize)> {
    let seen = turn(alloc, bytes, start, answers)?;
    Some((seen.kind, seen.accesses.len()))
}

/// Returns what such a turn comes to.
pub fn kind(alloc: Global, bytes: &[u8], start: u32, answers: &[u32]) -> Option<Kind> {
    Some(turn(alloc, bytes, start, answers)?.kind)
}

/// Returns whether a notice is sent by such a turn, if it comes to this end with these accesses.
pub fn notice(
    alloc: Global,
    bytes: &[u8],
    start: u32,
    answers: &[u32],
    (kind, accesses): (Kind, &[Access]),
) -> Option<bool> {
    let seen = turn(alloc, bytes, start, answers)?;
    (seen.kind == kind && seen.made(accesses)).then_some(seen.notified)
}

/// The words of `head`, those of `part` `times` times, and those of `tail`.
pub fn joined(
    alloc: Global,
    head: &[u32],
    part: &[u32],
    times: u32,
    tail: &[u32],
) -> Result<Vec<u32>, AllocError> {
    let mut words = Vec::from_slice(alloc, head)?;
    for _time in 0..times {
        words.extend_from_slice(part)?;
    }
    words.extend_from_slice(tail)?;
    Ok(words)
}
