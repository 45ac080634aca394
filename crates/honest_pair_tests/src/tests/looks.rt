//! What a run copied, sent back and received, beside what was sent.

use super::programs::accepted;
use honest_pair::{Pair, PairEvent, PairRun};
use std::alloc::Global;
use xdp_world::Kept;

/// The outcome of a run, as these tests see it.
#[derive(Clone, Copy, Debug, PartialEq, Eq)]
pub(crate) struct Seen {
    /// Turns that weren't idle.
    pub(crate) turns: usize,
    pub(crate) refused: usize,
    /// Packets that were sent back.
    pub(crate) sent_back: usize,
    pub(crate) received: usize,
}

pub(crate) const NOTHING: Seen = Seen {
    turns: 0,
    refused: 0,
    sent_back: 0,
    received: 0,
};

impl Seen {
    /// Returns the outcome of both.
    pub(crate) fn and(self, other: Seen) -> Seen {
        Seen {
            turns: self.turns.saturating_add(other.turns),
            refused: self.refused.saturating_add(other.refused),
            sent_back: self.sent_back.saturating_add(other.sent_back),
            received: self.received.saturating_add(other.received),
        }
    }
}

/// The turns of the one queue.
pub(crate) fn turns(run: &PairRun) -> &[Kept] {
    match run.report.turns.first() {
        Some(turns) => turns.as_slice(),
        None => &[],
    }
}

/// The packet of the first send at or after a place, and the place after it.
fn next_send(events: &[PairEvent], from: usize) -> Option<(usize, &[u8])> {
    for i in from..events.len() {
        if let PairEvent::Send { packet } = &events[i] {
            return Some((i + 1, packet.as_slice()));
        }
    }
    None
}

/// The place after the first send of this packet at or after a place. If each send was taken, that has to be the next
/// one.
fn place_of(events: &[PairEvent], from: usize, packet: &[u8], each: bool) -> Option<usize> {
    let mut at = from;
    for _send in from..events.len() {
        let (after, sent) = next_send(events, at)?;
        if sent == packet {
            return Some(after);
        }
        if each {
            return None;
        }
        at = after;
    }
    None
}

/// Returns what is seen of the turns, if the copies are packets that were sent, in order and once each, and none was refused but
/// for want of rx slots.
fn copies(events: &[PairEvent], turns: &[Kept], each: bool) -> Option<Seen> {
    let mut at = 0;
    let mut seen = NOTHING;
    for turn in turns {
        match turn {
            Kept::Idle => continue,
            Kept::Ran { number, packet, .. } => {
                at = place_of(events, at, packet.as_slice(), each)?;
                if *number == 3 {
                    seen.sent_back = seen.sent_back.saturating_add(1);
                }
            }
            Kept::Refused { cause, .. } if cause.number() == 6 => {
                at = next_send(events, at)?.0;
                seen.refused = seen.refused.saturating_add(1);
            }
            Kept::Refused { .. } | Kept::Halted { .. } => return None,
        }
        seen.turns = seen.turns.saturating_add(1);
    }
    Some(seen)
}

/// The place after the first turn at or after a place that sent a packet back, and the packet.
fn next_back(turns: &[Kept], from: usize) -> Option<(usize, &[u8])> {
    for i in from..turns.len() {
        if let Kept::Ran {
            number: 3,
            packet,
            ..
        } = &turns[i]
        {
            return Some((i + 1, packet.as_slice()));
        }
    }
    None
}

/// Returns the number of packets that were received, if they are a beginning of what was sent back, after which no turn is
/// unfinished.
fn receptions(run: &PairRun) -> Option<usize> {
    let mut at = 0;
    for packet in &run.received {
        let (after, back) = next_back(turns(run), at)?;
        if packet.as_slice() != back {
            return None;
        }
        at = after;
    }
    Some(run.received.len())
}

/// Returns what is seen of a run whose back sleeps in the end, if all is as it has to be. With `each` all sends were taken.
pub(crate) fn look(events: &[PairEvent], run: &PairRun, each: bool) -> Option<Seen> {
    let mut seen = copies(events, turns(run), each)?;
    seen.received = receptions(run)?;
    Some(seen)
}

/// Returns what is seen of the run of a program, and whether its last turn is idle.
pub(crate) fn look_at(
    alloc: Global,
    slots: &[u64],
    start: u32,
    events: &[PairEvent],
    each: bool,
) -> Option<(Seen, bool)> {
    let program = accepted(alloc, slots)?;
    let Ok(run) = Pair::run(alloc, &program, start, events) else {
        return None;
    };
    let ends_idle = matches!(turns(&run).last(), Some(Kept::Idle));
    match look(events, &run, each) {
        Some(seen) => Some((seen, ends_idle)),
        None => None,
    }
}
