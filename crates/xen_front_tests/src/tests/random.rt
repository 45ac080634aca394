//! Calls and answers that look random, beside a model by lists.

use super::fixtures::{Call, End, Fronts, Played};
use super::model::{Model, Poll, Random};
use super::steps::Step;
use crate::bench::Bench;
use std::alloc::Global;
use xen_front::{ACCEPTS_WHOLE, Accepts};
use xen_netif::Offers;

/// The number of times each outcome came: packets, those of them with an extra, packets refused, halts.
#[derive(Clone, Copy, Debug)]
struct Outcomes {
    packets: u32,
    extras: u32,
    refused: u32,
    halts: u32,
}

impl Outcomes {
    /// Counts what a poll gave, and returns whether the front goes on.
    fn count(&mut self, end: End) -> bool {
        match end {
            End::Packet(offload) => {
                self.packets = self.packets.saturating_add(1);
                if offload.has_extra() {
                    self.extras = self.extras.saturating_add(1);
                }
            }
            End::Refused => self.refused = self.refused.saturating_add(1),
            End::Halted(_) => {
                self.halts = self.halts.saturating_add(1);
                return false;
            }
            _ => {}
        }
        true
    }
}

/// Returns whether a poll came to what its model came to.
fn is_same(played: &Played, poll: &Poll, end: End) -> bool {
    let is_packet = !matches!(end, End::Packet(_))
        || played.packet.as_slice() == poll.packet.as_slice();
    played.end == end && is_packet && played.accesses.len() == poll.accesses
}

/// Returns whether a poll of the front comes to what its model came to.
fn polls(fronts: &mut Fronts, poll: &Poll, end: End) -> bool {
    match fronts.play(Call::Poll, poll.answers.as_slice()) {
        Some(played) => is_same(&played, poll, end),
        None => false,
    }
}

/// Polls the model and then the front: what came of it, if it is the same.
fn poll(fronts: &mut Fronts, model: &mut Model, random: &mut Random) -> Option<End> {
    let mut poll = model.begin();
    match model.poll(&mut poll, random) {
        Ok(end) if polls(fronts, &poll, end) => Some(end),
        _ => None,
    }
}

/// Plays one call, and returns whether the front goes on, if it does what its model does.
fn step(
    fronts: &mut Fronts,
    model: &mut Model,
    random: &mut Random,
    outcomes: &mut Outcomes,
) -> Option<bool> {
    match random.small(7) {
        0..2 if model.has_room(1) => match model.send() {
            Ok(()) => fronts.makes(&Step::sends(1)).then_some(true),
            Err(_) => None,
        },
        2..5 if model.can_post() => match model.post() {
            Ok(()) => fronts.makes(&Step::posts(1)).then_some(true),
            Err(_) => None,
        },
        _ => match poll(fronts, model, random) {
            Some(end) => Some(outcomes.count(end)),
            None => None,
        },
    }
}

/// Plays `calls` calls to a front and to its model, or fewer if it halts. Whether both do the same.
fn plays(
    fronts: &mut Fronts,
    model: &mut Model,
    calls: u32,
    random: &mut Random,
    outcomes: &mut Outcomes,
) -> bool {
    for _call in 0..calls {
        match step(fronts, model, random, outcomes) {
            Some(true) => {}
            Some(false) => break,
            None => return false,
        }
    }
    true
}

/// Plays to a new front and its model.
fn plays_from(
    alloc: Global,
    start: u32,
    accepts: Accepts,
    calls: u32,
    random: &mut Random,
    outcomes: &mut Outcomes,
) -> bool {
    let Ok(bench) = Bench::make(alloc) else {
        return false;
    };
    match bench.fronts_accepting(start, accepts) {
        Some(mut fronts) => {
            let mut model = Model::new(alloc, start, accepts);
            plays(&mut fronts, &mut model, calls, random, outcomes)
                && fronts.statuses() == Some(model.statuses)
        }
        None => false,
    }
}

/// A front that takes an extra of TCP over IPv4.
const TCP_OVER_IPV4: Accepts = Accepts {
    blank_checksums: true,
    segments: Offers {
        gso_tcpv4: true,
        gso_tcpv6: false,
    },
};

#[test]
fn as_a_model_by_lists(rt: HostRuntime) {
    let mut random = Random::new(20_261_122);
    let mut outcomes = Outcomes {
        packets: 0,
        extras: 0,
        refused: 0,
        halts: 0,
    };
    for round in 0..120u32 {
        let start = if round % 2 == 0 { 0 } else { 0xFFFF_FFF0 };
        let accepts = if round % 4 < 2 {
            ACCEPTS_WHOLE
        } else {
            TCP_OVER_IPV4
        };
        let is_same = plays_from(rt.alloc(), start, accepts, 300, &mut random, &mut outcomes);
        assert!(rt; is_same, "round {round}");
    }
    let Outcomes {
        packets,
        extras,
        refused,
        halts,
    } = outcomes;
    assert!(rt;
        packets > 100 && extras > 10 && refused > 10 && halts > 10,
        "{outcomes:?}"
    );
}
