//! More packets than a ring has entries.

use crate::plan::Plan;
use crate::tests::looks::{Seen, look_at};
use crate::tests::programs::{PASS, SEND};
use honest_pair::PairEvent;
use std::alloc::{AllocError, Global};

/// Adds packets, each copied before the next is sent, and polled in the end of each.
fn add_packets(plan: &mut Plan, count: u32, post: bool) -> Result<(), AllocError> {
    for number in 0..count {
        if post {
            plan.add(PairEvent::Post)?;
            plan.front_steps(7)?;
        }
        plan.send(14, 3, number)?;
        plan.front_steps(12)?;
        plan.back_steps(40)?;
        plan.add(PairEvent::Poll)?;
        plan.front_steps(20)?;
    }
    Ok(())
}

/// The index at which the rings begin.
const START: u32 = 0xFFFF_FF80;

/// Returns what is seen of a run of 600 packets.
fn six_hundred(alloc: Global, slots: &[u64], post: bool) -> Option<Seen> {
    let mut plan = Plan::new(alloc);
    if add_packets(&mut plan, 600, post).is_err() {
        return None;
    }
    match look_at(alloc, slots, START, plan.events(), true) {
        Some((seen, _)) => Some(seen),
        None => None,
    }
}

#[test]
fn a_ring_wraps(rt: HostRuntime) {
    let seen = six_hundred(rt.alloc(), PASS, false);
    assert!(rt;
        matches!(
            seen,
            Some(Seen {
                turns: 600,
                refused: 0,
                ..
            })
        )
    );
}

#[test]
fn packets_come_back_through_a_ring_that_wraps(rt: HostRuntime) {
    let seen = six_hundred(rt.alloc(), SEND, true);
    assert!(rt;
        matches!(
            seen,
            Some(Seen {
                turns: 600,
                refused: 0,
                received: 600,
                ..
            })
        )
    );
}

/// Adds 300 sends, without a poll, and steps of the back.
fn add_sends(plan: &mut Plan) -> Result<(), AllocError> {
    for number in 0..300 {
        plan.send(14, 2, number)?;
        plan.front_steps(12)?;
    }
    plan.back_steps(10_000)
}

/// Returns the number of turns that a run of 300 sends has, and whether the last is idle.
fn turns_of_sends(alloc: Global) -> Option<(usize, bool)> {
    let mut plan = Plan::new(alloc);
    if add_sends(&mut plan).is_err() {
        return None;
    }
    match look_at(alloc, PASS, START, plan.events(), true) {
        Some((seen, ends_idle)) => Some((seen.turns, ends_idle)),
        None => None,
    }
}

/// A front that never polls has 256 packets in flight, and then finds no free id.
#[test]
fn a_full_ring_takes_no_more(rt: HostRuntime) {
    assert_eq!(rt; turns_of_sends(rt.alloc()), Some((256, true)));
}
