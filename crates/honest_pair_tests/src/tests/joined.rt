//! Random runs with deliveries and waits: what was received is a prefix of what turns sent back and the host delivered, joined in order.

use crate::plan::Plan;
use crate::tests::deliveries::deliveries;
use crate::tests::looks::turns;
use crate::tests::programs::{SEND, accepted};
use crate::tests::random::Random;
use honest_pair::{Pair, PairEvent, PairRun};
use std::alloc::{AllocError, Global};
use xdp_world::{Delivered, Kept};
use xen_back::Delivery;

/// `calls` random calls of both ends, and steps of both between them.
fn plan(alloc: Global, seed: u32, calls: usize) -> Result<Plan, AllocError> {
    let mut random = Random { state: seed };
    let mut plan = Plan::new(alloc);
    for _call in 0..calls {
        let size = random.size();
        let (first, more) = ((random.next() & 0xFF) as u8, random.next());
        match random.below(7) {
            0 => plan.send(size, first, more)?,
            1 | 2 => plan.add(PairEvent::Post)?,
            3 => plan.add(PairEvent::Poll)?,
            4 => plan.add(PairEvent::Await {
                pages: random.next() % 6,
            })?,
            _ => plan.deliver(size, first, more)?,
        }
        for _part in 0..3 {
            plan.front_steps(random.burst())?;
            plan.back_steps(random.burst())?;
        }
    }
    Ok(plan)
}

/// The packets that were given, in order: those that turns sent back, and none for each that was delivered.
fn given<'r>(alloc: Global, run: &'r PairRun) -> Result<Vec<Option<&'r [u8]>>, AllocError> {
    let mut given: Vec<Option<&'r [u8]>> = Vec::new(alloc);
    for (n, turn) in turns(run).iter().enumerate() {
        add_deliveries(&mut given, run, n)?;
        if let Kept::Ran {
            number: 3,
            packet,
            ..
        } = turn
        {
            given.push(Some(packet.as_slice()))?;
        }
    }
    add_deliveries(&mut given, run, turns(run).len())?;
    Ok(given)
}

/// None for each delivery that was sent after `after` turns.
fn add_deliveries(
    given: &mut Vec<Option<&[u8]>>,
    run: &PairRun,
    after: usize,
) -> Result<(), AllocError> {
    for delivered in deliveries(run) {
        if let Delivered {
            turns,
            delivery: Delivery::Sent { .. },
        } = delivered
        {
            if *turns == after {
                given.push(None)?;
            }
        }
    }
    Ok(())
}

/// The place after the first event at or after a place that is to deliver this packet.
fn place_of(events: &[PairEvent], from: usize, packet: &[u8]) -> Option<usize> {
    for i in from..events.len() {
        match &events[i] {
            PairEvent::Deliver { packet: wanted } if wanted.as_slice() == packet => {
                return Some(i + 1);
            }
            _ => {}
        }
    }
    None
}

/// Returns the number of packets that of each way were received, if each is the next that was given.
fn received(alloc: Global, events: &[PairEvent], run: &PairRun) -> Option<(usize, usize)> {
    let given = given(alloc, run).ok()?;
    let (mut back, mut delivered, mut at): (usize, usize, usize) = (0, 0, 0);
    for (packet, wanted) in run.received.as_slice().iter().zip(given.as_slice()) {
        match wanted {
            Some(wanted) if *wanted == packet.as_slice() => back = back.saturating_add(1),
            Some(_) => return None,
            None => {
                at = place_of(events, at, packet.as_slice())?;
                delivered = delivered.saturating_add(1);
            }
        }
    }
    if run.received.len() <= given.len() {
        Some((back, delivered))
    } else {
        None
    }
}

/// Returns the number of packets of each way that are received in a run of `calls` random calls.
fn random_run(alloc: Global, start: u32, seed: u32, calls: usize) -> Option<(usize, usize)> {
    let mut plan = plan(alloc, seed, calls).ok()?;
    // What is under way ends.
    plan.front_steps(17_000).ok()?;
    plan.back_steps(200_000).ok()?;
    let program = accepted(alloc, SEND)?;
    let run = Pair::run(alloc, &program, start, plan.events()).ok()?;
    received(alloc, plan.events(), &run)
}

#[test]
fn random_runs_receive_what_was_given_in_order(rt: HostRuntime) {
    for (seed, start) in [
        (0x1234_5678, 0),
        (0x9ABC_DEF1, 0xFFFF_FFF0),
        (0x0F1E_2D3C, 0x7FFF_FFFF),
    ] {
        let seen = random_run(rt.alloc(), start, seed, 400);
        assert!(rt; matches!(seen, Some((3.., 10..))), "{seen:?}");
    }
}
