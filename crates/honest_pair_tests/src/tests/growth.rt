//! Runs of pairs, asked for again after they were refused memory. `tools/gate/refuse-growths` refuses each allocation of this test in
//! turn, and counts the runs that print `refused`.

use crate::plan::Plan;
use crate::tests::looks::{Seen, look};
use crate::tests::programs::accepted_bytes;
use bpf_verify::Verified;
use honest_pair::{Pair, PairEvent};
use std::alloc::{AllocError, Global};
use std::test::Fail;

/// Every packet is sent back.
const BYTES: [u8; 16] = [0xb7, 0, 0, 0, 3, 0, 0, 0, 0x95, 0, 0, 0, 0, 0, 0, 0];

fn program(alloc: Global) -> Option<Verified> {
    match accepted_bytes(alloc, &BYTES) {
        Some(program) => Some(program),
        None => accepted_bytes(alloc, &BYTES),
    }
}

/// Adds a packet that comes back, and one for which no buffer is posted.
fn add_events(plan: &mut Plan) -> Result<(), AllocError> {
    plan.add(PairEvent::Post)?;
    plan.front_steps(7)?;
    for number in 0..2 {
        plan.send(14, 3, number)?;
        plan.front_steps(12)?;
        plan.back_steps(40)?;
    }
    plan.add(PairEvent::Poll)?;
    plan.front_steps(20)
}

fn events(alloc: Global) -> Result<Plan, AllocError> {
    let mut plan = Plan::new(alloc);
    add_events(&mut plan)?;
    Ok(plan)
}

fn events_again(alloc: Global) -> Result<Plan, AllocError> {
    match events(alloc) {
        Ok(plan) => Ok(plan),
        Err(_) => events(alloc),
    }
}

/// Returns what is seen of a run, unless it is refused.
fn run(alloc: Global, program: &Verified, events: &[PairEvent]) -> Option<Option<Seen>> {
    match Pair::run(alloc, program, 0, events) {
        Ok(run) => Some(look(events, &run, true)),
        Err(_) => None,
    }
}

/// Returns whether a run was refused, and what is seen of it or else of another one.
fn runs(alloc: Global) -> Option<(bool, Option<Seen>)> {
    let program = program(alloc)?;
    let Ok(plan) = events_again(alloc) else {
        return None;
    };
    match run(alloc, &program, plan.events()) {
        Some(seen) => Some((false, seen)),
        None => match run(alloc, &program, plan.events()) {
            Some(seen) => Some((true, seen)),
            None => None,
        },
    }
}

#[test]
fn a_pair_is_run_again(rt: HostRuntime) -> Result<(), Fail> {
    let runs = runs(rt.alloc());
    if let Some((true, _)) = runs {
        println!(rt; "refused")?;
    }
    assert!(rt;
        matches!(
            runs,
            Some((
                _,
                Some(Seen {
                    turns: 2,
                    refused: 1,
                    received: 1,
                    ..
                }),
            ))
        )
    );
    Ok(())
}
