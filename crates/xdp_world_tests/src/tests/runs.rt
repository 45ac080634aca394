//! Runs of a few steps.
ghost use Rattle.std.specs.Prelude.{◌≡◌, ◌≤◌, ◌<◌, Some, slice_get, false};
ghost use Rattle.bpf_note.specs.declared.key.MapKey.TheVariants.{Index};

use super::kind::{Kind, kind_of, passes};
use super::programs::{COUNT, PASS, accepted, add_turn, run_steps};
use bpf_vm::{Action, Buffer};
use std::alloc::{AllocError, Global};
use xdp_world::{Kept, Layout, Report, World};
use xen_back::Halt;

/// The counters of a report, of keys 0 and 1.
fn counters(report: &Report) -> [u64; 2]
    requires { slice_get report.now.totals.shapes 0 ≡ Some (record { entries = 2; counters = 1; key = Index; parts = false }) }
{
    [report.totals.at(0, 0, 0), report.totals.at(0, 1, 0)]
}

/// The number of turns that a queue has done, the first of them, and the second.
type Turns = (usize, Option<Kind>, Option<Kind>);

fn turns_in(turns: &[Kept]) -> Turns {
    (
        turns.len(),
        turns.first().map(kind_of),
        turns.get(1).map(kind_of),
    )
}

/// A report's number of queues, turns of the first and of the last, and number of counter operations.
#[derive(Clone, Copy, Debug, PartialEq, Eq)]
struct Seen {
    queues: usize,
    first: Turns,
    last: Turns,
    history: usize,
}

/// No turn was done.
const NONE: Turns = (0, None, None);

fn seen_of(report: &Report) -> Seen {
    let first = report.turns.first().map(|turns| turns_in(turns.as_slice()));
    let last = report.turns.last().map(|turns| turns_in(turns.as_slice()));
    Seen {
        queues: report.turns.len(),
        first: first.unwrap_or(NONE),
        last: last.unwrap_or(NONE),
        history: report.history.len(),
    }
}

/// One turn that was done.
fn one(kind: Kind) -> Turns {
    (1, Some(kind), None)
}

const HALTED: Kind = Kind::Halted {
    cause: Halt::TxProducer,
};

/// One packet passes, and then the producer is beyond the ring.
fn passes_and_halts() -> Turns {
    let passed = passes([0, 1, 2, 3, 4, 5, 6, 7, 8, 9, 10, 11, 12, 13]);
    (2, Some(passed), Some(HALTED))
}

/// The steps of a turn of one packet that passes, and these.
fn add_packet(steps: &mut Vec<(usize, u32)>, more: &[(usize, u32)]) -> Result<(), AllocError> {
    add_turn(steps, 0, 1, 4)?;
    steps.extend_from_slice(more)?;
    Ok(())
}

/// Returns what is seen after the steps of a packet that passes, and these.
fn stepped(alloc: Global, more: &[(usize, u32)]) -> Option<Seen> {
    let program = accepted(alloc, PASS)?;
    let mut steps = Vec::new(alloc);
    if add_packet(&mut steps, more).is_err() {
        return None;
    }
    match run_steps(alloc, &program, 2, 0, steps.as_slice()) {
        Some(report) => Some(seen_of(&report)),
        None => None,
    }
}

#[test]
fn a_packet_passes_and_then_the_queue_halts(rt: HostRuntime) {
    let seen = stepped(rt.alloc(), &[(0, 1), (0, 0), (0, 258), (0, 5)]);
    let wanted = Seen {
        queues: 2,
        first: passes_and_halts(),
        last: NONE,
        history: 0,
    };
    assert_eq!(rt; seen, Some(wanted));
}

/// Returns what is seen of a whole run of a program, with its interface and where its rings begin.
fn whole_run(
    alloc: Global,
    slots: &[u64],
    queues: usize,
    interface_and_start: (u32, u32),
    steps: &[(usize, u32)],
) -> Option<Seen>
    requires { (1 ≤ queues) × (queues ≤ 8) }
{
    if !steps.iter().all(|step| step.0 < queues) {
        return None;
    }
    let (ifindex, start) = interface_and_start;
    let program = accepted(alloc, slots)?;
    match World::run(alloc, &program, &[], &[], queues, ifindex, start, steps) {
        Ok(report) => Some(seen_of(&report)),
        Err(_) => None,
    }
}

/// Returns what is seen of a run of one queue that begins at an index.
fn one_queue(alloc: Global, start: u32, steps: &[(usize, u32)]) -> Option<Seen> {
    whole_run(alloc, PASS, 1, (0, start), steps)
}

/// One queue, with these turns and no counter operation.
fn of_one(turns: Turns) -> Option<Seen> {
    Some(Seen {
        queues: 1,
        first: turns,
        last: turns,
        history: 0,
    })
}

/// Returns what is seen of a whole run of a packet, and these steps.
fn packet_run(alloc: Global, slots: &[u64], ifindex: u32, more: &[(usize, u32)]) -> Option<Seen> {
    let mut steps = Vec::new(alloc);
    match add_packet(&mut steps, more) {
        Ok(()) => whole_run(alloc, slots, 1, (ifindex, 0), steps.as_slice()),
        Err(_) => None,
    }
}

#[test]
fn a_run_gives_the_same_report(rt: HostRuntime) {
    let seen = packet_run(rt.alloc(), PASS, 0, &[(0, 1), (0, 0), (0, 258)]);
    assert_eq!(rt; seen, of_one(passes_and_halts()));
}

#[test]
fn a_queue_that_finds_nothing_is_idle(rt: HostRuntime) {
    let idle = one_queue(rt.alloc(), 0, &[(0, 0), (0, 7), (0, 0)]);
    assert_eq!(rt; idle, of_one(one(Kind::Idle)));
    let begun = one_queue(rt.alloc(), 0, &[(0, 1)]);
    assert_eq!(rt; begun, of_one(NONE));
}

#[test]
fn each_queue_halts_by_itself(rt: HostRuntime) {
    let steps = [(1, 300), (1, 1), (0, 0)];
    let seen = whole_run(rt.alloc(), PASS, 2, (0, 0), &steps);
    let wanted = Seen {
        queues: 2,
        first: NONE,
        last: one(HALTED),
        history: 0,
    };
    assert_eq!(rt; seen, Some(wanted));
}

#[test]
fn rings_begin_where_they_are_told(rt: HostRuntime) {
    let start = 0xffff_ffff;
    let wraps = one_queue(rt.alloc(), start, &[(0, start), (0, 0), (0, start)]);
    assert_eq!(rt; wraps, of_one(one(Kind::Idle)));
    let halts = one_queue(rt.alloc(), start, &[(0, 256)]);
    assert_eq!(rt; halts, of_one(one(HALTED)));
}

/// The numbers of the queues that make each of the turns, 60 of queue 0 and 30 of queue 1.
fn queue_of(order: usize, turn: u32) -> (usize, u32) {
    match order {
        0 if turn < 60 => (0, turn),
        0 => (1, turn.saturating_sub(60)),
        1 if turn < 30 => (1, turn),
        1 => (0, turn.saturating_sub(30)),
        _ if turn % 3 == 2 => (1, turn / 3),
        _ => (0, turn - turn / 3),
    }
}

/// Adds the steps of 90 turns of a packet in an order.
fn add_turns(steps: &mut Vec<(usize, u32)>, order: usize) -> Result<(), AllocError> {
    for turn in 0..90u32 {
        let (queue, before) = queue_of(order, turn);
        add_turn(steps, queue, before.wrapping_add(1), 13)?;
    }
    Ok(())
}

/// Returns how many turns two queues have done in an order, how many operations were made, and the counters.
fn added(alloc: Global, order: usize) -> Option<([usize; 2], usize, [u64; 2])> {
    let program = accepted(alloc, COUNT)?;
    let mut steps = Vec::new(alloc);
    if add_turns(&mut steps, order).is_err() {
        return None;
    }
    match run_steps(alloc, &program, 2, 0, steps.as_slice()) {
        Some(report) => Some((
            [report.turns[0].len(), report.turns[1].len()],
            report.history.len(),
            counters(&report),
        )),
        None => None,
    }
}

#[test]
fn adds_of_all_queues_are_summed(rt: HostRuntime) {
    for order in 0..3 {
        assert_eq!(rt; added(rt.alloc(), order), Some(([60, 30], 90, [0, 90])));
    }
}

/// Returns how many queues a new world has, how many operations, and the counters.
fn without_a_step(alloc: Global) -> Option<(usize, usize, [u64; 2])> {
    let program = accepted(alloc, COUNT)?;
    match run_steps(alloc, &program, 1, 0, &[]) {
        Some(report) => Some((report.turns.len(), report.history.len(), counters(&report))),
        None => None,
    }
}

#[test]
fn a_world_is_made_and_reported_without_a_step(rt: HostRuntime) {
    assert_eq!(rt; without_a_step(rt.alloc()), Some((1, 0, [0, 0])));
}

/// The number of the interface is what a program answers.
#[rattlefmt::skip]
const INTERFACE: &[u64] = &[
    0x61100c00_00000000, // r0 = ingress_ifindex
    0x95000000_00000000, // exit
];

#[test]
fn programs_see_the_interface_of_the_run(rt: HostRuntime) {
    let seen = packet_run(rt.alloc(), INTERFACE, 7, &[(0, 1), (0, 0)]);
    let turns = seen.map_or(NONE, |seen| seen.first);
    assert!(rt; matches!(turns, (1, Some(Kind::Ran { number: 7, .. }), None)));
}
