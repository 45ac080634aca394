//! Waits of the host for posted buffers, between the back's turns, each run with rings that begin at 0 and with rings whose indices wrap.

use crate::plan::Plan;
use crate::tests::deliveries::deliveries;
use crate::tests::looks::turns;
use crate::tests::programs::{PASS, accepted};
use honest_pair::{Pair, PairEvent, PairRun};
use std::alloc::{AllocError, Global};
use xdp_world::Waited;
use xen_back::Awaited;

const STARTS: [u32; 2] = [0, 0xFFFF_FFFF];

/// One or more events of a plan.
#[derive(Clone, Copy)]
enum Entry {
    /// A packet of 14 bytes, sent to the end.
    Send,
    /// A packet of 14 bytes that the host has delivered.
    Deliver,
    /// A buffer is posted, with its notice if one is due.
    Post,
    /// That many events of a post: the fifth publishes it, and the sixth reads the event index.
    PostOf(usize),
    Await(u32),
    Back(usize),
}

fn add_all(plan: &mut Plan, entries: &[Entry]) -> Result<(), AllocError> {
    for entry in entries {
        match entry {
            Entry::Send => {
                plan.send(14, 1, 1)?;
                plan.front_steps(12)?;
            }
            Entry::Deliver => plan.deliver(14, 1, 1)?,
            Entry::Post => {
                plan.add(PairEvent::Post)?;
                plan.front_steps(7)?;
            }
            Entry::PostOf(steps) => {
                plan.add(PairEvent::Post)?;
                plan.front_steps(*steps)?;
            }
            Entry::Await(pages) => plan.add(PairEvent::Await { pages: *pages })?,
            Entry::Back(steps) => plan.back_steps(*steps)?,
        }
    }
    Ok(())
}

/// The outcome of a run, as these tests see it.
#[derive(Clone, Copy, Debug, PartialEq, Eq)]
struct Seen {
    turns: usize,
    deliveries: usize,
    /// The number of waits that are over, and the last of them.
    waits: usize,
    last: Option<Waited>,
}

/// The waits of the one queue.
fn waits(run: &PairRun) -> &[Waited] {
    match run.report.waits.first() {
        Some(waits) => waits.as_slice(),
        None => &[],
    }
}

fn run(alloc: Global, start: u32, entries: &[Entry]) -> Option<Seen> {
    let mut plan = Plan::new(alloc);
    add_all(&mut plan, entries).ok()?;
    let program = accepted(alloc, PASS)?;
    let run = Pair::run(alloc, &program, start, plan.events()).ok()?;
    Some(Seen {
        turns: turns(&run).len(),
        deliveries: deliveries(&run).len(),
        waits: waits(&run).len(),
        last: waits(&run).last().copied(),
    })
}

/// A wait that is over after `turns` turns and `deliveries` deliveries.
fn after(turns: usize, deliveries: usize, awaited: Awaited) -> Option<Waited> {
    Some(Waited {
        turns,
        deliveries,
        awaited,
    })
}

/// Returns what is seen if nothing but waits is over.
fn waits_alone(waits: usize, last: Option<Waited>) -> Option<Seen> {
    Some(Seen {
        turns: 0,
        deliveries: 0,
        waits,
        last,
    })
}

/// The event index is stored, and the producer read.
#[test]
fn a_wait_takes_2_steps(rt: HostRuntime) {
    let waiting = after(0, 0, Awaited::Waiting);
    for start in STARTS {
        for (steps, count, last) in [
            (0, 0, None),
            (1, 0, None),
            (2, 1, waiting),
            (100, 1, waiting),
        ] {
            let seen = run(rt.alloc(), start, &[Entry::Await(1), Entry::Back(steps)]);
            assert_eq!(rt; seen, waits_alone(count, last), "{steps} steps");
        }
    }
}

#[test]
fn as_many_posts_as_are_awaited_are_enough(rt: HostRuntime) {
    for start in STARTS {
        for (pages, awaited) in [
            (0, Awaited::Posted),
            (2, Awaited::Posted),
            (3, Awaited::Waiting),
            (0xFFFF_FFFF, Awaited::Waiting),
        ] {
            let entries = [
                Entry::Post,
                Entry::Post,
                Entry::Await(pages),
                Entry::Back(2),
            ];
            let seen = run(rt.alloc(), start, &entries);
            assert_eq!(rt; seen, waits_alone(1, after(0, 0, awaited)), "{pages} slots");
        }
    }
}

/// The first post makes no notice, and the second, which is the last that is awaited, wakes the back: it makes an idle turn.
#[test]
fn the_last_of_the_awaited_posts_wakes_the_back(rt: HostRuntime) {
    let entries = [
        Entry::Await(2),
        Entry::Back(2),
        Entry::Post,
        Entry::Back(20),
        Entry::Post,
        Entry::Back(20),
        Entry::Await(2),
        Entry::Back(2),
    ];
    for start in STARTS {
        let waiting = after(0, 0, Awaited::Waiting);
        let early = run(rt.alloc(), start, &entries[..4]);
        assert_eq!(rt; early, waits_alone(1, waiting));
        let woken = run(rt.alloc(), start, &entries[..6]);
        assert_eq!(rt; woken.map(|seen| seen.turns), Some(1));
        let again = Seen {
            turns: 1,
            deliveries: 0,
            waits: 2,
            last: after(1, 0, Awaited::Posted),
        };
        assert_eq!(rt; run(rt.alloc(), start, &entries), Some(again));
    }
}

/// Whenever the front posts beside a wait, its post is seen or wakes the back.
#[test]
fn a_post_beside_a_wait_isn_t_lost(rt: HostRuntime) {
    for start in STARTS {
        // between the store of the event index and the look
        let entries = [Entry::Await(1), Entry::Back(1), Entry::Post, Entry::Back(1)];
        let seen = run(rt.alloc(), start, &entries);
        assert_eq!(rt; seen, waits_alone(1, after(0, 0, Awaited::Posted)));
        // published before it, with the event index of an earlier wait read
        let entries = [
            Entry::Await(9),
            Entry::Back(2),
            Entry::PostOf(6),
            Entry::Await(1),
            Entry::Back(2),
        ];
        let seen = run(rt.alloc(), start, &entries);
        assert_eq!(rt; seen, waits_alone(2, after(0, 0, Awaited::Posted)));
        // published after the look
        let entries = [
            Entry::PostOf(4),
            Entry::Await(1),
            Entry::Back(2),
            Entry::Back(20),
        ];
        let seen = run(rt.alloc(), start, &entries);
        assert_eq!(rt; seen, waits_alone(1, after(0, 0, Awaited::Waiting)));
    }
}

#[test]
fn inside_a_turn_a_delivery_or_a_wait_none_begins(rt: HostRuntime) {
    for start in STARTS {
        let entries = [
            Entry::Await(1),
            Entry::Await(2),
            Entry::Back(1),
            Entry::Await(3),
            Entry::Deliver,
            Entry::Back(20),
        ];
        let seen = run(rt.alloc(), start, &entries);
        assert_eq!(rt; seen, waits_alone(1, after(0, 0, Awaited::Waiting)));
        let in_a_turn = [
            Entry::Send,
            Entry::Back(3),
            Entry::Await(1),
            Entry::Back(100),
        ];
        let seen = run(rt.alloc(), start, &in_a_turn);
        assert_eq!(rt; seen.map(|seen| (seen.turns, seen.waits)), Some((2, 0)));
        let in_a_delivery = [
            Entry::Post,
            Entry::Deliver,
            Entry::Back(3),
            Entry::Await(1),
            Entry::Back(11),
        ];
        let seen = run(rt.alloc(), start, &in_a_delivery);
        assert_eq!(rt;
            seen.map(|seen| (seen.deliveries, seen.waits)),
            Some((1, 0))
        );
    }
}

/// A delivery that found no post, a wait, the post and its notice, and the delivery again.
#[test]
fn a_host_waits_and_delivers_again(rt: HostRuntime) {
    let entries = [
        Entry::Deliver,
        Entry::Back(1),
        Entry::Await(1),
        Entry::Back(2),
        Entry::Post,
        Entry::Back(20),
        Entry::Deliver,
        Entry::Back(14),
    ];
    let wanted = Seen {
        turns: 1,
        deliveries: 2,
        waits: 1,
        last: after(0, 1, Awaited::Waiting),
    };
    for start in STARTS {
        assert_eq!(rt; run(rt.alloc(), start, &entries), Some(wanted));
    }
}
