//! Packets of the host's own, delivered between the back's turns, each run with rings that begin at 0 and with rings whose indices wrap.

use crate::plan::{Plan, packet};
use crate::tests::looks::turns;
use crate::tests::programs::{PASS, SEND, accepted};
use honest_pair::{Pair, PairEvent, PairRun};
use std::alloc::{AllocError, Global};
use xdp_world::Delivered;
use xen_back::Delivery;

const STARTS: [u32; 2] = [0, 0xFFFF_FFFF];

/// One or more events of a plan. The byte is the packet's first, and the seed of its others.
#[derive(Clone, Copy)]
enum Entry {
    /// 14 bytes.
    Send(u8),
    /// 14 bytes.
    Deliver(u8),
    /// A delivery of that many bytes, of which the first is given.
    DeliverOf(usize, u8),
    Post,
    Poll,
    Front(usize),
    Back(usize),
}

fn add_all(plan: &mut Plan, entries: &[Entry]) -> Result<(), AllocError> {
    for entry in entries {
        match entry {
            Entry::Send(first) => plan.send(14, *first, u32::from(*first))?,
            Entry::Deliver(first) => plan.deliver(14, *first, u32::from(*first))?,
            Entry::DeliverOf(size, first) => plan.deliver(*size, *first, u32::from(*first))?,
            Entry::Post => plan.add(PairEvent::Post)?,
            Entry::Poll => plan.add(PairEvent::Poll)?,
            Entry::Front(steps) => plan.front_steps(*steps)?,
            Entry::Back(steps) => plan.back_steps(*steps)?,
        }
    }
    Ok(())
}

/// The outcome of a run, as these tests see it.
#[derive(Clone, Copy, Debug, PartialEq, Eq)]
struct Seen {
    turns: usize,
    /// The number of deliveries that are over, and the last of them.
    deliveries: usize,
    last: Option<Delivered>,
    /// The number of packets that were received, and the first bytes of the first four that are whole.
    received: usize,
    firsts: [Option<u8>; 4],
}

/// The deliveries of the one queue.
pub(crate) fn deliveries(run: &PairRun) -> &[Delivered] {
    match run.report.deliveries.first() {
        Some(deliveries) => deliveries.as_slice(),
        None => &[],
    }
}

/// The first byte of a packet, if it is what an entry makes of that byte at this length.
fn whole(alloc: Global, bytes: &[u8]) -> Option<u8> {
    let first = *bytes.first()?;
    match packet(alloc, bytes.len(), first, u32::from(first)) {
        Ok(wanted) if wanted.as_slice() == bytes => Some(first),
        _ => None,
    }
}

fn seen_of(alloc: Global, run: &PairRun) -> Seen {
    let mut firsts = [None; 4];
    for (first, packet) in firsts.iter_mut().zip(run.received.as_slice()) {
        *first = whole(alloc, packet.as_slice());
    }
    Seen {
        turns: turns(run).len(),
        deliveries: deliveries(run).len(),
        last: deliveries(run).last().copied(),
        received: run.received.len(),
        firsts,
    }
}

/// The run of these entries.
fn run_of(alloc: Global, slots: &[u64], start: u32, entries: &[Entry]) -> Option<PairRun> {
    let mut plan = Plan::new(alloc);
    add_all(&mut plan, entries).ok()?;
    let program = accepted(alloc, slots)?;
    Pair::run(alloc, &program, start, plan.events()).ok()
}

fn run(alloc: Global, slots: &[u64], start: u32, entries: &[Entry]) -> Option<Seen> {
    let run = run_of(alloc, slots, start, entries)?;
    Some(seen_of(alloc, &run))
}

/// A delivery that is over after `turns` turns.
fn after(turns: usize, delivery: Delivery) -> Option<Delivered> {
    Some(Delivered { turns, delivery })
}

/// The producer, the post's two words and its grant's are read, four words of the packet and two of the response are written, and the push,
/// the event index and the notice come last.
#[test]
fn a_delivery_takes_14_steps(rt: HostRuntime) {
    for start in STARTS {
        for (steps, count) in [(0, 0), (13, 0), (14, 1), (100, 1)] {
            let entries = [
                Entry::Post,
                Entry::Front(7),
                Entry::Deliver(7),
                Entry::Back(steps),
            ];
            let seen = run(rt.alloc(), PASS, start, &entries);
            assert_eq!(rt;
                seen.map(|seen| seen.deliveries),
                Some(count),
                "{steps} steps"
            );
        }
    }
}

#[test]
fn a_delivered_packet_is_received(rt: HostRuntime) {
    let entries = [
        Entry::Post,
        Entry::Front(7),
        Entry::Deliver(7),
        Entry::Back(14),
        Entry::Poll,
        Entry::Front(10),
        Entry::Front(1),
    ];
    let wanted = Seen {
        turns: 0,
        deliveries: 1,
        last: after(0, Delivery::Sent { slots: 1 }),
        received: 1,
        firsts: [Some(7), None, None, None],
    };
    for start in STARTS {
        let early = run(rt.alloc(), PASS, start, &entries[..6]);
        assert_eq!(rt; early.map(|seen| seen.received), Some(0));
        assert_eq!(rt; run(rt.alloc(), PASS, start, &entries), Some(wanted));
    }
}

/// 5,000 bytes lie in two pages, so one post is too few, and two are enough. The notice of the posts wakes the back
/// after the delivery.
#[test]
fn a_packet_of_two_pages_needs_two_posts(rt: HostRuntime) {
    let few = [
        Entry::Post,
        Entry::Front(7),
        Entry::DeliverOf(5_000, 9),
        Entry::Back(1),
    ];
    let enough = [
        Entry::Post,
        Entry::Front(7),
        Entry::Post,
        Entry::Front(7),
        Entry::DeliverOf(5_000, 9),
        Entry::Back(2_000),
        Entry::Poll,
        Entry::Front(2_000),
    ];
    for start in STARTS {
        let seen = run(rt.alloc(), PASS, start, &few);
        assert_eq!(rt;
            seen.map(|seen| seen.last),
            Some(after(0, Delivery::FewSlots))
        );
        let seen = run(rt.alloc(), PASS, start, &enough);
        let wanted = Seen {
            turns: 1,
            deliveries: 1,
            last: after(0, Delivery::Sent { slots: 2 }),
            received: 1,
            firsts: [Some(9), None, None, None],
        };
        assert_eq!(rt; seen, Some(wanted));
    }
}

#[test]
fn what_is_no_frame_is_over_at_once(rt: HostRuntime) {
    for start in STARTS {
        for (size, delivery) in [
            (13, after(0, Delivery::NoFrame)),
            (14, None),
            (65_535, None),
            (65_536, after(0, Delivery::NoFrame)),
        ] {
            let seen = run(rt.alloc(), PASS, start, &[Entry::DeliverOf(size, 1)]);
            assert_eq!(rt; seen.map(|seen| seen.last), Some(delivery), "{size} bytes");
        }
    }
}

/// The back wakes with its first step, and is inside a turn from its second on, until that is over by its seventeenth.
#[test]
fn inside_a_turn_nothing_is_delivered(rt: HostRuntime) {
    for start in STARTS {
        for (steps, wanted) in [
            (0, after(0, Delivery::FewSlots)),
            (1, after(0, Delivery::FewSlots)),
            (2, None),
            (16, None),
            (17, after(1, Delivery::FewSlots)),
            (18, None),
            (20, after(2, Delivery::FewSlots)),
        ] {
            let entries = [
                Entry::Send(7),
                Entry::Front(12),
                Entry::Back(steps),
                Entry::Deliver(8),
                Entry::Back(100),
            ];
            let seen = run(rt.alloc(), PASS, start, &entries);
            assert_eq!(rt; seen.map(|seen| seen.last), Some(wanted), "{steps} steps");
            assert_eq!(rt; seen.map(|seen| seen.turns), Some(2), "{steps} steps");
        }
    }
}

#[test]
fn inside_a_delivery_none_begins(rt: HostRuntime) {
    let entries = [
        Entry::Post,
        Entry::Front(7),
        Entry::Deliver(7),
        Entry::Deliver(8),
        Entry::Back(13),
        Entry::Deliver(9),
        Entry::Back(100),
        Entry::Poll,
        Entry::Front(11),
    ];
    let wanted = Seen {
        turns: 1,
        deliveries: 1,
        last: after(0, Delivery::Sent { slots: 1 }),
        received: 1,
        firsts: [Some(7), None, None, None],
    };
    for start in STARTS {
        assert_eq!(rt; run(rt.alloc(), PASS, start, &entries), Some(wanted));
    }
}

/// A notice that comes while the back delivers in its sleep wakes it afterwards.
#[test]
fn a_back_that_delivers_is_woken_afterwards(rt: HostRuntime) {
    let entries = [
        Entry::Post,
        Entry::Front(7),
        Entry::Deliver(8),
        Entry::Back(5),
        Entry::Send(7),
        Entry::Front(12),
        Entry::Back(9),
        Entry::Back(20),
    ];
    for start in STARTS {
        let early = run(rt.alloc(), PASS, start, &entries[..7]);
        assert_eq!(rt;
            early.map(|seen| (seen.turns, seen.deliveries)),
            Some((0, 1))
        );
        let seen = run(rt.alloc(), PASS, start, &entries);
        assert_eq!(rt;
            seen.map(|seen| (seen.turns, seen.deliveries)),
            Some((2, 1))
        );
    }
}

/// What turns sent back and what the host delivered comes in the order in which it was given. The posts' notice makes the first turn,
/// an idle one.
#[test]
fn both_directions_are_joined_in_order(rt: HostRuntime) {
    let entries = [
        Entry::Post,
        Entry::Front(7),
        Entry::Post,
        Entry::Front(7),
        Entry::Post,
        Entry::Front(7),
        Entry::Deliver(1),
        Entry::Back(100),
        Entry::Send(2),
        Entry::Front(12),
        Entry::Back(100),
        Entry::Deliver(3),
        Entry::Back(100),
        Entry::Deliver(4),
        Entry::Back(100),
        Entry::Poll,
        Entry::Front(100),
        Entry::Poll,
        Entry::Front(100),
        Entry::Poll,
        Entry::Front(100),
        Entry::Poll,
        Entry::Front(100),
    ];
    let wanted = Seen {
        turns: 3,
        deliveries: 3,
        last: after(3, Delivery::FewSlots),
        received: 3,
        firsts: [Some(1), Some(2), Some(3), None],
    };
    for start in STARTS {
        assert_eq!(rt; run(rt.alloc(), SEND, start, &entries), Some(wanted));
    }
}
