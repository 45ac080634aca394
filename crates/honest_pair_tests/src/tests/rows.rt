//! Short runs, each with rings that begin at 0 and with rings whose indices wrap.

use crate::plan::{Plan, packet};
use crate::tests::looks::turns;
use crate::tests::programs::{PASS, SEND, accepted, counting};
use bpf_maps::Op;
use bpf_vm::Action;
use honest_pair::{Pair, PairEvent, PairRun};
use std::alloc::{AllocError, Global};
use xdp_world::Kept;

const STARTS: [u32; 2] = [0, 0xFFFF_FFFF];

/// One or more events of a plan.
#[derive(Clone, Copy)]
enum Entry {
    /// A send of 14 bytes, of which this is the first and the seed of the others.
    Send(u8),
    Post,
    Poll,
    Front(usize),
    Back(usize),
}

fn add_all(plan: &mut Plan, entries: &[Entry]) -> Result<(), AllocError> {
    for entry in entries {
        match entry {
            Entry::Send(first) => plan.send(14, *first, u32::from(*first))?,
            Entry::Post => plan.add(PairEvent::Post)?,
            Entry::Poll => plan.add(PairEvent::Poll)?,
            Entry::Front(steps) => plan.front_steps(*steps)?,
            Entry::Back(steps) => plan.back_steps(*steps)?,
        }
    }
    Ok(())
}

/// A turn. `sent` is the first byte of its packet, if that is one that an entry sends.
#[derive(Clone, Copy, Debug, PartialEq, Eq)]
enum Kind {
    Idle,
    Ran {
        action: Action,
        sent: Option<u8>,
        ops: u32,
        slots: u32,
    },
    Refused {
        cause: u8,
        ops: u32,
        slots: u32,
    },
    Halted,
}

/// The turn of a packet in one slot, without an operation.
fn ran(action: Action, sent: u8) -> Option<Kind> {
    Some(Kind::Ran {
        action,
        sent: Some(sent),
        ops: 0,
        slots: 1,
    })
}

/// The first byte of a packet, if it is one that an entry sends.
fn sent(alloc: Global, bytes: &[u8]) -> Option<u8> {
    let first = *bytes.first()?;
    match packet(alloc, 14, first, u32::from(first)) {
        Ok(wanted) if wanted.as_slice() == bytes => Some(first),
        _ => None,
    }
}

fn kind_of(alloc: Global, kept: &Kept) -> Kind {
    match kept {
        Kept::Idle => Kind::Idle,
        Kept::Ran {
            action,
            packet,
            ops,
            slots,
            ..
        } => Kind::Ran {
            action: *action,
            sent: sent(alloc, packet.as_slice()),
            ops: *ops,
            slots: *slots,
        },
        Kept::Refused { cause, ops, slots } => Kind::Refused {
            cause: cause.number(),
            ops: *ops,
            slots: *slots,
        },
        Kept::Halted { .. } => Kind::Halted,
    }
}

/// The outcome of a run, as these tests see it.
#[derive(Clone, Copy, Debug, PartialEq, Eq)]
struct Seen {
    /// The number of turns, and the first four.
    count: usize,
    turns: [Option<Kind>; 4],
    /// The number of packets that were received, and the first byte of the first of them, if an entry sends it.
    received: usize,
    packet: Option<u8>,
    /// The number of counter operations.
    history: usize,
}

/// A run of these turns that receives nothing.
fn only(count: usize, turns: [Option<Kind>; 4]) -> Option<Seen> {
    Some(Seen {
        count,
        turns,
        received: 0,
        packet: None,
        history: 0,
    })
}

fn seen_of(alloc: Global, run: &PairRun) -> Seen {
    let kept = turns(run);
    let mut kinds = [None; 4];
    for (kind, turn) in kinds.iter_mut().zip(kept) {
        *kind = Some(kind_of(alloc, turn));
    }
    let packet = match run.received.first() {
        Some(packet) => sent(alloc, packet.as_slice()),
        None => None,
    };
    Seen {
        count: kept.len(),
        turns: kinds,
        received: run.received.len(),
        packet,
        history: run.report.history.len(),
    }
}

fn seen_with(alloc: Global, slots: &[u64], start: u32, plan: &Plan) -> Option<Seen> {
    let program = accepted(alloc, slots)?;
    match Pair::run(alloc, &program, start, plan.events()) {
        Ok(run) => Some(seen_of(alloc, &run)),
        Err(_) => None,
    }
}

/// Returns what is seen of a run of these entries.
fn run(alloc: Global, slots: &[u64], start: u32, entries: &[Entry]) -> Option<Seen> {
    let mut plan = Plan::new(alloc);
    match add_all(&mut plan, entries) {
        Ok(()) => seen_with(alloc, slots, start, &plan),
        Err(_) => None,
    }
}

#[test]
fn a_packet_is_sent_and_passes(rt: HostRuntime) {
    let entries = [Entry::Send(7), Entry::Front(12), Entry::Back(20)];
    let turns = [ran(Action::Pass, 7), Some(Kind::Idle), None, None];
    for start in STARTS {
        assert_eq!(rt; run(rt.alloc(), PASS, start, &entries), only(2, turns));
    }
}

#[test]
fn the_turns_end_with_their_last_steps(rt: HostRuntime) {
    for start in STARTS {
        for (steps, count) in [(16, 0), (17, 1), (19, 1), (20, 2), (200, 2)] {
            let entries = [Entry::Send(7), Entry::Front(12), Entry::Back(steps)];
            let seen = run(rt.alloc(), PASS, start, &entries);
            assert_eq!(rt; seen.map(|seen| seen.count), Some(count), "{steps} steps");
        }
    }
}

#[test]
fn a_packet_without_a_notice_is_not_seen(rt: HostRuntime) {
    for start in STARTS {
        for steps in [9, 10, 11] {
            let entries = [Entry::Send(7), Entry::Front(steps), Entry::Back(1000)];
            let seen = run(rt.alloc(), PASS, start, &entries);
            assert_eq!(rt; seen, only(0, [None; 4]), "{steps} steps");
        }
    }
}

#[test]
fn a_second_send_finds_the_front_busy(rt: HostRuntime) {
    let entries = [
        Entry::Send(7),
        Entry::Send(8),
        Entry::Front(100),
        Entry::Back(100),
        Entry::Send(9),
        Entry::Front(12),
        Entry::Back(100),
    ];
    let (first, idle) = (ran(Action::Pass, 7), Some(Kind::Idle));
    let second = ran(Action::Pass, 9);
    for start in STARTS {
        let seen = run(rt.alloc(), PASS, start, &entries[..4]);
        assert_eq!(rt; seen, only(2, [first, idle, None, None]));
        let seen = run(rt.alloc(), PASS, start, &entries);
        assert_eq!(rt; seen, only(4, [first, idle, second, idle]));
    }
}

#[test]
fn the_second_look_finds_a_packet(rt: HostRuntime) {
    let entries = [
        Entry::Send(7),
        Entry::Front(12),
        Entry::Back(18),
        Entry::Send(8),
        // A twelfth event there would be the notice: the activity is over after eleven, so a send is taken again.
        Entry::Front(11),
        Entry::Back(2),
        Entry::Back(14),
    ];
    let turns = [ran(Action::Pass, 7), ran(Action::Pass, 8), None, None];
    for start in STARTS {
        assert_eq!(rt; run(rt.alloc(), PASS, start, &entries), only(2, turns));
    }
}

#[test]
fn a_packet_comes_back(rt: HostRuntime) {
    let entries = [
        Entry::Post,
        Entry::Front(7),
        Entry::Send(7),
        Entry::Front(12),
        Entry::Back(31),
        Entry::Poll,
        Entry::Front(10),
        Entry::Front(1),
    ];
    let wanted = Seen {
        count: 1,
        turns: [ran(Action::Tx, 7), None, None, None],
        received: 1,
        packet: Some(7),
        history: 0,
    };
    for start in STARTS {
        let early = run(rt.alloc(), SEND, start, &entries[..7]);
        assert_eq!(rt; early.map(|seen| seen.received), Some(0));
        assert_eq!(rt; run(rt.alloc(), SEND, start, &entries), Some(wanted));
    }
}

/// The back's notice is due with its last step.
#[test]
fn a_packet_that_is_sent_back_takes_31_steps(rt: HostRuntime) {
    for start in STARTS {
        for (steps, count) in [(30, 0), (31, 1)] {
            let entries = [
                Entry::Post,
                Entry::Front(7),
                Entry::Send(7),
                Entry::Front(12),
                Entry::Back(steps),
            ];
            let seen = run(rt.alloc(), SEND, start, &entries);
            assert_eq!(rt; seen.map(|seen| seen.count), Some(count), "{steps} steps");
        }
    }
}

/// The post's notice is due with its seventh step, so a send before it finds the front busy.
#[test]
fn a_post_takes_seven_steps(rt: HostRuntime) {
    let idle = Some(Kind::Idle);
    let busy = [
        Entry::Post,
        Entry::Front(6),
        Entry::Send(7),
        Entry::Front(20),
        Entry::Back(100),
    ];
    let free = [
        Entry::Post,
        Entry::Front(7),
        Entry::Send(7),
        Entry::Front(20),
        Entry::Back(100),
    ];
    for start in STARTS {
        let seen = run(rt.alloc(), PASS, start, &busy);
        assert_eq!(rt; seen, only(1, [idle, None, None, None]));
        let seen = run(rt.alloc(), PASS, start, &free);
        assert_eq!(rt; seen, only(2, [ran(Action::Pass, 7), idle, None, None]));
    }
}

/// The queue, the word and the operations of a run of a program that counts each packet.
fn counted(
    alloc: Global,
    start: u32,
    entries: &[Entry],
) -> Option<(usize, u64, Option<(usize, Op)>)> {
    let mut plan = Plan::new(alloc);
    add_all(&mut plan, entries).ok()?;
    let program = counting(alloc)?;
    let run = Pair::run(alloc, &program, start, plan.events()).ok()?;
    let first = run.report.history.first().copied();
    Some((
        run.report.history.len(),
        run.report.totals.at(0, 1, 0),
        first,
    ))
}

#[test]
fn a_packet_is_counted(rt: HostRuntime) {
    let entries = [Entry::Send(7), Entry::Front(12), Entry::Back(100)];
    let add = Op::Add {
        m: 0,
        k: 1,
        j: 0,
        delta: 1,
        old: 0,
    };
    for start in STARTS {
        let seen = counted(rt.alloc(), start, &entries);
        assert_eq!(rt; seen, Some((1, 1, Some((0, add)))));
    }
}

#[test]
fn too_few_posts_refuse_a_packet(rt: HostRuntime) {
    let entries = [
        Entry::Send(7),
        Entry::Front(12),
        Entry::Back(100),
        Entry::Poll,
        Entry::Front(100),
    ];
    let refused = Kind::Refused {
        cause: 6,
        ops: 0,
        slots: 1,
    };
    let turns = [Some(refused), Some(Kind::Idle), None, None];
    for start in STARTS {
        assert_eq!(rt; run(rt.alloc(), SEND, start, &entries), only(2, turns));
    }
}
