//! What a row counts, what a gate hears, and which ports are set: each test's gate fixes what a turn finds.

ghost use Rattle.std.specs.Prelude.{◌≡◌, IfSome, vec_len};

use super::fixtures::{rows_behind, rows_with};
use crate::bench::{Bench, Rows, SENDS_BACK, TURNS, program, rows_of, setup, setup_of, word};
use bpf_maps::MapShape;
use bpf_verify::Verified;
use std::alloc::Global;
use std::sync::Wait;
use std::sync::atomic::{AtomicBool, AtomicU32, Ordering};
use std::thread;
use std::thread::Threads;
use std::time::{Clock, Duration};
use thread_pair::{Deliveries, Discard, Gate, Open, PairRow, Parkers, Shared};
use xdp_load::{SentPacket, Setup};
use xen_page::{Bus, PageBus, Place};
use xen_ring::Port;

/// Counts the calls of each queue, and those that don't have the next number.
#[derive(Drop)]
struct Numbers {
    calls: [AtomicU32; 2],
    wrong: AtomicU32,
}

impl Gate for Numbers {
    fn pass(&self, queue: usize, call: u32) {
        let before = self.calls[queue % 2].fetch_add(1, Ordering::SeqCst);
        if call != before.wrapping_add(1) {
            self.wrong.fetch_add(1, Ordering::SeqCst);
        }
    }
}

#[test]
fn calls_are_numbered_from_1_up_to_the_turns(rt: HostRuntime) {
    let gate = Numbers {
        calls: [AtomicU32::new(0), AtomicU32::new(0)],
        wrong: AtomicU32::new(0),
    };
    let rows = rows_behind(&rt, rt.alloc(), SENDS_BACK, &[5000, 5000], 3, &gate);
    let counted = [
        gate.wrong.load(Ordering::SeqCst),
        gate.calls[0].load(Ordering::SeqCst),
        gate.calls[1].load(Ordering::SeqCst),
    ];
    assert_eq!(rt; (rows.is_some(), counted), (true, [0, 3, 3]));
}

/// Holds a back before its first turn until its front has sent a packet. Then it may end the grant of the first rx buffer.
#[derive(Drop)]
struct First<'s, R: Clock> {
    rt: R,
    shared: &'s Shared,
    ends_grant: bool,
    /// Turns that were made before the first call.
    early: AtomicU32,
    /// True if the front has set another port than the back's.
    astray: AtomicBool,
}

impl<R: Clock> First<'_, R> {
    fn wait(&self, bus: &mut PageBus<'_>) {
        for _look in 0..10_000 {
            if word(bus, 17, 0) != 0 {
                return;
            }
            thread::sleep(&self.rt, Duration::from_millis(1));
        }
    }

    fn is_set(&self, number: u32) -> bool {
        match Port::of(number) {
            Some(port) => self.shared.ports.take(port),
            None => false,
        }
    }
}

impl<R: Clock> Gate for First<'_, R> {
    fn pass(&self, queue: usize, call: u32) {
        if queue > 0 || call > 1 {
            return;
        }
        let mut bus = PageBus::of(&self.shared.frames);
        self.wait(&mut bus);
        self.early
            .fetch_add(word(&mut bus, 17, 2), Ordering::SeqCst);
        // The front's first post was to be noticed, and the back has done nothing yet.
        let astray = !self.is_set(0) || self.is_set(1);
        self.astray.store(astray, Ordering::SeqCst);
        let entry = Place {
            frame: 1,
            word: 516,
        };
        if self.ends_grant && entry.frame < bus.frames() {
            bus.write(entry, 0);
        }
    }
}

/// The rows of a run whose first turn is held, how many turns came before its first call, and whether the front has set
/// another port than the back's.
type Held = (Rows, u32, bool);

fn held<R: Threads + Wait + Sync + Clock>(
    rt: &R,
    alloc: Global,
    bench: &Bench,
    program: &Verified,
    turns: u32,
    ends_grant: bool,
    parkers: Parkers,
) -> Option<Held>
    requires { (vec_len parkers.fronts ≡ bench.now.listed.setup.queues) × (vec_len parkers.backs ≡ bench.now.listed.setup.queues) }
{
    let gate = First {
        rt,
        shared: &bench.shared,
        ends_grant,
        early: AtomicU32::new(0),
        astray: AtomicBool::new(true),
    };
    match bench.rows(rt, alloc, program, turns, &gate, &Discard, parkers) {
        Some(rows) => Some((
            rows,
            gate.early.load(Ordering::SeqCst),
            gate.astray.load(Ordering::SeqCst),
        )),
        None => None,
    }
}

/// A run of five packets whose first turn is held.
fn held_run(
    rt: &(impl Threads + Wait + Sync + Clock),
    alloc: Global,
    turns: u32,
    ends_grant: bool,
) -> Option<Held> {
    let setup = setup_of(alloc, &[5], 0)?;
    let (bench, parkers) = Bench::make(alloc, setup)?;
    match program(alloc, SENDS_BACK, &[]) {
        Some(program) => held(rt, alloc, &bench, &program, turns, ends_grant, parkers),
        None => None,
    }
}

/// Returns how many rows there are, the packets that the first queue copied and that came back to it, and what else a held run came
/// to.
fn came_back(held: Held) -> (usize, Option<(u64, u64)>, u32, bool) {
    let ((count, rows), early, astray) = held;
    let first = match rows[0] {
        Some(row) => Some((row.copied, row.received)),
        None => None,
    };
    (count, first, early, astray)
}

#[test]
fn the_first_turn_comes_after_the_gate(rt: HostRuntime) {
    let seen = held_run(&rt, rt.alloc(), 1, false).map(came_back);
    assert_eq!(rt; seen, Some((1, Some((1, 1)), 0, false)));
}

#[test]
fn a_refused_packet_is_counted_and_not_received(rt: HostRuntime) {
    let row = PairRow {
        sent: 5,
        copied: 4,
        refused: 1,
        halted: None,
        received: 4,
        deliveries: Deliveries::NONE,
    };
    let rows = held_run(&rt, rt.alloc(), TURNS, true).map(|seen| seen.0);
    assert_eq!(rt; rows, Some(rows_of(&[row])));
}

/// Adds the number of the interface to counter 1 of a map of two values, and passes the packet on.
const COUNTS_BY_INTERFACE: &[&str] = &[
    "61160c0000000000",
    "620afcff01000000",
    "bfa2000000000000",
    "07020000fcffffff",
    "1811000000000000",
    "0000000000000000",
    "8500000001000000",
    "1500010000000000",
    "db60000000000000",
    "b700000002000000",
    "9500000000000000",
];

/// A run of three packets on interface 7: the second counter.
fn counter_by_interface(rt: &(impl Threads + Wait + Sync), alloc: Global) -> Option<u64> {
    let mut setup = setup_of(alloc, &[3], 0)?;
    setup.ifindex = 7;
    let (bench, parkers) = Bench::make(alloc, setup)?;
    let shape = MapShape::of(2, 1)?;
    let program = program(alloc, COUNTS_BY_INTERFACE, &[shape])?;
    match bench.counts(rt, alloc, &program, parkers) {
        Some((_, counter)) => Some(counter),
        None => None,
    }
}

#[test]
fn programs_see_the_interface_of_the_setup(rt: HostRuntime) {
    assert_eq!(rt; counter_by_interface(&rt, rt.alloc()), Some(21));
}

/// A setup of a packet of the most bytes, three times.
fn longest(alloc: Global) -> Option<Setup>
    ensures { IfSome result (λ s. s.queues ≡ 1) }
{
    let bytes = Vec::from_elem(alloc, 0x5au8, 65_535).ok()?;
    let packet = SentPacket {
        queue: 0,
        bytes,
        times: 3,
    };
    let mut packets = Vec::new(alloc);
    match packets.push(packet) {
        Ok(()) => Some(setup(alloc, 1, 0, packets)),
        Err(_) => None,
    }
}

fn rows_of_the_longest(rt: &(impl Threads + Wait + Sync), alloc: Global) -> Option<Rows> {
    let setup = longest(alloc)?;
    rows_with(rt, alloc, SENDS_BACK, setup, TURNS, &Open)
}

/// Each takes all sixteen posted slots on its way back.
#[test]
fn the_longest_packets_come_back(rt: HostRuntime) {
    let row = PairRow {
        sent: 3,
        copied: 3,
        refused: 0,
        halted: None,
        received: 3,
        deliveries: Deliveries::NONE,
    };
    assert_eq!(rt; rows_of_the_longest(&rt, rt.alloc()), Some(rows_of(&[row])));
}
