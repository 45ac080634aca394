//! What new rings hold, and what a front posts and sends first. It posts nothing once its back has ended.

use crate::bench::{Bench, PASSES, SENDS_BACK, program, setup_of, word};
use std::alloc::Global;
use std::sync::Wait;
use std::sync::atomic::{AtomicU32, Ordering};
use std::thread;
use std::thread::Threads;
use std::time::{Clock, Duration};
use thread_pair::{Discard, Gate, Inbox, PairFault, Shared};
use xen_page::PageBus;

/// The frames of the tx rings of queues 0 and 1. Each rx ring is in the frame after.
const TX_RINGS: [u32; 2] = [17, 531];

/// A ring's producers and event indices, as in a page: `req_prod`, `req_event`, `rsp_prod` and `rsp_event`.
type Header = [u32; 4];

fn header(bus: &mut PageBus<'_>, frame: u32) -> Header {
    [
        word(bus, frame, 0),
        word(bus, frame, 1),
        word(bus, frame, 2),
        word(bus, frame, 3),
    ]
}

/// The headers of two queues' rings in a run that makes no turn and has no front, and its fault.
fn untouched(
    rt: &(impl Threads + Wait + Sync),
    alloc: Global,
    start: u32,
) -> Option<(PairFault, [Header; 4])> {
    let setup = setup_of(alloc, &[1, 1], start)?;
    let (bench, parkers) = Bench::make(alloc, setup)?;
    let program = program(alloc, PASSES, &[])?;
    let fault = bench.fault_of_stacks(rt, alloc, &program, 0, parkers)?;
    let mut bus = PageBus::of(&bench.shared.frames);
    let headers = [
        header(&mut bus, TX_RINGS[0]),
        header(&mut bus, TX_RINGS[0] + 1),
        header(&mut bus, TX_RINGS[1]),
        header(&mut bus, TX_RINGS[1] + 1),
    ];
    Some((fault, headers))
}

/// A ring whose event indices are its producers asks for no notice of the first request, or of the first response.
#[test]
fn new_rings_ask_for_the_first_of_each(rt: HostRuntime) {
    for (start, event) in [(0, 1), (7, 8), (0xFFFF_FFFF, 0)] {
        let seen = untouched(&rt, rt.alloc(), start);
        let wanted = [[start, event, start, event]; 4];
        assert_eq!(rt; seen, Some((PairFault::Thread, wanted)));
    }
}

/// Waits until a queue's front has sent a packet, in a run whose rings begin at 0.
fn await_packet(rt: &impl Clock, shared: &Shared, frame: u32) {
    let mut bus = PageBus::of(&shared.frames);
    for _look in 0..10_000 {
        if word(&mut bus, frame, 0) != 0 {
            return;
        }
        thread::sleep(rt, Duration::from_millis(1));
    }
}

/// Holds queue 1 before its first turn until its front has sent a packet, and notes what its rings hold then.
#[derive(Drop)]
struct Noted<'s, R: Clock> {
    rt: R,
    shared: &'s Shared,
    /// The number of buffers that are posted.
    posted: AtomicU32,
    /// The references of the first requests of the tx ring and of the rx ring.
    tx: AtomicU32,
    rx: AtomicU32,
}

impl<R: Clock> Gate for Noted<'_, R> {
    fn pass(&self, queue: usize, call: u32) {
        if queue != 1 || call > 1 {
            return;
        }
        await_packet(&self.rt, self.shared, TX_RINGS[1]);
        let mut bus = PageBus::of(&self.shared.frames);
        let rx_ring = TX_RINGS[1] + 1;
        self.posted
            .store(word(&mut bus, rx_ring, 0), Ordering::SeqCst);
        self.tx
            .store(word(&mut bus, TX_RINGS[1], 16), Ordering::SeqCst);
        self.rx.store(word(&mut bus, rx_ring, 17), Ordering::SeqCst);
    }
}

/// Returns the number of buffers that queue 1 has posted once it has sent a packet, and the references of its first requests.
fn first_requests<R: Threads + Wait + Sync + Clock>(rt: &R, alloc: Global) -> Option<[u32; 3]> {
    let setup = setup_of(alloc, &[0, 1], 0)?;
    let (bench, parkers) = Bench::make(alloc, setup)?;
    let program = program(alloc, PASSES, &[])?;
    let gate = Noted {
        rt,
        shared: &bench.shared,
        posted: AtomicU32::new(0),
        tx: AtomicU32::new(0),
        rx: AtomicU32::new(0),
    };
    match bench.rows(rt, alloc, &program, 100_000, &gate, &Discard, parkers) {
        Some(_) => Some([
            gate.posted.load(Ordering::SeqCst),
            gate.tx.load(Ordering::SeqCst),
            gate.rx.load(Ordering::SeqCst),
        ]),
        None => None,
    }
}

/// Queue 1's references begin at 514: those of its two rings, of its 256 tx buffers, and then of its rx buffers.
#[test]
fn first_requests_name_the_buffers_of_their_ring(rt: HostRuntime) {
    assert_eq!(rt; first_requests(&rt, rt.alloc()), Some([16, 516, 772]));
}

/// Holds the back before its first turn until a packet is there, and the front, once that packet comes back to it, until the
/// back has ended.
#[derive(Drop)]
struct Held<'s, R: Clock> {
    rt: R,
    shared: &'s Shared,
}

impl<R: Clock> Gate for Held<'_, R> {
    fn pass(&self, _queue: usize, _call: u32) {
        await_packet(&self.rt, self.shared, TX_RINGS[0]);
    }
}

impl<R: Clock> Inbox for Held<'_, R> {
    fn take(&self, queue: usize, _packet: &[u8]) {
        for _look in 0..10_000 {
            if self.shared.has_back_ended(queue) {
                return;
            }
            thread::sleep(&self.rt, Duration::from_millis(1));
        }
    }
}

/// Returns how many buffers were posted in a run of one turn, and how many packets came back.
fn posted_at_the_end<R: Threads + Wait + Sync + Clock>(
    rt: &R,
    alloc: Global,
) -> Option<(u32, Option<u64>)> {
    let setup = setup_of(alloc, &[20], 0)?;
    let (bench, parkers) = Bench::make(alloc, setup)?;
    let program = program(alloc, SENDS_BACK, &[])?;
    let gate = Held {
        rt,
        shared: &bench.shared,
    };
    let inbox = Held {
        rt,
        shared: &bench.shared,
    };
    let (_, rows) = bench.rows(rt, alloc, &program, 1, &gate, &inbox, parkers)?;
    let received = match rows[0] {
        Some(row) => Some(row.received),
        None => None,
    };
    let mut bus = PageBus::of(&bench.shared.frames);
    Some((word(&mut bus, TX_RINGS[0] + 1, 0), received))
}

/// The buffer of the packet that came back isn't posted again.
#[test]
fn nothing_is_posted_once_the_back_has_ended(rt: HostRuntime) {
    assert_eq!(rt; posted_at_the_end(&rt, rt.alloc()), Some((16, Some(1))));
}
