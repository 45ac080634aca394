//! Setups and programs of the tests, and the memory that a run is over.
ghost use Rattle.std.specs.Prelude.{◌≡◌, ◌≤◌, IfSome, length, vec_len};
ghost use Rattle.bpf_note.specs.Shape.{most_maps};

use bpf_insn::decode;
use bpf_maps::MapShape;
use bpf_verify::{Verified, verify};
use std::alloc::{AllocError, Global};
use thread_pair::{Deliveries, OnPass, PairRow, Parkers, Shared};
use xdp_load::{Listed, SentPacket, Setup};
use xen_page::{Bus, PageBus, Place};

/// Adds the number of the queue and 1 to counter 1 of a map of two values, and passes the packet on. Its relocation is applied.
pub const COUNTS_BY_QUEUE: &[&str] = &[
    "6116100000000000",
    "0706000001000000",
    "620afcff01000000",
    "bfa2000000000000",
    "07020000fcffffff",
    "1811000000000000",
    "0000000000000000",
    "8500000001000000",
    "1500010000000000",
    "db60000000000000",
    "b700000002000000",
    "9500000000000000",
];

/// Passes each packet on.
pub const PASSES: &[&str] = &["b700000002000000", "9500000000000000"];

/// Sends each packet back.
pub const SENDS_BACK: &[&str] = &["b700000003000000", "9500000000000000"];

/// More turns than any test needs.
pub const TURNS: u32 = 1_000_000;

/// The row of a queue whose packets were all passed on.
pub fn passed(packets: u64) -> PairRow {
    PairRow {
        sent: packets,
        copied: packets,
        refused: 0,
        halted: None,
        received: 0,
        deliveries: Deliveries::NONE,
    }
}

/// Rows of queues: how many there are, and the first eight.
pub type Rows = (usize, [Option<PairRow>; 8]);

pub fn rows_of(rows: &[PairRow]) -> Rows {
    let mut first = [None; 8];
    for (row, found) in first.iter_mut().zip(rows) {
        *row = Some(*found);
    }
    (rows.len(), first)
}

/// Adds the bytes of the hex texts of slots, unless one is no hex text or there is no memory.
fn add_slots(alloc: Global, bytes: &mut Vec<u8>, slots: &[&str]) -> Option<()> {
    for text in slots {
        let slot = hex::decode(alloc, text).ok()?;
        bytes.extend_from_slice(slot.as_slice()).ok()?;
    }
    Some(())
}

/// The accepted program of these bytes.
pub fn accepted(alloc: Global, bytes: &[u8], shapes: &[MapShape]) -> Option<Verified>
    requires { length shapes.now ≤ most_maps }
    ensures { IfSome result (λ v. v.shapes ≡ shapes.now) }
{
    match decode(alloc, bytes) {
        Ok(code) => verify(alloc, code, shapes).ok(),
        Err(_) => None,
    }
}

/// The accepted program of the hex texts of its slots.
pub fn program(alloc: Global, slots: &[&str], shapes: &[MapShape]) -> Option<Verified>
    requires { length shapes.now ≤ most_maps }
    ensures { IfSome result (λ v. v.shapes ≡ shapes.now) }
{
    let mut bytes = Vec::new(alloc);
    match add_slots(alloc, &mut bytes, slots) {
        Some(()) => accepted(alloc, bytes.as_slice(), shapes),
        None => None,
    }
}

/// A setup of these packets alone.
pub fn setup(alloc: Global, queues: usize, start: u32, packets: Vec<SentPacket>) -> Setup
    ensures { result.queues ≡ queues }
{
    Setup {
        program: Vec::new(alloc),
        shapes: Vec::new(alloc),
        values: Vec::new(alloc),
        names: Vec::new(alloc),
        queues,
        ifindex: 0,
        start,
        script: Vec::new(alloc),
        packets,
    }
}

/// The bytes of a packet of 14.
const BYTES: [u8; 14] = [0, 1, 2, 3, 4, 5, 6, 7, 8, 9, 10, 11, 12, 13];

/// Adds packets of 14 bytes, as many for each queue as `times` says.
fn add_packets(
    alloc: Global,
    packets: &mut Vec<SentPacket>,
    times: &[u32],
) -> Result<(), AllocError> {
    for (queue, times) in times.iter().enumerate() {
        packets.push(SentPacket {
            queue,
            bytes: Vec::from_slice(alloc, &BYTES)?,
            times: *times,
        })?;
    }
    Ok(())
}

/// A setup of packets of 14 bytes, as many for each queue as `times` says.
pub fn setup_of(alloc: Global, times: &[u32], start: u32) -> Option<Setup>
    ensures { IfSome result (λ s. s.queues ≡ length times.now) }
{
    let mut packets = Vec::new(alloc);
    match add_packets(alloc, &mut packets, times) {
        Ok(()) => Some(setup(alloc, times.len(), start, packets)),
        Err(_) => None,
    }
}

/// The inputs of a run: a setup without lists, and its pages. Its threads' parkers are apart.
#[derive(Drop)]
pub struct Bench {
    pub listed: Listed,
    pub shared: Shared,
    ghost queues: { (1 ≤ listed.setup.queues) × (listed.setup.queues ≤ 8) },
    ghost shared_queues: { shared.layout.queues ≡ listed.setup.queues },
    ghost numbers: { (shared.ifindex ≡ listed.setup.ifindex) × (shared.start ≡ listed.setup.start) },
}

impl Bench {
    /// A bench whose host takes what it is passed.
    pub fn make(alloc: Global, setup: Setup) -> Option<(Bench, Parkers)>
        requires { (1 ≤ setup.queues) × (setup.queues ≤ 8) }
        ensures { IfSome result (λ r. (vec_len r.1.fronts ≡ r.0.listed.setup.queues) × (vec_len r.1.backs ≡ r.0.listed.setup.queues)) }
    {
        Bench::with_host(alloc, setup, OnPass::Takes)
    }

    pub fn with_host(alloc: Global, setup: Setup, host: OnPass) -> Option<(Bench, Parkers)>
        requires { (1 ≤ setup.queues) × (setup.queues ≤ 8) }
        ensures { IfSome result (λ r. (vec_len r.1.fronts ≡ r.0.listed.setup.queues) × (vec_len r.1.backs ≡ r.0.listed.setup.queues)) }
    {
        let lists = Vec::new(alloc);
        let listed = Listed { setup, lists };
        match Shared::make(alloc, &listed.setup, host) {
            Ok((shared, parkers)) => Some((Bench { listed, shared }, parkers)),
            Err(_) => None,
        }
    }
}

/// A word of a page.
pub fn word(bus: &mut PageBus<'_>, frame: u32, word: u32) -> u32 {
    let at = Place { frame, word };
    if frame < bus.frames() && word < 1024 {
        bus.read(at)
    } else {
        0
    }
}
