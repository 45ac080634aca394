//! Counters that several queues' threads add to.

ghost use Rattle.std.specs.Prelude.{◌≡◌, Some, slice_get, false};
ghost use Rattle.bpf_note.specs.declared.key.MapKey.TheVariants.{Index};

use crate::bench::{
    Bench, COUNTS_BY_QUEUE, Rows, TURNS, accepted, passed, program, rows_of, setup_of,
};
use bpf_maps::MapShape;
use std::alloc::Global;
use std::sync::Wait;
use std::thread::Threads;
use thread_pair::{OnPass, Open, PairReport, pair_with};
use xdp_load::load_listed;

/// Queue 0 sends 1,000 packets and queue 1 sends 500. The program adds 1 to counter 1 for each.
const SETTINGS: &str = r#"
program = [
    "620afcff01000000",
    "bfa2000000000000",
    "07020000fcffffff",
    "18010000000000000000000000000000",
    "8500000001000000",
    "1500020000000000",
    "b701000001000000",
    "db10000000000000",
    "b700000002000000",
    "9500000000000000",
]
queues = 2
[[map]]
name = "hits"
entries = 2
[[reloc]]
slot = 3
map = "hits"
[[packet]]
queue = 0
bytes = "000102030405060708090a0b0c0d"
times = 1000
[[packet]]
queue = 1
bytes = "000102030405060708090a0b0c0d"
times = 500
"#;

/// The rows of a report, and its two counters.
fn counted(report: &PairReport) -> (Rows, [u64; 2])
    requires { slice_get report.now.totals.shapes 0 ≡ Some (record { entries = 2; counters = 1; key = Index; parts = false }) }
{
    let counters = [report.totals.at(0, 0, 0), report.totals.at(0, 1, 0)];
    (rows_of(report.rows.as_slice()), counters)
}

/// The rows and the counters of a run of these settings.
fn run_of_settings(rt: &(impl Threads + Wait + Sync), alloc: Global) -> Option<(Rows, [u64; 2])> {
    let listed = load_listed(alloc, SETTINGS.as_bytes()).ok()?;
    let shape = MapShape::of(2, 1)?;
    let program = accepted(alloc, listed.setup.program.as_slice(), &[shape])?;
    match pair_with(rt, alloc, &listed, &program, OnPass::Takes, TURNS, &Open) {
        Ok(report) => Some(counted(&report)),
        Err(_) => None,
    }
}

#[test]
fn two_queues_count_1500(rt: HostRuntime) {
    let rows = rows_of(&[passed(1000), passed(500)]);
    assert_eq!(rt; run_of_settings(&rt, rt.alloc()), Some((rows, [0, 1500])));
}

/// The rows of a run from the last index before a ring wraps, and the second counter.
fn run_by_queue(rt: &(impl Threads + Wait + Sync), alloc: Global) -> Option<(Rows, u64)> {
    let setup = setup_of(alloc, &[1000, 500], 0xFFFF_FFFF)?;
    let (bench, parkers) = Bench::make(alloc, setup)?;
    let shape = MapShape::of(2, 1)?;
    match program(alloc, COUNTS_BY_QUEUE, &[shape]) {
        Some(program) => bench.counts(rt, alloc, &program, parkers),
        None => None,
    }
}

/// No contract knows which of the front's pages a ring is mapped in: both rings of a back in one page come out here alone.
/// Queue 0 makes 1,000 adds of 1 and queue 1 makes 500 adds of 2, from the last index before a ring wraps.
#[test]
fn adds_of_two_queues_come_to_2000(rt: HostRuntime) {
    let rows = rows_of(&[passed(1000), passed(500)]);
    assert_eq!(rt; run_by_queue(&rt, rt.alloc()), Some((rows, 2000)));
}
