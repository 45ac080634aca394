//! Queues whose program has a map with a list, and constants.

use crate::bench::{Rows, TURNS, accepted, passed, rows_of};
use std::alloc::Global;
use std::sync::Wait;
use std::thread::Threads;
use thread_pair::{OnPass, Open, PairReport, pair_with};
use xdp_load::load_listed;

/// The program adds a constant, 3, to the counter of the prefix under which a packet's first four bytes lie, and passes it on.
const SETTINGS: &str = r#"
program = [
    "6112000000000000",
    "6113040000000000",
    "bf24000000000000",
    "070400000e000000",
    "2d340d0000000000",
    "6125000000000000",
    "635afcff00000000",
    "620af8ff20000000",
    "bfa2000000000000",
    "07020000f8ffffff",
    "18010000000000000000000000000000",
    "8500000001000000",
    "1500040000000000",
    "18020000020001380000000000000000",
    "7121000000000000",
    "db10000000000000",
    "b700000002000000",
    "9500000000000000",
]
queues = 2
[[map]]
name = "seen"
entries = 5
key = "prefix"
rows = ["080000000a000000", "100000000a010000", "200000000a010203", "19000000c0000280"]
[[map]]
name = ".rodata"
entries = 1
key = "constants"
size = 3
rows = ["010203"]
[[reloc]]
slot = 10
map = "seen"
[[packet]]
queue = 0
bytes = "0a01020300000000000000000000"
times = 100
[[packet]]
queue = 0
bytes = "0a01020400000000000000000000"
times = 10
[[packet]]
queue = 0
bytes = "0a02000100000000000000000000"
[[packet]]
queue = 0
bytes = "c000027f00000000000000000000"
[[packet]]
queue = 1
bytes = "c000028000000000000000000000"
times = 20
[[packet]]
queue = 1
bytes = "0a01020300000000000000000000"
times = 5
[[packet]]
queue = 1
bytes = "0b00000000000000000000000000"
"#;

/// The first five of these numbers.
fn first_five(numbers: &[u64]) -> [u64; 5] {
    let mut first = [0; 5];
    for (number, found) in first.iter_mut().zip(numbers) {
        *number = *found;
    }
    first
}

/// The rows of a report, and the counters of the first map, which has five.
fn counted(report: PairReport) -> (Rows, [u64; 5]) {
    let rows = rows_of(report.rows.as_slice());
    let numbers = report.totals.into_numbers();
    (rows, first_five(numbers.as_slice()))
}

/// The rows and the counters of a run of these settings.
fn run_of_settings(rt: &(impl Threads + Wait + Sync), alloc: Global) -> Option<(Rows, [u64; 5])> {
    let listed = load_listed(alloc, SETTINGS.as_bytes()).ok()?;
    let setup = &listed.setup;
    let program = accepted(alloc, setup.program.as_slice(), setup.shapes.as_slice())?;
    match pair_with(rt, alloc, &listed, &program, OnPass::Takes, TURNS, &Open) {
        Ok(report) => Some(counted(report)),
        Err(_) => None,
    }
}

/// The prefixes that are found are those of an LPM trie in Linux 6.18: 192.0.2.127 and 11.0.0.0 lie under none, 10.1.2.3 under
/// the third, in either queue.
#[test]
fn both_queues_find_the_rows_of_one_list(rt: HostRuntime) {
    let rows = rows_of(&[passed(112), passed(26)]);
    let counters = [3, 30, 315, 60, 0];
    assert_eq!(rt; run_of_settings(&rt, rt.alloc()), Some((rows, counters)));
}
