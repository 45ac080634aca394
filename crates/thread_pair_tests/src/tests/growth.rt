//! A run of pairs, asked for again after it was refused memory. `tools/gate/refuse-growths` refuses each allocation of this
//! test in turn, and counts the runs that print `refused`.

ghost use Rattle.std.specs.Prelude.{IfSome};
ghost use Rattle.xdp_load.specs.ListedGiven.{listed_view};
ghost use Rattle.xdp_load.specs.ListedSound.{IsListedSound};

use crate::bench::{Rows, accepted, rows_of};
use bpf_verify::Verified;
use std::alloc::Global;
use std::sync::Wait;
use std::test::Fail;
use std::thread::Threads;
use thread_pair::{Deliveries, OnPass, Open, PairFault, PairRow, pair_with};
use xdp_load::{Listed, load_listed};

/// More turns than two packets take.
const TURNS: u32 = 1000;

/// Each of two queues sends a packet back.
const SETTINGS: &str = r#"
program = ["b700000003000000", "9500000000000000"]
queues = 2
packet = [
    { queue = 0, bytes = "000102030405060708090a0b0c0d" },
    { queue = 1, bytes = "000102030405060708090a0b0c0d" },
]
"#;

/// The row of a queue whose packet came back.
const ROW: PairRow = PairRow {
    sent: 1,
    copied: 1,
    refused: 0,
    halted: None,
    received: 1,
    deliveries: Deliveries::NONE,
};

/// The settings as they are loaded.
fn listed(alloc: Global) -> Option<Listed>
    ensures { IfSome result (λ x. IsListedSound (listed_view x)) }
{
    match load_listed(alloc, SETTINGS.as_bytes()) {
        Ok(listed) => Some(listed),
        Err(_) => load_listed(alloc, SETTINGS.as_bytes()).ok(),
    }
}

fn program(alloc: Global, listed: &Listed) -> Option<Verified> {
    let bytes = listed.setup.program.as_slice();
    match accepted(alloc, bytes, &[]) {
        Some(program) => Some(program),
        None => accepted(alloc, bytes, &[]),
    }
}

/// The rows of a run, or why there is none.
fn run(
    rt: &(impl Threads + Wait + Sync),
    alloc: Global,
    listed: &Listed,
    program: &Verified,
) -> Result<Rows, PairFault>
    requires { IsListedSound (listed_view listed.now) }
{
    match pair_with(rt, alloc, listed, program, OnPass::Takes, TURNS, &Open) {
        Ok(report) => Ok(rows_of(report.rows.as_slice())),
        Err(fault) => Err(fault),
    }
}

/// Returns what a run comes to, and what another one comes to if it was refused.
fn runs(rt: &(impl Threads + Wait + Sync), alloc: Global) -> Option<[Result<Rows, PairFault>; 2]> {
    let listed = listed(alloc)?;
    let program = program(alloc, &listed)?;
    Some(match run(rt, alloc, &listed, &program) {
        Ok(rows) => [Ok(rows); 2],
        refused => [refused, run(rt, alloc, &listed, &program)],
    })
}

#[test]
fn pairs_are_run_again(rt: HostRuntime) -> Result<(), Fail> {
    let [first, second] = runs(&rt, rt.alloc()).ok_or("no setup or no program")?;
    if let Err(fault) = first {
        assert_ne!(rt; fault, PairFault::Map);
        println!(rt; "refused")?;
    }
    assert_eq!(rt; second, Ok(rows_of(&[ROW, ROW])));
    Ok(())
}
