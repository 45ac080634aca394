//! Runs of pairs over a bench.
ghost use Rattle.std.specs.Prelude.{◌≡◌, ◌≤◌, Some, length, slice_get, vec_len, false};
ghost use Rattle.bpf_note.specs.declared.key.MapKey.TheVariants.{Index};

use crate::bench::{Bench, Rows, TURNS, program, rows_of, setup_of};
use bpf_verify::Verified;
use std::alloc::Global;
use std::sync::Wait;
use std::thread::Threads;
use thread_pair::{Discard, Gate, Inbox, Job, Open, PairFault, Parkers, STACK, pair_over};
use xdp_load::Setup;

impl Bench {
    /// The rows of a run over these pages.
    pub fn rows<R: Threads + Wait + Sync, G: Gate + Sync, I: Inbox + Sync>(
        &self,
        rt: &R,
        alloc: Global,
        program: &Verified,
        turns: u32,
        gate: &G,
        inbox: &I,
        parkers: Parkers,
    ) -> Option<Rows>
        requires { (vec_len parkers.fronts ≡ self.now.listed.setup.queues) × (vec_len parkers.backs ≡ self.now.listed.setup.queues) }
    {
        let job = Job {
            listed: &self.listed,
            program,
            turns,
            gate,
            inbox,
            stack: STACK,
            shared: &self.shared,
        };
        match pair_over(rt, alloc, &job, parkers) {
            Ok(report) => Some(rows_of(report.rows.as_slice())),
            Err(_) => None,
        }
    }

    /// The fault of a run whose fronts can't have their stacks.
    pub fn fault_of_stacks<R: Threads + Wait + Sync>(
        &self,
        rt: &R,
        alloc: Global,
        program: &Verified,
        turns: u32,
        parkers: Parkers,
    ) -> Option<PairFault>
        requires { (vec_len parkers.fronts ≡ self.now.listed.setup.queues) × (vec_len parkers.backs ≡ self.now.listed.setup.queues) }
    {
        let job = Job {
            listed: &self.listed,
            program,
            turns,
            gate: &Open,
            inbox: &Discard,
            stack: usize::MAX,
            shared: &self.shared,
        };
        pair_over(rt, alloc, &job, parkers).err()
    }

    /// The rows of a run of a program with one map of two counters, and the second counter.
    pub fn counts<R: Threads + Wait + Sync>(
        &self,
        rt: &R,
        alloc: Global,
        program: &Verified,
        parkers: Parkers,
    ) -> Option<(Rows, u64)>
        requires parkers { (vec_len parkers.fronts ≡ self.now.listed.setup.queues) × (vec_len parkers.backs ≡ self.now.listed.setup.queues) }
        requires shape { slice_get program.now.shapes 0 ≡ Some (record { entries = 2; counters = 1; key = Index; parts = false }) }
    {
        let job = Job {
            listed: &self.listed,
            program,
            turns: TURNS,
            gate: &Open,
            inbox: &Discard,
            stack: STACK,
            shared: &self.shared,
        };
        match pair_over(rt, alloc, &job, parkers) {
            Ok(report) => Some((rows_of(report.rows.as_slice()), report.totals.at(0, 1, 0))),
            Err(_) => None,
        }
    }
}

/// The rows of a run of a setup, over new pages.
pub fn rows_with<R: Threads + Wait + Sync, G: Gate + Sync>(
    rt: &R,
    alloc: Global,
    slots: &[&str],
    setup: Setup,
    turns: u32,
    gate: &G,
) -> Option<Rows>
    requires { (1 ≤ setup.queues) × (setup.queues ≤ 8) }
{
    let (bench, parkers) = Bench::make(alloc, setup)?;
    match program(alloc, slots, &[]) {
        Some(program) => bench.rows(rt, alloc, &program, turns, gate, &Discard, parkers),
        None => None,
    }
}

/// The rows of a run of packets of 14 bytes, as many for each queue as `times` says.
pub fn rows_behind<R: Threads + Wait + Sync, G: Gate + Sync>(
    rt: &R,
    alloc: Global,
    slots: &[&str],
    times: &[u32],
    turns: u32,
    gate: &G,
) -> Option<Rows>
    requires { (1 ≤ length times.now) × (length times.now ≤ 8) }
{
    let setup = setup_of(alloc, times, 0)?;
    rows_with(rt, alloc, slots, setup, turns, gate)
}
