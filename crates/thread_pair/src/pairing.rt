//! Running a pair of threads for each queue.
ghost use Rattle.std.specs.Prelude.{◌≡◌, ◌<◌, ◌≤◌, ℕ, All, Contains, map, vec_len, IfOk};
ghost use Rattle.std.specs.Thread.{IsSync};
ghost use Rattle.bpf_maps.specs.Seats.{IsSeatOf};
ghost use Rattle.xdp_load.specs.ListedGiven.{listed_view};
ghost use Rattle.xdp_load.specs.ListedSound.{IsListedSound};
ghost use Rattle.thread_pair.specs.Resources.{IsBackOf, IsFrontOf, falling, seat_number};
ghost use Rattle.thread_pair.specs.Leaving.{AreLeft, HasWorked};
ghost use Rattle.thread_pair.specs.Working.{task_for, task_of, values_in};

use crate::fault::PairFault;
use crate::gate::Gate;
use crate::host::OnPass;
use crate::inbox::{Discard, Inbox};
use crate::job::Job;
use crate::joining::{empty_rows, join_backs, join_fronts};
use crate::report::{PairReport, PairRow};
use crate::resources::{BackResources, FrontResources, make_backs, make_fronts, make_pages};
use crate::shared::{Parkers, Shared};
use crate::starting::{start_backs, start_fronts};
use bpf_maps::{CounterSeat, Counters, Totals};
use bpf_verify::Verified;
use std::alloc::Global;
use std::sync::Wait;
use std::thread;
use std::thread::Threads;
use xdp_load::Listed;

/// The bytes of a front thread's stack.
pub const STACK: usize = 0x10_0000;

/// Both threads of each queue, and what they hand back. All threads have ended when it returns.
fn run_all<R: Threads + Wait + Sync, G: Gate + Sync, I: Inbox + Sync>(
    rt: &R,
    alloc: Global,
    job: &Job<'_, G, I>,
    counters: &Counters,
    backs: Vec<BackResources>,
    fronts: Vec<FrontResources<'_>>,
) -> Result<(Vec<CounterSeat>, Vec<PairRow>), PairFault>
    requires backs { All (IsBackOf counters.now job.now.shared.now.layout.queues) backs.items }
    requires fronts { All (IsFrontOf job.now.shared.now.layout.queues) fronts.items }
    requires numbers { map seat_number backs.items ≡ falling (vec_len backs) }
    requires count { vec_len fronts ≡ vec_len backs }
    requires shapes { counters.now.shapes ≡ job.now.program.now.shapes }
    ensures { IfOk result (λ v. All (IsSeatOf counters.entry.now) v.0.items ×
        All (HasWorked (task_of job.entry.now.program.now job.entry.now.listed.now.lists.items job.entry.now.shared.now)
        job.entry.now.turns v.1.items) v.0.items ×
        ((q : ℕ) → q < vec_len backs → Contains (map (λ s. s.number) v.0.items) q) × (vec_len v.1 ≡ vec_len backs)) }
{
    let mut rows = empty_rows(alloc, backs.len())?;
    thread::scope(
        thread::scope_env(),
        rt,
        |scope| -> Result<(Vec<CounterSeat>, Vec<PairRow>), PairFault>
            requires { IsSync R.row × IsSync G.row × IsSync I.row ×
                All (IsBackOf counters.now job.now.shared.now.layout.queues) backs.items ×
                All (IsFrontOf job.now.shared.now.layout.queues) fronts.items × (map seat_number backs.items ≡ falling (vec_len backs)) ×
                (vec_len backs ≡ vec_len rows) × (vec_len fronts ≡ vec_len rows) × (counters.now.shapes ≡ job.now.program.now.shapes) }
            ensures { IfOk result (λ v. All (IsSeatOf counters.entry.now) v.0.items ×
                All (HasWorked (task_of job.entry.now.program.now job.entry.now.listed.now.lists.items job.entry.now.shared.now)
                job.entry.now.turns v.1.items) v.0.items ×
                ((q : ℕ) → q < vec_len rows → Contains (map (λ s. s.number) v.0.items) q) × (vec_len v.1 ≡ vec_len rows)) }
        {
            let started_backs = Vec::with_capacity(alloc, backs.len())?;
            let started_fronts = Vec::with_capacity(alloc, fronts.len())?;
            let seats = Vec::with_capacity(alloc, backs.len())?;
            let backs = start_backs(scope, rt, job, counters, backs, started_backs)?;
            let fronts = start_fronts(scope, rt, job, fronts, started_fronts)?;
            join_fronts(rt, fronts, &mut rows);
            let seats = join_backs(rt, backs, &mut rows, seats);
            Ok((seats, rows))
        },
    )
}

/// Runs the job's queues over its memory, as [`pair_with`] does over memory of its own.
///
/// # Errors
///
/// As those of [`pair_with`].
pub fn pair_over<R: Threads + Wait + Sync, G: Gate + Sync, I: Inbox + Sync>(
    rt: &R,
    alloc: Global,
    job: &Job<'_, G, I>,
    parkers: Parkers,
) -> Result<PairReport, PairFault>
    requires queues { (1 ≤ job.now.listed.now.setup.queues) × (job.now.listed.now.setup.queues ≤ 8) }
    requires shared { job.now.shared.now.layout.queues ≡ job.now.listed.now.setup.queues }
    requires numbers { (job.now.shared.now.ifindex ≡ job.now.listed.now.setup.ifindex) × (job.now.shared.now.start ≡ job.now.listed.now.setup.start) }
    requires parkers { (vec_len parkers.fronts ≡ job.now.listed.now.setup.queues) × (vec_len parkers.backs ≡ job.now.listed.now.setup.queues) }
    ensures rows { IfOk result (λ r. vec_len r.rows ≡ job.now.listed.now.setup.queues) }
    ensures shapes { IfOk result (λ r. r.totals.shapes ≡ job.now.program.now.shapes) }
    ensures account { IfOk result (λ r. AreLeft (task_for job.now.program.now job.now.listed.now job.now.shared.now.host)
        (values_in job.now.listed.now) job.now.turns r) }
{
    let setup = &job.listed.setup;
    let queues = setup.queues;
    let first = Totals::begin(alloc, job.program.shapes(), setup.values.as_slice())?;
    let (counters, seats) = Counters::begin(alloc, first, queues)?;
    let backs = make_backs(alloc, job.shared, seats, parkers.backs)?;
    let pages = make_pages(alloc, queues)?;
    let fronts = make_fronts(alloc, job.shared, pages.as_slice(), parkers.fronts)?;
    let (seats, rows) = run_all(rt, alloc, job, &counters, backs, fronts)?;
    Ok(PairReport {
        rows,
        totals: counters.close(seats),
    })
}

/// Runs the setup's queues, a front thread and a back thread for each: the front sends the setup's packets, and the back
/// drives at most `turns` turns of the program, with the setup's lists, and passes the gate before each. A host that answers
/// packets has its answers delivered between turns. All threads have ended when it returns.
///
/// # Errors
///
/// `Memory`, `Map` if the page of a ring can't be mapped, and `Thread` if a thread can't be started.
pub fn pair_with<R: Threads + Wait + Sync, G: Gate + Sync>(
    rt: &R,
    alloc: Global,
    listed: &Listed,
    program: &Verified,
    host: OnPass,
    turns: u32,
    gate: &G,
) -> Result<PairReport, PairFault>
    requires { IsListedSound (listed_view listed.now) }
    ensures rows { IfOk result (λ r. vec_len r.rows ≡ listed.now.setup.queues) }
    ensures shapes { IfOk result (λ r. r.totals.shapes ≡ program.now.shapes) }
    ensures account { IfOk result (λ r. AreLeft (task_for program.now listed.now host) (values_in listed.now) turns r) }
{
    let (shared, parkers) = Shared::make(alloc, &listed.setup, host)?;
    let job = Job {
        listed,
        program,
        turns,
        gate,
        inbox: &Discard,
        stack: STACK,
        shared: &shared,
    };
    pair_over(rt, alloc, &job, parkers)
}
