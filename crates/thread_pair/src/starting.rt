//! Starting the threads.
ghost use Rattle.std.specs.Prelude.{◌≡◌, [], All, map, ◌<◌, ◌≤◌, ◌+◌, vec_len, vec_capacity, IfOk};
ghost use Rattle.std.specs.List.{range_with_len};
ghost use Rattle.thread_pair.specs.Resources.{IsBackOf, IsFrontOf, falling, seat_number};
ghost use Rattle.thread_pair.specs.Promised.{PromisesSeatOf, promised_number};
ghost use Rattle.bpf_maps.specs.Seats.{IsSeatOf};
ghost use Rattle.thread_pair.specs.Working.{IsWork, task_of};

use crate::back::{BackDone, BackThread, SeatBack, work_back};
use crate::front::{FrontThread, work_front};
use crate::gate::Gate;
use crate::inbox::Inbox;
use crate::job::Job;
use crate::report::FrontRow;
use crate::resources::{BackResources, FrontResources};
use crate::shared::AllEnd;
use bpf_maps::Counters;
use std::sync::Wait;
use std::thread::{Builder, Scope};
use xen_page::PageBus;

/// Starts a thread for each back. There is room for their handles. If one can't be started, all workers are told to end.
pub(crate) fn start_backs<'s, E, R: Wait + Sync, G: Gate + Sync, I: Sync>(
    scope: &Scope<'s, E>,
    rt: &'s R,
    job: &'s Job<'s, G, I>,
    counters: &'s Counters,
    mut resources: Vec<BackResources>,
    mut backs: Vec<BackThread>,
) -> Result<Vec<BackThread>, AllEnd>
    requires resources { All (IsBackOf counters.now job.now.shared.now.layout.queues) resources.items }
    requires numbers { map seat_number resources.items ≡ falling (vec_len resources) }
    requires shapes { counters.now.shapes ≡ job.now.program.now.shapes }
    requires room { (backs.items ≡ []) × (vec_len resources ≤ vec_capacity backs) }
    ensures count { IfOk result (λ v. vec_len v ≡ vec_len resources) }
    ensures seats { IfOk result (λ v. All (PromisesSeatOf (task_of job.entry.now.program.now job.entry.now.listed.now.lists.items job.entry.now.shared.now)
        job.entry.now.turns counters.entry.now) v.items) }
    ensures numbers { IfOk result (λ v. map promised_number v.items ≡ range_with_len 0 (vec_len resources)) }
{
    let Job {
        listed,
        program,
        turns,
        gate,
        shared,
        ..
    } = *job;
    let lists = listed.lists.as_slice();
    while let Some(own) = resources.pop() {
        let promise = SeatBack::of(&own.seat, program, listed, shared, turns);
        let Ok(back) = scope.spawn_with(
            promise,
            move || -> BackDone
                requires { IsBackOf counters.now shared.now.layout.queues own × (counters.now.shapes ≡ program.now.shapes) }
                ensures { IsSeatOf counters.entry.now result.seat × (result.seat.number ≡ own.seat.number) ×
                    IsWork (task_of program.entry.now lists.entry.now shared.entry.now) turns result.row result.seat }
            {
                let mut bus = PageBus::of(&shared.frames);
                work_back(
                    rt, gate, turns, program, lists, shared, counters, &mut bus, own,
                )
            },
        ) else {
            return Err(shared.end_all());
        };
        backs.push_reserved(back);
    }
    Ok(backs)
}

/// Starts a thread for each front. There is room for their handles. If one
/// can't be started, all workers are told to end.
pub(crate) fn start_fronts<'s, E, R: Wait + Sync, G: Sync, I: Inbox + Sync>(
    scope: &Scope<'s, E>,
    rt: &'s R,
    job: &'s Job<'s, G, I>,
    mut resources: Vec<FrontResources<'s>>,
    mut fronts: Vec<FrontThread>,
) -> Result<Vec<FrontThread>, AllEnd>
    requires room { (fronts.items ≡ []) × (vec_len resources ≤ vec_capacity fronts) }
    requires resources { All (IsFrontOf job.now.shared.now.layout.queues) resources.items }
    ensures count { IfOk result (λ v. vec_len v ≡ vec_len resources.entry) }
{
    let Job {
        listed,
        inbox,
        stack,
        shared,
        ..
    } = *job;
    let packets = listed.setup.packets.as_slice();
    while let Some(own) = resources.pop() {
        let Ok(front) = Builder::new().stack_size(stack).spawn_scoped(
            scope,
            move || -> FrontRow
                requires { IsFrontOf shared.now.layout.queues own }
            { work_front(rt, inbox, packets, shared, own) },
        )
        else {
            return Err(shared.end_all());
        };
        fronts.push_reserved(front);
    }
    Ok(fronts)
}
