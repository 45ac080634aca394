//! As many threads as seats, in a scope, each of which promises to give its seat back.
ghost use Rattle.std.specs.Prelude.{◌≡◌, ℕ, List, All, Contains, map, ◌<◌, ◌≤◌, length, IfOk};
ghost use Rattle.bpf_note.specs.Shape.{IsCounter, most_maps};
ghost use Rattle.bpf_maps.specs.Beginning.{Beginning};
ghost use Rattle.bpf_maps.specs.Seats.{IsSeatOf, CountersView, SeatView, Account, most_seats};

use super::worker::hit;
use bpf_maps::{CounterSeat, Counters, MapShape, Totals};
use std::alloc::{AllocError, Global};
use std::snapshot::Snapshot;
use std::sync::Wait;
use std::test::Fail;
use std::thread;
use std::thread::{Promise, PromisedHandle, Scope, Threads};

/// The seat that comes back is of the same counters and has the same number.
#[derive(Drop)]
struct SeatBack(Snapshot<CounterSeat>);

impl Promise<CounterSeat> for SeatBack {
    ghost kept_by = { λ p s. (s.table ≡ p.0.value.table) × (s.shapes ≡ p.0.value.shapes) × (s.begin ≡ p.0.value.begin) × (s.number ≡ p.0.value.number) };
}

type Child = PromisedHandle<CounterSeat, SeatBack>;

/// Starts a thread for each seat.
fn spawn_all<'s, E>(
    alloc: Global,
    scope: &Scope<'s, E>,
    counters: &'s Counters,
    mut seats: Vec<CounterSeat>,
    times: u32,
) -> Result<Vec<Child>, AllocError>
    requires own { All (IsSeatOf counters.now) seats.items }
    requires place { IsCounter counters.now.shapes 0 0 0 }
    ensures { IfOk result (λ v. All (λ h. IsSeatOf counters.entry.now h.promise.0.value) v.items × ((q : ℕ) → Contains (map (λ s. s.number) seats.items) q → Contains (map (λ h. h.promise.0.value.number) v.items) q)) }
{
    let mut children = Vec::with_capacity(alloc, seats.len())?;
    while let Some(seat) = seats.pop() {
        let promise = SeatBack(Snapshot::of(&seat));
        let child = scope.spawn_with(promise, move || hit(counters, seat, 1, times))?;
        children.push(child)?;
    }
    Ok(children)
}

/// Waits for each thread, and takes its seat back.
fn join_all<R: Threads>(
    rt: &R,
    alloc: Global,
    mut children: Vec<Child>,
) -> Result<Vec<CounterSeat>, AllocError>
    ensures own { (c : CountersView) → All (λ h. IsSeatOf c h.promise.0.value) children.items → IfOk result (λ v. All (IsSeatOf c) v.items) }
    ensures numbers { IfOk result (λ v. (q : ℕ) → Contains (map (λ h. h.promise.0.value.number) children.items) q → Contains (map (λ s. s.number) v.items) q) }
{
    let mut seats = Vec::with_capacity(alloc, children.len())?;
    while let Some(child) = children.pop() {
        seats.push(child.join(rt))?;
    }
    Ok(seats)
}

/// Each seat works in a thread of its own, and all come back.
fn run_all<R: Threads + Wait + Sync>(
    rt: &R,
    alloc: Global,
    counters: &Counters,
    seats: Vec<CounterSeat>,
    times: u32,
) -> Result<Vec<CounterSeat>, AllocError>
    requires own { All (IsSeatOf counters.now) seats.items }
    requires place { IsCounter counters.now.shapes 0 0 0 }
    ensures { IfOk result (λ v. All (IsSeatOf counters.entry.now) v.items × ((q : ℕ) → Contains (map (λ s. s.number) seats.items) q → Contains (map (λ s. s.number) v.items) q)) }
{
    thread::scope(
        thread::scope_env(),
        rt,
        |scope| -> Result<Vec<CounterSeat>, AllocError>
            requires { All (IsSeatOf counters.now) seats.items × IsCounter counters.now.shapes 0 0 0 }
            ensures { IfOk result (λ v. All (IsSeatOf counters.entry.now) v.items × ((q : ℕ) → Contains (map (λ s. s.number) seats.items) q → Contains (map (λ s. s.number) v.items) q)) }
        {
            let children = spawn_all(alloc, scope, counters, seats, times)?;
            let back = join_all(rt, alloc, children)?;
            Ok(back)
        },
    )
}

/// As many threads as seats, and what they leave.
fn many<R: Threads + Wait + Sync>(
    rt: &R,
    alloc: Global,
    shapes: &[MapShape],
    seats: usize,
    times: u32,
) -> Result<Totals, AllocError>
    requires maps { length shapes.now ≤ most_maps }
    requires seats { (0 < seats) × (seats ≤ most_seats) }
    requires place { IsCounter shapes.now 0 0 0 }
    ensures shapes { IfOk result (λ t. t.shapes ≡ shapes.now) }
    ensures account { IfOk result (λ t. (begin : Beginning) × (back : List SeatView) × Account begin back t) }
{
    let (counters, dealt) = Counters::make(alloc, shapes, seats)?;
    let back = run_all(rt, alloc, &counters, dealt, times)?;
    Ok(counters.close(back))
}

#[test]
fn eight_threads_add(rt: HostRuntime) -> Result<(), Fail> {
    let shapes = [
        MapShape::of(3, 2).ok_or("shape")?,
        MapShape::of(2, 8).ok_or("shape")?,
    ];
    let totals = many(&rt, rt.alloc(), &shapes, 8, 10_000)?;
    assert_eq!(rt; totals.at(0, 0, 0), 80_000);
    Ok(())
}

#[test]
fn threads_for_all_seats_add(rt: HostRuntime) -> Result<(), Fail> {
    let shapes = [MapShape::of(1, 1).ok_or("shape")?];
    let totals = many(&rt, rt.alloc(), &shapes, 64, 100)?;
    assert_eq!(rt; totals.at(0, 0, 0), 6_400);
    Ok(())
}
