//! Two threads that borrow the counters and own a seat each.
ghost use Rattle.std.specs.Prelude.{◌≡◌, ◌+◌, ◌*◌, ◌%◌, ◌^◌, ◌≤◌, length, sum_by, IfOk, IfSome};
ghost use Rattle.bpf_note.specs.Shape.{IsCounter, most_maps};
ghost use Rattle.bpf_note.specs.History.{added};
ghost use Rattle.bpf_maps.specs.Seats.{IsSeatOf};

use super::worker::hit;
use bpf_maps::{CounterSeat, Counters, MapShape};
use std::alloc::{AllocError, Global};
use std::test::Fail;
use std::thread;
use std::thread::Threads;

/// One thread adds 1 `ones` times, the other adds 2 `twos` times.
fn two<R: Threads + Sync>(
    rt: &R,
    alloc: Global,
    shapes: &[MapShape],
    ones: u32,
    twos: u32,
) -> Result<Option<u64>, AllocError>
    requires maps { length shapes.now ≤ most_maps }
    requires place { IsCounter shapes.now 0 0 0 }
    ensures { IfOk result (λ r. IfSome r (λ n. n ≡ (ones * 1 + twos * 2) % 2 ^ 64)) }
{
    let (counters, mut seats) = Counters::make(alloc, shapes, 2)?;
    let Some(second) = seats.pop() else {
        return Ok(None);
    };
    let Some(first) = seats.pop() else {
        return Ok(None);
    };
    let shared = &counters;
    let (first, second) = thread::join(
        rt,
        || -> CounterSeat
            requires { IsSeatOf shared.now first × IsCounter shared.now.shapes 0 0 0 }
            ensures { IsSeatOf shared.entry.now result × (result.number ≡ first.number) × (sum_by (added 0 0 0) result.ops ≡ sum_by (added 0 0 0) first.ops + ones * 1) }
        { hit(shared, first, 1, ones) },
        || -> CounterSeat
            requires { IsSeatOf shared.now second × IsCounter shared.now.shapes 0 0 0 }
            ensures { IsSeatOf shared.entry.now result × (result.number ≡ second.number) × (sum_by (added 0 0 0) result.ops ≡ sum_by (added 0 0 0) second.ops + twos * 2) }
        { hit(shared, second, 2, twos) },
    );
    seats.push(first)?;
    seats.push(second)?;
    Ok(Some(counters.close(seats).at(0, 0, 0)))
}

#[test]
fn two_threads_add(rt: HostRuntime) -> Result<(), Fail> {
    let shapes = [
        MapShape::of(3, 2).ok_or("shape")?,
        MapShape::of(2, 8).ok_or("shape")?,
    ];
    let sum = two(&rt, rt.alloc(), &shapes, 1_000, 500)?;
    assert_eq!(rt; sum, Some(2_000));
    Ok(())
}
