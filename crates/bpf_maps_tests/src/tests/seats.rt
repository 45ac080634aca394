//! Two seats on one thread.
use bpf_maps::{Counters, MapShape};
use std::alloc::Global;
use std::test::Fail;

/// Returns what two adds of two seats to one counter find, and two loads of it and of another one; and their totals. None without a
/// seat.
fn two_seats(alloc: Global) -> Result<Option<([u64; 4], [u64; 2])>, Fail> {
    let shapes = [MapShape::of(2, 3).ok_or("shape")?];
    let (counters, mut seats) = Counters::make(alloc, &shapes, 2)?;
    let Some(mut second) = seats.pop() else {
        return Ok(None);
    };
    let Some(mut first) = seats.pop() else {
        return Ok(None);
    };
    let found = [
        counters.add(&mut first, 0, 1, 2, u64::MAX),
        counters.add(&mut second, 0, 1, 2, 2),
        counters.load(&mut first, 0, 1, 2),
        counters.load(&mut first, 0, 1, 1),
    ];
    let (first, second) = counters.meet(first, second);
    seats.push(first)?;
    seats.push(second)?;
    let totals = counters.close(seats);
    Ok(Some((found, [totals.at(0, 1, 2), totals.at(0, 1, 1)])))
}

#[test]
fn a_sum_wraps_and_two_seats_meet(rt: HostRuntime) -> Result<(), Fail> {
    let found = two_seats(rt.alloc())?;
    assert_eq!(rt; found, Some(([0, u64::MAX, 1, 0], [1, 0])));
    Ok(())
}
