//! Counters that begin with given numbers.
use bpf_maps::{Counters, MapShape, Totals};
use std::alloc::Global;

/// Totals of two maps, of which the first has three of its four numbers given and the second none.
fn first(alloc: Global) -> Option<Totals> {
    let shapes = [MapShape::of(2, 2)?, MapShape::of(1, 1)?];
    let mut lists = Vec::new(alloc);
    lists.push(vec![in alloc; 7, 8, u64::MAX].ok()?).ok()?;
    Totals::begin(alloc, &shapes, lists.as_slice()).ok()
}

#[test]
fn totals_begin_with_their_numbers(rt: HostRuntime) {
    let numbers = first(rt.alloc()).map(|totals| totals.into_numbers());
    let found = numbers.as_ref().map(|numbers| numbers.as_slice());
    assert_eq!(rt; found, Some([7, 8, u64::MAX, 0, 0].as_slice()));
}

/// Returns what the only seat of counters that begin so finds.
fn found(alloc: Global) -> Option<[u64; 5]> {
    let shapes = [MapShape::of(2, 2)?];
    let mut lists = Vec::new(alloc);
    lists.push(vec![in alloc; 7, 8, u64::MAX].ok()?).ok()?;
    let first = Totals::begin(alloc, &shapes, lists.as_slice()).ok()?;
    let (counters, mut seats) = Counters::begin(alloc, first, 1).ok()?;
    let mut seat = seats.pop()?;
    Some([
        counters.load(&mut seat, 0, 0, 1),
        counters.add(&mut seat, 0, 1, 0, 3),
        counters.load(&mut seat, 0, 1, 0),
        counters.add(&mut seat, 0, 1, 1, 5),
        counters.load(&mut seat, 0, 1, 1),
    ])
}

#[test]
fn seats_find_the_numbers_that_counters_began_with(rt: HostRuntime) {
    assert_eq!(rt; found(rt.alloc()), Some([8, u64::MAX, 2, 0, 5]));
}
