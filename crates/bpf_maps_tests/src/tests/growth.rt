//! What takes memory, called again once it was refused. `tools/gate/refuse-growths` refuses each allocation of these tests in
//! turn, and counts the runs that print `refused`.

use bpf_maps::{Counters, MapShape, Totals};
use std::alloc::Global;
use std::io;

/// Says that memory was refused.
fn say_refused(rt: &HostRuntime) -> io::Result<()> {
    println!(rt; "refused")
}

/// A counter of new totals.
fn total(alloc: Global) -> Option<u64> {
    let shapes = [MapShape::of(2, 3)?];
    let totals = Totals::make(alloc, &shapes).ok()?;
    Some(totals.at(0, 1, 2))
}

#[test]
fn totals_are_made_again(rt: HostRuntime) -> io::Result<()> {
    let mut found = total(rt.alloc());
    if found.is_none() {
        say_refused(&rt)?;
        found = total(rt.alloc());
    }
    assert_eq!(rt; found, Some(0));
    Ok(())
}

/// Returns what the only seat of new counters loads.
fn loaded(alloc: Global) -> Option<u64> {
    let shapes = [MapShape::of(2, 3)?];
    let (counters, mut seats) = Counters::make(alloc, &shapes, 1).ok()?;
    let mut seat = seats.pop()?;
    Some(counters.load(&mut seat, 0, 1, 2))
}

#[test]
fn counters_are_made_again(rt: HostRuntime) -> io::Result<()> {
    let mut found = loaded(rt.alloc());
    if found.is_none() {
        say_refused(&rt)?;
        found = loaded(rt.alloc());
    }
    assert_eq!(rt; found, Some(0));
    Ok(())
}
