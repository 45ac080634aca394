//! A front, asked for again after it was refused memory. `tools/gate/refuse-growths` refuses each allocation of this test in
//! turn, and counts the runs that print `refused`.

use crate::bench::Bench;
use std::alloc::{AllocError, Global};
use std::test::Fail;
use xen_front::{ACCEPTS_WHOLE, Front};

/// Returns what a front stands on.
fn bench(alloc: Global) -> Result<Bench, AllocError> {
    match Bench::make(alloc) {
        Ok(bench) => Ok(bench),
        Err(_) => Bench::make(alloc),
    }
}

/// Returns whether a front is made: it isn't if it was refused memory.
fn is_made(alloc: Global, bench: &Bench) -> Result<bool, Fail> {
    let desc = bench.desc(0);
    if desc.is_wired() {
        Ok(Front::make(alloc, desc, ACCEPTS_WHOLE).is_ok())
    } else {
        Err("not wired".into())
    }
}

#[test]
fn a_front_is_made_again(rt: HostRuntime) -> Result<(), Fail> {
    let bench = bench(rt.alloc())?;
    if !is_made(rt.alloc(), &bench)? {
        println!(rt; "refused")?;
        assert!(rt; is_made(rt.alloc(), &bench)?);
    }
    Ok(())
}
