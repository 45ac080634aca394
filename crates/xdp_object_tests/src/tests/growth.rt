//! Setups, read again after they were refused memory. `tools/gate/refuse-growths` refuses each allocation of these tests in turn, and counts
//! the runs that print `refused`.
use super::constants::setup;
use super::object::COUNT;
use std::alloc::Global;
use std::io;
use xdp_object::setup_of;

/// The number of the fault that `count` has in the object.
fn fault(alloc: Global) -> Option<u8> {
    match setup_of(alloc, &COUNT, b"count") {
        Ok(_setup) => None,
        Err(fault) => Some(fault.number()),
    }
}

#[test]
fn a_setup_is_read_again(rt: HostRuntime) -> io::Result<()> {
    let mut number = fault(rt.alloc());
    if number == Some(0) {
        println!(rt; "refused")?;
        number = fault(rt.alloc());
    }
    assert_eq!(rt; number, None);
    Ok(())
}

/// The number of the fault that a program with constants has.
fn constants_fault(alloc: Global) -> Option<u8> {
    match setup(alloc, 8) {
        Ok(_setup) => None,
        Err(fault) => Some(fault.number()),
    }
}

#[test]
fn constants_are_read_again(rt: HostRuntime) -> io::Result<()> {
    let mut number = constants_fault(rt.alloc());
    if number == Some(0) {
        println!(rt; "refused")?;
        number = constants_fault(rt.alloc());
    }
    assert_eq!(rt; number, None);
    Ok(())
}
