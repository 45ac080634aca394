//! A program and types, read again after they were refused memory. `tools/gate/refuse-growths` refuses each allocation of these tests
//! in turn, and counts the runs that print `refused`.
use super::small::{SMALL, program_fault};
use super::typed::{TYPED, types_fault};
use bpf_object::{ProgramFault, TypesFault};
use std::io;

#[test]
fn a_program_is_read_again(rt: HostRuntime) -> io::Result<()> {
    let mut fault = program_fault(rt.alloc(), &SMALL);
    if fault == Some(ProgramFault::Memory) {
        println!(rt; "refused")?;
        fault = program_fault(rt.alloc(), &SMALL);
    }
    assert_eq!(rt; fault, None);
    Ok(())
}

#[test]
fn types_are_read_again(rt: HostRuntime) -> io::Result<()> {
    let mut fault = types_fault(rt.alloc(), &TYPED);
    if fault == Some(TypesFault::Memory) {
        println!(rt; "refused")?;
        fault = types_fault(rt.alloc(), &TYPED);
    }
    assert_eq!(rt; fault, None);
    Ok(())
}
