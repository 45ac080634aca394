//! `xdp_bench`: times turns, deliveries, verifications and runs, a line of standard input each; see bench/README.md.
//!
//! - `line`, `fault`: what a line asks for, and why it has no time
//! - `program`: verifications and runs
//! - `packet`, `pages`, `turns`, `deliveries`: turns and deliveries over pages
//! - `timing`: times, and their text
#![tactic(auto)]

mod deliveries;
mod fault;
mod line;
mod packet;
mod pages;
mod program;
mod timing;
mod turns;

use crate::fault::Fault;
use crate::line::{Work, read_line};
use crate::timing::{Timed, report};
use std::io;

/// Does what a line asks for.
fn timed(rt: &HostRuntime, line: &str) -> Result<Timed, Fault> {
    match read_line(rt.alloc(), line)? {
        Work::Turns {
            memory,
            packets,
            times,
            program,
        } => turns::time(rt, memory, packets, times, program.as_slice()),
        Work::Deliveries {
            memory,
            size,
            times,
        } => deliveries::time(rt, memory, size, times),
        Work::Verify { times, program } => program::time_verify(rt, times, program.as_slice()),
        Work::Run {
            times,
            program,
            packet,
        } => program::time_run(rt, times, program.as_slice(), packet.as_slice()),
    }
}

fn main(rt: HostRuntime) -> io::Result<()> {
    for line in rt.lines(rt.alloc()) {
        let line = line?;
        match timed(&rt, line.as_str()) {
            Ok(Timed { done, nanoseconds }) => {
                let text = report(rt.alloc(), done, nanoseconds)?;
                println!(rt; "{text}")?;
            }
            Err(fault) => println!(rt; "{fault}")?,
        }
    }
    Ok(())
}
