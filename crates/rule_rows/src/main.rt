//! `rule_rows`: tries the verifier's rule for one instruction, and the join of two notes, on the rows of standard
//! input. It says which rows come out otherwise than they say, and how many there are.
//!
//! - `row`: a row, and what comes of it
//! - `facts`, `values`: what is known, as in a row
#![tactic(auto)]

mod facts;
mod row;
mod values;

use crate::row::{Outcome, outcome_of};
use std::alloc::{AllocError, Global};
use std::io;

/// Returns what is said of a row, if it comes out otherwise than the row says.
fn complaint(alloc: Global, number: u32, row: &str) -> Result<Option<String>, AllocError> {
    Ok(match outcome_of(alloc, row) {
        Outcome::AsWanted => None,
        Outcome::Otherwise => Some(format!(in alloc; "line {number}: comes out otherwise: {row}")?),
        Outcome::NoRow => Some(format!(in alloc; "line {number}: is no row: {row}")?),
    })
}

fn main(rt: HostRuntime) -> io::Result<()> {
    let mut number: u32 = 0;
    let mut rows: u32 = 0;
    for line in rt.lines(rt.alloc()) {
        let line = line?;
        number = number.wrapping_add(1);
        let row = line.trim();
        if row.is_empty() || row.starts_with('#') {
            continue;
        }
        rows = rows.wrapping_add(1);
        if let Some(complaint) = complaint(rt.alloc(), number, row)? {
            println!(rt; "{complaint}")?;
        }
    }
    println!(rt; "{rows} rows")?;
    Ok(())
}
