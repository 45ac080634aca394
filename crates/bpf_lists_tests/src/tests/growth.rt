//! Rows, made again after they were refused memory. `tools/gate/refuse-growths` refuses each allocation of this test in turn, and
//! counts the runs that print `refused`.
use bpf_lists::{KeyedRows, RowsRefusal};
use bpf_note::KeyKind;
use std::alloc::Global;
use std::io;

/// The row of a key.
fn row(alloc: Global) -> Result<Option<u32>, RowsRefusal> {
    let rows = KeyedRows::make(alloc, KeyKind::Exact(2), &[1, 2, 3, 4])?;
    Ok(rows.find(&[3, 4]))
}

#[test]
fn rows_are_made_again(rt: HostRuntime) -> io::Result<()> {
    let mut found = row(rt.alloc());
    if found == Err(RowsRefusal::Memory) {
        println!(rt; "refused")?;
        found = row(rt.alloc());
    }
    assert_eq!(rt; found, Ok(Some(1)));
    Ok(())
}
