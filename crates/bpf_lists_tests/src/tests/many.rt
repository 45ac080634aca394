//! Lists of more rows, in which a search has a long way.
use bpf_lists::{KeyedRows, RowsRefusal};
use bpf_note::KeyKind;
use std::alloc::Global;

/// The number of rows.
const ROWS: u32 = 40;
/// The inverse in 32 bits of the number that keys are multiplied by.
const INVERSE: u32 = 0x0E8B_2F51;

/// Keys that all lie in the first chain.
fn key_of_one_chain(row: u32) -> [u8; 4] {
    INVERSE.wrapping_mul(row).to_le_bytes()
}

/// The first row of one chain that isn't found by its key.
fn lost_of_one_chain(alloc: Global) -> Result<Option<u32>, RowsRefusal> {
    let mut keys = Vec::new(alloc);
    for row in 0..ROWS {
        keys.extend_from_slice(&key_of_one_chain(row))?;
    }
    let rows = KeyedRows::make(alloc, KeyKind::Exact(4), &keys)?;
    for row in 0..=ROWS {
        if rows.find(&key_of_one_chain(row)) != Some(row) {
            return Ok(Some(row));
        }
    }
    Ok(None)
}

#[test]
fn rows_of_one_chain_are_found(rt: HostRuntime) {
    assert_eq!(rt; lost_of_one_chain(rt.alloc()), Ok(Some(ROWS)));
}

/// 10.0.0.0/24, 10.0.1.0/24 and so on.
fn network(row: u32) -> [u8; 8] {
    let [.., last] = row.to_be_bytes();
    [24, 0, 0, 0, 10, 0, last, 0]
}

/// The first network beside others that isn't found by its key.
fn lost_network(alloc: Global) -> Result<Option<u32>, RowsRefusal> {
    let mut keys = Vec::new(alloc);
    for row in 0..ROWS {
        keys.extend_from_slice(&network(row))?;
    }
    let rows = KeyedRows::make(alloc, KeyKind::Prefix(4), &keys)?;
    for row in 0..=ROWS {
        if rows.find(&network(row)) != Some(row) {
            return Ok(Some(row));
        }
    }
    Ok(None)
}

#[test]
fn networks_side_by_side_are_found(rt: HostRuntime) {
    assert_eq!(rt; lost_network(rt.alloc()), Ok(Some(ROWS)));
}
