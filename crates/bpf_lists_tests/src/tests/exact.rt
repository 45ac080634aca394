//! Rows with exact keys.
use bpf_lists::KeyedRows;
use bpf_note::KeyKind;
use std::alloc::Global;

const ADDRESSES: [u8; 16] = [192, 0, 2, 1, 10, 0, 0, 1, 255, 255, 255, 255, 0, 0, 0, 0];

/// The row of an address.
fn address(alloc: Global, key: [u8; 4]) -> Option<u32> {
    let rows = KeyedRows::make(alloc, KeyKind::Exact(4), &ADDRESSES).ok()?;
    rows.find(&key)
}

#[test]
fn each_row_is_found(rt: HostRuntime) {
    assert_eq!(rt; address(rt.alloc(), [192, 0, 2, 1]), Some(0));
    assert_eq!(rt; address(rt.alloc(), [10, 0, 0, 1]), Some(1));
    assert_eq!(rt; address(rt.alloc(), [255, 255, 255, 255]), Some(2));
    assert_eq!(rt; address(rt.alloc(), [0, 0, 0, 0]), Some(3));
}

#[test]
fn a_key_that_differs_in_one_bit_is_not_found(rt: HostRuntime) {
    assert_eq!(rt; address(rt.alloc(), [192, 0, 2, 0]), None);
    assert_eq!(rt; address(rt.alloc(), [64, 0, 2, 1]), None);
    assert_eq!(rt; address(rt.alloc(), [255, 255, 255, 254]), None);
    assert_eq!(rt; address(rt.alloc(), [0, 0, 0, 1]), None);
}

/// The row of a key of one byte among no rows.
fn among_none(alloc: Global) -> Option<Option<u32>> {
    let rows = KeyedRows::make(alloc, KeyKind::Exact(1), &[]).ok()?;
    Some(rows.find(&[7]))
}

#[test]
fn no_rows_have_no_key(rt: HostRuntime) {
    assert_eq!(rt; among_none(rt.alloc()), Some(None));
}

/// Two keys of 64 bytes that differ in the last.
fn widest(alloc: Global, last: u8) -> Option<Option<u32>> {
    let mut keys = [7; 128];
    keys[127] = 8;
    let rows = KeyedRows::make(alloc, KeyKind::Exact(64), &keys).ok()?;
    let mut key = [7; 64];
    key[63] = last;
    Some(rows.find(&key))
}

#[test]
fn the_widest_keys_are_compared_whole(rt: HostRuntime) {
    assert_eq!(rt; widest(rt.alloc(), 7), Some(Some(0)));
    assert_eq!(rt; widest(rt.alloc(), 8), Some(Some(1)));
    assert_eq!(rt; widest(rt.alloc(), 9), Some(None));
}
