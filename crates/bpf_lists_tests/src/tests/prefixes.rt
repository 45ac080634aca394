//! Rows with prefixes: 10.0.0.0/8, 10.1.0.0/16, 10.1.2.0/23, 10.1.3.3/32 and 192.0.2.128/25.
use bpf_lists::KeyedRows;
use bpf_note::KeyKind;
use std::alloc::Global;

const PREFIXES: [u8; 40] = [
    8, 0, 0, 0, 10, 0, 0, 0, 16, 0, 0, 0, 10, 1, 0, 0, 23, 0, 0, 0, 10, 1, 2, 0, 32, 0, 0, 0, 10,
    1, 3, 3, 25, 0, 0, 0, 192, 0, 2, 128,
];

/// The row of an address of which the first `bits` bits are known.
fn within(alloc: Global, bits: u8, address: [u8; 4]) -> Option<u32> {
    let rows = KeyedRows::make(alloc, KeyKind::Prefix(4), &PREFIXES).ok()?;
    let [a, b, c, d] = address;
    rows.find(&[bits, 0, 0, 0, a, b, c, d])
}

#[test]
fn the_longest_prefix_is_found(rt: HostRuntime) {
    assert_eq!(rt; within(rt.alloc(), 32, [10, 9, 9, 9]), Some(0));
    assert_eq!(rt; within(rt.alloc(), 32, [10, 1, 9, 9]), Some(1));
    assert_eq!(rt; within(rt.alloc(), 32, [10, 1, 3, 2]), Some(2));
    assert_eq!(rt; within(rt.alloc(), 32, [10, 1, 3, 3]), Some(3));
    assert_eq!(rt; within(rt.alloc(), 32, [10, 1, 3, 4]), Some(2));
    assert_eq!(rt; within(rt.alloc(), 32, [10, 1, 4, 0]), Some(1));
    assert_eq!(rt; within(rt.alloc(), 32, [10, 255, 255, 255]), Some(0));
}

#[test]
fn an_address_outside_all_prefixes_is_not_found(rt: HostRuntime) {
    assert_eq!(rt; within(rt.alloc(), 32, [9, 255, 255, 255]), None);
    assert_eq!(rt; within(rt.alloc(), 32, [11, 0, 0, 0]), None);
    assert_eq!(rt; within(rt.alloc(), 32, [192, 0, 2, 127]), None);
    assert_eq!(rt; within(rt.alloc(), 32, [192, 0, 2, 128]), Some(4));
}

#[test]
fn a_prefix_longer_than_the_key_is_not_found(rt: HostRuntime) {
    assert_eq!(rt; within(rt.alloc(), 32, [10, 1, 2, 9]), Some(2));
    assert_eq!(rt; within(rt.alloc(), 23, [10, 1, 2, 9]), Some(2));
    assert_eq!(rt; within(rt.alloc(), 22, [10, 1, 2, 9]), Some(1));
    assert_eq!(rt; within(rt.alloc(), 15, [10, 1, 2, 9]), Some(0));
    assert_eq!(rt; within(rt.alloc(), 7, [10, 1, 2, 9]), None);
}

#[test]
fn a_key_longer_than_its_data_is_not_found(rt: HostRuntime) {
    assert_eq!(rt; within(rt.alloc(), 33, [10, 1, 2, 9]), None);
}
