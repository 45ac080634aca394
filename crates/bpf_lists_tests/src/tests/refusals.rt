//! Rows that are refused, each for its cause.
use bpf_lists::{KeyedRows, RowsRefusal};
use bpf_note::KeyKind;
use std::alloc::{AllocError, Global};

/// Returns why rows are refused.
fn cause(alloc: Global, kind: KeyKind, keys: &[u8]) -> Option<RowsRefusal> {
    KeyedRows::make(alloc, kind, keys).err()
}

#[test]
fn keys_have_1_to_64_bytes(rt: HostRuntime) {
    assert_eq!(rt;
        cause(rt.alloc(), KeyKind::Exact(0), &[]),
        Some(RowsRefusal::Width)
    );
    assert_eq!(rt;
        cause(rt.alloc(), KeyKind::Exact(65), &[]),
        Some(RowsRefusal::Width)
    );
    assert_eq!(rt;
        cause(rt.alloc(), KeyKind::Prefix(0), &[]),
        Some(RowsRefusal::Width)
    );
    assert_eq!(rt;
        cause(rt.alloc(), KeyKind::Prefix(65), &[]),
        Some(RowsRefusal::Width)
    );
    assert_eq!(rt; cause(rt.alloc(), KeyKind::Prefix(64), &[]), None);
    assert_eq!(rt; cause(rt.alloc(), KeyKind::Exact(1), &[]), None);
}

#[test]
fn rows_are_whole(rt: HostRuntime) {
    assert_eq!(rt;
        cause(rt.alloc(), KeyKind::Exact(4), &[1, 2, 3, 4, 5]),
        Some(RowsRefusal::Partial)
    );
    assert_eq!(rt;
        cause(rt.alloc(), KeyKind::Prefix(1), &[8, 0, 0, 0]),
        Some(RowsRefusal::Partial)
    );
}

#[test]
fn a_prefix_is_no_longer_than_its_data(rt: HostRuntime) {
    let keys = [8, 0, 0, 0, 7, 9, 0, 0, 0, 7];
    assert_eq!(rt;
        cause(rt.alloc(), KeyKind::Prefix(1), &keys),
        Some(RowsRefusal::Length(1))
    );
    assert_eq!(rt;
        cause(rt.alloc(), KeyKind::Prefix(1), &[0, 1, 0, 0, 0]),
        Some(RowsRefusal::Length(0))
    );
}

#[test]
fn no_bit_is_set_beyond_a_prefix(rt: HostRuntime) {
    assert_eq!(rt;
        cause(rt.alloc(), KeyKind::Prefix(1), &[7, 0, 0, 0, 3]),
        Some(RowsRefusal::Beyond(0))
    );
    assert_eq!(rt;
        cause(rt.alloc(), KeyKind::Prefix(1), &[7, 0, 0, 0, 2]),
        None
    );
    assert_eq!(rt;
        cause(rt.alloc(), KeyKind::Prefix(2), &[8, 0, 0, 0, 3, 1]),
        Some(RowsRefusal::Beyond(0))
    );
}

#[test]
fn no_key_stands_twice(rt: HostRuntime) {
    let keys = [5, 1, 9, 1];
    assert_eq!(rt;
        cause(rt.alloc(), KeyKind::Exact(1), &keys),
        Some(RowsRefusal::Repeated(1, 3))
    );
    let prefixes = [8, 0, 0, 0, 16, 4, 0, 0, 0, 16, 8, 0, 0, 0, 16];
    assert_eq!(rt;
        cause(rt.alloc(), KeyKind::Prefix(1), &prefixes),
        Some(RowsRefusal::Repeated(0, 2))
    );
}

/// Returns why `count` keys of one byte each are refused.
fn many(alloc: Global, count: usize) -> Result<Option<RowsRefusal>, AllocError> {
    let keys = Vec::from_elem(alloc, 0, count)?;
    Ok(cause(alloc, KeyKind::Exact(1), keys.as_slice()))
}

#[test]
fn there_are_at_most_65536_rows(rt: HostRuntime) {
    let most = many(rt.alloc(), 65536);
    assert!(rt; matches!(most, Ok(Some(RowsRefusal::Repeated(_, _)))));
    assert_eq!(rt; many(rt.alloc(), 65537), Ok(Some(RowsRefusal::TooMany)));
}
