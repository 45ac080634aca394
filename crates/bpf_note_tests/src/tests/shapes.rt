//! Shapes of maps, by their limits. Linux's bpf.h gives the kinds: an array's key is a `__u32`, that of a trie begins with one
//! (`struct bpf_lpm_trie_key`).

use bpf_note::{KeyKind, MapKey, MapShape, constants_left};

#[test]
fn shapes_within_their_limits(rt: HostRuntime) {
    let rows = [
        (1, 1, true),
        (1024, 8, true),
        (0, 1, false),
        (1025, 1, false),
        (1, 0, false),
        (1, 9, false),
    ];
    for (entries, counters, within) in rows {
        let shape = MapShape::of(entries, counters);
        let limits = shape.map(|shape| (shape.key(), shape.entries(), shape.counters()));
        assert_eq!(rt;
            limits,
            within.then_some((MapKey::Index, entries, counters))
        );
    }
}

#[test]
fn shapes_that_are_asked_for(rt: HostRuntime) {
    let exact = MapKey::Listed(KeyKind::Exact(16));
    let rows = [
        (MapKey::Index, 1, 1, true),
        (MapKey::Index, 65536, 8, true),
        (exact, 65536, 8, true),
        (MapKey::Index, 65537, 1, false),
        (exact, 65537, 1, false),
        (exact, 0, 1, false),
        (exact, 1, 0, false),
        (exact, 1, 9, false),
    ];
    for (key, entries, counters, within) in rows {
        let shape = MapShape::keyed(key, entries, counters);
        let limits = shape.map(|shape| (shape.key(), shape.entries(), shape.counters()));
        assert_eq!(rt; limits, within.then_some((key, entries, counters)));
    }
}

#[test]
fn keys_of_1_to_64_bytes_of_data(rt: HostRuntime) {
    let rows = [
        (MapKey::Index, 4, true),
        (MapKey::Listed(KeyKind::Exact(0)), 0, false),
        (MapKey::Listed(KeyKind::Exact(1)), 1, true),
        (MapKey::Listed(KeyKind::Exact(64)), 64, true),
        (MapKey::Listed(KeyKind::Exact(65)), 65, false),
        (MapKey::Listed(KeyKind::Prefix(0)), 4, false),
        (MapKey::Listed(KeyKind::Prefix(4)), 8, true),
        (MapKey::Listed(KeyKind::Prefix(16)), 20, true),
        (MapKey::Listed(KeyKind::Prefix(64)), 68, true),
        (MapKey::Listed(KeyKind::Prefix(65)), 69, false),
        (MapKey::Constants(0), 4, true),
        (MapKey::Constants(65536), 4, true),
        (MapKey::Constants(65537), 4, false),
    ];
    for (key, bytes, within) in rows {
        assert_eq!(rt; key.size(), bytes);
        let shape = MapShape::keyed(key, 1, 1);
        assert_eq!(rt; shape.is_some(), within);
    }
}

#[test]
fn constants_lie_64_kib_apart(rt: HostRuntime) {
    let shapes = [
        MapShape::keyed(MapKey::Constants(5), 1, 1),
        MapShape::of(1, 1),
        MapShape::keyed(MapKey::Constants(65536), 1, 1),
    ];
    let [Some(first), Some(array), Some(last)] = shapes else {
        assert!(rt; false);
        return;
    };
    let shapes = [first, array, last];
    let rows = [
        (0x37ff_ffff, 0),
        (0x3800_0000, 5),
        (0x3800_0004, 1),
        (0x3800_0005, 0),
        (0x3801_0000, 0),
        (0x3802_0000, 65536),
        (0x3802_ffff, 1),
        (0x3803_0000, 0),
        (0x4000_0000, 0),
        (u64::MAX, 0),
    ];
    for (address, bytes) in rows {
        assert_eq!(rt; constants_left(&shapes, address), bytes);
    }
}
