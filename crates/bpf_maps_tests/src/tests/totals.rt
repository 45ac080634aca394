use bpf_maps::{MapShape, Totals};
use std::alloc::Global;

/// Returns what two adds to one counter find, and then it and two others.
fn found(alloc: Global) -> Option<[u64; 5]> {
    let shapes = [MapShape::of(1, 1)?, MapShape::of(2, 3)?];
    let mut totals = Totals::make(alloc, &shapes).ok()?;
    Some([
        totals.add(1, 1, 2, u64::MAX),
        totals.add(1, 1, 2, 2),
        totals.at(1, 1, 2),
        totals.at(1, 0, 2),
        totals.at(0, 0, 0),
    ])
}

#[test]
fn totals_of_one_owner_wrap(rt: HostRuntime) {
    assert_eq!(rt; found(rt.alloc()), Some([0, u64::MAX, 1, 0, 0]));
}
