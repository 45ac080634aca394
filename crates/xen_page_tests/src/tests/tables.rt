//! Places, owners and grant tables.

use crate::bench::{BACK, FRONT, owners};
use std::alloc::Global;
use xen_page::{ENTRIES, MAX_FRAMES, MAX_TABLE_FRAMES, Owners, Place, Table, WORDS};

// grant_table.h: a page of 4,096 octets has 512 entries of eight octets.
#[test]
fn limits(rt: HostRuntime) {
    assert_eq!(rt; (WORDS, ENTRIES), (1024, 512));
    assert_eq!(rt; (MAX_TABLE_FRAMES, MAX_FRAMES), (16, 8192));
}

#[test]
fn a_place_is_within_its_page(rt: HostRuntime) {
    let places = [
        Place::of(7, 1023),
        Place::of(7, 1024),
        Some(Place { frame: 7, word: 4 }.next()),
    ];
    let wanted = [
        Some(Place {
            frame: 7,
            word: 1023,
        }),
        None,
        Some(Place { frame: 7, word: 5 }),
    ];
    assert_eq!(rt; places, wanted);
}

/// Returns the number of frames that have an owner, and those of frames 0, 19 and 20.
fn known(alloc: Global) -> Option<(u32, [Option<u16>; 3])> {
    let owners = owners(alloc).ok()?;
    Some((owners.count(), [owners.of(0), owners.of(19), owners.of(20)]))
}

/// Returns the number of frames that have an owner if there are none.
fn none_known(alloc: Global) -> Option<u32> {
    let none: [u16; 0] = [];
    Some(Owners::make(alloc, &none).ok()?.count())
}

#[test]
fn owners_are_known_by_frame(rt: HostRuntime) {
    let wanted = (Some((20, [Some(BACK), Some(FRONT), None])), Some(0));
    assert_eq!(rt; (known(rt.alloc()), none_known(rt.alloc())), wanted);
}

/// Returns whether these frames are a table of the granter's.
fn is_table(alloc: Global, granter: u16, frames: &[u32]) -> Option<bool> {
    let owners = owners(alloc).ok()?;
    Some(Table::make(&owners, granter, frames).is_some())
}

/// Returns whether the first `count` frames of the front's, at most seventeen, are a table of its.
fn is_front_table(alloc: Global, count: usize) -> Option<bool> {
    let frames = [1, 2, 3, 4, 5, 6, 7, 8, 9, 10, 11, 12, 13, 14, 15, 16, 17];
    is_table(alloc, FRONT, frames.get(..count)?)
}

#[test]
fn a_table_is_one_to_sixteen_frames_of_the_granter(rt: HostRuntime) {
    let alloc = rt.alloc();
    let by_count = [
        is_front_table(alloc, 0),
        is_front_table(alloc, 1),
        is_front_table(alloc, 16),
        is_front_table(alloc, 17),
    ];
    assert_eq!(rt;
        by_count,
        [Some(false), Some(true), Some(true), Some(false)]
    );
    // the back's frame, one that isn't there, and the back's own
    let by_owner = [
        is_table(alloc, FRONT, &[1, 0]),
        is_table(alloc, FRONT, &[1, 20]),
        is_table(alloc, BACK, &[0]),
    ];
    assert_eq!(rt; by_owner, [Some(false), Some(false), Some(true)]);
}

/// The places of references of a table in frames 9 and 3, and whether it is within 10 frames and within 9.
fn places<const N: usize>(
    alloc: Global,
    references: [u32; N],
) -> Option<([Option<Place>; N], [bool; 2])> {
    let owners = owners(alloc).ok()?;
    let table = Table::make(&owners, FRONT, &[9, 3])?;
    let places = references.map(|reference| table.place(reference));
    Some((places, [table.is_within(10), table.is_within(9)]))
}

#[test]
fn references_have_their_places(rt: HostRuntime) {
    let places_wanted = [
        Some(Place { frame: 9, word: 0 }),
        Some(Place { frame: 9, word: 2 }),
        Some(Place {
            frame: 9,
            word: 1022,
        }),
        Some(Place { frame: 3, word: 0 }),
        Some(Place {
            frame: 3,
            word: 1022,
        }),
        None,
        None,
    ];
    assert_eq!(rt;
        places(rt.alloc(), [0, 1, 511, 512, 1023, 1024, u32::MAX]),
        Some((places_wanted, [true, false]))
    );
}
