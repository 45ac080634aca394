//! Owners given as extents, and tables of more than 16 frames. The rows are worked by hand.

use crate::bench::{BACK, FRONT};
use std::alloc::Global;
use xen_page::{Extent, MAX_LARGE_TABLE_FRAMES, Owners, OwnersFault, Table};

/// The domain of frames that nobody owns: xen.h's DOMID_INVALID.
const NOBODY: u16 = 0x7ff4;

fn extent(frames: u32, domain: u16) -> Extent {
    Extent { frames, domain }
}

/// A guest of 4 GB with a hole of 1 GB below 4 GB, after a page of the host's.
fn guest() -> [Extent; 5] {
    [
        extent(1, BACK),
        extent(0xb_ffff, FRONT),
        extent(0, BACK),
        extent(0x4_0000, NOBODY),
        extent(0x4_0000, FRONT),
    ]
}

/// Returns the number of frames, and the owner of one.
fn known(alloc: Global, extents: &[Extent], frame: u32) -> Result<(u32, Option<u16>), OwnersFault> {
    let owners = Owners::of_extents(alloc, extents)?;
    Ok((owners.count(), owners.of(frame)))
}

/// A frame of the guest's and who owns it, with what it is.
const FRAMES: [(u32, Option<u16>, &str); 9] = [
    (0, Some(BACK), "the first frame"),
    (1, Some(FRONT), "the first of the second extent"),
    (0xb_ffff, Some(FRONT), "the last before the hole"),
    (
        0xc_0000,
        Some(NOBODY),
        "the first of the hole, as an extent of no frames is none",
    ),
    (0xf_ffff, Some(NOBODY), "the last of the hole"),
    (0x10_0000, Some(FRONT), "the first behind the hole"),
    (0x13_ffff, Some(FRONT), "the last"),
    (0x14_0000, None, "one past the last"),
    (0xffff_ffff, None, "the largest number"),
];

#[test]
fn each_extent_follows_the_one_before(rt: HostRuntime) {
    for (frame, owner, text) in FRAMES {
        let known = known(rt.alloc(), &guest(), frame);
        assert!(rt; known == Ok((0x14_0000, owner)), "{text}");
    }
}

// Frames have numbers of 32 bits, and so has their count: 2^32 - 1 is the most.
#[test]
fn frames_are_counted_in_32_bits(rt: HostRuntime) {
    let most = [extent(0xffff_fffe, FRONT), extent(1, BACK)];
    let too_many = [extent(0xffff_fffe, FRONT), extent(2, BACK)];
    let seen = [
        known(rt.alloc(), &most, 0xffff_fffe),
        known(rt.alloc(), &most, 0xffff_ffff),
        known(rt.alloc(), &too_many, 0),
        known(rt.alloc(), &[], 0),
    ];
    let wanted = [
        Ok((0xffff_ffff, Some(BACK))),
        Ok((0xffff_ffff, None)),
        Err(OwnersFault::Frames),
        Ok((0, None)),
    ];
    assert_eq!(rt; seen, wanted);
}

/// Returns whether `count` frames of the guest's, from `first` on, are a table that `make` makes, and that `large` does.
fn is_table(alloc: Global, first: u32, count: usize) -> Result<(bool, bool), OwnersFault> {
    let owners = Owners::of_extents(alloc, &guest())?;
    let mut frames = [0; 66];
    for (frame, number) in frames.iter_mut().zip(first..) {
        *frame = number;
    }
    let frames = &frames[..count.min(66)];
    let is_small = Table::make(&owners, FRONT, frames).is_some();
    Ok((is_small, Table::large(&owners, FRONT, frames).is_some()))
}

/// A first frame and a count of the guest's frames, and whether they are a small table and a large one, with what they are.
const TABLES: [(u32, usize, (bool, bool), &str); 11] = [
    (1, 0, (false, false), "no frame"),
    (1, 1, (true, true), "one"),
    (1, 16, (true, true), "sixteen"),
    (1, 17, (false, true), "seventeen"),
    (1, 64, (false, true), "sixty-four"),
    (1, 65, (false, false), "sixty-five"),
    (0, 1, (false, false), "the host's page"),
    (0xb_ffc0, 64, (false, true), "up to the hole"),
    (0xb_ffc1, 64, (false, false), "into the hole"),
    (0x13_ffc0, 64, (false, true), "up to the end"),
    (0x13_ffc1, 64, (false, false), "past the end"),
];

// Xen's default: a guest's table has at most 64 frames (xen-command-line, gnttab_max_frames).
#[test]
fn a_large_table_has_up_to_64_frames(rt: HostRuntime) {
    assert_eq!(rt; MAX_LARGE_TABLE_FRAMES, 64);
    for (first, count, is_made, text) in TABLES {
        assert!(rt; is_table(rt.alloc(), first, count) == Ok(is_made), "{text}");
    }
}
