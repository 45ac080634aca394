//! Mapping a frame, and ending the mapping.

ghost use Rattle.std.specs.Prelude.{◌≡◌, ◌<◌, All};
ghost use Rattle.xen_page.specs.Shared.{frames_of};
ghost use Rattle.xen_page.specs.Table.{IsTable};

use crate::bench::{BACK, FRAMES, FRONT, ended, log, mapped, owners};
use std::alloc::Global;
use xen_page::{
    Access, Bus, Frames, GrantFault, Owners, PageBus, Place, Rights, Table, map, unmap,
};

/// The flags word of reference 5 of a table in frame 1.
const FLAGS: Place = Place { frame: 1, word: 10 };

/// The frame word of that reference.
const FRAME: Place = Place { frame: 1, word: 11 };

fn read(at: Place, answer: u32) -> Access {
    Access::Read { at, answer }
}

fn exchange(old: u32, new: u32, found: u32) -> Access {
    Access::Exchange {
        at: FLAGS,
        old,
        new,
        found,
    }
}

#[test]
fn a_mapping_marks_its_entry(rt: HostRuntime) {
    for (rights, marked) in [(Rights::ReadWrite, 25), (Rights::ReadOnly, 9)] {
        let accesses = [read(FLAGS, 1), read(FRAME, 17), exchange(1, marked, 1)];
        assert_eq!(rt;
            mapped(rt.alloc(), &[1], &[1, 17, 1], 5, rights),
            Some((Ok((17, FLAGS)), log(&accesses)))
        );
    }
}

/// The two words of an entry, and the fault of a mapping for writing.
const REFUSED: [(u32, u32, GrantFault); 8] = [
    (0, 17, GrantFault::BadGntref),
    (0x0001_0001, 17, GrantFault::PermissionDenied),
    (5, 17, GrantFault::PermissionDenied),
    (1, 0, GrantFault::BadPage),
    (9, 0, GrantFault::BadPage),
    (9, 17, GrantFault::Eagain),
    (17, 17, GrantFault::Eagain),
    (25, 17, GrantFault::Eagain),
];

#[test]
fn a_refused_mapping_marks_nothing(rt: HostRuntime) {
    for (a, b, fault) in REFUSED {
        let accesses = log(&[read(FLAGS, a), read(FRAME, b)]);
        let answer = mapped(rt.alloc(), &[1], &[a, b], 5, Rights::ReadWrite);
        assert!(rt; answer == Some((Err(fault), accesses)), "{a} {b}");
    }
}

#[test]
fn an_entry_that_changed_is_left_alone(rt: HostRuntime) {
    let accesses = [read(FLAGS, 1), read(FRAME, 17), exchange(1, 25, 5)];
    assert_eq!(rt;
        mapped(rt.alloc(), &[1], &[1, 17, 5], 5, Rights::ReadWrite),
        Some((Err(GrantFault::Eagain), log(&accesses)))
    );
}

#[test]
fn a_reference_past_the_table_is_not_looked_at(rt: HostRuntime) {
    let frames = [1, 2, 3, 4, 5, 6, 7, 8, 9, 10, 11, 12, 13, 14, 15, 16];
    assert_eq!(rt;
        mapped(rt.alloc(), &frames, &[1, 17, 1], 8192, Rights::ReadWrite),
        Some((Err(GrantFault::BadGntref), log(&[])))
    );
    let last = mapped(rt.alloc(), &frames, &[1, 17, 1], 8191, Rights::ReadWrite);
    assert!(rt; matches!(last, Some((Ok(_), _))));
}

#[test]
fn a_changed_entry_stays_mapped(rt: HostRuntime) {
    // The word is one bit more than the marked one, or has lost its marks, or one of them. At the second try to end the mapping
    // the marked word stands again.
    for found in [0x1D, 1, 9] {
        let accesses = [
            read(FLAGS, 1),
            read(FRAME, 17),
            exchange(1, 25, 1),
            exchange(0x19, 1, found),
            exchange(0x19, 1, 0x19),
        ];
        assert_eq!(rt;
            ended(rt.alloc(), &[1, 17, 1, found, 0x19], Rights::ReadWrite),
            Some((Some(((17, FLAGS), true)), log(&accesses)))
        );
    }
}

#[test]
fn a_mapping_takes_its_own_marks_away(rt: HostRuntime) {
    for (rights, marked) in [(Rights::ReadWrite, 25), (Rights::ReadOnly, 9)] {
        let accesses = [
            read(FLAGS, 1),
            read(FRAME, 17),
            exchange(1, marked, 1),
            exchange(marked, 1, marked),
        ];
        assert_eq!(rt;
            ended(rt.alloc(), &[1, 17, 1, marked], rights),
            Some((None, log(&accesses)))
        );
    }
}

/// The flags word while a frame is mapped for writing and once it is unmapped, and the fault of a second mapping.
fn marks(
    bus: &mut PageBus,
    table: &Table,
    owners: &Owners,
) -> Option<([u32; 2], Option<GrantFault>)>
    requires table { IsTable owners.now 1 table.now }
    requires within { All (λ frame. frame < 20) table.now }
    requires frames { frames_of bus.old ≡ 20 }
    ensures { frames_of bus.new ≡ 20 }
{
    let mapped = map(bus, table, owners, FRONT, BACK, 5, Rights::ReadWrite).ok()?;
    let marked = bus.read(FLAGS);
    let again = map(bus, table, owners, FRONT, BACK, 5, Rights::ReadOnly).err();
    unmap(bus, mapped).ok()?;
    Some(([marked, bus.read(FLAGS)], again))
}

/// The two words of the entry of a frame that is mapped for reading.
fn readable(bus: &mut PageBus, table: &Table, owners: &Owners) -> Option<[u32; 2]>
    requires table { IsTable owners.now 1 table.now }
    requires within { All (λ frame. frame < 20) table.now }
    requires frames { frames_of bus.old ≡ 20 }
{
    map(bus, table, owners, FRONT, BACK, 5, Rights::ReadOnly).ok()?;
    Some([bus.read(FLAGS), bus.read(FRAME)])
}

/// The findings as pages are mapped for writing, again, unmapped, and mapped for reading: the flags word while they are mapped and
/// afterwards, the second mapping's fault, and the entry's two words.
type Pages = ([u32; 2], Option<GrantFault>, [u32; 2]);

/// Returns what is found over these pages.
fn pages_of(frames: &Frames, table: &Table, owners: &Owners) -> Option<Pages>
    requires table { IsTable owners.now 1 table.now }
    requires within { All (λ frame. frame < 20) table.now }
    requires frames { frames.now ≡ 20 }
{
    let mut bus = PageBus::of(frames);
    bus.write(FLAGS, 1);
    bus.write(FRAME, 17);
    let (marks, again) = marks(&mut bus, table, owners)?;
    let words = readable(&mut bus, table, owners)?;
    Some((marks, again, words))
}

/// [`pages_of`] for the frontend's pages.
fn pages_over(alloc: Global, table: &Table, owners: &Owners) -> Option<Pages>
    requires table { IsTable owners.now 1 table.now }
    requires within { All (λ frame. frame < 20) table.now }
{
    match Frames::make(alloc, &[FRONT; FRAMES as usize]) {
        Ok(frames) => pages_of(&frames, table, owners),
        Err(_) => None,
    }
}

fn pages(alloc: Global) -> Option<Pages> {
    let owners = owners(alloc).ok()?;
    let table = Table::make(&owners, FRONT, &[1])?;
    if table.is_within(FRAMES) {
        pages_over(alloc, &table, &owners)
    } else {
        None
    }
}

#[test]
fn pages_are_mapped_and_unmapped(rt: HostRuntime) {
    assert_eq!(rt;
        pages(rt.alloc()),
        Some(([25, 1], Some(GrantFault::Eagain), [9, 17]))
    );
}
