//! What a front may be made with, by `xen_buffers`.

use crate::bench::buffers;
use std::alloc::Global;
use xen_buffers::{FrontDesc, FrontWiring, GrantedPage, buffer_of, grant_flags, grant_frame};
use xen_page::{Owners, Place, Table};
use xen_ring::Port;

/// A table in frames 1 and 2 of ten.
fn table(alloc: Global) -> Option<Table> {
    let owners = Owners::make(alloc, &[1; 10]).ok()?;
    Table::make(&owners, 1, &[1, 2])
}

/// Returns whether a front may be made with these buffers, these ring pages and a bus of `frames` frames.
fn is_wired(
    alloc: Global,
    tx: &[GrantedPage],
    rx: &[GrantedPage],
    rings: [u32; 2],
    frames: u32,
) -> Option<bool> {
    let table = table(alloc)?;
    let [tx_frame, rx_frame] = rings;
    let desc = FrontDesc {
        frames,
        tx_frame,
        rx_frame,
        table: &table,
        tx,
        rx,
        back: 0,
        port: Port::of(1)?,
        start: 0,
    };
    Some(desc.is_wired())
}

/// The buffers without the first.
fn all_but_one(buffers: &[GrantedPage]) -> &[GrantedPage] {
    match buffers.split_first() {
        Some((_, others)) => others,
        None => buffers,
    }
}

/// These buffers, that of an id replaced.
fn with(buffers: &[GrantedPage; 256], id: usize, buffer: GrantedPage) -> [GrantedPage; 256] {
    let mut changed = *buffers;
    if let Some(place) = changed.get_mut(id) {
        *place = buffer;
    }
    changed
}

/// Returns whether a front may be made with the tests' buffers, these ring pages and a bus of `frames` frames.
fn is_wired_with(alloc: Global, rings: [u32; 2], frames: u32) -> Option<bool> {
    is_wired(alloc, &buffers(2), &buffers(258), rings, frames)
}

/// As [`is_wired_with`], if one of the lists has other buffers: without the first tx buffer, without the first rx
/// buffer, and with the tx buffers as both.
fn are_lists_wired(alloc: Global) -> [Option<bool>; 3] {
    let (tx, rx) = (buffers(2), buffers(258));
    [
        is_wired(alloc, all_but_one(&tx), &rx, [17, 18], 531),
        is_wired(alloc, &tx, all_but_one(&rx), [17, 18], 531),
        is_wired(alloc, &tx, &tx, [17, 18], 531),
    ]
}

/// As [`is_wired_with`], if the last rx buffer is of frame 531 and has this reference.
fn is_last_wired(alloc: Global, gref: u32) -> Option<bool> {
    let rx = with(&buffers(258), 255, GrantedPage { gref, frame: 531 });
    is_wired(alloc, &buffers(2), &rx, [17, 18], 532)
}

#[test]
fn distinct_pages_in_the_table_and_on_the_bus(rt: HostRuntime) {
    let alloc = rt.alloc();
    // the last frame is 530
    let by_bus = [
        is_wired_with(alloc, [17, 18], 531),
        is_wired_with(alloc, [17, 18], 530),
    ];
    assert_eq!(rt; by_bus, [Some(true), Some(false)]);
    // one page for both rings, a page of the table, and a page of a buffer
    let by_rings = [
        is_wired_with(alloc, [17, 17], 531),
        is_wired_with(alloc, [17, 2], 531),
        is_wired_with(alloc, [17, 530], 531),
    ];
    assert_eq!(rt; by_rings, [Some(false); 3]);
    // 255 tx buffers, 255 rx buffers, and the same buffers twice
    assert_eq!(rt; are_lists_wired(alloc), [Some(false); 3]);
    // past the table, the table's last one, and one that a tx buffer has
    let by_reference = [
        is_last_wired(alloc, 1024),
        is_last_wired(alloc, 1023),
        is_last_wired(alloc, 2),
    ];
    assert_eq!(rt; by_reference, [Some(false), Some(true), Some(false)]);
}

/// The last rx buffer, and where the two words of its grant lie.
fn last_grant(alloc: Global) -> Option<(GrantedPage, [Place; 2])> {
    let table = table(alloc)?;
    let (tx, rx) = (buffers(2), buffers(258));
    let wiring = FrontWiring {
        frames: 531,
        tx_frame: 17,
        rx_frame: 18,
        table: &table,
        tx: &tx,
        rx: &rx,
        back: 0,
        port: Port::of(1)?,
    };
    let buffer = buffer_of(&rx, 255);
    let words = [grant_flags(&wiring, &buffer), grant_frame(&wiring, &buffer)];
    Some((buffer, words))
}

#[test]
fn grants_have_their_words(rt: HostRuntime) {
    let buffer = GrantedPage {
        gref: 513,
        frame: 530,
    };
    let words = [Place { frame: 2, word: 2 }, Place { frame: 2, word: 3 }];
    assert_eq!(rt; last_grant(rt.alloc()), Some((buffer, words)));
}
