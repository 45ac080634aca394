//! Turns whose program looks up the rows of a list.
ghost use Rattle.std.specs.Prelude.{◌≡◌, ◌≤◌, length};

use super::fixtures::{driven, fed};
use super::kind::Kind;
use super::programs::COUNTS;
use super::slots::slot;
use crate::bench::{Bench, ready};
use bpf_lists::{KeyedRows, MapList};
use bpf_note::{KeyKind, MapKey, MapShape};
use bpf_vm::Buffer;
use std::alloc::Global;

/// The frontend's words for a packet of 14 bytes.
fn answers() -> [u32; 6] {
    [1, 2, 0, slot(7, 14), 1, 19]
}

/// Returns what a turn by `drive_turn` comes to.
fn by_driver(alloc: Global, bench: &Bench, buffer: &mut Buffer, shapes: &[MapShape]) -> Option<Kind>
    requires few { length shapes.now ≤ 4 }
    requires program { bench.now.program.shapes ≡ shapes.now }
{
    match bench.queue(alloc, 0, buffer) {
        Some(mut queue) => Some(driven(alloc, &mut queue, shapes, &answers())?.kind),
        None => None,
    }
}

/// Returns what a turn by `want` and `feed` comes to.
fn by_hand(alloc: Global, bench: &Bench, buffer: &mut Buffer) -> Option<Kind> {
    match bench.queue(alloc, 0, buffer) {
        Some(mut queue) => Some(fed(alloc, &mut queue, &answers())?.kind),
        None => None,
    }
}

/// Returns what a program that counts under the key `01 00 00 00` comes to, both ways, if the list has these keys.
fn counted(alloc: Global, keys: &[u8]) -> Option<(Option<Kind>, Option<Kind>)> {
    let shape = MapShape::keyed(MapKey::Listed(KeyKind::Exact(4)), 2, 1)?;
    let rows = KeyedRows::make(alloc, KeyKind::Exact(4), keys).ok()?;
    let mut lists = Vec::new(alloc);
    lists.push(Some(MapList::Rows(rows))).ok()?;
    let shapes = [shape];
    let (bench, mut buffer) = ready(alloc, &COUNTS, &shapes)?;
    let bench = bench.with_lists(lists);
    let driven = by_driver(alloc, &bench, &mut buffer, &shapes);
    Some((driven, by_hand(alloc, &bench, &mut buffer)))
}

/// The end of a packet in one slot that passes, after so many operations on counters.
fn passed(ops: u32) -> Option<Kind> {
    Some(Kind::Ran {
        number: 2,
        ops,
        slots: 1,
    })
}

#[test]
fn a_turn_counts_under_a_key_of_its_list(rt: HostRuntime) {
    let found = counted(rt.alloc(), &[9, 9, 9, 9, 1, 0, 0, 0]);
    assert_eq!(rt; found, Some((passed(1), passed(1))));
}

#[test]
fn a_turn_counts_nothing_under_another_key(rt: HostRuntime) {
    let found = counted(rt.alloc(), &[9, 9, 9, 9, 1, 0, 0, 1]);
    assert_eq!(rt; found, Some((passed(0), passed(0))));
}
