//! Turns, a row for each way that one may end.

use super::fixtures::{DROPS, PASSES, SENDS, Told, turn, turn_with_maps};
use bpf_note::MapShape;
use std::alloc::Global;
use xen_page::{Access, Place};

/// A program, the answers to a turn's reads from index 0 on, and how it ends.
type Row = (&'static [u8; 16], &'static [u32], Told);

/// An event index that is not reached, a slot of fourteen bytes, and one of thirteen.
pub const FOURTEEN: u32 = 0x000e_0007;

const THIRTEEN: u32 = 0x000d_0007;

/// Fourteen bytes of 0 that pass or are dropped, fourteen that are sent back, and nothing.
const ENDED: [Row; 5] = [
    (&PASSES, &[0, 0], [0, 0, 0, 0, 0]),
    (
        &PASSES,
        &[1, 2, 0, FOURTEEN, 1, 19, 0, 0, 0, 0, 1],
        [1, 2, 0, 0, 1],
    ),
    (
        &PASSES,
        &[0, 1, 2, 0, FOURTEEN, 1, 19, 0, 0, 0, 0, 1],
        [1, 2, 0, 0, 1],
    ),
    (
        &DROPS,
        &[1, 2, 0, FOURTEEN, 1, 19, 1, 2, 3, 4, 0],
        [1, 1, 0, 0, 1],
    ),
    (
        &SENDS,
        &[1, 2, 0, FOURTEEN, 1, 19, 1, 2, 3, 4, 1, 9, 5, 1, 16, 1, 1],
        [1, 3, 0, 0, 1],
    ),
];

/// A row for each cause of a refusal, by its number.
const REFUSED: [Row; 7] = [
    (&PASSES, &[1, 2, 0, THIRTEEN], [2, 0, 1, 0, 1]),
    (
        &PASSES,
        &[2, 2, 0x4_0000, 0x0064_0007, 3, 0, 0x0065_0008],
        [2, 0, 2, 0, 2],
    ),
    (&PASSES, &[1, 2, 4083, FOURTEEN], [2, 0, 3, 0, 1]),
    (&PASSES, &[1, 2, 0, FOURTEEN, 0, 19], [2, 0, 4, 0, 1]),
    (
        &PASSES,
        &[2, 2, 0x8_0000, 0x0064_0007, 1, 0, 0, 0],
        [2, 0, 5, 0, 2],
    ),
    (
        &SENDS,
        &[1, 2, 0, FOURTEEN, 1, 19, 1, 2, 3, 4, 0],
        [2, 0, 6, 0, 1],
    ),
    (
        &SENDS,
        &[1, 2, 0, FOURTEEN, 1, 19, 1, 2, 3, 4, 1, 9, 5, 0, 16],
        [2, 0, 7, 0, 1],
    ),
];

/// Nineteen data slots, of which eighteen are read: the producer, and those.
const NINETEEN: [u32; 55] = [
    30, 2, 0x4_0000, 7, 2, 0x4_0000, 7, 2, 0x4_0000, 7, 2, 0x4_0000, 7, 2, 0x4_0000, 7, 2,
    0x4_0000, 7, 2, 0x4_0000, 7, 2, 0x4_0000, 7, 2, 0x4_0000, 7, 2, 0x4_0000, 7, 2, 0x4_0000, 7, 2,
    0x4_0000, 7, 2, 0x4_0000, 7, 2, 0x4_0000, 7, 2, 0x4_0000, 7, 2, 0x4_0000, 7, 2, 0x4_0000, 7, 2,
    0x4_0000, 7,
];

/// Five extras, of which a chain may have four.
const FIVE_EXTRAS: [u32; 19] = [
    30,
    2,
    0x8_0000,
    0x0064_0007,
    0x101,
    0,
    0,
    0x101,
    0,
    0,
    0x101,
    0,
    0,
    0x101,
    0,
    0,
    0x101,
    0,
    0,
];

/// A row for each cause of a halt, by its number.
const HALTED: [Row; 6] = [
    (&PASSES, &[257], [3, 0, 1, 0, 0]),
    (&PASSES, &[1, 2, 0x4_0000, FOURTEEN], [3, 0, 2, 0, 0]),
    (&PASSES, &NINETEEN, [3, 0, 3, 0, 0]),
    (
        &PASSES,
        &[30, 2, 0x8_0000, 0x0064_0007, 6, 0, 0],
        [3, 0, 4, 0, 0],
    ),
    (&PASSES, &FIVE_EXTRAS, [3, 0, 5, 0, 0]),
    (
        &SENDS,
        &[1, 2, 0, FOURTEEN, 1, 19, 1, 2, 3, 4, 257],
        [3, 0, 6, 0, 0],
    ),
];

/// The number of the first row that both queues don't make, or that ends otherwise.
fn differing(alloc: Global, rows: &[Row]) -> Option<usize> {
    for (number, (bytes, answers, told)) in rows.iter().enumerate() {
        let Some(seen) = turn(alloc, *bytes, 0, answers) else {
            return Some(number);
        };
        let ended = seen.told;
        if ended != *told {
            return Some(number);
        }
    }
    None
}

#[test]
fn both_queues_make_the_turns_of_the_table(rt: HostRuntime) {
    assert_eq!(rt; differing(rt.alloc(), &ENDED), None);
    assert_eq!(rt; differing(rt.alloc(), &REFUSED), None);
    assert_eq!(rt; differing(rt.alloc(), &HALTED), None);
}

fn read(word: u32, answer: u32) -> Access {
    Access::Read {
        at: Place { frame: 17, word },
        answer,
    }
}

/// The accesses of an idle turn from `start`: two looks, and the event index between them.
fn idle(start: u32) -> [Access; 3] {
    let stored = Access::Write {
        at: Place { frame: 17, word: 1 },
        value: start.wrapping_add(1),
    };
    [read(0, start), stored, read(0, start)]
}

/// Returns whether an idle turn makes these accesses, and tells nobody.
fn is_idle(alloc: Global, start: u32) -> bool {
    match turn(alloc, &PASSES, start, &[start, start]) {
        Some(seen) => seen.accesses.as_slice() == idle(start).as_slice() && !seen.notified,
        None => false,
    }
}

#[test]
fn an_idle_turn_looks_twice(rt: HostRuntime) {
    for start in [0, 0xffff_ffff] {
        assert!(rt; is_idle(rt.alloc(), start), "from {start}");
    }
}

/// The accesses of a packet of thirteen bytes, which is refused: ring.h's indices, the slot's three words, its response of ERROR.
const SHORT: [(bool, u32, u32); 7] = [
    (false, 0, 1),
    (false, 16, 2),
    (false, 17, 0),
    (false, 18, THIRTEEN),
    (true, 16, 0xffff_0007),
    (true, 2, 1),
    (false, 3, 1),
];

/// Returns whether a turn refuses that packet with these accesses, and sends a notice.
fn is_short(alloc: Global) -> bool {
    let Some(seen) = turn(alloc, &PASSES, 0, &[1, 2, 0, THIRTEEN, 1]) else {
        return false;
    };
    let mut wanted = SHORT.iter();
    for access in seen.accesses.as_slice() {
        let found = match access {
            Access::Read { at, answer } => (false, at.word, *answer),
            Access::Write { at, value } => (true, at.word, *value),
            _ => return false,
        };
        if wanted.next() != Some(&found) {
            return false;
        }
    }
    wanted.next().is_none() && seen.notified
}

#[test]
fn a_short_packet_is_answered_before_the_look_at_the_event_index(rt: HostRuntime) {
    assert!(rt; is_short(rt.alloc()));
}

/// Adds 1 to the counter of key 1: ST W [r10 - 4], 1; MOV r2, r10; ADD r2, -4; r1 = map 0; CALL 1; JEQ r0, 0, +2;
/// MOV r1, 1; atomic ADD DW [r0], r1; MOV r0, 2; EXIT.
pub const COUNTS: [u8; 88] = [
    0x62, 0x0a, 0xfc, 0xff, 1, 0, 0, 0, 0xbf, 0xa2, 0, 0, 0, 0, 0, 0, 0x07, 0x02, 0, 0, 0xfc, 0xff,
    0xff, 0xff, 0x18, 0x11, 0, 0, 0, 0, 0, 0, 0, 0, 0, 0, 0, 0, 0, 0, 0x85, 0, 0, 0, 1, 0, 0, 0,
    0x15, 0, 2, 0, 0, 0, 0, 0, 0xb7, 1, 0, 0, 1, 0, 0, 0, 0xdb, 0x10, 0, 0, 0, 0, 0, 0, 0xb7, 0, 0,
    0, 2, 0, 0, 0, 0x95, 0, 0, 0, 0, 0, 0, 0,
];

/// Returns what fourteen bytes come to under that program.
fn counted(alloc: Global) -> Option<Told> {
    let shape = MapShape::of(2, 1)?;
    let answers = [1, 2, 0, FOURTEEN, 1, 19];
    Some(turn_with_maps(alloc, &COUNTS, &[shape], 0, &answers)?.told)
}

#[test]
fn a_counter_operation_is_counted(rt: HostRuntime) {
    assert_eq!(rt; counted(rt.alloc()), Some([1, 2, 0, 1, 1]));
}
