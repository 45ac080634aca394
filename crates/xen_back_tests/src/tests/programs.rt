//! Turns whose program decides.

use super::fixtures::{fed, turn, turn_with_maps, write};
use super::kind::Kind;
use super::slots::{STARTS, slot, tx};
use crate::bench::ready;
use bpf_note::MapShape;
use std::alloc::Global;
use xen_back::Queue;

/// Adds 1 to the counter of key 1: ST W [r10 - 4], 1; MOV r2, r10; ADD r2, -4; r1 = map 0; CALL 1; JEQ r0, 0, +2;
/// MOV r1, 1; atomic ADD DW [r0], r1; MOV r0, 2; EXIT.
pub const COUNTS: [u8; 88] = [
    0x62, 0x0a, 0xfc, 0xff, 1, 0, 0, 0, 0xbf, 0xa2, 0, 0, 0, 0, 0, 0, 0x07, 0x02, 0, 0, 0xfc, 0xff,
    0xff, 0xff, 0x18, 0x11, 0, 0, 0, 0, 0, 0, 0, 0, 0, 0, 0, 0, 0, 0, 0x85, 0, 0, 0, 1, 0, 0, 0,
    0x15, 0, 2, 0, 0, 0, 0, 0, 0xb7, 1, 0, 0, 1, 0, 0, 0, 0xdb, 0x10, 0, 0, 0, 0, 0, 0, 0xb7, 0, 0,
    0, 2, 0, 0, 0, 0x95, 0, 0, 0, 0, 0, 0, 0,
];

/// PASS for a packet of more than 14 bytes, whose byte 14 it reads, and DROP for others.
const LOOKS_AT_BYTE_14: [u8; 80] = [
    0x61, 0x12, 0, 0, 0, 0, 0, 0, 0x61, 0x13, 4, 0, 0, 0, 0, 0, 0xbf, 0x24, 0, 0, 0, 0, 0, 0, 0x07,
    4, 0, 0, 14, 0, 0, 0, 0x3d, 0x34, 3, 0, 0, 0, 0, 0, 0x71, 0x20, 14, 0, 0, 0, 0, 0, 0xb7, 0, 0,
    0, 2, 0, 0, 0, 0x95, 0, 0, 0, 0, 0, 0, 0, 0xb7, 0, 0, 0, 1, 0, 0, 0, 0x95, 0, 0, 0, 0, 0, 0, 0,
];

/// Returns what a packet of 14 bytes comes to under a program that ends with a number, if it is answered by this word.
fn ends_with(alloc: Global, start: u32, number: u8, response: u32) -> Option<Kind> {
    let writes = [
        write(17, tx(start, 0, 0), response),
        write(17, 2, start.wrapping_add(1)),
    ];
    let code = [0xb7, 0, 0, 0, number, 0, 0, 0, 0x95, 0, 0, 0, 0, 0, 0, 0];
    let answers = [start.wrapping_add(1), 2, 0, slot(7, 14), 1, 19];
    let seen = turn(alloc, &code, start, &answers)?;
    seen.wrote(17, &writes).then_some(seen.kind)
}

#[test]
fn the_response_says_what_the_program_decided(rt: HostRuntime) {
    for start in STARTS {
        for (number, response) in [(0, 0xffff_0007), (1, 0xfffe_0007), (2, 7), (7, 0xffff_0007)] {
            let kind = ends_with(rt.alloc(), start, number, response);
            assert_eq!(rt; kind, Some(Kind::ran(u32::from(number), 1)));
        }
    }
}

/// Returns what a packet of 14 bytes comes to under that program.
fn counted(alloc: Global, start: u32) -> Option<Kind> {
    let shape = MapShape::of(2, 1)?;
    let answers = [start.wrapping_add(1), 2, 0, slot(7, 14), 1, 19];
    Some(turn_with_maps(alloc, &COUNTS, &[shape], start, &answers)?.kind)
}

#[test]
fn a_counter_operation_is_counted(rt: HostRuntime) {
    let wanted = Kind::Ran {
        number: 2,
        ops: 1,
        slots: 1,
    };
    for start in STARTS {
        assert_eq!(rt; counted(rt.alloc(), start), Some(wanted));
    }
}

/// Returns what a packet of 15 bytes comes to, and its length.
fn fed_longer(alloc: Global, queue: &mut Queue) -> Option<(Kind, usize)> {
    let seen = fed(alloc, queue, &[1, 2, 0, slot(7, 15), 1, 19, 1, 2, 3, 4])?;
    Some((seen.kind, seen.packet.len()))
}

/// Returns whether a packet of 14 bytes that are 0 is dropped after it.
fn drops_shorter(alloc: Global, queue: &mut Queue) -> bool {
    match fed(alloc, queue, &[2, 2, 0, slot(8, 14), 1, 19]) {
        Some(seen) => seen.shows(Kind::ran(1, 1), &[0; 14]),
        None => false,
    }
}

/// Returns what the longer packet comes to and its length, and whether the shorter one is dropped after it.
fn longer_and_shorter(alloc: Global) -> Option<(Option<(Kind, usize)>, bool)> {
    let (bench, mut buffer) = ready(alloc, &LOOKS_AT_BYTE_14, &[])?;
    match bench.queue(alloc, 0, &mut buffer) {
        Some(mut queue) => Some((
            fed_longer(alloc, &mut queue),
            drops_shorter(alloc, &mut queue),
        )),
        None => None,
    }
}

#[test]
fn no_byte_of_an_earlier_packet_is_seen(rt: HostRuntime) {
    let found = longer_and_shorter(rt.alloc());
    assert_eq!(rt; found, Some((Some((Kind::ran(2, 1), 15)), true)));
}
