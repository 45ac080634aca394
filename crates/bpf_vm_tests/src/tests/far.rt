//! Each cause of the two passes beyond slot 4,000: the slot is that of the instruction, a wide load counting twice.
use crate::programs::{EXIT, answer, bytes_after, counts, explained};
use bpf_verify::{Cause, Explained, MapShape};
use std::alloc::Global;

/// Returns what is refused of a program that sets `r0` 4,000 times and goes on with these slots, over one map of a value; and
/// whether there is a note.
fn refused_after(alloc: Global, tail: &[[u8; 8]]) -> Option<(Cause, u32, bool)> {
    let Explained { refusal, note, .. } = explained(alloc, 4000, tail)?;
    Some((refusal.cause, refusal.pc, note.is_some()))
}

/// The counts of such a program, if it is accepted.
fn far_program(alloc: Global, tail: &[[u8; 8]]) -> Option<(u32, u32, usize)> {
    let bytes = bytes_after(alloc, 4000, tail).ok()?;
    let program = answer(alloc, &bytes, &[MapShape::of(1, 1)?]).ok()?;
    Some(counts(&program))
}

#[test]
fn a_far_program_is_accepted(rt: HostRuntime) {
    assert_eq!(rt; far_program(rt.alloc(), &[EXIT]), Some((4001, 4001, 1)));
}

#[rattlefmt::skip]
const OUT: [[u8; 8]; 2] = [
    [5, 0, 5, 0, 0, 0, 0, 0], // goto +5
    [0x95, 0, 0, 0, 0, 0, 0, 0], // exit
];

#[rattlefmt::skip]
const CYCLE: [[u8; 8]; 2] = [
    [5, 0, 0xff, 0xff, 0, 0, 0, 0], // goto -1
    [0x95, 0, 0, 0, 0, 0, 0, 0], // exit
];

#[rattlefmt::skip]
const END: [[u8; 8]; 1] = [
    [0xb7, 0, 0, 0, 2, 0, 0, 0], // r0 = 2
];

#[rattlefmt::skip]
const UNSET: [[u8; 8]; 2] = [
    [0xbf, 0x30, 0, 0, 0, 0, 0, 0], // r0 = r3
    [0x95, 0, 0, 0, 0, 0, 0, 0], // exit
];

#[rattlefmt::skip]
const FRAME: [[u8; 8]; 2] = [
    [0xb7, 0x0a, 0, 0, 0, 0, 0, 0], // r10 = 0
    [0x95, 0, 0, 0, 0, 0, 0, 0], // exit
];

#[rattlefmt::skip]
const NUMBER: [[u8; 8]; 2] = [
    [0x71, 0, 0, 0, 0, 0, 0, 0], // r0 = *(u8 *)(r0 + 0)
    [0x95, 0, 0, 0, 0, 0, 0, 0], // exit
];

#[rattlefmt::skip]
const PACKET: [[u8; 8]; 3] = [
    [0x61, 0x12, 0, 0, 0, 0, 0, 0], // r2 = *(u32 *)(r1 + 0)
    [0x71, 0x20, 0, 0, 0, 0, 0, 0], // r0 = *(u8 *)(r2 + 0)
    [0x95, 0, 0, 0, 0, 0, 0, 0], // exit
];

#[rattlefmt::skip]
const STACK: [[u8; 8]; 2] = [
    [0x71, 0xa0, 0xff, 0xff, 0, 0, 0, 0], // r0 = *(u8 *)(r10 - 1)
    [0x95, 0, 0, 0, 0, 0, 0, 0], // exit
];

#[rattlefmt::skip]
const CONTEXT: [[u8; 8]; 2] = [
    [0x71, 0x10, 0, 0, 0, 0, 0, 0], // r0 = *(u8 *)(r1 + 0)
    [0x95, 0, 0, 0, 0, 0, 0, 0], // exit
];

#[rattlefmt::skip]
const NULL: [[u8; 8]; 8] = [
    [0x62, 0x0a, 0xfc, 0xff, 0, 0, 0, 0], // *(u32 *)(r10 - 4) = 0
    [0xbf, 0xa2, 0, 0, 0, 0, 0, 0], // r2 = r10
    [7, 2, 0, 0, 0xfc, 0xff, 0xff, 0xff], // r2 += -4
    [0x18, 0x11, 0, 0, 0, 0, 0, 0], // r1 = map 0
    [0, 0, 0, 0, 0, 0, 0, 0], // its second slot
    [0x85, 0, 0, 0, 1, 0, 0, 0], // call 1
    [0x79, 0, 0, 0, 0, 0, 0, 0], // r0 = *(u64 *)(r0 + 0)
    [0x95, 0, 0, 0, 0, 0, 0, 0], // exit
];

#[rattlefmt::skip]
const COUNTER: [[u8; 8]; 9] = [
    [0x62, 0x0a, 0xfc, 0xff, 0, 0, 0, 0], // *(u32 *)(r10 - 4) = 0
    [0xbf, 0xa2, 0, 0, 0, 0, 0, 0], // r2 = r10
    [7, 2, 0, 0, 0xfc, 0xff, 0xff, 0xff], // r2 += -4
    [0x18, 0x11, 0, 0, 0, 0, 0, 0], // r1 = map 0
    [0, 0, 0, 0, 0, 0, 0, 0], // its second slot
    [0x85, 0, 0, 0, 1, 0, 0, 0], // call 1
    [0x15, 0, 1, 0, 0, 0, 0, 0], // if r0 == 0 goto +1
    [0x61, 0, 0, 0, 0, 0, 0, 0], // r0 = *(u32 *)(r0 + 0)
    [0x95, 0, 0, 0, 0, 0, 0, 0], // exit
];

#[rattlefmt::skip]
const HELPER: [[u8; 8]; 2] = [
    [0x85, 0, 0, 0, 2, 0, 0, 0], // call 2
    [0x95, 0, 0, 0, 0, 0, 0, 0], // exit
];

#[rattlefmt::skip]
const MAP: [[u8; 8]; 3] = [
    [0x18, 0x11, 0, 0, 1, 0, 0, 0], // r1 = map 1
    [0, 0, 0, 0, 0, 0, 0, 0], // its second slot
    [0x95, 0, 0, 0, 0, 0, 0, 0], // exit
];

#[rattlefmt::skip]
const ARGUMENT: [[u8; 8]; 3] = [
    [0xb7, 2, 0, 0, 0, 0, 0, 0], // r2 = 0
    [0x85, 0, 0, 0, 1, 0, 0, 0], // call 1
    [0x95, 0, 0, 0, 0, 0, 0, 0], // exit
];

/// A program's last slots, its refusal, and what it shows.
const CAUSES: [(&[[u8; 8]], (Cause, u32, bool), &str); 14] = [
    (
        &OUT,
        (Cause::Target, 4000, false),
        "a jump out of the program",
    ),
    (
        &CYCLE,
        (Cause::BackJump, 4000, false),
        "a jump that closes a cycle",
    ),
    (&END, (Cause::End, 4000, false), "an end without an exit"),
    (&UNSET, (Cause::Unset, 4000, true), "an unset register"),
    (
        &FRAME,
        (Cause::FramePointer, 4000, true),
        "a write to the frame pointer",
    ),
    (
        &NUMBER,
        (Cause::NoPointer, 4000, true),
        "a load through a number",
    ),
    (
        &PACKET,
        (Cause::Packet, 4001, true),
        "a load past the packet",
    ),
    (&STACK, (Cause::Stack, 4000, true), "a load of unset stack"),
    (
        &CONTEXT,
        (Cause::Context, 4000, true),
        "a load of part of a field",
    ),
    (
        &NULL,
        (Cause::MayBeNull, 4006, true),
        "a load through what may be null",
    ),
    (
        &COUNTER,
        (Cause::MapAccess, 4007, true),
        "a load of half a counter",
    ),
    (
        &HELPER,
        (Cause::Helper, 4000, true),
        "a helper that is not known",
    ),
    (&MAP, (Cause::MapNumber, 4000, false), "a map past the last"),
    (
        &ARGUMENT,
        (Cause::Argument, 4001, true),
        "a lookup in the context",
    ),
];

#[test]
fn each_cause_has_its_slot(rt: HostRuntime) {
    for (tail, wanted, text) in CAUSES {
        assert!(rt; refused_after(rt.alloc(), tail) == Some(wanted), "{text}");
    }
}
