//! Small programs.
use crate::programs::{accepted, counts, refusal};
use bpf_insn::Insn;
use bpf_verify::{Cause, MapShape};
use std::alloc::Global;

#[rattlefmt::skip]
const TWO: [[u8; 8]; 2] = [
    [0xb7, 0, 0, 0, 2, 0, 0, 0], // r0 = 2
    [0x95, 0, 0, 0, 0, 0, 0, 0], // exit
];

/// The counts of an accepted program without maps, and the instruction at slot 1.
fn small_program(alloc: Global, slots: &[[u8; 8]]) -> Option<((u32, u32, usize), Insn)> {
    let program = accepted(alloc, slots, &[])?;
    if program.slots() < 2 {
        return None;
    }
    Some((counts(&program), *program.insn(1)))
}

#[test]
fn a_number_and_an_exit(rt: HostRuntime) {
    assert_eq!(rt;
        small_program(rt.alloc(), &TWO),
        Some(((2, 2, 0), Insn::Exit))
    );
}

#[rattlefmt::skip]
const WIDE: [[u8; 8]; 3] = [
    [0x18, 0, 0, 0, 1, 0, 0, 0], // r0 = 1 ll
    [0, 0, 0, 0, 2, 0, 0, 0], // its second slot
    [0x95, 0, 0, 0, 0, 0, 0, 0], // exit
];

/// The counts of an accepted program over one map.
fn program_of_a_map(alloc: Global, slots: &[[u8; 8]]) -> Option<(u32, u32, usize)> {
    let program = accepted(alloc, slots, &[MapShape::of(2, 1)?])?;
    Some(counts(&program))
}

#[test]
fn a_wide_load_is_one_instruction(rt: HostRuntime) {
    assert_eq!(rt; program_of_a_map(rt.alloc(), &WIDE), Some((2, 3, 1)));
}

#[rattlefmt::skip]
const ONLY_EXIT: [[u8; 8]; 1] = [
    [0x95, 0, 0, 0, 0, 0, 0, 0], // exit
];

#[rattlefmt::skip]
const WRITES_R10: [[u8; 8]; 2] = [
    [0xb7, 0x0a, 0, 0, 0, 0, 0, 0], // r10 = 0
    [0x95, 0, 0, 0, 0, 0, 0, 0], // exit
];

#[rattlefmt::skip]
const NO_EXIT: [[u8; 8]; 1] = [
    [0xb7, 0, 0, 0, 2, 0, 0, 0], // r0 = 2
];

#[rattlefmt::skip]
const TO_ITSELF: [[u8; 8]; 2] = [
    [5, 0, 0xff, 0xff, 0, 0, 0, 0], // goto -1
    [0x95, 0, 0, 0, 0, 0, 0, 0], // exit
];

#[rattlefmt::skip]
const UNREACHED_LOOP: [[u8; 8]; 3] = [
    [0xb7, 0, 0, 0, 2, 0, 0, 0], // r0 = 2
    [0x95, 0, 0, 0, 0, 0, 0, 0], // exit
    [5, 0, 0xff, 0xff, 0, 0, 0, 0], // goto -1
];

#[rattlefmt::skip]
const INTO_WIDE: [[u8; 8]; 4] = [
    [5, 0, 1, 0, 0, 0, 0, 0], // goto +1
    [0x18, 0, 0, 0, 0, 0, 0, 0], // r0 = 0 ll
    [0, 0, 0, 0, 0, 0, 0, 0], // its second slot
    [0x95, 0, 0, 0, 0, 0, 0, 0], // exit
];

#[rattlefmt::skip]
const NO_MAP: [[u8; 8]; 4] = [
    [0x18, 0x11, 0, 0, 0, 0, 0, 0], // r1 = map 0
    [0, 0, 0, 0, 0, 0, 0, 0], // its second slot
    [0xb7, 0, 0, 0, 2, 0, 0, 0], // r0 = 2
    [0x95, 0, 0, 0, 0, 0, 0, 0], // exit
];

#[rattlefmt::skip]
const UNREACHED_READ: [[u8; 8]; 4] = [
    [0xb7, 0, 0, 0, 2, 0, 0, 0], // r0 = 2
    [5, 0, 1, 0, 0, 0, 0, 0], // goto +1
    [0xbf, 0x30, 0, 0, 0, 0, 0, 0], // r0 = r3
    [0x95, 0, 0, 0, 0, 0, 0, 0], // exit
];

/// A program, its refusal, and what it shows.
const WITHOUT_MAPS: [(&[[u8; 8]], Option<(Cause, u32)>, &str); 8] = [
    (
        &ONLY_EXIT,
        Some((Cause::Unset, 0)),
        "r0 is unset at the start",
    ),
    (
        &WRITES_R10,
        Some((Cause::FramePointer, 0)),
        "the frame pointer is read only",
    ),
    (&NO_EXIT, Some((Cause::End, 0)), "a program without an exit"),
    (&TO_ITSELF, Some((Cause::BackJump, 0)), "a jump to itself"),
    (
        &UNREACHED_LOOP,
        Some((Cause::BackJump, 2)),
        "an unreached jump backwards",
    ),
    (
        &INTO_WIDE,
        Some((Cause::Target, 0)),
        "a jump into a wide load",
    ),
    (
        &NO_MAP,
        Some((Cause::MapNumber, 0)),
        "a map that is not there",
    ),
    (
        &UNREACHED_READ,
        None,
        "unreached code may read what is unset",
    ),
];

#[test]
fn programs_without_maps(rt: HostRuntime) {
    for (slots, wanted, text) in WITHOUT_MAPS {
        assert!(rt; refusal(rt.alloc(), slots, &[]) == wanted, "{text}");
    }
}
