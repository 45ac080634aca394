//! A program with more than a thousand packet pointers of variable offsets, eight notes at most slots, and four maps.
use crate::programs::{add_slots, answer, counts};
use bpf_verify::MapShape;
use std::alloc::{AllocError, Global};

/// The packet and the interface's number; then three branches on it, each of which leaves a register with 0 or 1: eight ways
/// meet, and no two of their notes say the same.
#[rattlefmt::skip]
const EIGHT_WAYS: [[u8; 8]; 11] = [
    [0x61, 0x12, 0, 0, 0, 0, 0, 0], // r2 = *(u32 *)(r1 + 0)
    [0x61, 0x14, 0x0c, 0, 0, 0, 0, 0], // r4 = *(u32 *)(r1 + 12)
    [0xb7, 6, 0, 0, 0, 0, 0, 0], // r6 = 0
    [0x25, 4, 1, 0, 1, 0, 0, 0], // if r4 > 1 goto +1
    [0xb7, 6, 0, 0, 1, 0, 0, 0], // r6 = 1
    [0xb7, 7, 0, 0, 0, 0, 0, 0], // r7 = 0
    [0x25, 4, 1, 0, 2, 0, 0, 0], // if r4 > 2 goto +1
    [0xb7, 7, 0, 0, 1, 0, 0, 0], // r7 = 1
    [0xb7, 8, 0, 0, 0, 0, 0, 0], // r8 = 0
    [0x25, 4, 1, 0, 3, 0, 0, 0], // if r4 > 3 goto +1
    [0xb7, 8, 0, 0, 1, 0, 0, 0], // r8 = 1
];

#[rattlefmt::skip]
const FOUR_MAPS: [[u8; 8]; 8] = [
    [0x18, 0x19, 0, 0, 0, 0, 0, 0], // r9 = map 0
    [0, 0, 0, 0, 0, 0, 0, 0], // its second slot
    [0x18, 0x19, 0, 0, 1, 0, 0, 0], // r9 = map 1
    [0, 0, 0, 0, 0, 0, 0, 0], // its second slot
    [0x18, 0x19, 0, 0, 2, 0, 0, 0], // r9 = map 2
    [0, 0, 0, 0, 0, 0, 0, 0], // its second slot
    [0x18, 0x19, 0, 0, 3, 0, 0, 0], // r9 = map 3
    [0, 0, 0, 0, 0, 0, 0, 0], // its second slot
];

/// A packet pointer plus a number that is not known: a pointer of its own offset.
#[rattlefmt::skip]
const POINTER: [[u8; 8]; 2] = [
    [0xbf, 0x23, 0, 0, 0, 0, 0, 0], // r3 = r2
    [0x0f, 0x43, 0, 0, 0, 0, 0, 0], // r3 += r4
];

#[rattlefmt::skip]
const LAST: [[u8; 8]; 2] = [
    [0xb7, 0, 0, 0, 2, 0, 0, 0], // r0 = 2
    [0x95, 0, 0, 0, 0, 0, 0, 0], // exit
];

/// The bytes of the program.
fn thousand_offsets(alloc: Global) -> Result<Vec<u8>, AllocError> {
    let mut bytes = Vec::new(alloc);
    add_slots(&mut bytes, &EIGHT_WAYS)?;
    add_slots(&mut bytes, &FOUR_MAPS)?;
    for _ in 0..1010 {
        add_slots(&mut bytes, &POINTER)?;
    }
    add_slots(&mut bytes, &LAST)?;
    Ok(bytes)
}

/// The program's counts, if it is accepted.
fn counts_of_thousand_offsets(alloc: Global) -> Option<(u32, u32, usize)> {
    let bytes = thousand_offsets(alloc).ok()?;
    let shape = MapShape::of(1024, 8)?;
    let program = answer(alloc, &bytes, &[shape, shape, shape, shape]).ok()?;
    Some(counts(&program))
}

#[test]
fn a_thousand_offsets_on_eight_ways(rt: HostRuntime) {
    assert_eq!(rt;
        counts_of_thousand_offsets(rt.alloc()),
        Some((11 + 4 + 2020 + 2, 11 + 8 + 2020 + 2, 4))
    );
}
