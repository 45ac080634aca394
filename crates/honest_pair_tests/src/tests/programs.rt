//! Programs of the tests.
ghost use Rattle.std.specs.Prelude.{IfSome};
ghost use Rattle.bpf_note.specs.Shape.{IsCounter};

use bpf_insn::decode;
use bpf_maps::MapShape;
use bpf_verify::{Verified, verify};
use std::alloc::{AllocError, Global};

/// Every packet is dropped.
#[rattlefmt::skip]
pub(crate) const DROP: &[u64] = &[
    0xb7000000_01000000, // r0 = 1
    0x95000000_00000000, // exit
];

/// Every packet passes.
#[rattlefmt::skip]
pub(crate) const PASS: &[u64] = &[
    0xb7000000_02000000, // r0 = 2
    0x95000000_00000000, // exit
];

/// Every packet is sent back.
#[rattlefmt::skip]
pub(crate) const SEND: &[u64] = &[
    0xb7000000_03000000, // r0 = 3
    0x95000000_00000000, // exit
];

/// A packet's first byte is its action.
#[rattlefmt::skip]
pub(crate) const FIRST_BYTE: &[u64] = &[
    0x61120000_00000000, // r2 = data
    0x61130400_00000000, // r3 = data_end
    0xbf240000_00000000, // r4 = r2
    0x07040000_0e000000, // r4 += 14
    0x2d340200_00000000, // if r4 > r3 goto +2
    0x71200000_00000000, // r0 = *(u8 *)(r2 + 0)
    0x95000000_00000000, // exit
    0xb7000000_01000000, // r0 = 1
    0x95000000_00000000, // exit
];

/// Adds 1 to counter 1 of a map for each packet, which passes.
#[rattlefmt::skip]
const COUNTS: &[u64] = &[
    0x620afcff_01000000, // *(u32 *)(r10 - 4) = 1
    0xbfa20000_00000000, // r2 = r10
    0x07020000_fcffffff, // r2 += -4
    0x18110000_00000000, // r1 = map 0
    0x00000000_00000000,
    0x85000000_01000000, // call 1
    0x15000200_00000000, // if r0 == 0 goto +2
    0xb7010000_01000000, // r1 = 1
    0xdb100000_00000000, // lock *(u64 *)(r0 + 0) += r1
    0xb7000000_02000000, // r0 = 2
    0x95000000_00000000, // exit
];

/// Adds the bytes of slots.
fn add_bytes(bytes: &mut Vec<u8>, slots: &[u64]) -> Result<(), AllocError> {
    for slot in slots {
        bytes.extend_from_slice(&slot.to_be_bytes())?;
    }
    Ok(())
}

/// The accepted program of these bytes, without maps.
pub(crate) fn accepted_bytes(alloc: Global, bytes: &[u8]) -> Option<Verified> {
    match decode(alloc, bytes) {
        Ok(code) => verify(alloc, code, &[]).ok(),
        Err(_) => None,
    }
}

/// The accepted program of these slots, without maps.
pub(crate) fn accepted(alloc: Global, slots: &[u64]) -> Option<Verified> {
    let mut bytes = Vec::new(alloc);
    match add_bytes(&mut bytes, slots) {
        Ok(()) => accepted_bytes(alloc, bytes.as_slice()),
        Err(_) => None,
    }
}

/// [`COUNTS`] with its map of two counters.
pub(crate) fn counting(alloc: Global) -> Option<Verified>
    ensures { IfSome result (λ program. IsCounter program.shapes 0 1 0) }
{
    let mut bytes = Vec::new(alloc);
    add_bytes(&mut bytes, COUNTS).ok()?;
    let code = decode(alloc, bytes.as_slice()).ok()?;
    let hits = MapShape::of(2, 1)?;
    verify(alloc, code, &[hits]).ok()
}
