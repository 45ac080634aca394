//! What the verifier and the interpreter answer of programs, as plain values. A program has one slot per line, with its text
//! beside it.
ghost use Rattle.std.specs.Prelude.{◌≡◌, ◌≤◌, [], IfOk, IfSome, length};
ghost use Rattle.bpf_note.specs.Shape.{most_maps};

use bpf_insn::{Code, decode};
use bpf_verify::{Cause, Explained, MapShape, Refusal, Verified, explain, verify};
use bpf_vm::{Buffer, PacketBuf, run_to_end};
use std::alloc::{AllocError, Global};

/// The instruction `exit`.
pub const EXIT: [u8; 8] = [0x95, 0, 0, 0, 0, 0, 0, 0];

/// Adds 1 to the counter of the second value of a map.
#[rattlefmt::skip]
pub const COUNTING: [[u8; 8]; 11] = [
    [0x62, 0x0a, 0xfc, 0xff, 1, 0, 0, 0], // *(u32 *)(r10 - 4) = 1
    [0xbf, 0xa2, 0, 0, 0, 0, 0, 0], // r2 = r10
    [7, 2, 0, 0, 0xfc, 0xff, 0xff, 0xff], // r2 += -4
    [0x18, 0x11, 0, 0, 0, 0, 0, 0], // r1 = map 0
    [0, 0, 0, 0, 0, 0, 0, 0], // its second slot
    [0x85, 0, 0, 0, 1, 0, 0, 0], // call 1
    [0x15, 0, 2, 0, 0, 0, 0, 0], // if r0 == 0 goto +2
    [0xb7, 1, 0, 0, 1, 0, 0, 0], // r1 = 1
    [0xdb, 0x10, 0, 0, 0, 0, 0, 0], // lock *(u64 *)(r0 + 0) += r1
    [0xb7, 0, 0, 0, 2, 0, 0, 0], // r0 = 2
    [0x95, 0, 0, 0, 0, 0, 0, 0], // exit
];

/// A refusal without memory for a program's bytes.
const NO_MEMORY: Refusal = Refusal {
    cause: Cause::Memory,
    pc: 0,
};

/// Adds slots to a program's bytes.
pub fn add_slots(bytes: &mut Vec<u8>, slots: &[[u8; 8]]) -> Result<(), AllocError> {
    for slot in slots {
        bytes.extend_from_slice(slot)?;
    }
    Ok(())
}

/// The bytes of `count` times `r0 = 2`, and of slots after them.
pub fn bytes_after(alloc: Global, count: usize, slots: &[[u8; 8]]) -> Result<Vec<u8>, AllocError> {
    let mut bytes = Vec::new(alloc);
    for _ in 0..count {
        bytes.extend_from_slice(&[0xb7, 0, 0, 0, 2, 0, 0, 0])?;
    }
    add_slots(&mut bytes, slots)?;
    Ok(bytes)
}

/// The bytes of a program.
pub fn bytes_of(alloc: Global, slots: &[[u8; 8]]) -> Result<Vec<u8>, AllocError> {
    bytes_after(alloc, 0, slots)
}

/// Returns what [`verify`] answers of bytes.
pub fn answer(alloc: Global, bytes: &[u8], shapes: &[MapShape]) -> Result<Verified, Refusal>
    requires { length shapes.now ≤ most_maps }
    ensures { IfOk result (λ v. v.shapes ≡ shapes.now) }
{
    verify(alloc, decode(alloc, bytes)?, shapes)
}

/// Returns what [`verify`] answers of a program.
pub fn verified(alloc: Global, slots: &[[u8; 8]], shapes: &[MapShape]) -> Result<Verified, Refusal>
    requires { length shapes.now ≤ most_maps }
    ensures { IfOk result (λ v. v.shapes ≡ shapes.now) }
{
    match bytes_of(alloc, slots) {
        Ok(bytes) => answer(alloc, &bytes, shapes),
        Err(_) => Err(NO_MEMORY),
    }
}

/// A program that is accepted.
pub fn accepted(alloc: Global, slots: &[[u8; 8]], shapes: &[MapShape]) -> Option<Verified>
    requires { length shapes.now ≤ most_maps }
    ensures { IfSome result (λ v. v.shapes ≡ shapes.now) }
{
    verified(alloc, slots, shapes).ok()
}

/// A program that is accepted, and a buffer for its packets.
pub fn ready(alloc: Global, slots: &[[u8; 8]], shapes: &[MapShape]) -> Option<(Verified, Buffer)>
    requires { length shapes.now ≤ most_maps }
    ensures { IfSome result (λ r. r.0.shapes ≡ shapes.now) }
{
    let program = accepted(alloc, slots, shapes)?;
    match Buffer::make(alloc) {
        Ok(buffer) => Some((program, buffer)),
        Err(_) => None,
    }
}

/// Returns how many instructions an accepted program has, how many slots, and how many maps.
pub fn counts(program: &Verified) -> (u32, u32, usize) {
    (
        program.instructions(),
        program.slots(),
        program.shapes().len(),
    )
}

/// The cause and the slot of a program's refusal.
pub fn refusal(alloc: Global, slots: &[[u8; 8]], shapes: &[MapShape]) -> Option<(Cause, u32)>
    requires { length shapes.now ≤ most_maps }
{
    match verified(alloc, slots, shapes) {
        Ok(_) => None,
        Err(refusal) => Some((refusal.cause, refusal.pc)),
    }
}

fn code_of(alloc: Global, bytes: &[u8]) -> Option<Code> {
    decode(alloc, bytes).ok()
}

/// The code of a program.
pub fn code(alloc: Global, slots: &[[u8; 8]]) -> Option<Code> {
    match bytes_of(alloc, slots) {
        Ok(bytes) => code_of(alloc, &bytes),
        Err(_) => None,
    }
}

/// Returns what [`explain`] says of a program that it refuses, over one map of a value. The program is `count` times `r0 = 2`, and
/// then these slots.
pub fn explained(alloc: Global, count: usize, slots: &[[u8; 8]]) -> Option<Explained> {
    let shape = MapShape::of(1, 1)?;
    let code = match bytes_after(alloc, count, slots) {
        Ok(bytes) => code_of(alloc, &bytes),
        Err(_) => None,
    };
    explain(alloc, code?, &[shape]).err()
}

fn ended_with(
    program: &Verified,
    buffer: &mut Buffer,
    packet: &[u8],
    left: &[u8],
) -> Option<(u32, u32, bool)>
    requires { program.now.shapes ≡ [] }
{
    let packet = PacketBuf::copy(buffer, packet).ok()?;
    let ended = run_to_end(program, packet, 3, 4);
    let is_left = ended.packet.bytes() == left;
    Some((ended.number, ended.instructions, is_left))
}

/// The number, the instructions, and whether these bytes are left of a packet, at the end of a program without maps. The
/// interface's number is 3, the queue's 4.
pub fn ended(
    alloc: Global,
    slots: &[[u8; 8]],
    packet: &[u8],
    left: &[u8],
) -> Option<(u32, u32, bool)> {
    let (program, mut buffer) = ready(alloc, slots, &[])?;
    ended_with(&program, &mut buffer, packet, left)
}
