//! Checking again after it was refused memory, and a buffer made again. `tools/gate/refuse-growths` refuses each allocation of
//! these tests in turn, and counts the runs that print `refused`.
ghost use Rattle.std.specs.Prelude.{◌≤◌, length};
ghost use Rattle.bpf_note.specs.Shape.{most_maps};

use crate::programs::{COUNTING, verified};
use bpf_verify::{Cause, MapShape, Refusal};
use bpf_vm::{Buffer, PacketBuf};
use std::alloc::Global;
use std::test::Fail;

/// It reads byte 14 of a packet that may have no more than 14.
#[rattlefmt::skip]
const READS_PAST_THE_END: [[u8; 8]; 9] = [
    [0x61, 0x12, 0, 0, 0, 0, 0, 0], // r2 = *(u32 *)(r1 + 0)
    [0x61, 0x13, 4, 0, 0, 0, 0, 0], // r3 = *(u32 *)(r1 + 4)
    [0xbf, 0x24, 0, 0, 0, 0, 0, 0], // r4 = r2
    [7, 4, 0, 0, 0x0e, 0, 0, 0], // r4 += 14
    [0x2d, 0x34, 2, 0, 0, 0, 0, 0], // if r4 > r3 goto +2
    [0x71, 0x20, 0x0d, 0, 0, 0, 0, 0], // r0 = *(u8 *)(r2 + 13)
    [0x71, 0x20, 0x0e, 0, 0, 0, 0, 0], // r0 = *(u8 *)(r2 + 14)
    [0xb7, 0, 0, 0, 2, 0, 0, 0], // r0 = 2
    [0x95, 0, 0, 0, 0, 0, 0, 0], // exit
];

/// Returns the number of instructions that an accepted program has, or its refusal.
fn counted(alloc: Global, slots: &[[u8; 8]], shapes: &[MapShape]) -> Result<u32, Refusal>
    requires { length shapes.now ≤ most_maps }
{
    match verified(alloc, slots, shapes) {
        Ok(program) => Ok(program.instructions()),
        Err(refusal) => Err(refusal),
    }
}

/// As [`counted`], asked for again after V0.
fn counted_again(
    rt: &impl Print,
    alloc: Global,
    slots: &[[u8; 8]],
    shapes: &[MapShape],
) -> Result<Result<u32, Refusal>, Fail>
    requires { length shapes.now ≤ most_maps }
{
    match counted(alloc, slots, shapes) {
        Err(Refusal { cause, .. }) if cause == Cause::Memory => {
            println!(rt; "refused")?;
            Ok(counted(alloc, slots, shapes))
        }
        other => Ok(other),
    }
}

#[test]
fn a_program_is_accepted_again(rt: HostRuntime) -> Result<(), Fail> {
    let shape = MapShape::of(2, 1).ok_or("a shape")?;
    let found = counted_again(&rt, rt.alloc(), &COUNTING, &[shape])?;
    assert_eq!(rt; found, Ok(10));
    Ok(())
}

#[test]
fn a_program_is_refused_again(rt: HostRuntime) -> Result<(), Fail> {
    let found = counted_again(&rt, rt.alloc(), &READS_PAST_THE_END, &[])?;
    let refusal = Refusal {
        cause: Cause::Packet,
        pc: 6,
    };
    assert_eq!(rt; found, Err(refusal));
    Ok(())
}

/// Returns whether a buffer keeps two bytes. Nothing without memory for it.
fn is_kept(alloc: Global) -> Option<bool> {
    let mut buffer = Buffer::make(alloc).ok()?;
    let packet = PacketBuf::copy(&mut buffer, &[1, 2]);
    Some(packet.is_ok_and(|packet| packet.bytes() == [1, 2].as_slice()))
}

#[test]
fn a_buffer_is_made_again(rt: HostRuntime) -> Result<(), Fail> {
    let kept = match is_kept(rt.alloc()) {
        Some(kept) => kept,
        None => {
            println!(rt; "refused")?;
            is_kept(rt.alloc()).ok_or("refused again")?
        }
    };
    assert!(rt; kept);
    Ok(())
}
