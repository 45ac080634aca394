//! Programs of the tests, one slot per line, and their runs.
ghost use Rattle.std.specs.Prelude.{◌≡◌, ◌≤◌, IfOk, IfSome, Some, length, slice_get, vec_len, false};
ghost use Rattle.bpf_note.specs.declared.key.MapKey.TheVariants.{Index};

use bpf_insn::decode;
use bpf_note::MapShape;
use bpf_verify::{Verified, verify};
use bpf_vm::Buffer;
use std::alloc::{AllocError, Global};
use xdp_world::{Layout, Report, World};

/// Every packet passes.
#[rattlefmt::skip]
pub(crate) const PASS: &[u64] = &[
    0xb7000000_02000000, // r0 = 2
    0x95000000_00000000, // exit
];

/// The counter with key 1 grows by 1, and the packet passes.
#[rattlefmt::skip]
pub(crate) const COUNT: &[u64] = &[
    0x620afcff_01000000, // *(u32 *)(r10 - 4) = 1
    0xbfa20000_00000000, // r2 = r10
    0x07020000_fcffffff, // r2 += -4
    0x18110000_00000000, // r1 = map 0
    0x00000000_00000000,
    0x85000000_01000000, // call 1
    0x15000200_00000000, // if r0 == 0 goto +2
    0xb7010000_01000000, // r1 = 1
    0xdb100000_00000000, // lock *(u64 *)(r0 + 0) += r1
    0xb7000000_02000000, // r0 = 2
    0x95000000_00000000, // exit
];

/// The counter with key 0 is read, then grows by the number of the queue and 1. The number is what was read.
#[rattlefmt::skip]
pub(crate) const READ_AND_ADD: &[u64] = &[
    0x61161000_00000000, // r6 = rx_queue_index
    0x07060000_01000000, // r6 += 1
    0x620afcff_00000000, // *(u32 *)(r10 - 4) = 0
    0xbfa20000_00000000, // r2 = r10
    0x07020000_fcffffff, // r2 += -4
    0x18110000_00000000, // r1 = map 0
    0x00000000_00000000,
    0x85000000_01000000, // call 1
    0x55000200_00000000, // if r0 != 0 goto +2
    0xb7000000_00000000, // r0 = 0
    0x95000000_00000000, // exit
    0x79070000_00000000, // r7 = *(u64 *)(r0 + 0)
    0xdb600000_00000000, // lock *(u64 *)(r0 + 0) += r6
    0xbf700000_00000000, // r0 = r7
    0x95000000_00000000, // exit
];

/// Every packet is sent back.
#[rattlefmt::skip]
pub(crate) const SEND: &[u64] = &[
    0xb7000000_03000000, // r0 = 3
    0x95000000_00000000, // exit
];

/// The first byte of a packet of 14 or more becomes 255, and the packet is sent back; a shorter one is dropped.
#[rattlefmt::skip]
pub(crate) const SET_FIRST: &[u64] = &[
    0x61120000_00000000, // r2 = data
    0x61130400_00000000, // r3 = data_end
    0xbf240000_00000000, // r4 = r2
    0x07040000_0e000000, // r4 += 14
    0x2d340300_00000000, // if r4 > r3 goto +3
    0x72020000_ff000000, // *(u8 *)(r2 + 0) = 255
    0xb7000000_03000000, // r0 = 3
    0x95000000_00000000, // exit
    0xb7000000_01000000, // r0 = 1
    0x95000000_00000000, // exit
];

/// Adds the bytes of slots.
fn add_bytes(bytes: &mut Vec<u8>, slots: &[u64]) -> Result<(), AllocError> {
    for slot in slots {
        bytes.extend_from_slice(&slot.to_be_bytes())?;
    }
    Ok(())
}

/// The accepted program of these bytes, with one map of two values of one counter.
pub(crate) fn accepted_bytes(alloc: Global, bytes: &[u8]) -> Option<Verified>
    ensures { IfSome result (λ v. slice_get v.shapes 0 ≡ Some (record { entries = 2; counters = 1; key = Index; parts = false })) }
{
    let shape = MapShape::of(2, 1)?;
    match decode(alloc, bytes) {
        Ok(code) => verify(alloc, code, &[shape]).ok(),
        Err(_) => None,
    }
}

/// The accepted program of these slots, with one map of two values of one counter.
pub(crate) fn accepted(alloc: Global, slots: &[u64]) -> Option<Verified>
    ensures { IfSome result (λ v. slice_get v.shapes 0 ≡ Some (record { entries = 2; counters = 1; key = Index; parts = false })) }
{
    let mut bytes = Vec::new(alloc);
    match add_bytes(&mut bytes, slots) {
        Ok(()) => accepted_bytes(alloc, bytes.as_slice()),
        Err(_) => None,
    }
}

/// Steps a world; those of a queue that isn't there are left out.
fn step_all(world: &mut World, queues: usize, steps: &[(usize, u32)]) -> Result<(), AllocError>
    requires { vec_len world.old.queues ≡ queues }
    ensures size { vec_len world.new.queues ≡ vec_len world.old.queues }
    ensures shapes { world.new.counters.shapes ≡ world.old.counters.shapes }
{
    for (queue, answer) in steps {
        if *queue < queues {
            world.step(*queue, *answer)?;
        }
    }
    Ok(())
}

/// The report of these steps in a layout; those of a queue that isn't there are left out.
pub(crate) fn report_of(
    alloc: Global,
    layout: &Layout,
    buffers: &mut [Buffer],
    program: &Verified,
    queues: usize,
    start: u32,
    steps: &[(usize, u32)],
) -> Option<Report>
    requires queues { (1 ≤ queues) × (queues ≤ 8) }
    requires layout { layout.now.queues ≡ queues }
    requires buffers { queues ≤ length buffers.now }
    ensures count { IfSome result (λ r. vec_len r.turns ≡ queues) }
    ensures shapes { IfSome result (λ r. r.totals.shapes ≡ program.now.shapes) }
{
    let Ok(mut world) = World::make(alloc, layout, program, &[], &[], buffers, queues, 0, start)
    else {
        return None;
    };
    match step_all(&mut world, queues, steps) {
        Ok(()) => Some(world.report()),
        Err(_) => None,
    }
}

/// A buffer for each queue.
pub(crate) fn buffers(alloc: Global, queues: usize) -> Result<Vec<Buffer>, AllocError>
    ensures { IfOk result (λ buffers. vec_len buffers ≡ queues) }
{
    let mut buffers = Vec::with_capacity(alloc, queues)?;
    for _queue in 0..queues {
        buffers.push_reserved(Buffer::make(alloc)?);
    }
    Ok(buffers)
}

/// The report of these steps; those of a queue that isn't there are left out.
pub(crate) fn run_steps(
    alloc: Global,
    program: &Verified,
    queues: usize,
    start: u32,
    steps: &[(usize, u32)],
) -> Option<Report>
    requires { (1 ≤ queues) × (queues ≤ 8) }
    ensures count { IfSome result (λ r. vec_len r.turns ≡ queues) }
    ensures shapes { IfSome result (λ r. r.totals.shapes ≡ program.now.shapes) }
{
    let Ok(layout) = Layout::make(alloc, queues) else {
        return None;
    };
    match buffers(alloc, queues) {
        Ok(mut buffers) => report_of(
            alloc,
            &layout,
            buffers.as_mut_slice(),
            program,
            queues,
            start,
            steps,
        ),
        Err(_) => None,
    }
}

/// The words that a turn reads of one slot of 14 bytes with id 7, until its program runs: the producer, the slot, the grant, the
/// page.
pub(crate) const PACKET: [u32; 10] = [
    1,
    2,
    0,
    917_511,
    1,
    19,
    50_462_976,
    117_835_012,
    185_207_048,
    252_579_084,
];

/// Adds the steps of a turn of one packet: what it reads, the producer being `producer`, then `more` zeros.
pub(crate) fn add_turn(
    steps: &mut Vec<(usize, u32)>,
    queue: usize,
    producer: u32,
    more: usize,
) -> Result<(), AllocError> {
    steps.push((queue, producer))?;
    for answer in &PACKET[1..] {
        steps.push((queue, *answer))?;
    }
    for _ in 0..more {
        steps.push((queue, 0u32))?;
    }
    Ok(())
}
