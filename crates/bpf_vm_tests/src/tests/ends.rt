//! The end of a run that is driven by hand.
use crate::programs::ready;
use bpf_verify::Verified;
use bpf_vm::{Buffer, PacketBuf, Vm, VmWant};
use std::alloc::Global;

/// Stores to the packet, and ends with a number of 33 bits.
#[rattlefmt::skip]
const STORES: [[u8; 8]; 9] = [
    [0x61, 0x12, 0, 0, 0, 0, 0, 0], // r2 = *(u32 *)(r1 + 0)
    [0x61, 0x13, 4, 0, 0, 0, 0, 0], // r3 = *(u32 *)(r1 + 4)
    [0xbf, 0x24, 0, 0, 0, 0, 0, 0], // r4 = r2
    [7, 4, 0, 0, 1, 0, 0, 0], // r4 += 1
    [0x2d, 0x34, 1, 0, 0, 0, 0, 0], // if r4 > r3 goto +1
    [0x72, 2, 0, 0, 9, 0, 0, 0], // *(u8 *)(r2 + 0) = 9
    [0x18, 0, 0, 0, 7, 0, 0, 0], // r0 = 0x1_0000_0007
    [0, 0, 0, 0, 1, 0, 0, 0], // its second slot
    [0x95, 0, 0, 0, 0, 0, 0, 0], // exit
];

/// The number, the instructions and the packet's first byte.
fn ended_by_hand(program: &Verified, buffer: &mut Buffer) -> Option<(u32, u32, Option<u8>)> {
    let packet = PacketBuf::copy(buffer, &[5, 6]).ok()?;
    let mut vm = Vm::start(program, packet, 3, 4, &[]);
    let VmWant::Exit { .. } = vm.advance() else {
        return None;
    };
    let ended = vm.end();
    let first = ended.packet.bytes().first().copied();
    Some((ended.number, ended.instructions, first))
}

/// [`ended_by_hand`] for [`STORES`].
fn ended(alloc: Global) -> Option<(u32, u32, Option<u8>)> {
    let (program, mut buffer) = ready(alloc, &STORES, &[])?;
    ended_by_hand(&program, &mut buffer)
}

#[test]
fn a_run_by_hand_ends(rt: HostRuntime) {
    assert_eq!(rt; ended(rt.alloc()), Some((7, 8, Some(9))));
}
