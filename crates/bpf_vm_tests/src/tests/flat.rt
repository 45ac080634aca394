//! Each instruction by single steps, and by the loop, which goes by the instructions' flat forms. A program has one slot per
//! line, with its text beside it.
ghost use Rattle.std.specs.Prelude.{◌≡◌, []};

use crate::programs::ready;
use bpf_verify::Verified;
use bpf_vm::{Buffer, Ended, PacketBuf, Vm, VmWant, run_to_end};
use std::alloc::Global;

const PACKET: [u8; 20] = [
    1, 2, 3, 0x84, 5, 0x86, 7, 8, 0x89, 10, 11, 12, 13, 14, 15, 0x90, 17, 18, 19, 20,
];

/// The codes of the operations.
const OPERATIONS: [u8; 12] = [
    0x00, 0x10, 0x20, 0x30, 0x40, 0x50, 0x60, 0x70, 0x90, 0xa0, 0xb0, 0xc0,
];

/// The codes of the conditions.
const CONDITIONS: [u8; 11] = [
    0x10, 0x20, 0x30, 0x40, 0x50, 0x60, 0x70, 0xa0, 0xb0, 0xc0, 0xd0,
];

/// The codes of the sizes: four, two, one and eight bytes.
const SIZES: [u8; 4] = [0x00, 0x08, 0x10, 0x18];

/// A run by single steps.
fn stepped<'b>(start: Vm<'_, 'b>) -> Option<Ended<'b>> {
    let mut vm = start;
    for _ in 0..4096 {
        match vm.want() {
            VmWant::Step => vm.step(),
            VmWant::Exit { .. } => return Some(vm.end()),
            _ => return None,
        }
    }
    None
}

/// Returns whether a run by single steps and one by the loop end alike: number, instructions and packet.
fn alike(program: &Verified, first: &mut Buffer, second: &mut Buffer) -> Option<bool>
    requires { program.now.shapes ≡ [] }
{
    let packet = PacketBuf::copy(first, &PACKET).ok()?;
    let slow = stepped(Vm::start(program, packet, 3, 4, &[]))?;
    let fast = run_to_end(program, PacketBuf::copy(second, &PACKET).ok()?, 3, 4);
    Some(
        slow.number == fast.number
            && slow.instructions == fast.instructions
            && slow.packet.bytes() == fast.packet.bytes(),
    )
}

/// [`alike`] for a program of these slots, over new buffers.
fn both(alloc: Global, slots: &[[u8; 8]]) -> Option<bool> {
    let (program, mut first) = ready(alloc, slots, &[])?;
    match Buffer::make(alloc) {
        Ok(mut second) => alike(&program, &mut first, &mut second),
        Err(_) => None,
    }
}

/// An operation on two numbers of 64 bits, whose upper half it brings into the number that is returned.
fn operation(alloc: Global, insn: [u8; 8]) -> Option<bool> {
    #[rattlefmt::skip]
    let slots = [
        [0x18, 0, 0, 0, 0x10, 0x32, 0x54, 0x76], // r0 = 0xfedcba9876543210 ll
        [0, 0, 0, 0, 0x98, 0xba, 0xdc, 0xfe], // its second slot
        [0x18, 2, 0, 0, 0x25, 0, 0, 0x80], // r2 = 0x8000000180000025 ll
        [0, 0, 0, 0, 1, 0, 0, 0x80], // its second slot
        insn,
        [0xbf, 0x03, 0, 0, 0, 0, 0, 0], // r3 = r0
        [0x77, 3, 0, 0, 32, 0, 0, 0], // r3 >>= 32
        [0xaf, 0x30, 0, 0, 0, 0, 0, 0], // r0 ^= r3
        [0x95, 0, 0, 0, 0, 0, 0, 0], // exit
    ];
    both(alloc, &slots)
}

#[test]
fn operations_by_steps_and_by_the_loop(rt: HostRuntime) {
    for code in OPERATIONS {
        for width in [4u8, 7] {
            let constant = [code | width, 0, 0, 0, 9, 0, 0, 0];
            let negative = [code | width, 0, 0, 0, 0xf9, 0xff, 0xff, 0xff];
            let register = [code | width | 8, 0x20, 0, 0, 0, 0, 0, 0];
            let found = [
                operation(rt.alloc(), constant),
                operation(rt.alloc(), negative),
                operation(rt.alloc(), register),
            ];
            assert!(rt; found == [Some(true); 3], "{code} {width}");
        }
    }
}

/// A jump by the comparison of a number with 5, over one instruction.
fn comparison(alloc: Global, low: u8, rest: u8, insn: [u8; 8]) -> Option<bool> {
    #[rattlefmt::skip]
    let slots = [
        [0x18, 0, 0, 0, low, rest, rest, rest], // r0 = a number
        [0, 0, 0, 0, rest, rest, rest, rest], // its second slot
        [0xb7, 2, 0, 0, 5, 0, 0, 0], // r2 = 5
        insn,
        [0xb7, 0, 0, 0, 77, 0, 0, 0], // r0 = 77
        [0x95, 0, 0, 0, 0, 0, 0, 0], // exit
    ];
    both(alloc, &slots)
}

#[test]
fn conditions_by_steps_and_by_the_loop(rt: HostRuntime) {
    for code in CONDITIONS {
        for width in [5u8, 6] {
            let constant = [code | width, 0, 1, 0, 5, 0, 0, 0];
            let register = [code | width | 8, 0x20, 1, 0, 0, 0, 0, 0];
            for (low, rest) in [(4u8, 0u8), (5, 0), (6, 0), (0xf9, 0xff)] {
                let found = [
                    comparison(rt.alloc(), low, rest, constant),
                    comparison(rt.alloc(), low, rest, register),
                ];
                assert!(rt; found == [Some(true); 2], "{code} {width} {low}");
            }
        }
    }
}

/// Stores and loads of a size, in the packet and on the stack.
fn accesses(alloc: Global, size: u8) -> Option<bool> {
    #[rattlefmt::skip]
    let slots = [
        [0xb7, 0, 0, 0, 0, 0, 0, 0], // r0 = 0
        [0x61, 0x12, 0, 0, 0, 0, 0, 0], // r2 = *(u32 *)(r1 + 0)
        [0x61, 0x13, 4, 0, 0, 0, 0, 0], // r3 = *(u32 *)(r1 + 4)
        [0xbf, 0x24, 0, 0, 0, 0, 0, 0], // r4 = r2
        [7, 4, 0, 0, 20, 0, 0, 0], // r4 += 20
        [0x2d, 0x34, 10, 0, 0, 0, 0, 0], // if r4 > r3 goto +10
        [0x18, 6, 0, 0, 0x81, 0x22, 0x33, 0x44], // r6 = 0x8877665544332281 ll
        [0, 0, 0, 0, 0x55, 0x66, 0x77, 0x88], // its second slot
        [0x7b, 0x6a, 0xf8, 0xff, 0, 0, 0, 0], // *(u64 *)(r10 - 8) = r6
        [0x63 | size, 0x62, 3, 0, 0, 0, 0, 0], // *(size *)(r2 + 3) = r6
        [0x62 | size, 0x0a, 0xf8, 0xff, 0xfe, 0xff, 0xff, 0xff], // *(size *)(r10 - 8) = -2
        [0x62 | size, 0x02, 11, 0, 0x71, 0x72, 0x73, 0x74], // *(size *)(r2 + 11) = 1953723761
        [0x61 | size, 0x27, 7, 0, 0, 0, 0, 0], // r7 = *(size *)(r2 + 7)
        [0x61 | size, 0xa0, 0xf8, 0xff, 0, 0, 0, 0], // r0 = *(size *)(r10 - 8)
        [0xaf, 0x70, 0, 0, 0, 0, 0, 0], // r0 ^= r7
        [5, 0, 0, 0, 0, 0, 0, 0], // goto +0
        [0x95, 0, 0, 0, 0, 0, 0, 0], // exit
    ];
    both(alloc, &slots)
}

/// Stores and loads of a size on the stack, at both of its ends: by `r10`, and by another register.
fn stack_accesses(alloc: Global, size: u8) -> Option<bool> {
    #[rattlefmt::skip]
    let slots = [
        [0x18, 6, 0, 0, 0x81, 0x22, 0x33, 0x44], // r6 = 0x8877665544332281 ll
        [0, 0, 0, 0, 0x55, 0x66, 0x77, 0x88], // its second slot
        [0xbf, 0x67, 0, 0, 0, 0, 0, 0], // r7 = r6
        [0x27, 7, 0, 0, 3, 0, 0, 0], // r7 *= 3
        [0xbf, 0xa8, 0, 0, 0, 0, 0, 0], // r8 = r10
        [7, 8, 0, 0, 0, 0xfe, 0xff, 0xff], // r8 += -512
        [0x7b, 0x68, 0, 0, 0, 0, 0, 0], // *(u64 *)(r8 + 0) = r6
        [0x7b, 0x6a, 0xf8, 0xff, 0, 0, 0, 0], // *(u64 *)(r10 - 8) = r6
        [0x62 | size, 0x0a, 0, 0xfe, 0xfe, 0xff, 0xff, 0xff], // *(size *)(r10 - 512) = -2
        [0x63 | size, 0x7a, 0xf8, 0xff, 0, 0, 0, 0], // *(size *)(r10 - 8) = r7
        [0x79, 0x80, 0, 0, 0, 0, 0, 0], // r0 = *(u64 *)(r8 + 0)
        [0x27, 0, 0, 0, 31, 0, 0, 0], // r0 *= 31
        [0x61 | size, 0xa2, 0, 0xfe, 0, 0, 0, 0], // r2 = *(size *)(r10 - 512)
        [0x0f, 0x20, 0, 0, 0, 0, 0, 0], // r0 += r2
        [0x27, 0, 0, 0, 31, 0, 0, 0], // r0 *= 31
        [0x79, 0x83, 0xf8, 1, 0, 0, 0, 0], // r3 = *(u64 *)(r8 + 504)
        [0x0f, 0x30, 0, 0, 0, 0, 0, 0], // r0 += r3
        [0x27, 0, 0, 0, 31, 0, 0, 0], // r0 *= 31
        [0x61 | size, 0xa4, 0xf8, 0xff, 0, 0, 0, 0], // r4 = *(size *)(r10 - 8)
        [0x0f, 0x40, 0, 0, 0, 0, 0, 0], // r0 += r4
        [0xbf, 0x03, 0, 0, 0, 0, 0, 0], // r3 = r0
        [0x77, 3, 0, 0, 32, 0, 0, 0], // r3 >>= 32
        [0xaf, 0x30, 0, 0, 0, 0, 0, 0], // r0 ^= r3
        [0x95, 0, 0, 0, 0, 0, 0, 0], // exit
    ];
    both(alloc, &slots)
}

#[test]
fn accesses_by_steps_and_by_the_loop(rt: HostRuntime) {
    for size in SIZES {
        assert_eq!(rt; accesses(rt.alloc(), size), Some(true));
        assert_eq!(rt; stack_accesses(rt.alloc(), size), Some(true));
    }
}
