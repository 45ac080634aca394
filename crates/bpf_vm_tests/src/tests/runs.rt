//! Runs of whole programs. A program has one slot per line, with its text beside it.
ghost use Rattle.std.specs.Prelude.{◌≡◌, []};

use crate::programs::{COUNTING, EXIT, accepted, ended, ready};
use bpf_verify::{MapShape, Verified};
use bpf_vm::{Buffer, Ended, PacketBuf, STACK_SIZE, Vm, VmWant, run_to_end};
use std::alloc::Global;

#[rattlefmt::skip]
const NUMBER: [[u8; 8]; 2] = [
    [0xb7, 0, 0, 0, 7, 0, 0, 0], // r0 = 7
    [0x95, 0, 0, 0, 0, 0, 0, 0], // exit
];

#[rattlefmt::skip]
const WIDE_NUMBER: [[u8; 8]; 3] = [
    [0x18, 0, 0, 0, 7, 0, 0, 0], // r0 = 7 ll
    [0, 0, 0, 0, 9, 0, 0, 0], // its second slot
    [0x95, 0, 0, 0, 0, 0, 0, 0], // exit
];

#[rattlefmt::skip]
const OVER_ONE: [[u8; 8]; 4] = [
    [0xb7, 0, 0, 0, 2, 0, 0, 0], // r0 = 2
    [5, 0, 1, 0, 0, 0, 0, 0], // goto +1
    [0xb7, 0, 0, 0, 1, 0, 0, 0], // r0 = 1
    [0x95, 0, 0, 0, 0, 0, 0, 0], // exit
];

/// Stores eight, two and one bytes of 0x0807060504030201, and loads the eight in the second half.
#[rattlefmt::skip]
const STORES: [[u8; 8]; 13] = [
    [0xb7, 0, 0, 0, 1, 0, 0, 0], // r0 = 1
    [0x61, 0x12, 0, 0, 0, 0, 0, 0], // r2 = *(u32 *)(r1 + 0)
    [0x61, 0x13, 4, 0, 0, 0, 0, 0], // r3 = *(u32 *)(r1 + 4)
    [0xbf, 0x24, 0, 0, 0, 0, 0, 0], // r4 = r2
    [7, 4, 0, 0, 0x10, 0, 0, 0], // r4 += 16
    [0x2d, 0x34, 6, 0, 0, 0, 0, 0], // if r4 > r3 goto +6
    [0x18, 5, 0, 0, 1, 2, 3, 4], // r5 = 67305985 ll
    [0, 0, 0, 0, 5, 6, 7, 8], // its second slot
    [0x7b, 0x52, 0, 0, 0, 0, 0, 0], // *(u64 *)(r2 + 0) = r5
    [0x6b, 0x52, 9, 0, 0, 0, 0, 0], // *(u16 *)(r2 + 9) = r5
    [0x73, 0x52, 0x0f, 0, 0, 0, 0, 0], // *(u8 *)(r2 + 15) = r5
    [0x79, 0x20, 8, 0, 0, 0, 0, 0], // r0 = *(u64 *)(r2 + 8)
    [0x95, 0, 0, 0, 0, 0, 0, 0], // exit
];

/// Jumps past its end and back.
#[rattlefmt::skip]
const BACKWARDS: [[u8; 8]; 5] = [
    [5, 0, 2, 0, 0, 0, 0, 0], // goto +2
    [7, 0, 0, 0, 5, 0, 0, 0], // r0 += 5
    [0x95, 0, 0, 0, 0, 0, 0, 0], // exit
    [0xb7, 0, 0, 0, 1, 0, 0, 0], // r0 = 1
    [5, 0, 0xfc, 0xff, 0, 0, 0, 0], // goto -4
];

#[rattlefmt::skip]
const SIGNED_BYTE: [[u8; 8]; 8] = [
    [0x61, 0x12, 0, 0, 0, 0, 0, 0], // r2 = *(u32 *)(r1 + 0)
    [0x61, 0x13, 4, 0, 0, 0, 0, 0], // r3 = *(u32 *)(r1 + 4)
    [0xbf, 0x24, 0, 0, 0, 0, 0, 0], // r4 = r2
    [7, 4, 0, 0, 1, 0, 0, 0], // r4 += 1
    [0xb7, 0, 0, 0, 0, 0, 0, 0], // r0 = 0
    [0x2d, 0x34, 1, 0, 0, 0, 0, 0], // if r4 > r3 goto +1
    [0x91, 0x20, 0, 0, 0, 0, 0, 0], // r0 = *(s8 *)(r2 + 0)
    [0x95, 0, 0, 0, 0, 0, 0, 0], // exit
];

/// A constant of -1 in eight bytes, and its upper half.
#[rattlefmt::skip]
const UPPER_HALF: [[u8; 8]; 3] = [
    [0x7a, 0x0a, 0xf8, 0xff, 0xff, 0xff, 0xff, 0xff], // *(u64 *)(r10 - 8) = -1
    [0x61, 0xa0, 0xfc, 0xff, 0, 0, 0, 0], // r0 = *(u32 *)(r10 - 4)
    [0x95, 0, 0, 0, 0, 0, 0, 0], // exit
];

/// Stores eight bytes on the stack and two in the middle of them, and loads four across both.
#[rattlefmt::skip]
const STACK_STORES: [[u8; 8]; 6] = [
    [0x18, 5, 0, 0, 1, 2, 3, 4], // r5 = 67305985 ll
    [0, 0, 0, 0, 5, 6, 7, 8], // its second slot
    [0x7b, 0x5a, 0xf8, 0xff, 0, 0, 0, 0], // *(u64 *)(r10 - 8) = r5
    [0x6a, 0x0a, 0xfb, 0xff, 0xbb, 0xaa, 0, 0], // *(u16 *)(r10 - 5) = 43707
    [0x61, 0xa0, 0xfa, 0xff, 0, 0, 0, 0], // r0 = *(u32 *)(r10 - 6)
    [0x95, 0, 0, 0, 0, 0, 0, 0], // exit
];

/// The bytes that [`STORES`] leaves of 16 bytes of 0xee.
const STORED: [u8; 16] = [
    1, 2, 3, 4, 5, 6, 7, 8, 0xee, 1, 2, 0xee, 0xee, 0xee, 0xee, 1,
];

/// A program, its packet before and after, the number and the instructions.
#[rattlefmt::skip]
const RUNS: [(&str, &[[u8; 8]], &[u8], &[u8], u32, u32); 7] = [
    ("a number is the answer", &NUMBER, &[1, 2, 3], &[1, 2, 3], 7, 2),
    ("the answer is the low half", &WIDE_NUMBER, &[], &[], 7, 2),
    ("a jump skips instructions", &OVER_ONE, &[], &[], 2, 3),
    ("stores have the lowest byte first", &STORES, &[0xee; 16], &STORED, 0xee02_01ee, 12),
    ("a jump goes back", &BACKWARDS, &[], &[], 6, 5),
    ("a load extends the sign", &SIGNED_BYTE, &[0x80, 1], &[0x80, 1], 0xffff_ff80, 8),
    ("a stored constant extends the sign", &UPPER_HALF, &[], &[], 0xffff_ffff, 3),
];

#[test]
fn whole_runs(rt: HostRuntime) {
    for (text, slots, packet, left, number, instructions) in RUNS {
        let found = ended(rt.alloc(), slots, packet, left);
        assert!(rt; found == Some((number, instructions, true)), "{text}");
    }
}

/// Passes packets of 14 bytes or more, whose first it reads, and drops others.
#[rattlefmt::skip]
const BOUNDS_CHECK: [[u8; 8]; 10] = [
    [0x61, 0x12, 0, 0, 0, 0, 0, 0], // r2 = *(u32 *)(r1 + 0)
    [0x61, 0x13, 4, 0, 0, 0, 0, 0], // r3 = *(u32 *)(r1 + 4)
    [0xbf, 0x24, 0, 0, 0, 0, 0, 0], // r4 = r2
    [7, 4, 0, 0, 0x0e, 0, 0, 0], // r4 += 14
    [0x2d, 0x34, 3, 0, 0, 0, 0, 0], // if r4 > r3 goto +3
    [0x71, 0x20, 0, 0, 0, 0, 0, 0], // r0 = *(u8 *)(r2 + 0)
    [0xb7, 0, 0, 0, 2, 0, 0, 0], // r0 = 2
    [0x95, 0, 0, 0, 0, 0, 0, 0], // exit
    [0xb7, 0, 0, 0, 1, 0, 0, 0], // r0 = 1
    [0x95, 0, 0, 0, 0, 0, 0, 0], // exit
];

/// The number and the instructions of a program on a packet, and whether the packet's bytes are left.
fn ended_on(program: &Verified, buffer: &mut Buffer, bytes: &[u8]) -> Option<(u32, u32, bool)>
    requires { program.now.shapes ≡ [] }
{
    let packet = PacketBuf::copy(buffer, bytes).ok()?;
    let ended = run_to_end(program, packet, 0, 0);
    let is_left = ended.packet.bytes() == bytes;
    Some((ended.number, ended.instructions, is_left))
}

/// [`ended_on`] for that program, on 14 bytes and then on 13 bytes in the same buffer.
fn ended_in_one_buffer(alloc: Global) -> Option<[Option<(u32, u32, bool)>; 2]> {
    let (program, mut buffer) = ready(alloc, &BOUNDS_CHECK, &[])?;
    let longer = ended_on(&program, &mut buffer, &[5; 14]);
    Some([longer, ended_on(&program, &mut buffer, &[6; 13])])
}

#[test]
fn a_program_never_sees_the_bytes_of_an_earlier_packet(rt: HostRuntime) {
    assert_eq!(rt;
        ended_in_one_buffer(rt.alloc()),
        Some([Some((2, 8, true)), Some((1, 7, true))])
    );
}

/// The number of a program on a host's own bytes, and these bytes when their first is 0xff afterwards.
fn ended_over(program: &Verified) -> Option<(u32, [u8; 16])>
    requires { program.now.shapes ≡ [] }
{
    let mut own = [0xee; 16];
    let mut stack = [0xdd; STACK_SIZE];
    let packet = PacketBuf::over(&mut own, &mut stack).ok()?;
    let Ended { number, packet, .. } = run_to_end(program, packet, 0, 0);
    if let Some(first) = packet.into_bytes().get_mut(0) {
        *first = 0xff;
    }
    Some((number, own))
}

/// [`ended_over`] for [`STORES`].
fn ended_on_own_bytes(alloc: Global) -> Option<(u32, [u8; 16])> {
    ended_over(&accepted(alloc, &STORES, &[])?)
}

#[test]
fn a_program_runs_on_a_hosts_own_bytes(rt: HostRuntime) {
    let mut left = STORED;
    left[0] = 0xff;
    assert_eq!(rt; ended_on_own_bytes(rt.alloc()), Some((0xee02_01ee, left)));
}

/// The number of a program on a stack whose bytes are these at first, and whether the eight that it stored stand at its
/// end, and all others are as they were.
fn stored_by(program: &Verified, first: u8) -> Option<(u32, bool)>
    requires { program.now.shapes ≡ [] }
{
    let mut stack = [first; STACK_SIZE];
    let packet = PacketBuf::over(&mut [], &mut stack).ok()?;
    let number = run_to_end(program, packet, 0, 0).number;
    let (others, stored) = stack.split_at(504);
    let kept = others.iter().all(|byte| *byte == first);
    let has_stored = stored == [1, 2, 3, 0xbb, 0xaa, 6, 7, 8].as_slice();
    Some((number, kept && has_stored))
}

/// [`stored_by`] for [`STACK_STORES`].
fn stored_on(alloc: Global, first: u8) -> Option<(u32, bool)> {
    stored_by(&accepted(alloc, &STACK_STORES, &[])?, first)
}

#[test]
fn what_the_stack_held_before_does_not_matter(rt: HostRuntime) {
    for first in [0, 0xff, 0x5a] {
        assert_eq!(rt; stored_on(rt.alloc(), first), Some((0x06aa_bb03, true)));
    }
}

/// The offset of a field of the context, its number and its name.
const FIELDS: [(u8, u32, &str); 5] = [
    (0, 0x1000_0000, "data"),
    (4, 0x1000_0002, "data_end"),
    (8, 0x1000_0000, "data_meta"),
    (12, 3, "ingress_ifindex"),
    (16, 4, "rx_queue_index"),
];

/// The number of a program that loads a field of the context.
fn field(alloc: Global, offset: u8) -> Option<u32> {
    let load = [0x61, 0x10, offset, 0, 0, 0, 0, 0]; // r0 = *(u32 *)(r1 + offset)
    Some(ended(alloc, &[load, EXIT], &[0x80, 1], &[0x80, 1])?.0)
}

#[test]
fn fields_of_the_context(rt: HostRuntime) {
    for (offset, number, text) in FIELDS {
        assert!(rt; field(rt.alloc(), offset) == Some(number), "{text}");
    }
}

/// The low 32 bits of what a register holds at the start.
fn held(alloc: Global, register: u8) -> Option<u32> {
    // r0 = the register
    let copy = [0xbf, 0x10 * (register % 16), 0, 0, 0, 0, 0, 0];
    Some(ended(alloc, &[copy, EXIT], &[], &[])?.0)
}

#[test]
fn the_context_and_the_frame_pointer(rt: HostRuntime) {
    // the end of the stack
    let held = [held(rt.alloc(), 1), held(rt.alloc(), 10)];
    assert_eq!(rt; held, [Some(0x3000_0000), Some(0x2000_0200)]);
}

/// The operations that a run wants of counters, at most twice.
type Wants = [Option<VmWant>; 2];

/// One want more, if there is room.
fn noted(wants: Wants, want: VmWant) -> Option<Wants> {
    match wants {
        [None, _] => Some([Some(want), None]),
        [first, None] => Some([first, Some(want)]),
        [Some(_), Some(_)] => None,
    }
}

/// The wants of counters, the number and the instructions, if each counter holds 7, one instruction at a time.
fn counted(start: Vm<'_, '_>) -> Option<(Wants, u32, u32)> {
    let mut vm = start;
    let mut wants = [None; 2];
    for _ in 0..4096 {
        let want = vm.want();
        match want {
            VmWant::Step => vm.step(),
            VmWant::Load { .. } => {
                wants = noted(wants, want)?;
                vm.loaded(7);
            }
            VmWant::Add { .. } => {
                wants = noted(wants, want)?;
                vm.added(7);
            }
            VmWant::Exit { .. } => {
                let count = vm.count();
                return Some((wants, vm.finish().0, count));
            }
        }
    }
    None
}

/// As [`counted`], but all steps between two wants at once.
fn advanced(start: Vm<'_, '_>) -> Option<(Wants, u32, u32)> {
    let mut vm = start;
    let mut wants = [None; 2];
    for _ in 0..4096 {
        let want = vm.advance();
        match want {
            VmWant::Step => return None,
            VmWant::Load { .. } => {
                wants = noted(wants, want)?;
                vm.loaded(7);
            }
            VmWant::Add { .. } => {
                wants = noted(wants, want)?;
                vm.added(7);
            }
            VmWant::Exit { .. } => {
                let count = vm.count();
                return Some((wants, vm.finish().0, count));
            }
        }
    }
    None
}

/// Returns what [`COUNTING`] wants by single steps, and by all between two wants.
fn counted_twice(alloc: Global) -> Option<[Option<(Wants, u32, u32)>; 2]> {
    let (program, mut buffer) = ready(alloc, &COUNTING, &[MapShape::of(2, 1)?])?;
    let first = counted(Vm::start(&program, PacketBuf::empty(&mut buffer), 0, 0, &[]));
    let second = advanced(Vm::start(&program, PacketBuf::empty(&mut buffer), 0, 0, &[]));
    Some([first, second])
}

#[test]
fn an_add_is_wanted_with_its_place(rt: HostRuntime) {
    let add = VmWant::Add {
        m: 0,
        k: 1,
        j: 0,
        delta: 1,
    };
    let wanted = Some(([Some(add), None], 2, 10));
    assert_eq!(rt; counted_twice(rt.alloc()), Some([wanted, wanted]));
}

/// The address of the value under key 1 of the second map.
#[rattlefmt::skip]
const VALUE: [[u8; 8]; 9] = [
    [0x62, 0x0a, 0xfc, 0xff, 1, 0, 0, 0], // *(u32 *)(r10 - 4) = 1
    [0xbf, 0xa2, 0, 0, 0, 0, 0, 0], // r2 = r10
    [7, 2, 0, 0, 0xfc, 0xff, 0xff, 0xff], // r2 += -4
    [0x18, 0x11, 0, 0, 1, 0, 0, 0], // r1 = map 1
    [0, 0, 0, 0, 0, 0, 0, 0], // its second slot
    [0x85, 0, 0, 0, 1, 0, 0, 0], // call 1
    [0x55, 0, 1, 0, 0, 0, 0, 0], // if r0 != 0 goto +1
    [0x95, 0, 0, 0, 0, 0, 0, 0], // exit
    [0x95, 0, 0, 0, 0, 0, 0, 0], // exit
];

/// Its second counter.
#[rattlefmt::skip]
const LOAD: [[u8; 8]; 10] = [
    [0x62, 0x0a, 0xfc, 0xff, 1, 0, 0, 0], // *(u32 *)(r10 - 4) = 1
    [0xbf, 0xa2, 0, 0, 0, 0, 0, 0], // r2 = r10
    [7, 2, 0, 0, 0xfc, 0xff, 0xff, 0xff], // r2 += -4
    [0x18, 0x11, 0, 0, 1, 0, 0, 0], // r1 = map 1
    [0, 0, 0, 0, 0, 0, 0, 0], // its second slot
    [0x85, 0, 0, 0, 1, 0, 0, 0], // call 1
    [0x55, 0, 1, 0, 0, 0, 0, 0], // if r0 != 0 goto +1
    [0x95, 0, 0, 0, 0, 0, 0, 0], // exit
    [0x79, 0, 8, 0, 0, 0, 0, 0], // r0 = *(u64 *)(r0 + 8)
    [0x95, 0, 0, 0, 0, 0, 0, 0], // exit
];

/// The content of its second counter before 5 is added.
#[rattlefmt::skip]
const FETCH: [[u8; 8]; 12] = [
    [0x62, 0x0a, 0xfc, 0xff, 1, 0, 0, 0], // *(u32 *)(r10 - 4) = 1
    [0xbf, 0xa2, 0, 0, 0, 0, 0, 0], // r2 = r10
    [7, 2, 0, 0, 0xfc, 0xff, 0xff, 0xff], // r2 += -4
    [0x18, 0x11, 0, 0, 1, 0, 0, 0], // r1 = map 1
    [0, 0, 0, 0, 0, 0, 0, 0], // its second slot
    [0x85, 0, 0, 0, 1, 0, 0, 0], // call 1
    [0x55, 0, 1, 0, 0, 0, 0, 0], // if r0 != 0 goto +1
    [0x95, 0, 0, 0, 0, 0, 0, 0], // exit
    [0xb7, 1, 0, 0, 5, 0, 0, 0], // r1 = 5
    [0xdb, 0x10, 8, 0, 1, 0, 0, 0], // r1 = atomic_fetch_add((u64 *)(r0 + 8), r1)
    [0xbf, 0x10, 0, 0, 0, 0, 0, 0], // r0 = r1
    [0x95, 0, 0, 0, 0, 0, 0, 0], // exit
];

/// Returns what is wanted, and the number.
fn wants_and_number(start: Vm<'_, '_>) -> Option<(Wants, u32)> {
    let (wants, number, _count) = advanced(start)?;
    Some((wants, number))
}

/// Returns what a program wants of two maps of three values with two counters each, and its number.
fn looked_up(alloc: Global, slots: &[[u8; 8]]) -> Option<(Wants, u32)> {
    let shape = MapShape::of(3, 2)?;
    let (program, mut buffer) = ready(alloc, slots, &[shape, shape])?;
    wants_and_number(Vm::start(&program, PacketBuf::empty(&mut buffer), 0, 0, &[]))
}

#[test]
fn counters_of_the_second_map(rt: HostRuntime) {
    let (m, k, j) = (1, 1, 1);
    let load = VmWant::Load { m, k, j };
    let add = VmWant::Add { m, k, j, delta: 5 };
    let found = [
        looked_up(rt.alloc(), &VALUE),
        looked_up(rt.alloc(), &LOAD),
        looked_up(rt.alloc(), &FETCH),
    ];
    let wanted = [
        Some(([None, None], 0x4001_0010)),
        Some(([Some(load), None], 7)),
        Some(([Some(add), None], 7)),
    ];
    assert_eq!(rt; found, wanted);
}
