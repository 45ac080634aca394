//! Keys past a map's end, and the numbers of counters.
use crate::programs::ready;
use bpf_verify::MapShape;
use bpf_vm::{PacketBuf, Vm, VmWant};
use std::alloc::Global;

/// The number of a machine at its exit.
fn number_at_exit(mut vm: Vm<'_, '_>) -> Option<u32> {
    match vm.advance() {
        VmWant::Exit { .. } => Some(vm.finish().0),
        _ => None,
    }
}

/// The number of a program over two maps of one counter each, which it doesn't ask for.
fn number_of(alloc: Global, slots: &[[u8; 8]]) -> Option<u32> {
    let shape = MapShape::of(1, 1)?;
    let (program, mut buffer) = ready(alloc, slots, &[shape, shape])?;
    number_at_exit(Vm::start(&program, PacketBuf::empty(&mut buffer), 0, 0, &[]))
}

/// Returns what a lookup of a key in a map of one value gives.
fn looked_up(alloc: Global, key: [u8; 4]) -> Option<u32> {
    #[rattlefmt::skip]
    let slots = [
        [0x62, 0x0a, 0xfc, 0xff, key[0], key[1], key[2], key[3]], // *(u32 *)(r10 - 4) = key
        [0xbf, 0xa2, 0, 0, 0, 0, 0, 0], // r2 = r10
        [7, 2, 0, 0, 0xfc, 0xff, 0xff, 0xff], // r2 += -4
        [0x18, 0x11, 0, 0, 0, 0, 0, 0], // r1 = map 0
        [0, 0, 0, 0, 0, 0, 0, 0], // its second slot
        [0x85, 0, 0, 0, 1, 0, 0, 0], // call 1
        [0x95, 0, 0, 0, 0, 0, 0, 0], // exit
    ];
    number_of(alloc, &slots)
}

/// A key's bytes, and what its lookup gives.
const KEYS: [([u8; 4], u32); 5] = [
    ([0, 0, 0, 0], 0x4000_0000),
    ([1, 0, 0, 0], 0),
    ([0, 1, 0, 0], 0),
    ([0, 0, 1, 0], 0),
    ([0, 0, 0, 1], 0),
];

#[test]
fn a_key_has_four_bytes(rt: HostRuntime) {
    for (key, number) in KEYS {
        assert!(rt; looked_up(rt.alloc(), key) == Some(number), "{key:?}");
    }
}

/// The second of two maps.
#[rattlefmt::skip]
const SECOND_MAP: [[u8; 8]; 3] = [
    [0x18, 0x10, 0, 0, 1, 0, 0, 0], // r0 = map 1
    [0, 0, 0, 0, 0, 0, 0, 0], // its second slot
    [0x95, 0, 0, 0, 0, 0, 0, 0], // exit
];

#[test]
fn a_map_is_a_number(rt: HostRuntime) {
    assert_eq!(rt; number_of(rt.alloc(), &SECOND_MAP), Some(0x5000_0001));
}

/// The content of a counter.
const HELD: u64 = 0x1122_3344_5566_7788;

/// The upper half of a counter.
#[rattlefmt::skip]
const UPPER_HALF: [[u8; 8]; 11] = [
    [0x62, 0x0a, 0xfc, 0xff, 0, 0, 0, 0], // *(u32 *)(r10 - 4) = 0
    [0xbf, 0xa2, 0, 0, 0, 0, 0, 0], // r2 = r10
    [7, 2, 0, 0, 0xfc, 0xff, 0xff, 0xff], // r2 += -4
    [0x18, 0x11, 0, 0, 0, 0, 0, 0], // r1 = map 0
    [0, 0, 0, 0, 0, 0, 0, 0], // its second slot
    [0x85, 0, 0, 0, 1, 0, 0, 0], // call 1
    [0x55, 0, 1, 0, 0, 0, 0, 0], // if r0 != 0 goto +1
    [0x95, 0, 0, 0, 0, 0, 0, 0], // exit
    [0x79, 0, 0, 0, 0, 0, 0, 0], // r0 = *(u64 *)(r0 + 0)
    [0x77, 0, 0, 0, 32, 0, 0, 0], // r0 >>= 32
    [0x95, 0, 0, 0, 0, 0, 0, 0], // exit
];

/// Returns the number of instructions that are done before the load and at the exit, and the number.
fn loaded(mut vm: Vm<'_, '_>) -> Option<([u32; 2], u32)> {
    let VmWant::Load { .. } = vm.advance() else {
        return None;
    };
    let before = vm.count();
    vm.loaded(HELD);
    let VmWant::Exit { .. } = vm.advance() else {
        return None;
    };
    let all = vm.count();
    Some(([before, all], vm.finish().0))
}

/// [`loaded`] for [`UPPER_HALF`].
fn loaded_half(alloc: Global) -> Option<([u32; 2], u32)> {
    let (program, mut buffer) = ready(alloc, &UPPER_HALF, &[MapShape::of(1, 1)?])?;
    loaded(Vm::start(&program, PacketBuf::empty(&mut buffer), 0, 0, &[]))
}

#[test]
fn a_counter_has_64_bits(rt: HostRuntime) {
    // before the load the six before it are done, the load isn't
    assert_eq!(rt; loaded_half(rt.alloc()), Some(([6, 9], 0x1122_3344)));
}

/// Adds -1 to a counter, and shifts what it held to the right.
#[rattlefmt::skip]
const FETCHED_HALF: [[u8; 8]; 13] = [
    [0x62, 0x0a, 0xfc, 0xff, 0, 0, 0, 0], // *(u32 *)(r10 - 4) = 0
    [0xbf, 0xa2, 0, 0, 0, 0, 0, 0], // r2 = r10
    [7, 2, 0, 0, 0xfc, 0xff, 0xff, 0xff], // r2 += -4
    [0x18, 0x11, 0, 0, 0, 0, 0, 0], // r1 = map 0
    [0, 0, 0, 0, 0, 0, 0, 0], // its second slot
    [0x85, 0, 0, 0, 1, 0, 0, 0], // call 1
    [0x55, 0, 1, 0, 0, 0, 0, 0], // if r0 != 0 goto +1
    [0x95, 0, 0, 0, 0, 0, 0, 0], // exit
    [0xb7, 1, 0, 0, 0xff, 0xff, 0xff, 0xff], // r1 = -1
    [0xdb, 0x10, 0, 0, 1, 0, 0, 0], // r1 = atomic_fetch_add((u64 *)(r0 + 0), r1)
    [0xbf, 0x10, 0, 0, 0, 0, 0, 0], // r0 = r1
    [0x77, 0, 0, 0, 32, 0, 0, 0], // r0 >>= 32
    [0x95, 0, 0, 0, 0, 0, 0, 0], // exit
];

/// Returns what is added, and the number.
fn fetched(mut vm: Vm<'_, '_>) -> Option<(u64, u32)> {
    let VmWant::Add { delta, .. } = vm.advance() else {
        return None;
    };
    vm.added(HELD);
    Some((delta, number_at_exit(vm)?))
}

/// [`fetched`] for [`FETCHED_HALF`].
fn fetched_half(alloc: Global) -> Option<(u64, u32)> {
    let (program, mut buffer) = ready(alloc, &FETCHED_HALF, &[MapShape::of(1, 1)?])?;
    fetched(Vm::start(&program, PacketBuf::empty(&mut buffer), 0, 0, &[]))
}

#[test]
fn an_add_has_64_bits(rt: HostRuntime) {
    assert_eq!(rt; fetched_half(rt.alloc()), Some((u64::MAX, 0x1122_3344)));
}
