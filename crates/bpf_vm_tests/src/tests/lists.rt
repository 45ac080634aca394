//! Lookups in lists, and where the values of large maps lie.
use crate::programs::ready;
use bpf_lists::{ConstantBytes, KeyedRows, MapList};
use bpf_note::{KeyKind, MapKey, MapShape};
use bpf_vm::{PacketBuf, Vm, VmWant};
use std::alloc::Global;

/// The number of a machine at its exit.
fn number_at_exit(mut vm: Vm<'_, '_>) -> Option<u32> {
    match vm.advance() {
        VmWant::Exit { .. } => Some(vm.finish().0),
        _ => None,
    }
}

/// The number of a program that looks up eight bytes of the stack in a map; of these the key is what its size says.
fn looked_up(
    alloc: Global,
    shape: MapShape,
    lists: &[Option<MapList>],
    key: [u8; 8],
) -> Option<u32> {
    let size = shape.key().size() as u8;
    if size < 1 || 8 < size {
        return None;
    }
    #[rattlefmt::skip]
    let slots = [
        [0x62, 0x0a, 0xf8, 0xff, key[0], key[1], key[2], key[3]], // *(u32 *)(r10 - 8) = key
        [0x62, 0x0a, 0xfc, 0xff, key[4], key[5], key[6], key[7]], // *(u32 *)(r10 - 4) = key
        [0xbf, 0xa2, 0, 0, 0, 0, 0, 0], // r2 = r10
        [7, 2, 0, 0, 0xff - size + 1, 0xff, 0xff, 0xff], // r2 += -size
        [0x18, 0x11, 0, 0, 0, 0, 0, 0], // r1 = map 0
        [0, 0, 0, 0, 0, 0, 0, 0], // its second slot
        [0x85, 0, 0, 0, 1, 0, 0, 0], // call 1
        [0x95, 0, 0, 0, 0, 0, 0, 0], // exit
    ];
    let (program, mut buffer) = ready(alloc, &slots, &[shape])?;
    number_at_exit(Vm::start(&program, PacketBuf::empty(&mut buffer), 0, 0, lists))
}

/// The last bytes of a key on the stack.
fn last(bytes: [u8; 4]) -> [u8; 8] {
    [0, 0, 0, 0, bytes[0], bytes[1], bytes[2], bytes[3]]
}

/// A list's rows.
fn rows(alloc: Global, kind: KeyKind, keys: &[u8]) -> Option<MapList> {
    Some(MapList::Rows(KeyedRows::make(alloc, kind, keys).ok()?))
}

/// Addresses: 192.0.2.1, 192.0.2.2 and 198.51.100.7.
const ADDRESSES: [u8; 12] = [192, 0, 2, 1, 192, 0, 2, 2, 198, 51, 100, 7];

/// Returns what a lookup of an address gives, in a map of so many values of a counter each.
fn address_found(alloc: Global, entries: u32, address: [u8; 4]) -> Option<u32> {
    let shape = MapShape::keyed(MapKey::Listed(KeyKind::Exact(4)), entries, 1)?;
    let list = rows(alloc, KeyKind::Exact(4), &ADDRESSES)?;
    looked_up(alloc, shape, &[Some(list)], last(address))
}

#[test]
fn addresses_are_found_by_all_bytes(rt: HostRuntime) {
    let alloc = rt.alloc();
    assert_eq!(rt; address_found(alloc, 3, [192, 0, 2, 1]), Some(0x4000_0000));
    assert_eq!(rt; address_found(alloc, 3, [192, 0, 2, 2]), Some(0x4000_0008));
    assert_eq!(rt;
        address_found(alloc, 3, [198, 51, 100, 7]),
        Some(0x4000_0010)
    );
    assert_eq!(rt; address_found(alloc, 3, [192, 0, 2, 3]), Some(0));
    assert_eq!(rt; address_found(alloc, 3, [1, 2, 0, 192]), Some(0));
}

#[test]
fn a_row_past_the_end_has_no_value(rt: HostRuntime) {
    let alloc = rt.alloc();
    assert_eq!(rt; address_found(alloc, 2, [192, 0, 2, 2]), Some(0x4000_0008));
    assert_eq!(rt; address_found(alloc, 2, [198, 51, 100, 7]), Some(0));
}

/// 10.0.0.0/8, 10.1.0.0/16 and 0.0.0.0/0, as `bpf_lpm_trie_key` of Linux's bpf.h has them.
const PREFIXES: [u8; 24] = [
    8, 0, 0, 0, 10, 0, 0, 0, 16, 0, 0, 0, 10, 1, 0, 0, 0, 0, 0, 0, 0, 0, 0, 0,
];

/// Returns what a lookup of an address with so many bits gives.
fn prefix_found(alloc: Global, bits: u8, address: [u8; 4]) -> Option<u32> {
    let shape = MapShape::keyed(MapKey::Listed(KeyKind::Prefix(4)), 3, 2)?;
    let list = rows(alloc, KeyKind::Prefix(4), &PREFIXES)?;
    let key = [
        bits, 0, 0, 0, address[0], address[1], address[2], address[3],
    ];
    looked_up(alloc, shape, &[Some(list)], key)
}

#[test]
fn the_longest_prefix_is_found(rt: HostRuntime) {
    let alloc = rt.alloc();
    assert_eq!(rt; prefix_found(alloc, 32, [10, 1, 2, 3]), Some(0x4000_0010));
    assert_eq!(rt; prefix_found(alloc, 32, [10, 2, 0, 1]), Some(0x4000_0000));
    assert_eq!(rt; prefix_found(alloc, 32, [192, 0, 2, 1]), Some(0x4000_0020));
    assert_eq!(rt; prefix_found(alloc, 12, [10, 1, 2, 3]), Some(0x4000_0000));
    assert_eq!(rt; prefix_found(alloc, 33, [10, 1, 2, 3]), Some(0));
}

/// Returns what a lookup gives without a list, or with one whose keys have six bytes.
fn found_elsewhere(alloc: Global, list: Option<MapList>) -> Option<u32> {
    let shape = MapShape::keyed(MapKey::Listed(KeyKind::Exact(4)), 3, 1)?;
    looked_up(alloc, shape, &[list], last([192, 0, 2, 1]))
}

#[test]
fn other_lists_have_no_row(rt: HostRuntime) {
    let alloc = rt.alloc();
    let six = rows(alloc, KeyKind::Exact(6), &[192, 0, 2, 1, 0, 0]);
    assert!(rt; six.is_some());
    assert_eq!(rt; found_elsewhere(alloc, six), Some(0));
    assert_eq!(rt; found_elsewhere(alloc, None), Some(0));
}

/// Returns what a lookup of a number gives in an array.
fn number_found(alloc: Global, entries: u32, counters: u32, key: u32) -> Option<u32> {
    let shape = MapShape::keyed(MapKey::Index, entries, counters)?;
    looked_up(alloc, shape, &[], last(key.to_le_bytes()))
}

#[test]
fn large_arrays_lie_above_the_small_ones(rt: HostRuntime) {
    let alloc = rt.alloc();
    assert_eq!(rt; number_found(alloc, 1024, 8, 1023), Some(0x4000_FFC0));
    assert_eq!(rt; number_found(alloc, 8192, 1, 8191), Some(0x4000_FFF8));
    assert_eq!(rt; number_found(alloc, 1025, 8, 0), Some(0x4040_0000));
    assert_eq!(rt; number_found(alloc, 65536, 8, 65535), Some(0x407F_FFC0));
    assert_eq!(rt; number_found(alloc, 65536, 8, 65536), Some(0));
}

/// Loads counter 7 of the value of key 65535 of map 1.
#[rattlefmt::skip]
const LAST_COUNTER: [[u8; 8]; 10] = [
    [0x62, 0x0a, 0xfc, 0xff, 0xff, 0xff, 0, 0], // *(u32 *)(r10 - 4) = 65535
    [0xbf, 0xa2, 0, 0, 0, 0, 0, 0], // r2 = r10
    [7, 2, 0, 0, 0xfc, 0xff, 0xff, 0xff], // r2 += -4
    [0x18, 0x11, 0, 0, 1, 0, 0, 0], // r1 = map 1
    [0, 0, 0, 0, 0, 0, 0, 0], // its second slot
    [0x85, 0, 0, 0, 1, 0, 0, 0], // call 1
    [0x55, 0, 1, 0, 0, 0, 0, 0], // if r0 != 0 goto +1
    [0x95, 0, 0, 0, 0, 0, 0, 0], // exit
    [0x79, 0, 56, 0, 0, 0, 0, 0], // r0 = *(u64 *)(r0 + 56)
    [0x95, 0, 0, 0, 0, 0, 0, 0], // exit
];

/// Returns what it wants first.
fn last_wanted(alloc: Global) -> Option<VmWant> {
    let small = MapShape::of(1, 1)?;
    let large = MapShape::keyed(MapKey::Index, 65536, 8)?;
    let (program, mut buffer) = ready(alloc, &LAST_COUNTER, &[small, large])?;
    let mut vm = Vm::start(&program, PacketBuf::empty(&mut buffer), 0, 0, &[]);
    Some(vm.advance())
}

#[test]
fn the_last_counter_of_a_large_map(rt: HostRuntime) {
    let (m, k, j) = (1, 65535, 7);
    assert_eq!(rt; last_wanted(rt.alloc()), Some(VmWant::Load { m, k, j }));
}

/// The number that a load of constants gives: `opcode` is that of the load, `constants` what the map has, `bytes` what the list has.
fn read(alloc: Global, opcode: u8, address: u32, constants: u32, bytes: &[u8]) -> Option<u32> {
    let shape = MapShape::keyed(MapKey::Constants(constants), 1, 1)?;
    let [a, b, c, d] = address.to_le_bytes();
    #[rattlefmt::skip]
    let slots = [
        [0x18, 1, 0, 0, a, b, c, d], // r1 = address
        [0, 0, 0, 0, 0, 0, 0, 0], // its second slot
        [opcode, 0x10, 0, 0, 0, 0, 0, 0], // r0 = *(..)(r1 + 0)
        [0x95, 0, 0, 0, 0, 0, 0, 0], // exit
    ];
    let (program, mut buffer) = ready(alloc, &slots, &[shape])?;
    let bytes = ConstantBytes::make(bytes.to_vec(alloc).ok()?);
    let lists = [Some(MapList::Constants(bytes))];
    number_at_exit(Vm::start(&program, PacketBuf::empty(&mut buffer), 0, 0, &lists))
}

/// Bytes from 0x81 on.
const CONSTANTS: [u8; 9] = [0x81, 0x82, 0x83, 0x84, 0x85, 0x86, 0x87, 0x88, 0x89];

#[test]
fn constants_are_read_by_their_address(rt: HostRuntime) {
    let alloc = rt.alloc();
    let rows = [
        (0x71, 0x3800_0000, Some(0x81)),
        (0x71, 0x3800_0008, Some(0x89)),
        (0x69, 0x3800_0001, Some(0x8382)),
        (0x61, 0x3800_0005, Some(0x8988_8786)),
        (0x79, 0x3800_0001, Some(0x8584_8382)),
        (0x91, 0x3800_0000, Some(0xffff_ff81)),
        (0x89, 0x3800_0000, Some(0xffff_8281)),
        (0x71, 0x3800_0009, None),
        (0x69, 0x3800_0008, None),
        (0x71, 0x37ff_ffff, None),
    ];
    for (opcode, address, number) in rows {
        assert_eq!(rt; read(alloc, opcode, address, 9, &CONSTANTS), number);
    }
}

#[test]
fn constants_that_a_list_lacks_are_0(rt: HostRuntime) {
    let alloc = rt.alloc();
    assert_eq!(rt; read(alloc, 0x69, 0x3800_0008, 12, &CONSTANTS), Some(0x89));
    assert_eq!(rt;
        read(alloc, 0x61, 0x3800_0007, 12, &CONSTANTS),
        Some(0x8988)
    );
    assert_eq!(rt; read(alloc, 0x61, 0x3800_0000, 4, &[]), Some(0));
}

/// The number that a load of a part of a counter gives, where the counter holds `number`: `opcode` is that of the load, at `off` from a
/// value of two counters.
fn read_part(alloc: Global, opcode: u8, off: u8, number: u64) -> Option<(VmWant, Option<u32>)> {
    #[rattlefmt::skip]
    let slots = [
        [0x62, 0x0a, 0xfc, 0xff, 0, 0, 0, 0], // *(u32 *)(r10 - 4) = 0
        [0xbf, 0xa2, 0, 0, 0, 0, 0, 0], // r2 = r10
        [7, 2, 0, 0, 0xfc, 0xff, 0xff, 0xff], // r2 += -4
        [0x18, 0x11, 0, 0, 0, 0, 0, 0], // r1 = map 0
        [0, 0, 0, 0, 0, 0, 0, 0], // its second slot
        [0x85, 0, 0, 0, 1, 0, 0, 0], // call 1
        [0x55, 0, 1, 0, 0, 0, 0, 0], // if r0 != 0 goto +1
        [0x95, 0, 0, 0, 0, 0, 0, 0], // exit
        [opcode, 0, off, 0, 0, 0, 0, 0], // r0 = *(..)(r0 + off)
        [0x95, 0, 0, 0, 0, 0, 0, 0], // exit
    ];
    let shape = MapShape::of(1, 2)?.with_parts();
    let (program, mut buffer) = ready(alloc, &slots, &[shape])?;
    let mut vm = Vm::start(&program, PacketBuf::empty(&mut buffer), 0, 0, &[]);
    match vm.advance() {
        VmWant::Load { m, k, j } => {
            vm.loaded(number);
            Some((VmWant::Load { m, k, j }, number_at_exit(vm)))
        }
        _ => None,
    }
}

#[test]
fn a_part_of_a_counter_is_loaded_with_all_of_it(rt: HostRuntime) {
    let alloc = rt.alloc();
    let number = 0x8877_6655_4433_2211;
    let rows = [
        (0x71, 0, 0, Some(0x11)),
        (0x71, 15, 1, Some(0x88)),
        (0x69, 2, 0, Some(0x4433)),
        (0x69, 11, 1, Some(0x5544)),
        (0x61, 4, 0, Some(0x8877_6655)),
        (0x61, 9, 1, Some(0x5544_3322)),
        (0x91, 7, 0, Some(0xffff_ff88)),
        (0x79, 8, 1, Some(0x4433_2211)),
    ];
    for (opcode, off, j, taken) in rows {
        let wanted = VmWant::Load { m: 0, k: 0, j };
        assert_eq!(rt;
            read_part(alloc, opcode, off, number),
            Some((wanted, taken))
        );
    }
    assert_eq!(rt; read_part(alloc, 0x61, 5, number), None);
    assert_eq!(rt; read_part(alloc, 0x71, 16, number), None);
}
