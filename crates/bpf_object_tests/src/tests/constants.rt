//! Constants of an object that clang 19 makes of
//!
//! ```c
//! const volatile unsigned first __attribute__((section(".rodata"))) = 1;
//! const volatile unsigned limit __attribute__((section(".rodata"))) = 5;
//! __attribute__((section("xdp"), used)) int pass(void *ctx) { return limit; }
//! ```
//!
//! by `-target bpf -O2`, each changed in some places.
use super::small::program_fault;
use bpf_object::{ConstantReference, ConstantsFault, Object, ProgramFault, RelocationFault};
use std::alloc::Global;

/// The places at which the number of the wide load, the name `.rodata` and the headers of sections `.relxdp` and `.rodata` begin.
const IMM: usize = 68;

const NAME: usize = 308;

const RELOCATIONS: usize = 576;

const CONSTANTS: usize = 640;

const SETTINGS: [u8; 832] = [
    127, 69, 76, 70, 2, 1, 1, 0, 0, 0, 0, 0, 0, 0, 0, 0, 1, 0, 247, 0, 1, 0, 0, 0, 0, 0, 0, 0, 0,
    0, 0, 0, 0, 0, 0, 0, 0, 0, 0, 0, 64, 1, 0, 0, 0, 0, 0, 0, 0, 0, 0, 0, 64, 0, 0, 0, 0, 0, 64, 0,
    8, 0, 1, 0, 24, 1, 0, 0, 0, 0, 0, 0, 0, 0, 0, 0, 0, 0, 0, 0, 97, 16, 0, 0, 0, 0, 0, 0, 149, 0,
    0, 0, 0, 0, 0, 0, 1, 0, 0, 0, 5, 0, 0, 0, 0, 0, 0, 0, 0, 0, 0, 0, 0, 0, 0, 0, 0, 0, 0, 0, 0, 0,
    0, 0, 0, 0, 0, 0, 46, 0, 0, 0, 4, 0, 241, 255, 0, 0, 0, 0, 0, 0, 0, 0, 0, 0, 0, 0, 0, 0, 0, 0,
    19, 0, 0, 0, 18, 0, 3, 0, 0, 0, 0, 0, 0, 0, 0, 0, 32, 0, 0, 0, 0, 0, 0, 0, 13, 0, 0, 0, 17, 0,
    5, 0, 4, 0, 0, 0, 0, 0, 0, 0, 4, 0, 0, 0, 0, 0, 0, 0, 7, 0, 0, 0, 17, 0, 5, 0, 0, 0, 0, 0, 0,
    0, 0, 0, 4, 0, 0, 0, 0, 0, 0, 0, 0, 0, 0, 0, 0, 0, 0, 0, 1, 0, 0, 0, 3, 0, 0, 0, 2, 3, 0, 46,
    116, 101, 120, 116, 0, 102, 105, 114, 115, 116, 0, 108, 105, 109, 105, 116, 0, 112, 97, 115,
    115, 0, 46, 114, 101, 108, 120, 100, 112, 0, 46, 108, 108, 118, 109, 95, 97, 100, 100, 114,
    115, 105, 103, 0, 99, 46, 99, 0, 46, 115, 116, 114, 116, 97, 98, 0, 46, 115, 121, 109, 116, 97,
    98, 0, 46, 114, 111, 100, 97, 116, 97, 0, 0, 0, 0, 0, 0, 0, 0, 0, 0, 0, 0, 0, 0, 0, 0, 0, 0, 0,
    0, 0, 0, 0, 0, 0, 0, 0, 0, 0, 0, 0, 0, 0, 0, 0, 0, 0, 0, 0, 0, 0, 0, 0, 0, 0, 0, 0, 0, 0, 0, 0,
    0, 0, 0, 0, 0, 0, 0, 0, 0, 0, 0, 0, 0, 0, 0, 0, 0, 0, 50, 0, 0, 0, 3, 0, 0, 0, 0, 0, 0, 0, 0,
    0, 0, 0, 0, 0, 0, 0, 0, 0, 0, 0, 242, 0, 0, 0, 0, 0, 0, 0, 74, 0, 0, 0, 0, 0, 0, 0, 0, 0, 0, 0,
    0, 0, 0, 0, 1, 0, 0, 0, 0, 0, 0, 0, 0, 0, 0, 0, 0, 0, 0, 0, 1, 0, 0, 0, 1, 0, 0, 0, 6, 0, 0, 0,
    0, 0, 0, 0, 0, 0, 0, 0, 0, 0, 0, 0, 64, 0, 0, 0, 0, 0, 0, 0, 0, 0, 0, 0, 0, 0, 0, 0, 0, 0, 0,
    0, 0, 0, 0, 0, 4, 0, 0, 0, 0, 0, 0, 0, 0, 0, 0, 0, 0, 0, 0, 0, 28, 0, 0, 0, 1, 0, 0, 0, 6, 0,
    0, 0, 0, 0, 0, 0, 0, 0, 0, 0, 0, 0, 0, 0, 64, 0, 0, 0, 0, 0, 0, 0, 32, 0, 0, 0, 0, 0, 0, 0, 0,
    0, 0, 0, 0, 0, 0, 0, 8, 0, 0, 0, 0, 0, 0, 0, 0, 0, 0, 0, 0, 0, 0, 0, 24, 0, 0, 0, 9, 0, 0, 0,
    64, 0, 0, 0, 0, 0, 0, 0, 0, 0, 0, 0, 0, 0, 0, 0, 224, 0, 0, 0, 0, 0, 0, 0, 16, 0, 0, 0, 0, 0,
    0, 0, 7, 0, 0, 0, 3, 0, 0, 0, 8, 0, 0, 0, 0, 0, 0, 0, 16, 0, 0, 0, 0, 0, 0, 0, 66, 0, 0, 0, 1,
    0, 0, 0, 2, 0, 0, 0, 0, 0, 0, 0, 0, 0, 0, 0, 0, 0, 0, 0, 96, 0, 0, 0, 0, 0, 0, 0, 8, 0, 0, 0,
    0, 0, 0, 0, 0, 0, 0, 0, 0, 0, 0, 0, 4, 0, 0, 0, 0, 0, 0, 0, 0, 0, 0, 0, 0, 0, 0, 0, 32, 0, 0,
    0, 3, 76, 255, 111, 0, 0, 0, 128, 0, 0, 0, 0, 0, 0, 0, 0, 0, 0, 0, 0, 240, 0, 0, 0, 0, 0, 0, 0,
    2, 0, 0, 0, 0, 0, 0, 0, 7, 0, 0, 0, 0, 0, 0, 0, 1, 0, 0, 0, 0, 0, 0, 0, 0, 0, 0, 0, 0, 0, 0, 0,
    58, 0, 0, 0, 2, 0, 0, 0, 0, 0, 0, 0, 0, 0, 0, 0, 0, 0, 0, 0, 0, 0, 0, 0, 104, 0, 0, 0, 0, 0, 0,
    0, 120, 0, 0, 0, 0, 0, 0, 0, 1, 0, 0, 0, 2, 0, 0, 0, 8, 0, 0, 0, 0, 0, 0, 0, 24, 0, 0, 0, 0, 0,
    0, 0,
];

/// The object with other bytes at some places.
fn changed(changes: &[(usize, u8)]) -> [u8; 832] {
    let mut bytes = SETTINGS;
    for (place, byte) in changes {
        if *place < bytes.len() {
            bytes[*place] = *byte;
        }
    }
    bytes
}

/// The object in which the section of constants has a name of as many bytes.
fn named(name: &[u8; 7]) -> [u8; 832] {
    let mut bytes = SETTINGS;
    for (place, byte) in name.iter().enumerate() {
        bytes[NAME + place] = *byte;
    }
    bytes
}

/// Returns where the program's constant lies in section 5.
fn place(alloc: Global, bytes: &[u8]) -> Option<u32> {
    match Object::parse(bytes) {
        Ok(object) => match object.program(alloc, b"pass") {
            Ok(program) => match program.constants.first() {
                Some(
                    ConstantReference {
                        slot: 0,
                        section: 5,
                        place,
                    },
                ) => Some(*place),
                _ => None,
            },
            Err(_fault) => None,
        },
        Err(_fault) => None,
    }
}

/// The fault of the relocation.
fn relocation(cause: RelocationFault) -> Option<ProgramFault> {
    Some(ProgramFault::Relocation(0, cause))
}

/// Returns the number of bytes of constants that a section has, or why it has none.
fn constants(bytes: &[u8], section: usize) -> Result<usize, ConstantsFault> {
    match Object::parse(bytes) {
        Ok(object) => match object.constants(section) {
            Ok(constants) => Ok(constants.bytes.len()),
            Err(fault) => Err(fault),
        },
        Err(_fault) => Ok(0),
    }
}

#[test]
fn a_constant_lies_behind_its_symbol(rt: HostRuntime) {
    assert_eq!(rt; place(rt.alloc(), &SETTINGS), Some(4));
    assert_eq!(rt; place(rt.alloc(), &changed(&[(IMM, 3)])), Some(7));
    let before = changed(&[(IMM, 252), (IMM + 1, 255), (IMM + 2, 255), (IMM + 3, 255)]);
    assert_eq!(rt; place(rt.alloc(), &before), Some(0));
}

#[test]
fn the_high_half_of_the_load_is_not_read(rt: HostRuntime) {
    assert_eq!(rt; place(rt.alloc(), &changed(&[(IMM + 8, 1)])), Some(4));
}

#[test]
fn a_constant_lies_in_its_section(rt: HostRuntime) {
    let behind = changed(&[(IMM, 4)]);
    assert_eq!(rt;
        program_fault(rt.alloc(), &behind),
        relocation(RelocationFault::Outside)
    );
    let far_before = changed(&[(IMM, 251), (IMM + 1, 255), (IMM + 2, 255), (IMM + 3, 255)]);
    assert_eq!(rt;
        program_fault(rt.alloc(), &far_before),
        relocation(RelocationFault::Outside)
    );
}

#[test]
fn globals_are_refused(rt: HostRuntime) {
    for name in [b".data\0\0", b".bss\0\0\0", b".data.a", b".bss.ab"] {
        assert_eq!(rt;
            program_fault(rt.alloc(), &named(name)),
            relocation(RelocationFault::Global)
        );
    }
}

#[test]
fn other_sections_have_no_constants(rt: HostRuntime) {
    for name in [b".rodatb", b"xrodata", b".datas\0", b".bsss\0\0"] {
        assert_eq!(rt;
            program_fault(rt.alloc(), &named(name)),
            relocation(RelocationFault::Other)
        );
        assert_eq!(rt;
            constants(&named(name), 5),
            Err(ConstantsFault::NoConstants)
        );
    }
    let zeros = changed(&[(CONSTANTS + 4, 8)]);
    assert_eq!(rt;
        program_fault(rt.alloc(), &zeros),
        relocation(RelocationFault::Other)
    );
    for section in [0, 3, 8, 65_541] {
        assert_eq!(rt;
            constants(&SETTINGS, section),
            Err(ConstantsFault::NoConstants)
        );
    }
}

#[test]
fn constants_have_a_name(rt: HostRuntime) {
    assert_eq!(rt; constants(&SETTINGS, 5), Ok(8));
    assert_eq!(rt;
        constants(&changed(&[(NAME + 7, b'.')]), 5),
        Err(ConstantsFault::Name)
    );
}

#[test]
fn constants_are_no_addresses(rt: HostRuntime) {
    let with_addends = [(RELOCATIONS + 44, 5), (RELOCATIONS + 4, 4)];
    assert_eq!(rt;
        constants(&changed(&with_addends[..1]), 5),
        Err(ConstantsFault::Addresses)
    );
    assert_eq!(rt;
        constants(&changed(&with_addends), 5),
        Err(ConstantsFault::Addresses)
    );
}
