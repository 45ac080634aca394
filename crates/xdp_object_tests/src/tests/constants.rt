//! Constants of an object that clang 19 makes of
//!
//! ```c
//! const volatile unsigned first __attribute__((section(".rodata"))) = 1;
//! const volatile unsigned limit __attribute__((section(".rodata"))) = 5;
//! __attribute__((section("xdp"), used)) int pass(void *ctx) { return limit; }
//! ```
//!
//! by `-target bpf -O2`, with more or fewer bytes.
use bpf_lists::MapList;
use bpf_note::{MapKey, MapShape};
use std::alloc::{AllocError, Global};
use xdp_object::{ObjectSetup, SetupFault, setup_of};

/// The place at which the section of constants says how many bytes it has.
const SIZE: usize = 672;

const SETTINGS: [u8; 832] = [
    127, 69, 76, 70, 2, 1, 1, 0, 0, 0, 0, 0, 0, 0, 0, 0, 1, 0, 247, 0, 1, 0, 0, 0, 0, 0, 0, 0, 0,
    0, 0, 0, 0, 0, 0, 0, 0, 0, 0, 0, 64, 1, 0, 0, 0, 0, 0, 0, 0, 0, 0, 0, 64, 0, 0, 0, 0, 0, 64, 0,
    8, 0, 1, 0, 24, 1, 0, 0, 0, 0, 0, 0, 0, 0, 0, 0, 0, 0, 0, 0, 97, 16, 0, 0, 0, 0, 0, 0, 149, 0,
    0, 0, 0, 0, 0, 0, 1, 0, 0, 0, 5, 0, 0, 0, 0, 0, 0, 0, 0, 0, 0, 0, 0, 0, 0, 0, 0, 0, 0, 0, 0, 0,
    0, 0, 0, 0, 0, 0, 46, 0, 0, 0, 4, 0, 241, 255, 0, 0, 0, 0, 0, 0, 0, 0, 0, 0, 0, 0, 0, 0, 0, 0,
    19, 0, 0, 0, 18, 0, 3, 0, 0, 0, 0, 0, 0, 0, 0, 0, 32, 0, 0, 0, 0, 0, 0, 0, 13, 0, 0, 0, 17, 0,
    5, 0, 4, 0, 0, 0, 0, 0, 0, 0, 4, 0, 0, 0, 0, 0, 0, 0, 7, 0, 0, 0, 17, 0, 5, 0, 0, 0, 0, 0, 0,
    0, 0, 0, 4, 0, 0, 0, 0, 0, 0, 0, 0, 0, 0, 0, 0, 0, 0, 0, 1, 0, 0, 0, 3, 0, 0, 0, 2, 3, 0, 46,
    116, 101, 120, 116, 0, 102, 105, 114, 115, 116, 0, 108, 105, 109, 105, 116, 0, 112, 97, 115,
    115, 0, 46, 114, 101, 108, 120, 100, 112, 0, 46, 108, 108, 118, 109, 95, 97, 100, 100, 114,
    115, 105, 103, 0, 99, 46, 99, 0, 46, 115, 116, 114, 116, 97, 98, 0, 46, 115, 121, 109, 116, 97,
    98, 0, 46, 114, 111, 100, 97, 116, 97, 0, 0, 0, 0, 0, 0, 0, 0, 0, 0, 0, 0, 0, 0, 0, 0, 0, 0, 0,
    0, 0, 0, 0, 0, 0, 0, 0, 0, 0, 0, 0, 0, 0, 0, 0, 0, 0, 0, 0, 0, 0, 0, 0, 0, 0, 0, 0, 0, 0, 0, 0,
    0, 0, 0, 0, 0, 0, 0, 0, 0, 0, 0, 0, 0, 0, 0, 0, 0, 0, 50, 0, 0, 0, 3, 0, 0, 0, 0, 0, 0, 0, 0,
    0, 0, 0, 0, 0, 0, 0, 0, 0, 0, 0, 242, 0, 0, 0, 0, 0, 0, 0, 74, 0, 0, 0, 0, 0, 0, 0, 0, 0, 0, 0,
    0, 0, 0, 0, 1, 0, 0, 0, 0, 0, 0, 0, 0, 0, 0, 0, 0, 0, 0, 0, 1, 0, 0, 0, 1, 0, 0, 0, 6, 0, 0, 0,
    0, 0, 0, 0, 0, 0, 0, 0, 0, 0, 0, 0, 64, 0, 0, 0, 0, 0, 0, 0, 0, 0, 0, 0, 0, 0, 0, 0, 0, 0, 0,
    0, 0, 0, 0, 0, 4, 0, 0, 0, 0, 0, 0, 0, 0, 0, 0, 0, 0, 0, 0, 0, 28, 0, 0, 0, 1, 0, 0, 0, 6, 0,
    0, 0, 0, 0, 0, 0, 0, 0, 0, 0, 0, 0, 0, 0, 64, 0, 0, 0, 0, 0, 0, 0, 32, 0, 0, 0, 0, 0, 0, 0, 0,
    0, 0, 0, 0, 0, 0, 0, 8, 0, 0, 0, 0, 0, 0, 0, 0, 0, 0, 0, 0, 0, 0, 0, 24, 0, 0, 0, 9, 0, 0, 0,
    64, 0, 0, 0, 0, 0, 0, 0, 0, 0, 0, 0, 0, 0, 0, 0, 224, 0, 0, 0, 0, 0, 0, 0, 16, 0, 0, 0, 0, 0,
    0, 0, 7, 0, 0, 0, 3, 0, 0, 0, 8, 0, 0, 0, 0, 0, 0, 0, 16, 0, 0, 0, 0, 0, 0, 0, 66, 0, 0, 0, 1,
    0, 0, 0, 2, 0, 0, 0, 0, 0, 0, 0, 0, 0, 0, 0, 0, 0, 0, 0, 96, 0, 0, 0, 0, 0, 0, 0, 8, 0, 0, 0,
    0, 0, 0, 0, 0, 0, 0, 0, 0, 0, 0, 0, 4, 0, 0, 0, 0, 0, 0, 0, 0, 0, 0, 0, 0, 0, 0, 0, 32, 0, 0,
    0, 3, 76, 255, 111, 0, 0, 0, 128, 0, 0, 0, 0, 0, 0, 0, 0, 0, 0, 0, 0, 240, 0, 0, 0, 0, 0, 0, 0,
    2, 0, 0, 0, 0, 0, 0, 0, 7, 0, 0, 0, 0, 0, 0, 0, 1, 0, 0, 0, 0, 0, 0, 0, 0, 0, 0, 0, 0, 0, 0, 0,
    58, 0, 0, 0, 2, 0, 0, 0, 0, 0, 0, 0, 0, 0, 0, 0, 0, 0, 0, 0, 0, 0, 0, 0, 104, 0, 0, 0, 0, 0, 0,
    0, 120, 0, 0, 0, 0, 0, 0, 0, 1, 0, 0, 0, 2, 0, 0, 0, 8, 0, 0, 0, 0, 0, 0, 0, 24, 0, 0, 0, 0, 0,
    0, 0,
];

/// The bytes of the object with zeros behind it.
const BYTES: usize = 66_000;

/// Writes a byte, if there is such a place.
fn set(bytes: &mut [u8], place: usize, byte: u8) {
    if place < bytes.len() {
        bytes[place] = byte;
    }
}

/// The object with as many bytes of constants, of which the later ones are those behind it.
pub fn of_size(alloc: Global, size: u32) -> Result<Vec<u8>, AllocError> {
    let mut bytes = vec![in alloc; 0; BYTES]?;
    for (place, byte) in SETTINGS.iter().enumerate() {
        set(bytes.as_mut_slice(), place, *byte);
    }
    for (place, byte) in size.to_le_bytes().iter().enumerate() {
        set(bytes.as_mut_slice(), SIZE + place, *byte);
    }
    Ok(bytes)
}

/// The setup of the program that has as many bytes of constants.
pub fn setup(alloc: Global, size: u32) -> Result<ObjectSetup, SetupFault> {
    match of_size(alloc, size) {
        Ok(bytes) => setup_of(alloc, bytes.as_slice(), b"pass"),
        Err(_) => Err(SetupFault::Memory),
    }
}

/// Returns the number of bytes of constants that the program has, or the number of the fault and where it is.
fn constants(alloc: Global, size: u32) -> Result<usize, (u8, usize)> {
    match setup(alloc, size) {
        Ok(setup) => match setup.lists.first() {
            Some(Some(MapList::Constants(bytes))) => Ok(bytes.as_slice().len()),
            _ => Ok(0),
        },
        Err(fault) => Err((fault.number(), fault.place())),
    }
}

#[test]
fn a_program_has_its_constants(rt: HostRuntime) {
    match setup(rt.alloc(), 8) {
        Ok(setup) => {
            assert_eq!(rt;
                setup.shapes.first().copied(),
                MapShape::keyed(MapKey::Constants(8), 1, 1)
            );
            assert_eq!(rt; setup.program.get(4).copied(), Some(4));
            assert_eq!(rt; setup.program.get(7).copied(), Some(0x38));
            assert_eq!(rt; setup.names.len(), 1);
        }
        Err(fault) => assert_eq!(rt; fault.number(), 255),
    }
}

#[test]
fn a_map_has_at_most_65536_bytes_of_constants(rt: HostRuntime) {
    assert_eq!(rt; constants(rt.alloc(), 5), Ok(5));
    assert_eq!(rt; constants(rt.alloc(), 4), Err((30, 0)));
    assert_eq!(rt; constants(rt.alloc(), 65_536), Ok(65_536));
    assert_eq!(rt; constants(rt.alloc(), 65_537), Err((33, 0)));
}
