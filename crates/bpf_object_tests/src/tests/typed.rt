//! A small object with types, written by hand: sections `.strtab` (1), `.maps` (2), `.BTF` (3) and `.symtab` (4), and the map `count`
//! (symbol 1), which libbpf reads as an array of five entries with keys of 4 bytes and values of 12. Its types: `int` (1), the numbers
//! of `type` (2, 3) and of `max_entries` (4, 5), the key's pointer (6), the value's array and pointer (7, 8), the struct (9), the
//! variable (10) and the section (11).

use bpf_object::{MapDefinition, MapFault, Object, TypesFault};
use std::alloc::Global;

/// The places at which the headers of sections, and the section of types, begin.
pub const HEADERS: usize = 488;

pub const BTF: usize = 130;

/// The place at which the map's symbol begins.
pub const SYMBOL: usize = 458;

/// The places at which types begin: those of a number, the key's pointer, the value's array, the struct, the variable and the
/// section.
pub const NUMBER: usize = 170;

pub const KEY: usize = 242;

pub const VALUE: usize = 254;

pub const STRUCT: usize = 290;

pub const VARIABLE: usize = 350;

pub const SECTION: usize = 366;

pub const TYPED: [u8; 808] = [
    127, 69, 76, 70, 2, 1, 1, 0, 0, 0, 0, 0, 0, 0, 0, 0, 1, 0, 247, 0, 1, 0, 0, 0, 0, 0, 0, 0, 0,
    0, 0, 0, 0, 0, 0, 0, 0, 0, 0, 0, 232, 1, 0, 0, 0, 0, 0, 0, 0, 0, 0, 0, 64, 0, 0, 0, 0, 0, 64,
    0, 5, 0, 1, 0, 0, 46, 115, 116, 114, 116, 97, 98, 0, 46, 109, 97, 112, 115, 0, 46, 66, 84, 70,
    0, 46, 115, 121, 109, 116, 97, 98, 0, 99, 111, 117, 110, 116, 0, 0, 0, 0, 0, 0, 0, 0, 0, 0, 0,
    0, 0, 0, 0, 0, 0, 0, 0, 0, 0, 0, 0, 0, 0, 0, 0, 0, 0, 0, 0, 0, 0, 159, 235, 1, 0, 24, 0, 0, 0,
    0, 0, 0, 0, 236, 0, 0, 0, 236, 0, 0, 0, 44, 0, 0, 0, 1, 0, 0, 0, 0, 0, 0, 1, 4, 0, 0, 0, 32, 0,
    0, 0, 0, 0, 0, 0, 0, 0, 0, 3, 0, 0, 0, 0, 1, 0, 0, 0, 1, 0, 0, 0, 2, 0, 0, 0, 0, 0, 0, 0, 0, 0,
    0, 2, 2, 0, 0, 0, 0, 0, 0, 0, 0, 0, 0, 3, 0, 0, 0, 0, 1, 0, 0, 0, 1, 0, 0, 0, 5, 0, 0, 0, 0, 0,
    0, 0, 0, 0, 0, 2, 4, 0, 0, 0, 0, 0, 0, 0, 0, 0, 0, 2, 1, 0, 0, 0, 0, 0, 0, 0, 0, 0, 0, 3, 0, 0,
    0, 0, 1, 0, 0, 0, 1, 0, 0, 0, 3, 0, 0, 0, 0, 0, 0, 0, 0, 0, 0, 2, 7, 0, 0, 0, 0, 0, 0, 0, 4, 0,
    0, 4, 32, 0, 0, 0, 5, 0, 0, 0, 3, 0, 0, 0, 0, 0, 0, 0, 10, 0, 0, 0, 5, 0, 0, 0, 64, 0, 0, 0,
    22, 0, 0, 0, 6, 0, 0, 0, 128, 0, 0, 0, 26, 0, 0, 0, 8, 0, 0, 0, 192, 0, 0, 0, 32, 0, 0, 0, 0,
    0, 0, 14, 9, 0, 0, 0, 1, 0, 0, 0, 38, 0, 0, 0, 1, 0, 0, 15, 0, 0, 0, 0, 10, 0, 0, 0, 0, 0, 0,
    0, 32, 0, 0, 0, 0, 105, 110, 116, 0, 116, 121, 112, 101, 0, 109, 97, 120, 95, 101, 110, 116,
    114, 105, 101, 115, 0, 107, 101, 121, 0, 118, 97, 108, 117, 101, 0, 99, 111, 117, 110, 116, 0,
    46, 109, 97, 112, 115, 0, 0, 0, 0, 0, 0, 0, 0, 0, 0, 0, 0, 0, 0, 0, 0, 0, 0, 0, 0, 0, 0, 0, 0,
    0, 28, 0, 0, 0, 17, 0, 2, 0, 0, 0, 0, 0, 0, 0, 0, 0, 32, 0, 0, 0, 0, 0, 0, 0, 0, 0, 0, 0, 0, 0,
    0, 0, 0, 0, 0, 0, 0, 0, 0, 0, 0, 0, 0, 0, 0, 0, 0, 0, 0, 0, 0, 0, 0, 0, 0, 0, 0, 0, 0, 0, 0, 0,
    0, 0, 0, 0, 0, 0, 0, 0, 0, 0, 0, 0, 0, 0, 0, 0, 1, 0, 0, 0, 0, 0, 0, 0, 0, 0, 0, 0, 0, 0, 0, 0,
    1, 0, 0, 0, 3, 0, 0, 0, 0, 0, 0, 0, 0, 0, 0, 0, 0, 0, 0, 0, 0, 0, 0, 0, 64, 0, 0, 0, 0, 0, 0,
    0, 34, 0, 0, 0, 0, 0, 0, 0, 0, 0, 0, 0, 0, 0, 0, 0, 1, 0, 0, 0, 0, 0, 0, 0, 0, 0, 0, 0, 0, 0,
    0, 0, 9, 0, 0, 0, 1, 0, 0, 0, 0, 0, 0, 0, 0, 0, 0, 0, 0, 0, 0, 0, 0, 0, 0, 0, 98, 0, 0, 0, 0,
    0, 0, 0, 32, 0, 0, 0, 0, 0, 0, 0, 0, 0, 0, 0, 0, 0, 0, 0, 1, 0, 0, 0, 0, 0, 0, 0, 0, 0, 0, 0,
    0, 0, 0, 0, 15, 0, 0, 0, 1, 0, 0, 0, 0, 0, 0, 0, 0, 0, 0, 0, 0, 0, 0, 0, 0, 0, 0, 0, 130, 0, 0,
    0, 0, 0, 0, 0, 48, 1, 0, 0, 0, 0, 0, 0, 0, 0, 0, 0, 0, 0, 0, 0, 1, 0, 0, 0, 0, 0, 0, 0, 0, 0,
    0, 0, 0, 0, 0, 0, 20, 0, 0, 0, 2, 0, 0, 0, 0, 0, 0, 0, 0, 0, 0, 0, 0, 0, 0, 0, 0, 0, 0, 0, 178,
    1, 0, 0, 0, 0, 0, 0, 48, 0, 0, 0, 0, 0, 0, 0, 1, 0, 0, 0, 1, 0, 0, 0, 1, 0, 0, 0, 0, 0, 0, 0,
    24, 0, 0, 0, 0, 0, 0, 0,
];

/// The object with another byte at a place.
pub fn changed(place: usize, byte: u8) -> [u8; 808] {
    let mut bytes = TYPED;
    if place < bytes.len() {
        bytes[place] = byte;
    }
    bytes
}

/// Returns why bytes have no types.
pub fn types_fault(alloc: Global, bytes: &[u8]) -> Option<TypesFault> {
    match Object::parse(bytes) {
        Ok(object) => match object.types(alloc) {
            Ok(_types) => None,
            Err(fault) => Some(fault),
        },
        Err(_fault) => None,
    }
}

/// Returns what the map is, or why it isn't defined; nothing where there are no types.
pub fn map(alloc: Global, bytes: &[u8]) -> Option<Result<MapDefinition, MapFault>> {
    match Object::parse(bytes) {
        Ok(object) => match object.types(alloc) {
            Ok(types) => Some(object.map(alloc, &types, 1)),
            Err(_fault) => None,
        },
        Err(_fault) => None,
    }
}
