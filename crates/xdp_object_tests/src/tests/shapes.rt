//! The program of an object, with its map.
use super::object::COUNT;
use bpf_note::{MapKey, MapShape};
use xdp_object::setup_of;

/// The map: two entries of 12 bytes, in counters of eight bytes of which a part may be loaded.
fn seen() -> Option<MapShape> {
    match MapShape::keyed(MapKey::Index, 2, 2) {
        Some(shape) => Some(shape.with_parts()),
        None => None,
    }
}

#[test]
fn a_program_has_its_map(rt: HostRuntime) {
    match setup_of(rt.alloc(), &COUNT, b"count") {
        Ok(setup) => {
            assert_eq!(rt; setup.program.len() % 8, 0);
            assert_eq!(rt; setup.shapes.first().copied(), seen());
            assert_eq!(rt; setup.names.len(), 1);
        }
        Err(fault) => assert_eq!(rt; fault.number(), 255),
    }
}

#[test]
fn another_function_isnt_there(rt: HostRuntime) {
    match setup_of(rt.alloc(), &COUNT, b"seen") {
        Ok(setup) => assert_eq!(rt; setup.names.len(), 255),
        Err(fault) => assert_eq!(rt; (fault.number(), fault.place()), (10, 0)),
    }
}
