//! The function of an object with the numbers of given maps, or what the given maps lack.
use super::constants::of_size;
use super::object::COUNT;
use bpf_lists::{ConstantBytes, MapList};
use bpf_note::{KeyKind, MapKey, MapShape};
use std::alloc::Global;
use xdp_object::{GivenMaps, OriginalFault, original_of, setup_of};

/// The byte of the function that says the number of its map.
const NUMBER: usize = 36;

/// The function of this name with two given maps, of which the second has this name and shape.
fn original(
    alloc: Global,
    function: &str,
    name: &str,
    shape: Option<MapShape>,
) -> Result<Vec<u8>, OriginalFault> {
    let names = [
        String::from_str(alloc, "other")?,
        String::from_str(alloc, name)?,
    ];
    let lists: [Option<MapList>; 2] = [None, None];
    let shapes = match (MapShape::of(2, 2), shape) {
        (Some(first), Some(second)) => [first, second],
        _ => return Err(OriginalFault::Memory),
    };
    let given = GivenMaps {
        names: &names,
        shapes: &shapes,
        lists: &lists,
    };
    original_of(alloc, &COUNT, function.as_bytes(), &given)
}

/// The number that the function's map gets, or the number of the fault and where it is.
fn number(
    alloc: Global,
    function: &str,
    name: &str,
    shape: Option<MapShape>,
) -> Result<Option<u8>, (u8, usize)> {
    match original(alloc, function, name, shape) {
        Ok(program) => Ok(program.get(NUMBER).copied()),
        Err(fault) => Err((fault.number(), fault.place())),
    }
}

#[test]
fn the_map_is_the_one_of_its_name_and_shape(rt: HostRuntime) {
    let exact = MapKey::Listed(KeyKind::Exact(4));
    for (function, name, key, entries, counters, wanted) in [
        ("count", "seen", MapKey::Index, 2, 2, Ok(Some(1))),
        ("seen", "seen", MapKey::Index, 2, 2, Err((10, 0))),
        ("count", "sees", MapKey::Index, 2, 2, Err((34, 4))),
        ("count", "seen", MapKey::Index, 3, 2, Err((35, 4))),
        ("count", "seen", MapKey::Index, 2, 1, Err((35, 4))),
        ("count", "seen", exact, 2, 2, Err((35, 4))),
    ] {
        let shape = MapShape::keyed(key, entries, counters);
        assert_eq!(rt; number(rt.alloc(), function, name, shape), wanted);
    }
}

/// Whether parts of counters may be loaded is the settings' choice.
#[test]
fn a_map_with_parts_is_the_same(rt: HostRuntime) {
    let shape = match MapShape::of(2, 2) {
        Some(shape) => Some(shape.with_parts()),
        None => None,
    };
    assert_eq!(rt; number(rt.alloc(), "count", "seen", shape), Ok(Some(1)));
}

/// Returns whether the function with its map as the second is the object's program in all bytes but the map's number.
fn is_program_of_setup(alloc: Global) -> bool {
    match (
        original(alloc, "count", "seen", MapShape::of(2, 2)),
        setup_of(alloc, &COUNT, b"count"),
    ) {
        (Ok(original), Ok(setup)) => {
            original.len() == setup.program.len()
                && original
                    .iter()
                    .zip(setup.program.iter())
                    .enumerate()
                    .all(|(at, (one, other))| at == NUMBER || one == other)
        }
        _ => false,
    }
}

#[test]
fn the_function_is_the_program_of_the_object(rt: HostRuntime) {
    assert!(rt; is_program_of_setup(rt.alloc()));
}

/// The function that loads a constant, beside one given map of this name, size and bytes, if it has some.
fn constant(
    alloc: Global,
    name: &str,
    size: u32,
    bytes: Option<&[u8]>,
) -> Result<Vec<u8>, OriginalFault> {
    let object = of_size(alloc, 8)?;
    let names = [String::from_str(alloc, name)?];
    let lists = match bytes {
        Some(bytes) => [Some(MapList::Constants(ConstantBytes::make(bytes.to_vec(alloc)?)))],
        None => [None],
    };
    let Some(shape) = MapShape::keyed(MapKey::Constants(size), 1, 1) else {
        return Err(OriginalFault::Memory);
    };
    let given = GivenMaps {
        names: &names,
        shapes: &[shape],
        lists: &lists,
    };
    original_of(alloc, object.as_slice(), b"pass", &given)
}

/// The number and the place of the fault that the function has beside this map, if it has one.
fn constant_fault(
    alloc: Global,
    name: &str,
    size: u32,
    bytes: Option<&[u8]>,
) -> Option<(u8, usize)> {
    match constant(alloc, name, size, bytes) {
        Ok(_) => None,
        Err(fault) => Some((fault.number(), fault.place())),
    }
}

#[test]
fn the_constants_are_those_of_the_object(rt: HostRuntime) {
    let bytes: &[u8] = &[1, 0, 0, 0, 5, 0, 0, 0];
    let others: &[u8] = &[1, 0, 0, 0, 6, 0, 0, 0];
    for (name, size, bytes, wanted) in [
        (".rodata", 8, Some(bytes), None),
        (".rodata", 8, Some(others), Some((36, 0))),
        (".rodata", 8, None, Some((36, 0))),
        (".rodata", 7, Some(bytes), Some((35, 0))),
        (".data", 8, Some(bytes), Some((34, 0))),
    ] {
        assert_eq!(rt; constant_fault(rt.alloc(), name, size, bytes), wanted);
    }
}
