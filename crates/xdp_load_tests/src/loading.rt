//! What settings give, as plain values.
ghost use Rattle.std.specs.Prelude.{◌≤◌, length};

use bpf_lists::MapList;
use std::alloc::Global;
use xdp_load::{
    Beside, Fault, Listed, LoadError, OfFunction, OriginalPlace, Part, Rewritten, Setup, Spot,
    load, load_beside, load_listed,
};

/// The numbers of the program's bytes, and of shapes, names, steps and packets; the queues; the interface's number; and the index
/// at which each ring begins.
pub type Counts = ([usize; 5], usize, u32, u32);

/// The number of the fault of settings, if they have one.
pub fn fault_number(alloc: Global, bytes: &[u8]) -> Option<u8> {
    match load(alloc, bytes) {
        Ok(_) => None,
        Err(error) => Some(error.fault().number()),
    }
}

/// The number of the fault of the first bytes of settings, if they have one.
pub fn fault_of_beginning(alloc: Global, bytes: &[u8], end: usize) -> Option<u8>
    requires { end ≤ length bytes.now }
{
    fault_number(alloc, &bytes[..end])
}

fn counts_of(setup: &Setup) -> Counts {
    let lengths = [
        setup.program.len(),
        setup.shapes.len(),
        setup.names.len(),
        setup.script.len(),
        setup.packets.len(),
    ];
    (lengths, setup.queues, setup.ifindex, setup.start)
}

/// The counts of a setup, or why there is none.
pub fn counts(alloc: Global, text: &str) -> Result<Counts, LoadError> {
    match load(alloc, text.as_bytes()) {
        Ok(setup) => Ok(counts_of(&setup)),
        Err(error) => Err(error),
    }
}

/// Returns whether a hexadecimal text is that of bytes.
fn is_hex_of(alloc: Global, hex: &str, bytes: &[u8]) -> bool {
    hex::encode(alloc, bytes).is_ok_and(|text| text.as_str() == hex)
}

/// Returns whether the program that settings give has these bytes, as a hexadecimal text.
pub fn gives_program(alloc: Global, text: &str, hex: &str) -> bool {
    match load(alloc, text.as_bytes()) {
        Ok(setup) => is_hex_of(alloc, hex, setup.program.as_slice()),
        Err(_) => false,
    }
}

fn has_maps(setup: &Setup, maps: &[(&str, u32, u32)]) -> bool {
    let shapes = setup.shapes.as_slice();
    let names = setup.names.as_slice();
    if shapes.len() != maps.len() || names.len() != maps.len() {
        return false;
    }
    for ((shape, name), (wanted, entries, counters)) in shapes.iter().zip(names).zip(maps) {
        let has_shape = shape.entries() == *entries && shape.counters() == *counters;
        if !has_shape || name.as_str() != *wanted {
            return false;
        }
    }
    true
}

/// Returns whether the maps that settings give have these names, entries and counters.
pub fn gives_maps(alloc: Global, text: &str, maps: &[(&str, u32, u32)]) -> bool {
    match load(alloc, text.as_bytes()) {
        Ok(setup) => has_maps(&setup, maps),
        Err(_) => false,
    }
}

fn has_packets(alloc: Global, setup: &Setup, packets: &[(usize, &str, u32)]) -> bool {
    if setup.packets.len() != packets.len() {
        return false;
    }
    for (packet, (queue, hex, times)) in setup.packets.iter().zip(packets) {
        let has_numbers = packet.queue == *queue && packet.times == *times;
        if !has_numbers || !is_hex_of(alloc, hex, packet.bytes.as_slice()) {
            return false;
        }
    }
    true
}

/// Returns whether the packets that settings give have these queues, bytes as hexadecimal texts, and times.
pub fn gives_packets(alloc: Global, text: &str, packets: &[(usize, &str, u32)]) -> bool {
    match load(alloc, text.as_bytes()) {
        Ok(setup) => has_packets(alloc, &setup, packets),
        Err(_) => false,
    }
}

/// Returns whether the script that settings give has these steps.
pub fn gives_script(alloc: Global, text: &str, script: &[(usize, u32)]) -> bool {
    match load(alloc, text.as_bytes()) {
        Ok(setup) => setup.script.as_slice() == script,
        Err(_) => false,
    }
}

fn is_at(error: &LoadError, fault: Fault, part: Part, spot: &Spot) -> bool {
    match error {
        LoadError::Memory => false,
        LoadError::Refused(refused) => refused.fault == fault
            && refused.part == part
            && refused.spot == *spot,
    }
}

/// Returns whether settings are refused for this fault at this spot.
pub fn is_refused_at(alloc: Global, text: &str, fault: Fault, spot: &Spot) -> bool {
    match load(alloc, text.as_bytes()) {
        Ok(_) => false,
        Err(error) => is_at(&error, fault, Part::Settings, spot),
    }
}

/// Returns whether settings with an original are refused for this fault at this spot of their own keys or of the original's.
pub fn is_beside_refused_at(
    alloc: Global,
    text: &str,
    fault: Fault,
    part: Part,
    spot: &Spot,
) -> bool {
    match load_beside(alloc, text.as_bytes()) {
        Ok(_) => false,
        Err(error) => is_at(&error, fault, part, spot),
    }
}

/// The settings beside a program, if they are such.
fn rewritten(alloc: Global, text: &str) -> Option<Rewritten> {
    match load_beside(alloc, text.as_bytes()) {
        Ok(Beside::Program(rewritten)) => Some(rewritten),
        Ok(Beside::Function(_)) | Err(_) => None,
    }
}

/// The settings beside a function of an object, if they are such.
fn of_function(alloc: Global, text: &str) -> Option<OfFunction> {
    match load_beside(alloc, text.as_bytes()) {
        Ok(Beside::Function(of_function)) => Some(of_function),
        Ok(Beside::Program(_)) | Err(_) => None,
    }
}

fn has_places(places: &[OriginalPlace], wanted: &[(u32, bool)]) -> bool {
    places.len() == wanted.len()
        && places
            .iter()
            .zip(wanted)
            .all(|(place, (at, own))| place.at == *at && place.own == *own)
}

/// Returns whether settings with an original give this program and this original, as hexadecimal texts, and these places.
pub fn gives_original(
    alloc: Global,
    text: &str,
    program: &str,
    original: &str,
    places: &[(u32, bool)],
) -> bool {
    rewritten(alloc, text).is_some_and(|rewritten| {
        is_hex_of(alloc, program, rewritten.listed.setup.program.as_slice())
            && is_hex_of(alloc, original, rewritten.original.as_slice())
            && has_places(rewritten.places.as_slice(), places)
    })
}

/// Returns whether settings beside a function give this object, as a hexadecimal text, this name and these places.
pub fn gives_function(
    alloc: Global,
    text: &str,
    object: &str,
    function: &str,
    places: &[(u32, bool)],
) -> bool {
    of_function(alloc, text).is_some_and(|given| {
        is_hex_of(alloc, object, given.object.as_slice())
            && given.function.as_str() == function
            && has_places(given.places.as_slice(), places)
    })
}

/// Returns whether settings with lists are refused for this fault at this spot.
pub fn is_listed_refused_at(alloc: Global, text: &str, fault: Fault, spot: &Spot) -> bool {
    match load_listed(alloc, text.as_bytes()) {
        Ok(_) => false,
        Err(error) => is_at(&error, fault, Part::Settings, spot),
    }
}

/// Returns whether the maps that settings with lists give have these names, entries and counters.
pub fn gives_listed_maps(alloc: Global, text: &str, maps: &[(&str, u32, u32)]) -> bool {
    match load_listed(alloc, text.as_bytes()) {
        Ok(listed) => has_maps(&listed.setup, maps),
        Err(_) => false,
    }
}

/// The row that a key, as a hexadecimal text, finds in the list of a map, if there is one.
fn row_in(alloc: Global, listed: &Listed, number: usize, key: &str) -> Option<u32> {
    let rows = match listed.lists.as_slice().get(number)?.as_ref()? {
        MapList::Rows(rows) => rows,
        MapList::Constants(_) => return None,
    };
    let key = hex::decode(alloc, key).ok()?;
    if key.len() != rows.kind().size() {
        return None;
    }
    rows.find(key.as_slice())
}

/// The row that a key finds in the list of a map of settings, if there is one.
pub fn found_row(alloc: Global, text: &str, number: usize, key: &str) -> Option<u32> {
    let listed = load_listed(alloc, text.as_bytes()).ok()?;
    row_in(alloc, &listed, number, key)
}

/// The byte of constants at a place of a map of settings, if there is one.
pub fn constant_at(alloc: Global, text: &str, number: usize, place: usize) -> Option<u8> {
    let listed = load_listed(alloc, text.as_bytes()).ok()?;
    match listed.lists.as_slice().get(number)?.as_ref()? {
        MapList::Rows(_) => None,
        MapList::Constants(bytes) => bytes.as_slice().get(place).copied(),
    }
}

/// Returns whether loads may take parts of the counters of a map of settings, if there is one.
pub fn has_parts(alloc: Global, text: &str, number: usize) -> Option<bool> {
    let listed = load_listed(alloc, text.as_bytes()).ok()?;
    Some(listed.setup.shapes.as_slice().get(number)?.has_parts())
}

fn lists_in(listed: &Listed) -> usize {
    listed.lists.iter().filter(|list| list.is_some()).count()
}

/// The number with that place among those of a map, if there is one.
fn number_in(setup: &Setup, number: usize, place: usize) -> Option<u64> {
    setup
        .values
        .as_slice()
        .get(number)?
        .as_slice()
        .get(place)
        .copied()
}

/// The number with that place among those that settings give a map.
pub fn value_at(alloc: Global, text: &str, number: usize, place: usize) -> Option<u64> {
    number_in(&load(alloc, text.as_bytes()).ok()?, number, place)
}

/// The same of settings with lists.
pub fn listed_value_at(alloc: Global, text: &str, number: usize, place: usize) -> Option<u64> {
    number_in(
        &load_listed(alloc, text.as_bytes()).ok()?.setup,
        number,
        place,
    )
}

/// Returns the number of maps of settings that have a list.
pub fn lists_given(alloc: Global, text: &str) -> Option<usize> {
    let listed = load_listed(alloc, text.as_bytes()).ok()?;
    Some(lists_in(&listed))
}

/// Returns the number of maps with a list in settings with an original.
pub fn lists_beside_original(alloc: Global, text: &str) -> Option<usize> {
    Some(lists_in(&rewritten(alloc, text)?.listed))
}

/// Returns the number of maps with a list in settings beside a function.
pub fn lists_beside_function(alloc: Global, text: &str) -> Option<usize> {
    Some(lists_in(&of_function(alloc, text)?.listed))
}

/// The counts of a setup with lists, or why there is none.
pub fn listed_counts(alloc: Global, text: &str) -> Result<Counts, LoadError> {
    match load_listed(alloc, text.as_bytes()) {
        Ok(listed) => Ok(counts_of(&listed.setup)),
        Err(error) => Err(error),
    }
}
