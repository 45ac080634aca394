//! A function of an object with the numbers of given maps: the program that one with these maps was made of.
ghost use Rattle.std.specs.Prelude.{◌≡◌, ◌+◌, ◌*◌, ◌<◌, ◌≤◌, All, IfErr, IfOk, IsTrue, OnOk, Some, ◌↔◌, length, map, position, string_bytes};
ghost use Rattle.std.specs.Str.{bytes_eq};
ghost use Rattle.bpf_lists.specs.declared.list.MapList.TheVariants.{Constants};
ghost use Rattle.bpf_object.specs.Map.{AreTypesOf};
ghost use Rattle.xdp_object.specs.Original.{AreConstantsGiven, AreConstantsNotGiven, AreNumbered, ArePlaced, IsGiven, IsMapGiven, IsMapNotGiven};
ghost use Rattle.xdp_object.specs.Original.{IsNoOriginal, IsNoOriginalIn, IsNotGiven, IsOriginalIn, IsOriginalOf, whole};
ghost use Rattle.xdp_object.specs.OriginalSeen.{IsUnnumbered, IsUnplaced, given_seen};

use crate::constants::{constants_in, shape_of};
use crate::fault::{GivenCause, OriginalFault};
use crate::link::{address_of, set_address, set_map};
use crate::maps::{name_in, shape_in};
use bpf_lists::MapList;
use bpf_note::MapShape;
use bpf_object::{ConstantReference, MapReference, Object, Types};
use std::alloc::Global;

/// The names, the shapes and the lists of given maps, by their numbers.
#[derive(Clone, Copy)]
pub struct GivenMaps<'a> {
    pub names: &'a [String],
    pub shapes: &'a [MapShape],
    pub lists: &'a [Option<MapList>],
}

/// Returns whether two shapes are one, but that one may let a load take a part of a counter.
fn are_alike(one: MapShape, other: MapShape) -> bool
    ensures { IsTrue result ↔ whole one ≡ whole other }
{
    one.entries() == other.entries()
        && one.counters() == other.counters()
        && one.key() == other.key()
}

impl GivenMaps<'_> {
    /// The number of the map of a name.
    fn position(&self, name: &str) -> Option<usize>
        ensures { result ≡ position (bytes_eq name.now) (map string_bytes self.now.names.now) }
    {
        self.names.iter().position(|other| name == other.as_str())
    }

    /// The number of the map of this name and shape.
    fn number(&self, name: &str, shape: MapShape) -> Result<usize, GivenCause>
        ensures ok { IfOk result (IsGiven (given_seen self.now) name.now shape) }
        ensures few { IfOk result (λ n. n < length self.now.names.now) }
        ensures err { IfErr result (IsNotGiven (given_seen self.now) name.now shape) }
    {
        let number = self.position(name).ok_or(GivenCause::Name)?;
        match self.shapes.get(number) {
            Some(given) if are_alike(*given, shape) => Ok(number),
            _ => Err(GivenCause::Shape),
        }
    }
}

/// Returns whether a map's list is these constants.
fn are_constants(list: &Option<MapList>, bytes: &[u8]) -> bool
    ensures { IsTrue result ↔ list.now ≡ Some (Constants bytes.now) }
{
    match list {
        Some(MapList::Constants(constants)) => constants.as_slice() == bytes,
        _ => false,
    }
}

/// The number of the given map that a symbol's map is.
fn map_number(
    alloc: Global,
    object: &Object,
    types: &Types,
    symbol: usize,
    given: &GivenMaps<'_>,
) -> Result<usize, GivenCause>
    requires { AreTypesOf object.now types.now }
    ensures ok { IfOk result (IsMapGiven object.now (given_seen given.now) symbol) }
    ensures few { IfOk result (λ n. n < length given.now.names.now) }
    ensures err { IfErr result (IsMapNotGiven object.now (given_seen given.now) symbol) }
{
    let name = match name_in(alloc, object, types, symbol) {
        Ok(name) => name,
        Err(cause) => return Err(GivenCause::Map(cause)),
    };
    match shape_in(object, types, symbol, name) {
        Ok(shape) => given.number(name, shape),
        Err(cause) => Err(GivenCause::Map(cause)),
    }
}

/// The number of the given map that has the constants of a section.
fn constants_number(
    object: &Object,
    section: usize,
    given: &GivenMaps<'_>,
) -> Result<usize, GivenCause>
    ensures ok { IfOk result (AreConstantsGiven object.now (given_seen given.now) section) }
    ensures few { IfOk result (λ n. n < length given.now.names.now) }
    ensures err { IfErr result (AreConstantsNotGiven object.now (given_seen given.now) section) }
{
    let constants = match constants_in(object, section) {
        Ok(constants) => constants,
        Err(cause) => return Err(GivenCause::Map(cause)),
    };
    let number = given.number(constants.name, shape_of(constants.bytes.len()))?;
    match given.lists.get(number) {
        Some(list) if are_constants(list, constants.bytes) => Ok(number),
        _ => Err(GivenCause::Constants),
    }
}

/// Gives a program the given maps' numbers.
fn number_by(
    alloc: Global,
    object: &Object,
    types: &Types,
    program: &mut [u8],
    references: &[MapReference],
    given: &GivenMaps<'_>,
) -> Result<(), OriginalFault>
    requires types { AreTypesOf object.now types.now }
    requires inside { All (λ r. 8 * r.slot + 16 ≤ length program.old) references.now }
    requires few { length given.now.names.now ≤ 16 }
    ensures ok { OnOk result (AreNumbered object.now (given_seen given.now) program.old references.now program.new) }
    ensures whole { OnOk result (length program.new ≡ length program.old) }
    ensures err { IfErr result (IsUnnumbered object.now (given_seen given.now) program.old references.now) }
{
    for reference in references {
        match map_number(alloc, object, types, reference.map, given) {
            Ok(number) => set_map(program, 8 * reference.slot, number as u8),
            Err(cause) => return Err(OriginalFault::Map(reference.slot, cause)),
        }
    }
    Ok(())
}

/// Gives a program the given maps' numbers. Without references the object's types aren't read.
fn number_maps(
    alloc: Global,
    object: &Object,
    program: &mut [u8],
    references: &[MapReference],
    given: &GivenMaps<'_>,
) -> Result<(), OriginalFault>
    requires inside { All (λ r. 8 * r.slot + 16 ≤ length program.old) references.now }
    requires few { length given.now.names.now ≤ 16 }
    ensures ok { OnOk result (AreNumbered object.now (given_seen given.now) program.old references.now program.new) }
    ensures whole { OnOk result (length program.new ≡ length program.old) }
    ensures err { IfErr result (IsUnnumbered object.now (given_seen given.now) program.old references.now) }
{
    if references.is_empty() {
        return Ok(());
    }
    match object.types(alloc) {
        Ok(types) => number_by(alloc, object, &types, program, references, given),
        Err(fault) => Err(OriginalFault::Types(fault)),
    }
}

/// Gives a program the addresses of constants in the given maps.
fn place_constants(
    object: &Object,
    program: &mut [u8],
    references: &[ConstantReference],
    given: &GivenMaps<'_>,
) -> Result<(), OriginalFault>
    requires inside { All (λ r. 8 * r.slot + 16 ≤ length program.old) references.now }
    requires few { length given.now.names.now ≤ 16 }
    ensures ok { OnOk result (ArePlaced object.now (given_seen given.now) program.old references.now program.new) }
    ensures err { IfErr result (IsUnplaced object.now (given_seen given.now) program.old references.now) }
{
    for reference in references {
        match constants_number(object, reference.section as usize, given) {
            Ok(number) => {
                let address = address_of(number, reference.place);
                set_address(program, 8 * reference.slot, address);
            }
            Err(cause) => return Err(OriginalFault::Map(reference.slot, cause)),
        }
    }
    Ok(())
}

/// The function of this name with the given maps' numbers, in an object.
fn original_in(
    alloc: Global,
    object: &Object,
    name: &[u8],
    given: &GivenMaps<'_>,
) -> Result<Vec<u8>, OriginalFault>
    requires { length given.now.names.now ≤ 16 }
    ensures ok { IfOk result (λ p. IsOriginalIn object.now name.now (given_seen given.now) p.items) }
    ensures err { IfErr result (IsNoOriginalIn object.now name.now (given_seen given.now)) }
{
    let function = match object.program(alloc, name) {
        Ok(function) => function,
        Err(fault) => return Err(OriginalFault::Program(fault)),
    };
    let mut program = function.code.to_vec(alloc)?;
    let maps = function.maps.as_slice();
    number_maps(alloc, object, program.as_mut_slice(), maps, given)?;
    let constants = function.constants.as_slice();
    place_constants(object, program.as_mut_slice(), constants, given)?;
    Ok(program)
}

/// The program that the function of this name is with the given maps, of which each that it refers to is the object's of that name; or why
/// there is none. A given map may have rows, whatever parts of counters are loaded; what is no map of the function may be given too.
pub fn original_of(
    alloc: Global,
    bytes: &[u8],
    name: &[u8],
    given: &GivenMaps<'_>,
) -> Result<Vec<u8>, OriginalFault>
    requires { length given.now.names.now ≤ 16 }
    ensures original { IfOk result (λ p. IsOriginalOf bytes.now name.now (given_seen given.now) p.items) }
    ensures refused { IfErr result (IsNoOriginal bytes.now name.now (given_seen given.now)) }
{
    match Object::parse(bytes) {
        Ok(object) => original_in(alloc, &object, name, given),
        Err(fault) => Err(OriginalFault::Object(fault)),
    }
}
