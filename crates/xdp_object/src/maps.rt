//! The names and the shapes of a program's maps.
ghost use Rattle.std.specs.Prelude.{◌≡◌, ◌<◌, IfErr, IfNone, IfOk, IfSome, OnSome, length, map, string_bytes};
ghost use Rattle.bpf_object.specs.Map.{AreTypesOf, IsNamedMap};
ghost use Rattle.xdp_object.specs.Maps.{AreMaps, HasName, HasShape, IsCause, IsName, IsNoMapAt, IsNoMaps, IsNoneAmong};

use crate::fault::{MapCause, SetupFault};
use crate::shape::shape_of;
use bpf_note::MapShape;
use bpf_object::{Object, Types};
use std::alloc::Global;

/// The most bytes of a map's name.
const MOST_NAME_BYTES: usize = 32;

/// The names and the shapes of maps, by their numbers.
#[derive(Drop)]
pub(crate) struct Maps {
    pub(crate) names: Vec<String>,
    pub(crate) shapes: Vec<MapShape>,
}

/// The name and the shape of a map.
#[derive(Drop)]
struct NamedShape {
    name: String,
    shape: MapShape,
}

/// The shape of the map of a symbol of this name.
pub(crate) fn shape_in(
    object: &Object,
    types: &Types,
    symbol: usize,
    name: &str,
) -> Result<MapShape, MapCause>
    requires types { AreTypesOf object.now types.now }
    requires name { IsNamedMap object.now symbol name.now }
    ensures ok { IfOk result (HasShape object.now symbol) }
    ensures err { IfErr result (IsCause object.now symbol) }
{
    match object.named_map(types, symbol, name.as_bytes()) {
        Ok(definition) => match shape_of(definition) {
            Ok(shape) => Ok(shape),
            Err(fault) => Err(MapCause::Shape(fault)),
        },
        Err(fault) => Err(MapCause::Definition(fault)),
    }
}

/// The text, if it is a map's name.
pub(crate) fn right_name(name: &[u8]) -> Option<&str>
    ensures some { IfSome result (λ text. text.now ≡ name.now) }
    ensures right { OnSome result (IsName name.now) }
    ensures none { IfNone result (IsName name.now → ⊥) }
{
    if name.is_empty() || name.len() > MOST_NAME_BYTES {
        return None;
    }
    match std::str::from_utf8(name) {
        Ok(text) => Some(text),
        Err(_) => None,
    }
}

/// The name of a symbol's map.
pub(crate) fn name_in<'a>(
    alloc: Global,
    object: &Object<'a>,
    types: &Types,
    symbol: usize,
) -> Result<&'a str, MapCause>
    requires { AreTypesOf object.now types.now }
    ensures ok { IfOk result (λ name. HasName object.now symbol name.now) }
    ensures err { IfErr result (IsCause object.now symbol) }
{
    match object.map_name(alloc, symbol) {
        Ok(name) => right_name(name).ok_or(MapCause::Name),
        Err(fault) => Err(MapCause::Definition(fault)),
    }
}

/// The name and the shape of the map of a number.
fn named_shape(
    alloc: Global,
    object: &Object,
    types: &Types,
    number: usize,
    symbol: usize,
) -> Result<NamedShape, SetupFault>
    requires { AreTypesOf object.now types.now }
    ensures name { IfOk result (λ m. HasName object.now symbol (string_bytes m.name)) }
    ensures shape { IfOk result (λ m. HasShape object.now symbol m.shape) }
    ensures err { IfErr result (IsNoMapAt object.now number symbol) }
{
    let name = match name_in(alloc, object, types, symbol) {
        Ok(name) => name,
        Err(cause) => return Err(SetupFault::Map(number, cause)),
    };
    let shape = match shape_in(object, types, symbol, name) {
        Ok(shape) => shape,
        Err(cause) => return Err(SetupFault::Map(number, cause)),
    };
    let name = String::from_str(alloc, name)?;
    Ok(NamedShape { name, shape })
}

/// The names and the shapes of the maps of some symbols.
fn maps_by(
    alloc: Global,
    object: &Object,
    types: &Types,
    symbols: &[usize],
) -> Result<Maps, SetupFault>
    requires { AreTypesOf object.now types.now }
    ensures ok { IfOk result (λ m. AreMaps object.now symbols.now (map string_bytes m.names.items) m.shapes.items) }
    ensures err { IfErr result (IsNoneAmong object.now symbols.now) }
{
    let mut names = Vec::new(alloc);
    let mut shapes = Vec::new(alloc);
    for (number, symbol) in symbols.iter().enumerate() {
        let map = named_shape(alloc, object, types, number, *symbol)?;
        names.push(map.name)?;
        shapes.push(map.shape)?;
    }
    Ok(Maps { names, shapes })
}

/// The names and the shapes of the maps of some symbols. Without maps the object's types aren't read.
pub(crate) fn maps_of(alloc: Global, object: &Object, symbols: &[usize]) -> Result<Maps, SetupFault>
    ensures ok { IfOk result (λ m. AreMaps object.now symbols.now (map string_bytes m.names.items) m.shapes.items) }
    ensures err { IfErr result (IsNoMaps object.now symbols.now) }
{
    if symbols.is_empty() {
        return Ok(Maps {
            names: Vec::new(alloc),
            shapes: Vec::new(alloc),
        });
    }
    match object.types(alloc) {
        Ok(types) => maps_by(alloc, object, &types, symbols),
        Err(fault) => Err(SetupFault::Types(fault)),
    }
}
