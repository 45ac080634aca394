//! Maps of constants, which stand behind a program's other maps.
ghost use Rattle.std.specs.Prelude.{◌≡◌, ◌+◌, ◌≤◌, IfErr, IfOk, None, OnOk, length, replicate, vec_len};
ghost use Rattle.xdp_object.specs.Constants.{AreBehind, AreConstants, IsConstantsCause, constants_shape, with_constants};
ghost use Rattle.xdp_object.specs.Maps.{IsName};
ghost use Rattle.xdp_object.specs.declared.fault.SetupFault.TheVariants.{Memory};
ghost use Rattle.xdp_object.specs.MapsSeen.{IsUnplacedFrom, maps_seen, unlisted};

use crate::fault::{MapCause, SetupFault};
use crate::maps::{Maps, right_name};
use bpf_lists::{ConstantBytes, MapList};
use bpf_note::{MapKey, MapShape};
use bpf_object::Object;
use std::alloc::{AllocError, Global};

/// The names, the shapes and the lists of maps, by their numbers.
#[derive(Drop)]
pub(crate) struct ListedMaps {
    pub(crate) names: Vec<String>,
    pub(crate) shapes: Vec<MapShape>,
    pub(crate) lists: Vec<Option<MapList>>,
}

/// Constants that a map can have, and its name.
#[derive(Clone, Copy, Drop)]
pub(crate) struct NamedConstants<'a> {
    pub(crate) name: &'a str,
    pub(crate) bytes: &'a [u8],
}

/// No list for any of some maps.
fn no_lists(alloc: Global, count: usize) -> Result<Vec<Option<MapList>>, AllocError>
    ensures { IfOk result (λ v. v.items ≡ replicate count None) }
{
    let mut lists = Vec::new(alloc);
    for _ in 0..count {
        lists.push(None)?;
    }
    Ok(lists)
}

/// The constants of a section, if a map can have them.
pub(crate) fn constants_in<'a>(
    object: &Object<'a>,
    section: usize,
) -> Result<NamedConstants<'a>, MapCause>
    ensures ok { IfOk result (λ c. AreConstants object.now section c.name.now c.bytes.now) }
    ensures err { IfErr result (IsConstantsCause object.now section) }
{
    let constants = match object.constants(section) {
        Ok(constants) => constants,
        Err(fault) => return Err(MapCause::Constants(fault)),
    };
    let Some(name) = right_name(constants.name) else {
        return Err(MapCause::Name);
    };
    if constants.bytes.len() > MapKey::MOST_CONSTANTS as usize {
        return Err(MapCause::Bytes);
    }
    Ok(NamedConstants {
        name,
        bytes: constants.bytes,
    })
}

/// The shape of a map of constants.
pub(crate) fn shape_of(bytes: usize) -> MapShape
    requires { bytes ≤ 65536 }
    ensures { result ≡ constants_shape bytes }
{
    match MapShape::keyed(MapKey::Constants(bytes as u32), 1, 1) {
        Some(shape) => shape,
        None => unreachable!(),
    }
}

impl ListedMaps {
    /// Adds a map of constants.
    fn add(&mut self, alloc: Global, name: &str, bytes: &[u8]) -> Result<(), SetupFault>
        requires { length bytes.now ≤ 65536 }
        ensures ok { OnOk result (maps_seen self.new ≡ with_constants (maps_seen self.old) name.now bytes.now) }
        ensures err { IfErr result (λ f. f ≡ Memory) }
    {
        let name = String::from_str(alloc, name)?;
        let constants = ConstantBytes::make(bytes.to_vec(alloc)?);
        self.names.push(name)?;
        self.shapes.push(shape_of(bytes.len()))?;
        self.lists.push(Some(MapList::Constants(constants)))?;
        Ok(())
    }
}

/// These maps, without lists, and behind them those of the constants of some sections.
pub(crate) fn with_constants(
    alloc: Global,
    object: &Object,
    maps: Maps,
    sections: &[usize],
) -> Result<ListedMaps, SetupFault>
    requires { vec_len maps.shapes + length sections.now ≤ 16 }
    ensures ok { IfOk result (λ m. AreBehind object.now (unlisted maps) sections.now (maps_seen m)) }
    ensures few { IfOk result (λ m. vec_len m.shapes ≡ vec_len maps.shapes + length sections.now) }
    ensures err { IfErr result (IsUnplacedFrom object.now (unlisted maps) (vec_len maps.shapes) sections.now) }
{
    let first = maps.shapes.len();
    let mut all = ListedMaps {
        names: maps.names,
        shapes: maps.shapes,
        lists: no_lists(alloc, first)?,
    };
    for (number, section) in sections.iter().enumerate() {
        match constants_in(object, *section) {
            Ok(constants) => all.add(alloc, constants.name, constants.bytes)?,
            Err(cause) => return Err(SetupFault::Map(first + number, cause)),
        }
    }
    Ok(all)
}
