//! A function of an object, as a program with its maps.
ghost use Rattle.std.specs.Prelude.{◌≤◌, IfErr, IfOk, length, map, string_bytes, vec_len};
ghost use Rattle.xdp_object.specs.Setup.{IsNoSetup, IsNoSetupIn, IsSetupIn, IsSetupOf};
ghost use Rattle.xdp_object.specs.SetupSeen.{setup_seen};

use crate::constants::with_constants;
use crate::fault::SetupFault;
use crate::link::linked;
use crate::maps::maps_of;
use bpf_lists::MapList;
use bpf_note::MapShape;
use bpf_object::Object;
use std::alloc::Global;

/// A program's bytes, in which maps have their numbers and constants their addresses, and the maps' shapes, names and lists by these numbers.
/// Maps are numbered from 0 on, in the order in which the program first refers to them, and then the sections of constants. No map but one of
/// constants has a list.
#[derive(Drop)]
pub struct ObjectSetup {
    pub program: Vec<u8>,
    pub shapes: Vec<MapShape>,
    pub names: Vec<String>,
    pub lists: Vec<Option<MapList>>,
}

/// Returns what the object says of the function of this name.
fn setup_in(alloc: Global, object: &Object, name: &[u8]) -> Result<ObjectSetup, SetupFault>
    ensures ok { IfOk result (λ s. IsSetupIn object.now name.now (setup_seen s)) }
    ensures few { IfOk result (λ s. vec_len s.shapes ≤ 16) }
    ensures err { IfErr result (IsNoSetupIn object.now name.now) }
{
    let program = match object.program(alloc, name) {
        Ok(program) => program,
        Err(fault) => return Err(SetupFault::Program(fault)),
    };
    let linked = linked(
        alloc,
        program.code,
        program.maps.as_slice(),
        program.constants.as_slice(),
    )?;
    let maps = maps_of(alloc, object, linked.maps.as_slice())?;
    let maps = with_constants(alloc, object, maps, linked.sections.as_slice())?;
    Ok(ObjectSetup {
        program: linked.program,
        shapes: maps.shapes,
        names: maps.names,
        lists: maps.lists,
    })
}

/// The program that the function of this name is, with its maps, or the first cause why there is none.
pub fn setup_of(alloc: Global, bytes: &[u8], name: &[u8]) -> Result<ObjectSetup, SetupFault>
    ensures setup { IfOk result (λ s. IsSetupOf bytes.now name.now (setup_seen s)) }
    ensures few { IfOk result (λ s. vec_len s.shapes ≤ 16) }
    ensures refused { IfErr result (IsNoSetup bytes.now name.now) }
{
    match Object::parse(bytes) {
        Ok(object) => setup_in(alloc, &object, name),
        Err(fault) => Err(SetupFault::Object(fault)),
    }
}
