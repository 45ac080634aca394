//! A program that C loads from an object.
ghost use Rattle.std.specs.Prelude.{◌≡◌, ◌≤◌, IfErr, IfOk, MatchOption, length, map, string_bytes, vec_len};
ghost use Rattle.bpf_insn.specs.Code.{Spells};
ghost use Rattle.bpf_verify.specs.FirstRefusal.{IsFaultless};
ghost use Rattle.xdp_host.specs.Objects.{AcceptsObject, IsObjectFault, IsOfObject, IsSetupFault, RefusesObject};
ghost use Rattle.xdp_host.specs.Verdict.{out_of_memory};

use crate::abi::XdpVerdict;
use crate::fault::Fault;
use crate::handle::XdpProgram;
use crate::loaded_program::LoadedProgram;
use crate::object_fault::ObjectFault;
use bpf_lists::MapList;
use std::alloc::Global;
use xdp_object::{ObjectSetup, setup_of};
use xdp_program::{Lists, LoadFault, MapNames, MapShape, Program};

/// Accepts a program with at most 16 maps.
fn accept_shapes(alloc: Global, program: &[u8], shapes: &[MapShape]) -> Result<Program, Fault>
    requires { length shapes.now ≤ 16 }
    ensures spelled { IfOk result (λ p. Spells p.code program.now) }
    ensures shapes { IfOk result (λ p. p.shapes ≡ shapes.now) }
    ensures faultless { IfOk result (λ p. IsFaultless p.code shapes.now) }
    ensures err { IfErr result (IsSetupFault program.now shapes.now) }
{
    match Program::load(alloc, program, shapes) {
        Ok(program) => Ok(program),
        Err(LoadFault::Refused(refusal)) => Err(Fault::Refused(refusal)),
        Err(LoadFault::Maps) => unreachable!(),
    }
}

/// A box of a program whose maps have these names and lists.
fn named(
    alloc: Global,
    program: Program,
    names: Vec<String>,
    lists: Vec<Option<MapList>>,
) -> Result<Box<LoadedProgram>, Fault>
    ensures program { IfOk result (λ b. b.value.program ≡ program) }
    ensures names { IfOk result (λ b. b.value.names ≡ map string_bytes names.items) }
    ensures lists { IfOk result (λ b. b.value.lists ≡ lists.items) }
    ensures err { IfErr result (λ f. f ≡ out_of_memory) }
{
    let names = MapNames::of(alloc, names)?;
    let lists = Lists::make(alloc, lists)?;
    LoadedProgram::boxed(alloc, program, names, lists)
}

/// Accepts the program of a setup with its maps.
#[tactic(auto, using(crate::proofs::ObjectLemmas::out_of_memory_setup))]
fn accept_setup(alloc: Global, setup: ObjectSetup) -> Result<Box<LoadedProgram>, Fault>
    requires { vec_len setup.shapes ≤ 16 }
    ensures spelled { IfOk result (λ b. Spells b.value.program.code setup.program.items) }
    ensures shapes { IfOk result (λ b. b.value.program.shapes ≡ setup.shapes.items) }
    ensures faultless { IfOk result (λ b. IsFaultless b.value.program.code setup.shapes.items) }
    ensures names { IfOk result (λ b. b.value.names ≡ map string_bytes setup.names.items) }
    ensures lists { IfOk result (λ b. b.value.lists ≡ setup.lists.items) }
    ensures err { IfErr result (IsSetupFault setup.program.items setup.shapes.items) }
{
    let ObjectSetup {
        program,
        shapes,
        names,
        lists,
    } = setup;
    let program = accept_shapes(alloc, program.as_slice(), shapes.as_slice())?;
    named(alloc, program, names, lists)
}

/// Accepts the program that the function of this name in an object is, with its maps.
fn load_object(
    alloc: Global,
    object: &[u8],
    function: &[u8],
) -> Result<Box<LoadedProgram>, ObjectFault>
    ensures ok { IfOk result (λ b. IsOfObject object.now function.now b.value) }
    ensures err { IfErr result (IsObjectFault object.now function.now) }
{
    let setup = match setup_of(alloc, object, function) {
        Ok(setup) => setup,
        Err(fault) => return Err(ObjectFault::Setup(fault)),
    };
    match accept_setup(alloc, setup) {
        Ok(held) => Ok(held),
        Err(fault) => Err(ObjectFault::Program(fault)),
    }
}

/// Accepts the program that the function of this name in an object is, with its maps, in place of what the handle held. One that is
/// refused leaves none.
#[unsafe(no_mangle)]
pub extern "C" fn laxonje_load_object(
    alloc: Global,
    object: &[u8],
    function: &[u8],
    out: &mut XdpProgram,
) -> XdpVerdict
    ensures { MatchOption out.new.slot.held (RefusesObject object.now function.now result) (λ h. AcceptsObject object.now function.now h result) }
{
    match load_object(alloc, object, function) {
        Ok(held) => {
            let verdict = held.verdict();
            out.put(held);
            verdict
        }
        Err(fault) => {
            drop(out.take(alloc));
            XdpVerdict::from(fault)
        }
    }
}
