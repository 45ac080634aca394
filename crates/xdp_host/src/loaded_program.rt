//! An accepted program, and what C gives in the words of the libraries.
ghost use Rattle.std.specs.Prelude.{◌≡◌, ◌≤◌, ℕ, List, [], All, IfOk, IfErr, length, take};
ghost use Rattle.bpf_insn.specs.Code.{Spells};
ghost use Rattle.bpf_insn.specs.declared.insn.Insn.{Insn};
ghost use Rattle.bpf_note.specs.Shape.{IsNarrow};
ghost use Rattle.bpf_verify.specs.Consistent.{instructions};
ghost use Rattle.bpf_verify.specs.FirstRefusal.{IsFaultless};
ghost use Rattle.bpf_note.specs.Shape.{most_maps};
ghost use Rattle.xdp_load.specs.Listed.{ListedView};
ghost use Rattle.xdp_program.specs.Ran.{Ran};
ghost use Rattle.xdp_program.specs.Refused.{IsMade, IsUnmade};
ghost use Rattle.xdp_program.specs.Settings.{AreListsOf, AreNamesOf, IsProgramOf, IsSetupOf};
ghost use Rattle.xdp_host.specs.Answers.{AreWithin, IsFault, IsFaultOfText, IsFirstOutside, IsLoaded, IsOutOfMemory, shape_of, shapes_of};
ghost use Rattle.xdp_host.specs.Verdict.{accepting, out_of_memory};

use crate::abi::{XdpMap, XdpVerdict};
use crate::fault::Fault;
use std::alloc::Global;
use std::marker::Model;
use xdp_program::{
    Lists, LoadFault, MapNames, MapShape, NamedProgram, Program, Run, STACK_SIZE, SettingsFault,
    load_settings,
};

/// The most maps that a program has.
const MOST_MAPS: usize = 4;

/// The stack of a handle's program, the same for each packet in turn. What it holds is in no contract.
#[derive(Drop)]
pub struct Stack {
    bytes: [u8; STACK_SIZE],
}

impl Model for Stack {
    ghost Value = { Unit {0} };

    ghost view = { λ _. tt };
}

/// An accepted program, the names and the lists of its maps, and its stack.
#[derive(Drop)]
pub struct LoadedProgram {
    pub program: Program,
    pub names: MapNames,
    pub lists: Lists,
    stack: Stack,
}

/// The smallest map.
fn smallest() -> MapShape {
    match MapShape::of(1, 1) {
        Some(shape) => shape,
        None => unreachable!(),
    }
}

/// The shape of a map.
fn shape_of(number: u32, map: XdpMap) -> Result<MapShape, Fault>
    ensures ok { IfOk result (λ s. (s ≡ shape_of map) × IsNarrow (shape_of map)) }
    ensures err { IfErr result (λ f. (f ≡ Fault.Map number) × (IsNarrow (shape_of map) → ⊥)) }
{
    match MapShape::of(map.entries, map.counters) {
        Some(shape) => Ok(shape),
        None => Err(Fault::Map(number)),
    }
}

/// The shapes of at most four maps, and what of no use follows them; or the first map that is out of its limits.
fn shapes_of(maps: &[XdpMap]) -> Result<[MapShape; MOST_MAPS], Fault>
    requires { length maps.now ≤ 4 }
    ensures shapes { IfOk result (λ shapes. take (length maps.now) shapes ≡ shapes_of maps.now) }
    ensures within { IfOk result (λ _. All IsNarrow (shapes_of maps.now)) }
    ensures outside { IfErr result (λ f. (number : ℕ) × (f ≡ Fault.Map number) × IsFirstOutside maps.now number) }
{
    let mut shapes = [smallest(); MOST_MAPS];
    for (number, map) in maps.iter().enumerate() {
        shapes[number] = shape_of(number as u32, *map)?;
    }
    Ok(shapes)
}

/// Accepts a program with its maps.
fn accept(alloc: Global, program: &[u8], maps: &[XdpMap]) -> Result<Program, Fault>
    ensures loaded { IfOk result (IsLoaded program.now maps.now) }
    ensures fault { IfErr result (IsFault program.now maps.now) }
    ensures accepted { (code : List Insn) → Spells code program.now → IsFaultless code (shapes_of maps.now) → AreWithin maps.now →
        IfErr result IsOutOfMemory }
{
    if maps.len() > MOST_MAPS {
        return Err(Fault::Map(4));
    }
    let shapes = shapes_of(maps)?;
    match Program::load(alloc, program, &shapes[..maps.len()]) {
        Ok(program) => Ok(program),
        Err(LoadFault::Refused(refusal)) => Err(Fault::Refused(refusal)),
        Err(LoadFault::Maps) => unreachable!(),
    }
}

/// Accepts the program of a settings text with its maps.
fn accept_text(alloc: Global, text: &[u8]) -> Result<NamedProgram, Fault>
    ensures loaded { IfOk result (λ n. IsProgramOf text.now n.program) }
    ensures names { IfOk result (λ n. AreNamesOf text.now n.names) }
    ensures lists { IfOk result (λ n. AreListsOf text.now n.lists) }
    ensures few { IfOk result (λ n. length n.program.shapes ≤ most_maps) }
    ensures fault { IfErr result (IsFaultOfText text.now) }
    ensures accepted { (x : ListedView) (code : List Insn) → IsSetupOf text.now x → Spells code x.setup.program →
        IsFaultless code x.setup.shapes →
        IfErr result IsOutOfMemory }
{
    match load_settings(alloc, text) {
        Ok(named) => Ok(named),
        Err(SettingsFault::Text(fault)) => Err(Fault::Text(fault)),
        Err(SettingsFault::Program(LoadFault::Refused(refusal))) => Err(Fault::Refused(refusal)),
        Err(SettingsFault::Program(LoadFault::Maps)) => unreachable!(),
    }
}

impl LoadedProgram {
    /// A box of a program.
    pub(crate) fn boxed(
        alloc: Global,
        program: Program,
        names: MapNames,
        lists: Lists,
    ) -> Result<Box<LoadedProgram>, Fault>
        ensures program { IfOk result (λ b. b.value.program ≡ program) }
        ensures names { IfOk result (λ b. b.value.names ≡ names) }
        ensures lists { IfOk result (λ b. b.value.lists ≡ lists) }
        ensures err { IfErr result (λ f. f ≡ out_of_memory) }
    {
        let stack = Stack {
            bytes: [0; STACK_SIZE],
        };
        let held = Box::new(
            alloc,
            LoadedProgram {
                program,
                names,
                lists,
                stack,
            },
        )?;
        Ok(held)
    }

    /// A box of a program whose maps have no names and no lists.
    fn unnamed(alloc: Global, program: Program) -> Result<Box<LoadedProgram>, Fault>
        ensures program { IfOk result (λ b. b.value.program ≡ program) }
        ensures names { IfOk result (λ b. b.value.names ≡ []) }
        ensures lists { IfOk result (λ b. b.value.lists ≡ []) }
        ensures err { IfErr result (λ f. f ≡ out_of_memory) }
    {
        let names = MapNames::none(alloc)?;
        let lists = Lists::none(alloc)?;
        LoadedProgram::boxed(alloc, program, names, lists)
    }

    /// Accepts a program with its maps.
    #[tactic(auto, using(crate::proofs::FaultLemmas::out_of_memory_loaded))]
    pub fn load(alloc: Global, program: &[u8], maps: &[XdpMap]) -> Result<Box<LoadedProgram>, Fault>
        ensures loaded { IfOk result (λ b. IsLoaded program.now maps.now b.value.program) }
        ensures unnamed { IfOk result (λ b. b.value.names ≡ []) }
        ensures unlisted { IfOk result (λ b. b.value.lists ≡ []) }
        ensures fault { IfErr result (IsFault program.now maps.now) }
        ensures accepted { (code : List Insn) → Spells code program.now → IsFaultless code (shapes_of maps.now) → AreWithin maps.now →
            IfErr result IsOutOfMemory }
    {
        match accept(alloc, program, maps) {
            Ok(program) => LoadedProgram::unnamed(alloc, program),
            Err(fault) => Err(fault),
        }
    }

    /// Accepts the program of a settings text with its maps.
    pub fn load_settings(alloc: Global, text: &[u8]) -> Result<Box<LoadedProgram>, Fault>
        ensures loaded { IfOk result (λ b. IsProgramOf text.now b.value.program) }
        ensures names { IfOk result (λ b. AreNamesOf text.now b.value.names) }
        ensures lists { IfOk result (λ b. AreListsOf text.now b.value.lists) }
        ensures fault { IfErr result (IsFaultOfText text.now) }
        ensures accepted { (x : ListedView) (code : List Insn) → IsSetupOf text.now x → Spells code x.setup.program →
            IsFaultless code x.setup.shapes →
            IfErr result IsOutOfMemory }
    {
        match accept_text(alloc, text) {
            Ok(named) => LoadedProgram::boxed(alloc, named.program, named.names, named.lists),
            Err(fault) => Err(fault),
        }
    }

    /// The same program for another handle.
    pub fn again(&self, alloc: Global) -> Result<Box<LoadedProgram>, Fault>
        ensures ok { IfOk result (λ b. b.value ≡ self.now) }
        ensures err { IfErr result (λ f. f ≡ out_of_memory) }
    {
        let program = self.program.again()?;
        let names = self.names.again()?;
        let lists = self.lists.again()?;
        LoadedProgram::boxed(alloc, program, names, lists)
    }

    /// Runs the program on a packet where it lies, as [`Program::run`] does.
    pub fn run(&mut self, counters: &mut [u64], packet: &mut [u8], ifindex: u32, queue: u32) -> Run
        ensures kept { self.new ≡ self.old }
        ensures made { IsMade self.old.program.shapes counters.old packet.old →
            Ran self.old.program self.old.lists packet.old ifindex queue counters.old result.number packet.new counters.new result.instructions }
        ensures unmade { IsUnmade self.old.program.shapes counters.old packet.old →
            (result.number ≡ 0) × (result.instructions ≡ 0) × (packet.new ≡ packet.old) × (counters.new ≡ counters.old) }
        ensures words { length counters.new ≡ length counters.old }
    {
        let LoadedProgram {
            program,
            names: _,
            lists,
            stack,
        } = self;
        program.run(
            lists.as_slice(),
            &mut stack.bytes,
            counters,
            packet,
            ifindex,
            queue,
        )
    }

    /// The verdict that it is accepted.
    pub fn verdict(&self) -> XdpVerdict
        ensures { result ≡ accepting (instructions self.now.program.code) }
    {
        XdpVerdict::accepting(self.program.instructions())
    }
}
