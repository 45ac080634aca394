//! What loads and runs give, as plain values.
use bpf_lists::MapList;
use bpf_vm::STACK_SIZE;
use std::alloc::{AllocError, Global};
use xdp_program::{
    LoadFault, MapShape, Program, Refusal, RelistFault, Run, SettingsFault, TextFault,
    load_settings,
};

/// A program as hex digits with its maps, each as its number of values and of counters a value.
#[derive(Clone, Copy)]
pub struct Source {
    pub digits: &'static str,
    pub maps: &'static [(u32, u32)],
}

/// The number and the instructions of a run.
pub type End = (u32, u32);

/// The shapes of maps within the limits; the others are left out.
fn shapes_of(alloc: Global, maps: &[(u32, u32)]) -> Result<Vec<MapShape>, AllocError> {
    let mut shapes = Vec::new(alloc);
    for (entries, counters) in maps {
        if let Some(shape) = MapShape::of(*entries, *counters) {
            shapes.push(shape)?;
        }
    }
    Ok(shapes)
}

/// A program; none if its digits or its shapes can't be had.
fn load(alloc: Global, source: Source) -> Option<Result<Program, LoadFault>> {
    let bytes = hex::decode(alloc, source.digits).ok()?;
    let shapes = shapes_of(alloc, source.maps).ok()?;
    Some(Program::load(alloc, bytes.as_slice(), shapes.as_slice()))
}

/// An accepted program.
pub fn program_of(alloc: Global, source: Source) -> Option<Program> {
    load(alloc, source)?.ok()
}

/// Returns why a program is refused, if it is.
pub fn fault_of(alloc: Global, source: Source) -> Option<LoadFault> {
    load(alloc, source)?.err()
}

/// The number of the cause and the slot of a refusal; none for more maps than there may be.
pub fn refusal_of(fault: LoadFault) -> Option<(u8, u32)> {
    match fault {
        LoadFault::Refused(Refusal { cause, pc }) => Some((cause.number(), pc)),
        LoadFault::Maps => None,
    }
}

/// Returns why settings have no program, if they have none.
pub fn settings_fault(alloc: Global, text: &str) -> Option<SettingsFault> {
    load_settings(alloc, text.as_bytes()).err()
}

/// Returns whether settings were refused since memory ran out, L0 or V0.
pub fn is_for_memory(fault: SettingsFault) -> bool {
    match fault {
        SettingsFault::Text(fault) => fault == TextFault::Memory,
        SettingsFault::Program(fault) => refusal_of(fault).is_some_and(|(number, _)| number == 0),
    }
}

/// A run with these lists over a stack of its own.
fn run_with(
    program: &Program,
    lists: &[Option<MapList>],
    counters: &mut [u64],
    packet: &mut [u8],
    at: (u32, u32),
) -> End {
    let mut stack = [0xa5; STACK_SIZE];
    let Run {
        number,
        instructions,
    } = program.run(lists, &mut stack, counters, packet, at.0, at.1);
    (number, instructions)
}

/// A run without lists.
pub fn run(program: &Program, counters: &mut [u64], packet: &mut [u8], at: (u32, u32)) -> End {
    run_with(program, &[], counters, packet, at)
}

/// A run of a program on a packet, from an interface and a queue; none if it isn't accepted.
pub fn ended(
    alloc: Global,
    source: Source,
    counters: &mut [u64],
    packet: &mut [u8],
    at: (u32, u32),
) -> Option<End> {
    let program = program_of(alloc, source)?;
    Some(run(&program, counters, packet, at))
}

/// As [`ended`], on a packet of `length` bytes.
pub fn ended_over(
    alloc: Global,
    source: Source,
    counters: &mut [u64],
    length: usize,
) -> Option<End> {
    let mut packet = Vec::from_elem(alloc, 0x5a_u8, length).ok()?;
    ended(alloc, source, counters, packet.as_mut_slice(), (0, 0))
}

/// A run of a program that is made again, once the first has run and is gone.
pub fn ended_again(alloc: Global, source: Source, counters: &mut [u64]) -> Option<(End, End)> {
    let program = program_of(alloc, source)?;
    let other = program.again().ok()?;
    let first = run(&program, counters, &mut [], (0, 0));
    drop(program);
    Some((first, run(&other, counters, &mut [], (0, 0))))
}

/// A run of the program of settings.
pub fn settings_ended(alloc: Global, text: &str, counters: &mut [u64]) -> Option<End> {
    let named = load_settings(alloc, text.as_bytes()).ok()?;
    let lists = named.lists.as_slice();
    Some(run_with(&named.program, lists, counters, &mut [0], (0, 0)))
}

/// A run of the program of settings with the lists of other settings, or why these have none for it; none if there is no program.
pub fn relisted_ended(
    alloc: Global,
    text: &str,
    other: &str,
    counters: &mut [u64],
) -> Option<Result<End, RelistFault>> {
    let named = load_settings(alloc, text.as_bytes()).ok()?;
    match named.program.relisted(alloc, other.as_bytes()) {
        Ok(lists) => {
            let lists = lists.as_slice();
            Some(Ok(run_with(&named.program, lists, counters, &mut [0], (0, 0))))
        }
        Err(fault) => Some(Err(fault)),
    }
}

/// The number of the map with a name of settings.
pub fn map_named(alloc: Global, text: &str, name: &str) -> Option<usize> {
    let named = load_settings(alloc, text.as_bytes()).ok()?;
    named.names.number(name.as_bytes())
}

/// Returns whether a map of settings has this name; none if they have no program.
pub fn is_named(alloc: Global, text: &str, number: usize, name: &str) -> Option<bool> {
    let named = load_settings(alloc, text.as_bytes()).ok()?;
    Some(named.names.name(number) == name.as_bytes())
}

/// Returns the number of instructions and words of counters that a program has.
pub fn sizes(alloc: Global, source: Source) -> Option<(u32, usize)> {
    let program = program_of(alloc, source)?;
    Some((program.instructions(), program.counters()))
}

/// The word of a counter of a program.
pub fn word_of(alloc: Global, source: Source, (m, k, j): (u32, u32, u32)) -> Option<usize> {
    program_of(alloc, source)?.place(m, k, j)
}
