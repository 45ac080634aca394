//! The program's bytes, with the numbers of its maps and the addresses of its constants.
ghost use Rattle.std.specs.Prelude.{◌≡◌, ◌+◌, ◌-◌, ◌*◌, ◌<◌, ◌≤◌, ◌^◌, ℕ, [], All, IfErr, IfOk, OnOk, Some, None, length, nat_eq, position};
ghost use Rattle.xdp_object.specs.Link.{IsUnlinked, linked, links_of, numbered, placed, with_address, with_imm, with_map};
ghost use Rattle.xdp_object.specs.LinkSeen.{links_seen};
ghost use Rattle.bpf_note.specs.Constants.{constant_address};

use crate::fault::SetupFault;
use bpf_note::{CONSTANTS_START, CONSTANTS_STRIDE};
use bpf_object::{ConstantReference, MapReference};
use std::alloc::Global;

/// The most maps of a program.
const MOST_MAPS: usize = 16;

/// A program's bytes, the symbols of its maps by the maps' numbers, and the sections of its constants by those of their maps, which follow.
#[derive(Drop)]
pub(crate) struct LinkedProgram {
    pub(crate) program: Vec<u8>,
    pub(crate) maps: Vec<usize>,
    pub(crate) sections: Vec<usize>,
}

/// The number of a symbol or a section among those that have one.
fn found(those: &[usize], one: usize) -> Option<usize>
    ensures { result ≡ position (nat_eq one) those.now }
{
    those.iter().position(|other| one == *other)
}

/// Gives a symbol or a section the next number.
fn add(those: &mut Vec<usize>, one: usize, most: usize) -> Result<usize, SetupFault>
    requires { position (nat_eq one) those.old.items ≡ None }
    ensures ok { IfOk result (λ n. numbered most those.old.items one ≡ Some (n, those.new.items)) }
    ensures few { IfOk result (λ n. n < most) }
    ensures err { IfErr result (IsUnlinked (numbered most those.old.items one)) }
{
    let number = those.len();
    if number >= most {
        return Err(SetupFault::Maps);
    }
    those.push(one)?;
    Ok(number)
}

/// The number of a symbol or a section, which gets one if it has none.
fn number_of(those: &mut Vec<usize>, one: usize, most: usize) -> Result<usize, SetupFault>
    requires { length those.old.items ≤ most }
    ensures ok { IfOk result (λ n. numbered most those.old.items one ≡ Some (n, those.new.items)) }
    ensures few { IfOk result (λ n. n < most) }
    ensures most { OnOk result (length those.new.items ≤ most) }
    ensures err { IfErr result (IsUnlinked (numbered most those.old.items one)) }
{
    match found(those.as_slice(), one) {
        Some(number) => Ok(number),
        None => add(those, one, most),
    }
}

/// Writes the number of a map into the wide load at a place.
pub(crate) fn set_map(program: &mut [u8], at: usize, number: u8)
    requires { at + 16 ≤ length program.old }
    ensures { program.new ≡ with_map program.old at number }
{
    program[at + 1] = 16 + program[at + 1] % 16;
    program[at + 4] = number;
}

/// Writes the low 32 bits of a number, the least significant byte first.
fn set_imm(program: &mut [u8], at: usize, number: u64)
    requires { at + 4 ≤ length program.old }
    ensures { program.new ≡ with_imm program.old at number }
{
    program[at] = (number % 256) as u8;
    program[at + 1] = (number / 256 % 256) as u8;
    program[at + 2] = (number / 65_536 % 256) as u8;
    program[at + 3] = (number / 16_777_216 % 256) as u8;
}

/// Writes an address of 32 bits into the wide load at a place.
pub(crate) fn set_address(program: &mut [u8], at: usize, address: u64)
    requires { at + 16 ≤ length program.old }
    ensures { program.new ≡ with_address program.old at address }
{
    set_imm(program, at + 4, address);
    set_imm(program, at + 12, 0);
}

/// The address of a constant of a map.
pub(crate) fn address_of(map: usize, place: u32) -> u64
    requires { map < 16 }
    ensures { result ≡ constant_address map place }
{
    CONSTANTS_START + CONSTANTS_STRIDE * map as u64 + u64::from(place)
}

/// Gives a program the numbers of the maps that it refers to.
fn number_maps(
    program: &mut [u8],
    maps: &mut Vec<usize>,
    references: &[MapReference],
) -> Result<(), SetupFault>
    requires inside { All (λ r. 8 * r.slot + 16 ≤ length program.old) references.now }
    requires few { length maps.old.items ≤ 16 }
    ensures ok { OnOk result (linked maps.old.items program.old references.now ≡ Some (maps.new.items, program.new)) }
    ensures few { OnOk result (length maps.new.items ≤ 16) }
    ensures err { IfErr result (IsUnlinked (linked maps.old.items program.old references.now)) }
{
    for reference in references {
        let number = number_of(maps, reference.map, MOST_MAPS)?;
        set_map(program, 8 * reference.slot, number as u8);
    }
    Ok(())
}

/// Gives a program the addresses of the constants that it refers to, whose maps are numbered from the first on.
fn place_constants(
    program: &mut [u8],
    first: usize,
    sections: &mut Vec<usize>,
    references: &[ConstantReference],
) -> Result<(), SetupFault>
    requires inside { All (λ r. 8 * r.slot + 16 ≤ length program.old) references.now }
    requires few { first + length sections.old.items ≤ 16 }
    ensures ok { OnOk result (placed first sections.old.items program.old references.now ≡ Some (sections.new.items, program.new)) }
    ensures few { OnOk result (first + length sections.new.items ≤ 16) }
    ensures err { IfErr result (IsUnlinked (placed first sections.old.items program.old references.now)) }
{
    let most = MOST_MAPS - first;
    for reference in references {
        let number = number_of(sections, reference.section as usize, most)?;
        let address = address_of(first + number, reference.place);
        set_address(program, 8 * reference.slot, address);
    }
    Ok(())
}

/// Gives a program the numbers of its maps and the addresses of its constants.
fn link(
    program: &mut [u8],
    maps: &mut Vec<usize>,
    sections: &mut Vec<usize>,
    references: &[MapReference],
    constants: &[ConstantReference],
) -> Result<(), SetupFault>
    requires maps { All (λ r. 8 * r.slot + 16 ≤ length program.old) references.now }
    requires constants { All (λ r. 8 * r.slot + 16 ≤ length program.old) constants.now }
    requires no_maps { maps.old.items ≡ [] }
    requires no_sections { sections.old.items ≡ [] }
    ensures ok { OnOk result (links_of program.old references.now constants.now ≡
        Some (record { maps = maps.new.items; sections = sections.new.items; program = program.new })) }
    ensures few { OnOk result (length maps.new.items + length sections.new.items ≤ 16) }
    ensures err { IfErr result (IsUnlinked (links_of program.old references.now constants.now)) }
{
    number_maps(program, maps, references)?;
    place_constants(program, maps.len(), sections, constants)
}

/// A program's bytes with the numbers of its maps and the addresses of its constants.
pub(crate) fn linked(
    alloc: Global,
    code: &[u8],
    references: &[MapReference],
    constants: &[ConstantReference],
) -> Result<LinkedProgram, SetupFault>
    requires maps { All (λ r. 8 * r.slot + 16 ≤ length code.now) references.now }
    requires constants { All (λ r. 8 * r.slot + 16 ≤ length code.now) constants.now }
    ensures ok { IfOk result (λ l. links_of code.now references.now constants.now ≡ Some (links_seen l)) }
    ensures few { IfOk result (λ l. length l.maps.items + length l.sections.items ≤ 16) }
    ensures err { IfErr result (IsUnlinked (links_of code.now references.now constants.now)) }
{
    let mut maps = Vec::new(alloc);
    let mut sections = Vec::new(alloc);
    let mut program = code.to_vec(alloc)?;
    link(
        program.as_mut_slice(),
        &mut maps,
        &mut sections,
        references,
        constants,
    )?;
    Ok(LinkedProgram {
        program,
        maps,
        sections,
    })
}
