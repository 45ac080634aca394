//! Relocations: which map a wide load of the program names.
ghost use Rattle.std.specs.Prelude.{◌≡◌, ◌≤◌, ◌<◌, ◌+◌, ◌*◌, IfOk, IfSome, position, length, map};
ghost use Rattle.std.specs.List.{list_any};
ghost use Rattle.std.specs.Ordering.{int_eq};
ghost use Rattle.std.specs.Str.{bytes_eq};
ghost use Rattle.bpf_note.specs.Shape.{most_maps};
ghost use Rattle.xdp_load.specs.Gives.{Gives, seen_by};
ghost use Rattle.xdp_load.specs.Seen.{map_seen, reloc_seen};
ghost use Rattle.xdp_load.specs.Setup.{loaded_program, names_of, own_slot, relocated, relocated_once, wide_slot, with_map};

use crate::fault::{Fault, LoadError, in_row};
use crate::key::Key;
use crate::kinds::{MapRow, RelocRow};

/// Returns whether a relocation has the slot.
fn is_taken(slot: i64, rows: &[RelocRow<'_>]) -> bool
    ensures { result ≡ list_any (λ r. int_eq slot r.slot) (map reloc_seen rows.now) }
{
    rows.iter().any(|row| slot == row.slot)
}

const WIDE_LOAD: u8 = 0x18;

/// The slot where all its eight bytes are in the program, and the first is the opcode of a wide load.
fn wide_slot(program: &[u8], slot: i64) -> Option<usize>
    ensures value { result ≡ wide_slot program.now slot }
    ensures whole { IfSome result (λ s. 8 * s + 7 < length program.now) }
{
    let slot = usize::try_from(slot).ok()?;
    if slot >= program.len() / 8 || program[8 * slot] != WIDE_LOAD {
        return None;
    }
    Some(slot)
}

/// Writes the number of a map into the wide load at a place.
fn set_map(program: &mut [u8], at: usize, number: u8)
    requires { at + 7 < length program.old }
    ensures { program.new ≡ with_map program.old at number }
{
    program[at + 1] = 16 + program[at + 1] % 16;
    program[at + 4] = number;
    program[at + 5] = 0;
    program[at + 6] = 0;
    program[at + 7] = 0;
}

/// The number of the map with a name.
fn map_number(name: &str, maps: &[MapRow<'_>]) -> Option<usize>
    ensures value { result ≡ position (bytes_eq name.now) (map (λ m. m.name.now) maps.now) }
    ensures within { IfSome result (λ n. n < length maps.now) }
{
    maps.iter().position(|row| name == row.name)
}

/// The slot of a relocation, before those later ones: a wide load's, and no later one's.
fn own_slot(program: &[u8], slot: i64, later: &[RelocRow<'_>]) -> Result<usize, Key>
    ensures value { result ≡ own_slot program.now slot (map reloc_seen later.now) }
    ensures whole { IfOk result (λ s. 8 * s + 7 < length program.now) }
{
    if is_taken(slot, later) {
        return Err(Key::Slot);
    }
    wide_slot(program, slot).ok_or(Key::Slot)
}

/// Applies a relocation, before those later ones.
fn relocate_once(
    program: &mut [u8],
    maps: &[MapRow<'_>],
    row: &RelocRow<'_>,
    later: &[RelocRow<'_>],
) -> Result<(), Key>
    requires { length maps.now ≤ most_maps }
    ensures { seen_by (λ _. program.new) result
        ≡ relocated_once (map (λ m. m.name.now) maps.now) program.old (reloc_seen row.now) (map reloc_seen later.now) }
{
    let slot = own_slot(program, row.slot, later)?;
    let number = map_number(row.map, maps).ok_or(Key::OfMap)?;
    set_map(program, 8 * slot, number as u8);
    Ok(())
}

/// Applies the relocations in turn.
fn relocate(program: &mut [u8], maps: &[MapRow<'_>], rows: &[RelocRow<'_>]) -> Result<(), LoadError>
    requires { length maps.now ≤ most_maps }
    ensures { Gives (λ _. program.new) result (relocated (map (λ m. m.name.now) maps.now) 0 program.old (map reloc_seen rows.now)) }
{
    for (i, row) in rows.iter().enumerate() {
        let done = relocate_once(program, maps, row, &rows[i + 1..]);
        in_row(Fault::Relocation, i, done)?;
    }
    Ok(())
}

/// A program with its relocations.
#[tactic(auto, using(crate::proofs::RowLemmas::names_seen))]
pub fn relocated(
    program: Vec<u8>,
    maps: &[MapRow<'_>],
    rows: &[RelocRow<'_>],
) -> Result<Vec<u8>, LoadError>
    requires { length maps.now ≤ most_maps }
    ensures { Gives (λ v. v.items) result (loaded_program (names_of (map map_seen maps.now)) (map reloc_seen rows.now) program.items) }
{
    let mut program = program;
    relocate(program.as_mut_slice(), maps, rows)?;
    Ok(program)
}
