//! The program that the settings' one was made of, in a table of its own.
ghost use Rattle.std.specs.Prelude.{◌≡◌, ◌≤◌, length, map};
ghost use Rattle.bpf_note.specs.Shape.{most_maps};
ghost use Rattle.toml.specs.View.{table_view};
ghost use Rattle.xdp_load.specs.Gives.{Gives, each, in_original, seen_by};
ghost use Rattle.xdp_load.specs.Original.{limited_place, original_of, original_of_table, original_program, relocated_program};
ghost use Rattle.xdp_load.specs.Original.{rows_of_original};
ghost use Rattle.xdp_load.specs.OriginalRows.{original_seen};
ghost use Rattle.xdp_load.specs.OriginalSeen.{place_view};
ghost use Rattle.xdp_load.specs.Seen.{map_seen, place_seen};
ghost use Rattle.xdp_load.specs.Setup.{names_of};
ghost use Rattle.xdp_load.specs.declared.fault.Fault.TheVariants.{Limit};

use crate::document::program_of;
use crate::fault::{Fault, LoadError, in_row};
use crate::key::Key;
use crate::kinds::{HexRow, MapRow, PlaceRow, RelocRow};
use crate::numbers::limited;
use crate::packets::joined;
use crate::relocations::relocated;
use crate::rows::rows_at;
use crate::spot::Spot;
use crate::table::{found, has_only};
use std::alloc::Global;
use toml::{Table, Value};

/// The original as it is written.
#[derive(Drop)]
pub struct Original<'a> {
    pub program: Vec<HexRow<'a>>,
    pub relocs: Vec<RelocRow<'a>>,
    pub places: Vec<PlaceRow>,
}

/// Returns what a table with known keys says of the original.
#[tactic(auto, unfolding(crate::specs::Original::rows_of_original))]
fn rows_of_original<'a>(alloc: Global, table: &'a Table) -> Result<Original<'a>, LoadError>
    ensures { Gives original_seen result (rows_of_original (table_view table.now)) }
{
    let program = program_of(alloc, table)?;
    let relocs = rows_at(alloc, table, Key::Reloc)?;
    let places = rows_at(alloc, table, Key::Place)?;
    Ok(Original {
        program,
        relocs,
        places,
    })
}

/// Returns what a table says of the original.
#[tactic(auto, using(crate::proofs::RowLemmas::original_fails), unfolding(crate::specs::Original::original_of_table))]
fn original_of_table<'a>(alloc: Global, table: &'a Table) -> Result<Original<'a>, LoadError>
    ensures { Gives original_seen result (original_of_table (table_view table.now)) }
{
    if !has_only(table, &[Key::Program, Key::Reloc, Key::Place]) {
        return Err(LoadError::at(Fault::Key, Spot::At(Key::Original)));
    }
    rows_of_original(alloc, table).map_err(LoadError::in_original)
}

/// Returns what a document says of the original.
#[tactic(auto, unfolding(crate::specs::Original::original_of))]
pub fn original_of<'a>(alloc: Global, table: &'a Table) -> Result<Original<'a>, LoadError>
    ensures { Gives original_seen result (original_of (table_view table.now)) }
{
    match found(table, Key::Original).and_then(Value::as_table) {
        Some(original) => original_of_table(alloc, original),
        None => Err(LoadError::at(Fault::Key, Spot::At(Key::Original))),
    }
}

/// The original's place before a slot of the settings' program, and whether a conditional jump there is that program's alone.
#[derive(Clone, Copy, Drop)]
pub struct OriginalPlace {
    pub at: u32,
    pub own: bool,
}

/// A place within its limits.
fn limited_place(row: &PlaceRow) -> Result<OriginalPlace, Key>
    ensures { seen_by place_view result ≡ limited_place (place_seen row.now) }
{
    let at = limited(Key::Place, row.at)?;
    Ok(OriginalPlace { at, own: row.own })
}

/// The places, each within its limits.
fn each_place(alloc: Global, rows: &[PlaceRow]) -> Result<Vec<OriginalPlace>, LoadError>
    ensures { Gives (λ v. map place_view v.items) result (each Limit limited_place 0 (map place_seen rows.now)) }
{
    let mut places = Vec::new(alloc);
    for (i, row) in rows.iter().enumerate() {
        let place = in_row(Fault::Limit, i, limited_place(row))?;
        places.push(place)?;
    }
    Ok(places)
}

/// The places of the original within their limits.
#[tactic(auto, using(crate::proofs::RowLemmas::original_fails))]
pub fn limited_places(alloc: Global, rows: &[PlaceRow]) -> Result<Vec<OriginalPlace>, LoadError>
    ensures { Gives (λ v. map place_view v.items) result (in_original (each Limit limited_place 0 (map place_seen rows.now))) }
{
    each_place(alloc, rows).map_err(LoadError::in_original)
}

/// The bytes of the original, its relocations applied.
#[tactic(auto, unfolding(crate::specs::Original::relocated_program))]
fn relocated_program(
    alloc: Global,
    maps: &[MapRow<'_>],
    original: &Original<'_>,
) -> Result<Vec<u8>, LoadError>
    requires { length maps.now ≤ most_maps }
    ensures { Gives (λ v. v.items) result (relocated_program (names_of (map map_seen maps.now)) (original_seen original.now)) }
{
    let program = joined(alloc, original.program.as_slice())?;
    relocated(program, maps, original.relocs.as_slice())
}

/// The bytes of the original, or a fault in its table.
#[tactic(auto, using(crate::proofs::RowLemmas::original_fails), unfolding(crate::specs::Original::original_program))]
pub fn original_program(
    alloc: Global,
    maps: &[MapRow<'_>],
    original: &Original<'_>,
) -> Result<Vec<u8>, LoadError>
    requires { length maps.now ≤ most_maps }
    ensures { Gives (λ v. v.items) result (original_program (names_of (map map_seen maps.now)) (original_seen original.now)) }
{
    relocated_program(alloc, maps, original).map_err(LoadError::in_original)
}
