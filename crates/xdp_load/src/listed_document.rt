//! A document whose maps may have lists, as it is written.
ghost use Rattle.std.specs.Prelude.{◌≡◌, IfOk, map};
ghost use Rattle.toml.specs.View.{table_view};
ghost use Rattle.xdp_load.specs.Gives.{Gives};
ghost use Rattle.xdp_load.specs.Listed.{listed_by, listed_rows_of, listed_written};
ghost use Rattle.xdp_load.specs.ListedSeen.{listed_seen, listed_written_seen};
ghost use Rattle.xdp_load.specs.Seen.{map_seen};

use crate::document::{Written, program_of, written_with};
use crate::fault::{Fault, LoadError, in_key};
use crate::key::{Key, LISTED_KEYS};
use crate::keyed::{ListedRow, truth_at};
use crate::kinds::MapRow;
use crate::numbers::numbers_of;
use crate::rows::rows_at;
use crate::spot::Spot;
use crate::table::unknown_key;
use std::alloc::{AllocError, Global};
use toml::Table;

/// A document as it is written, its maps with their keys, and whether wider limits are asked for.
#[derive(Drop)]
pub struct ListedWritten<'a> {
    pub written: Written<'a>,
    pub maps: Vec<ListedRow<'a>>,
    pub wide: bool,
}

/// The maps without their keys.
fn maps_in<'a>(alloc: Global, rows: &[ListedRow<'a>]) -> Result<Vec<MapRow<'a>>, AllocError>
    ensures { IfOk result (λ v. map map_seen v.items ≡ map (λ m. m.map) (map listed_seen rows.now)) }
{
    let mut maps = Vec::new(alloc);
    for row in rows {
        maps.push(row.map)?;
    }
    Ok(maps)
}

/// Returns what a document with known keys says.
#[tactic(auto, unfolding(crate::specs::Listed::listed_rows_of))]
fn listed_rows_of<'a>(alloc: Global, table: &'a Table) -> Result<ListedWritten<'a>, LoadError>
    ensures { Gives listed_written_seen result (listed_rows_of (table_view table.now)) }
{
    let program = program_of(alloc, table)?;
    let numbers = in_key(Fault::Key, numbers_of(table))?;
    let maps: Vec<ListedRow<'a>> = rows_at(alloc, table, Key::Map)?;
    let plain = maps_in(alloc, maps.as_slice())?;
    let written = written_with(alloc, table, program, numbers, plain)?;
    let wide = in_key(Fault::Key, truth_at(table, Key::Wide))?;
    Ok(ListedWritten {
        written,
        maps,
        wide,
    })
}

/// Returns what a document says that knows these keys.
pub fn listed_by<'a>(
    alloc: Global,
    table: &'a Table,
    known: &[Key],
) -> Result<ListedWritten<'a>, LoadError>
    ensures { Gives listed_written_seen result (listed_by known.now (table_view table.now)) }
{
    match unknown_key(table, known) {
        Some(name) => {
            let name = String::from_str(alloc, name)?;
            Err(LoadError::at(Fault::Key, Spot::Unknown(name)))
        }
        None => listed_rows_of(alloc, table),
    }
}

/// A document, if each of its keys is known and of the right type.
#[tactic(auto, unfolding(crate::specs::Listed::listed_written))]
pub fn read_listed<'a>(alloc: Global, table: &'a Table) -> Result<ListedWritten<'a>, LoadError>
    ensures { Gives listed_written_seen result (listed_written (table_view table.now)) }
{
    listed_by(alloc, table, &LISTED_KEYS)
}
