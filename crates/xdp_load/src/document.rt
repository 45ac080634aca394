//! A document as it is written, before any limit is looked at.
ghost use Rattle.std.specs.Prelude.{map};
ghost use Rattle.toml.specs.View.{table_view};
ghost use Rattle.xdp_load.specs.Gives.{Gives};
ghost use Rattle.xdp_load.specs.Written.{program_of, rows_of_table, written_by, written_of, written_with};
ghost use Rattle.xdp_load.specs.Seen.{hex_seen, map_seen, written_seen};

use crate::fault::{Fault, LoadError, in_key};
use crate::key::{Key, TOP_KEYS};
use crate::kinds::{HexRow, MapRow, PacketRow, RelocRow, StepRow};
use crate::numbers::{Numbers, numbers_of};
use crate::rows::{list_at, rows, rows_at};
use crate::spot::Spot;
use crate::table::unknown_key;
use std::alloc::Global;
use toml::Table;

/// The texts of the program.
#[tactic(auto, unfolding(crate::specs::Written::program_of))]
pub fn program_of(alloc: Global, table: &Table) -> Result<Vec<HexRow<'_>>, LoadError>
    ensures { Gives (λ v. map hex_seen v.items) result (program_of (table_view table.now)) }
{
    rows(alloc, Key::Program, list_at(table, Key::Program))
}

/// A document as it is written.
#[derive(Drop)]
pub struct Written<'a> {
    pub program: Vec<HexRow<'a>>,
    pub numbers: Numbers,
    pub maps: Vec<MapRow<'a>>,
    pub relocs: Vec<RelocRow<'a>>,
    pub script: Vec<StepRow>,
    pub packets: Vec<PacketRow<'a>>,
}

/// Returns what a document with known keys says beside its program, its numbers and its maps.
#[tactic(auto, unfolding(crate::specs::Written::written_with))]
pub fn written_with<'a>(
    alloc: Global,
    table: &'a Table,
    program: Vec<HexRow<'a>>,
    numbers: Numbers,
    maps: Vec<MapRow<'a>>,
) -> Result<Written<'a>, LoadError>
    ensures { Gives written_seen result
        (written_with (map hex_seen program.entry.items) numbers (map map_seen maps.entry.items) (table_view table.now)) }
{
    let relocs = rows_at(alloc, table, Key::Reloc)?;
    let script = rows_at(alloc, table, Key::Step)?;
    let packets = rows_at(alloc, table, Key::Packet)?;
    Ok(Written {
        program,
        numbers,
        maps,
        relocs,
        script,
        packets,
    })
}

/// Returns what a document with known keys says.
#[tactic(auto, unfolding(crate::specs::Written::rows_of_table))]
fn rows_of_table<'a>(alloc: Global, table: &'a Table) -> Result<Written<'a>, LoadError>
    ensures { Gives written_seen result (rows_of_table (table_view table.now)) }
{
    let program = program_of(alloc, table)?;
    let numbers = in_key(Fault::Key, numbers_of(table))?;
    let maps = rows_at(alloc, table, Key::Map)?;
    written_with(alloc, table, program, numbers, maps)
}

/// Returns what a document says that knows these keys.
pub fn written_by<'a>(
    alloc: Global,
    table: &'a Table,
    known: &[Key],
) -> Result<Written<'a>, LoadError>
    ensures { Gives written_seen result (written_by known.now (table_view table.now)) }
{
    match unknown_key(table, known) {
        Some(name) => {
            let name = String::from_str(alloc, name)?;
            Err(LoadError::at(Fault::Key, Spot::Unknown(name)))
        }
        None => rows_of_table(alloc, table),
    }
}

/// A document, if each of its keys is known and of the right type.
#[tactic(auto, unfolding(crate::specs::Written::written_of))]
pub fn read_document<'a>(alloc: Global, table: &'a Table) -> Result<Written<'a>, LoadError>
    ensures { Gives written_seen result (written_of (table_view table.now)) }
{
    written_by(alloc, table, &TOP_KEYS)
}
