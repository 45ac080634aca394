//! The rows of the settings, as they are written.
ghost use Rattle.std.specs.Prelude.{◌≡◌, map, option_map};
ghost use Rattle.toml.specs.View.{table_view, view};
ghost use Rattle.xdp_load.specs.Document.{map_of_fields, place_of, step_of};
ghost use Rattle.xdp_load.specs.Gives.{seen_by};
ghost use Rattle.xdp_load.specs.Seen.{map_seen, place_seen, step_seen};

use crate::key::Key;
use crate::rows::{Row, rows_in};
use crate::table::{has_only, number_at, text_at};
use crate::values::numbers_at;
use toml::{Table, Value};

/// A map as it is written.
#[derive(Clone, Copy)]
pub struct MapRow<'a> {
    pub name: &'a str,
    pub entries: i64,
    pub counters: i64,
    pub values: &'a [Value],
}

/// The map of a table with known keys.
pub fn map_of_fields<'a>(table: &'a Table) -> Result<MapRow<'a>, Key>
    ensures { seen_by map_seen result ≡ map_of_fields (table_view table.now) }
{
    let name = text_at(table, Key::Name)?;
    let entries = number_at(table, Key::Entries)?;
    let counters = number_at(table, Key::Counters)?;
    let values = numbers_at(table, Key::Values)?;
    Ok(MapRow {
        name,
        entries,
        counters,
        values,
    })
}

impl<'a> Row<'a> for MapRow<'a> {
    ghost use Rattle.xdp_load.specs.Document.{MapText, map_row};
    ghost use Rattle.xdp_load.specs.Seen.{map_seen};

    ghost Text = { MapText };

    ghost seen = { map_seen };

    ghost meaning = { map_row };

    fn of(value: &'a Value) -> Result<MapRow<'a>, Key> {
        let table = value.as_table().ok_or(Key::Map)?;
        if !has_only(
            table,
            &[Key::Name, Key::Entries, Key::Counters, Key::Values],
        ) {
            return Err(Key::Map);
        }
        map_of_fields(table)
    }
}

/// A relocation as it is written.
#[derive(Drop)]
pub struct RelocRow<'a> {
    pub slot: i64,
    pub map: &'a str,
}

impl<'a> Row<'a> for RelocRow<'a> {
    ghost use Rattle.xdp_load.specs.Document.{RelocText, reloc_row};
    ghost use Rattle.xdp_load.specs.Seen.{reloc_seen};

    ghost Text = { RelocText };

    ghost seen = { reloc_seen };

    ghost meaning = { reloc_row };

    fn of(value: &'a Value) -> Result<RelocRow<'a>, Key> {
        let table = value.as_table().ok_or(Key::Reloc)?;
        if !has_only(table, &[Key::Slot, Key::OfMap]) {
            return Err(Key::Reloc);
        }
        let slot = number_at(table, Key::Slot)?;
        let map = text_at(table, Key::OfMap)?;
        Ok(RelocRow { slot, map })
    }
}

/// A packet as it is written.
#[derive(Drop)]
pub struct PacketRow<'a> {
    pub queue: i64,
    pub bytes: &'a str,
    pub times: i64,
}

impl<'a> Row<'a> for PacketRow<'a> {
    ghost use Rattle.xdp_load.specs.Document.{PacketText, packet_row};
    ghost use Rattle.xdp_load.specs.Seen.{packet_seen};

    ghost Text = { PacketText };

    ghost seen = { packet_seen };

    ghost meaning = { packet_row };

    fn of(value: &'a Value) -> Result<PacketRow<'a>, Key> {
        let table = value.as_table().ok_or(Key::Packet)?;
        if !has_only(table, &[Key::PacketQueue, Key::Bytes, Key::Times]) {
            return Err(Key::Packet);
        }
        let queue = number_at(table, Key::PacketQueue)?;
        let bytes = text_at(table, Key::Bytes)?;
        let times = number_at(table, Key::Times)?;
        Ok(PacketRow {
            queue,
            bytes,
            times,
        })
    }
}

/// A step of the script as it is written.
#[derive(Clone, Copy)]
pub struct StepRow {
    pub queue: i64,
    pub answer: i64,
}

/// The step that the rows of an array spell.
fn step_of(rows: &[Value]) -> Option<StepRow>
    ensures { option_map step_seen result ≡ step_of (map view rows.now) }
{
    match rows {
        [queue, answer] => Some(StepRow {
            queue: queue.as_integer()?,
            answer: answer.as_integer()?,
        }),
        _ => None,
    }
}

impl<'a> Row<'a> for StepRow {
    ghost use Rattle.xdp_load.specs.Document.{StepText, step_row};
    ghost use Rattle.xdp_load.specs.Seen.{step_seen};

    ghost Text = { StepText };

    ghost seen = { step_seen };

    ghost meaning = { step_row };

    fn of(value: &'a Value) -> Result<StepRow, Key> {
        match rows_in(value) {
            Some(rows) => step_of(rows).ok_or(Key::Step),
            None => Err(Key::Step),
        }
    }
}

/// A place of a slot as it is written.
#[derive(Clone, Copy)]
pub struct PlaceRow {
    pub at: i64,
    pub own: bool,
}

/// The place that the rows of an array spell.
fn place_of(rows: &[Value]) -> Option<PlaceRow>
    ensures { option_map place_seen result ≡ place_of (map view rows.now) }
{
    match rows {
        [at, own] => Some(PlaceRow {
            at: at.as_integer()?,
            own: own.as_bool()?,
        }),
        _ => None,
    }
}

impl<'a> Row<'a> for PlaceRow {
    ghost use Rattle.xdp_load.specs.Document.{PlaceText, place_row};
    ghost use Rattle.xdp_load.specs.Seen.{place_seen};

    ghost Text = { PlaceText };

    ghost seen = { place_seen };

    ghost meaning = { place_row };

    fn of(value: &'a Value) -> Result<PlaceRow, Key> {
        match rows_in(value) {
            Some(rows) => place_of(rows).ok_or(Key::Place),
            None => Err(Key::Place),
        }
    }
}

/// A hex text of the program.
#[derive(Clone, Copy)]
pub struct HexRow<'a> {
    pub text: &'a str,
}

impl<'a> Row<'a> for HexRow<'a> {
    ghost use Rattle.xdp_load.specs.Document.{Text, hex_row};
    ghost use Rattle.xdp_load.specs.Seen.{hex_seen};

    ghost Text = { Text };

    ghost seen = { hex_seen };

    ghost meaning = { hex_row };

    fn of(value: &'a Value) -> Result<HexRow<'a>, Key> {
        let text = value.as_str().ok_or(Key::Program)?;
        Ok(HexRow { text })
    }
}
