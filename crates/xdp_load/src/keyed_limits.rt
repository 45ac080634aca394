//! The limits of maps whose values may be looked up by keys.
ghost use Rattle.std.specs.Prelude.{◌≡◌, ◌≤◌, not, IfOk, OnOk, length, map, vec_len};
ghost use Rattle.std.specs.List.{list_any};
ghost use Rattle.toml.specs.View.{view};
ghost use Rattle.bpf_note.specs.Keys.{IsKey};
ghost use Rattle.bpf_note.specs.Shape.{most_maps};
ghost use Rattle.xdp_load.specs.Gives.{Gives, each};
ghost use Rattle.xdp_load.specs.Listed.{entries_key, filled_shape, listed_limits, listed_limits_of, listed_limits_with, listed_shape, map_key, most_of};
ghost use Rattle.xdp_load.specs.ListedSeen.{key_seen, listed_seen, listed_written_seen, row_texts};
ghost use Rattle.xdp_load.specs.LimitsSeen.{limited_seen};
ghost use Rattle.xdp_load.specs.MapKeys.{are_rows, constants_of, exact_of, index_of, is_row_of, limited_key, prefix_of, text_in};
ghost use Rattle.xdp_load.specs.Numbers.{limited};
ghost use Rattle.xdp_load.specs.Seen.{row_numbers};
ghost use Rattle.xdp_load.specs.Values.{room_of};
ghost use Rattle.xdp_load.specs.declared.fault.Fault.TheVariants.{Limit};

use crate::fault::{Fault, LoadError, in_key, in_row};
use crate::key::Key;
use crate::keyed::{KeyRow, ListedRow, text_in};
use crate::limits::{WithinLimits, limited_with};
use crate::listed_document::ListedWritten;
use crate::numbers::{Limits, limited, limited_numbers};
use crate::spot::Spot;
use crate::values::are_values;
use bpf_note::{KeyKind, MapKey, MapShape};
use std::alloc::Global;
use toml::Value;

/// The key of an array: a number of four bytes.
fn index_of(size: i64) -> Result<MapKey, Key>
    ensures value { result ≡ index_of size }
    ensures key { IfOk result IsKey }
{
    if size == 4 {
        Ok(MapKey::Index)
    } else {
        Err(Key::KeySize)
    }
}

/// A key of which all bytes have to be the same.
fn exact_of(size: i64) -> Result<MapKey, Key>
    ensures value { result ≡ exact_of size }
    ensures key { IfOk result IsKey }
{
    let size = limited(Key::KeySize, size)?;
    Ok(MapKey::Listed(KeyKind::Exact(size as u8)))
}

/// A key that is a prefix.
fn prefix_of(size: i64) -> Result<MapKey, Key>
    ensures value { result ≡ prefix_of size }
    ensures key { IfOk result IsKey }
{
    let size = limited(Key::KeySize, size)?;
    Ok(MapKey::Listed(KeyKind::Prefix(size as u8)))
}

/// Constants of so many bytes.
fn constants_of(size: i64) -> Result<MapKey, Key>
    ensures value { result ≡ constants_of size }
    ensures key { IfOk result IsKey }
{
    let size = limited(Key::ConstantSize, size)?;
    Ok(MapKey::Constants(size))
}

/// The key that is written.
fn limited_key(row: &KeyRow<'_>) -> Result<MapKey, Key>
    ensures value { result ≡ limited_key (key_seen row.now) }
    ensures key { IfOk result IsKey }
{
    if row.kind == "index" {
        return index_of(row.size);
    }
    if row.kind == "exact" {
        return exact_of(row.size);
    }
    if row.kind == "prefix" {
        return prefix_of(row.size);
    }
    if row.kind == "constants" {
        return constants_of(row.size);
    }
    Err(Key::KeyKind)
}

/// Returns whether a row's text has the length of a key, at two digits a byte.
fn is_row_of(size: usize, row: &Value) -> bool
    ensures { result ≡ is_row_of size (text_in (view row.now)) }
{
    text_in(row).len() / 2 == size
}

/// Returns whether a row's text has another length than that of a key.
fn has_other_length(size: usize, rows: &[Value]) -> bool
    ensures { result ≡ list_any (λ t. not (is_row_of size t)) (row_texts rows.now) }
{
    rows.iter().any(|row| !is_row_of(size, row))
}

/// Returns whether a map with such keys and so many values can have these rows.
#[tactic(auto, using(crate::proofs::ListedLemmas::texts_counted))]
fn are_rows(key: MapKey, entries: u32, rows: &[Value]) -> bool
    ensures { result ≡ are_rows key entries (row_texts rows.now) }
{
    match key {
        MapKey::Index => rows.len() == 0,
        MapKey::Listed(kind) => rows.len() <= entries as usize
            && !has_other_length(kind.size(), rows),
        MapKey::Constants(bytes) => rows.len() == 1 && !has_other_length(bytes as usize, rows),
    }
}

/// The key at which the number of values is limited.
fn entries_key(wide: bool) -> Key
    ensures { result ≡ entries_key wide }
{
    if wide { Key::WideEntries } else { Key::Entries }
}

/// Returns the number of values that a map has.
fn limited_entries(wide: bool, entries: i64) -> Result<u32, Key>
    ensures value { result ≡ limited (entries_key wide) entries }
    ensures some { IfOk result (λ n. 1 ≤ n) }
    ensures few { IfOk result (λ n. n ≤ 65536) }
{
    if wide {
        limited(Key::WideEntries, entries)
    } else {
        limited(Key::Entries, entries)
    }
}

/// Returns the number of a map's counters that can begin with a number.
fn room_of(key: MapKey, counters: usize) -> usize
    ensures { result ≡ room_of key counters }
{
    match key {
        MapKey::Index | MapKey::Listed(_) => counters,
        MapKey::Constants(_) => 0,
    }
}

/// The shape, where its counters can begin with these numbers.
fn filled_shape(
    entries: u32,
    counters: u32,
    key: MapKey,
    parts: bool,
    values: &[Value],
) -> Result<MapShape, Key>
    requires entries { (1 ≤ entries) × (entries ≤ 65536) }
    requires counters { (1 ≤ counters) × (counters ≤ 8) }
    requires key { IsKey key }
    ensures { result ≡ filled_shape entries counters key parts (row_numbers values.now) }
{
    let room = room_of(key, counters as usize * entries as usize);
    if !are_values(room, values) {
        return Err(Key::Values);
    }
    let shape = MapShape::keyed(key, entries, counters).ok_or(Key::Map)?;
    if parts {
        Ok(shape.with_parts())
    } else {
        Ok(shape)
    }
}

/// The shape of a map within its limits.
fn listed_shape(wide: bool, row: &ListedRow<'_>) -> Result<MapShape, Key>
    ensures { result ≡ listed_shape wide (listed_seen row.now) }
{
    let entries = limited_entries(wide, row.map.entries)?;
    let counters = limited(Key::Counters, row.map.counters)?;
    let key = limited_key(&row.key)?;
    if !are_rows(key, entries, row.key.rows) {
        return Err(Key::Rows);
    }
    filled_shape(entries, counters, key, row.key.parts, row.map.values)
}

/// The shapes of the maps, each within its limits.
fn listed_shapes(
    alloc: Global,
    wide: bool,
    rows: &[ListedRow<'_>],
) -> Result<Vec<MapShape>, LoadError>
    ensures value { Gives (λ v. v.items) result (each Limit (listed_shape wide) 0 (map listed_seen rows.now)) }
    ensures counted { IfOk result (λ v. length v.items ≡ length rows.now) }
{
    let mut shapes = Vec::new(alloc);
    for (i, row) in rows.iter().enumerate() {
        let shape = in_row(Fault::Limit, i, listed_shape(wide, row))?;
        shapes.push(shape)?;
    }
    Ok(shapes)
}

/// The lists within their limits.
#[tactic(auto, unfolding(crate::specs::Listed::listed_limits_with))]
fn listed_limits_with<'a>(
    alloc: Global,
    listed: &ListedWritten<'a>,
    numbers: Limits,
) -> Result<WithinLimits<'a>, LoadError>
    ensures value { Gives limited_seen result (listed_limits_with (listed_written_seen listed.now) numbers) }
    ensures counted { IfOk result (λ l. vec_len l.shapes ≡ vec_len listed.now.maps) }
{
    let shapes = listed_shapes(alloc, listed.wide, listed.maps.as_slice())?;
    limited_with(alloc, &listed.written, numbers, shapes)
}

/// Returns the most maps that there may be.
fn most_of(wide: bool) -> usize
    ensures value { result ≡ most_of wide }
    ensures few { result ≤ most_maps }
{
    if wide { 16 } else { 4 }
}

/// The key at which the number of maps is limited.
fn map_key(wide: bool) -> Key
    ensures { result ≡ map_key wide }
{
    if wide { Key::WideMap } else { Key::Map }
}

/// The lists within their limits, where there are few enough maps.
#[tactic(auto, unfolding(crate::specs::Listed::listed_limits_of))]
fn listed_limits_of<'a>(
    alloc: Global,
    listed: &ListedWritten<'a>,
    numbers: Limits,
) -> Result<WithinLimits<'a>, LoadError>
    ensures value { Gives limited_seen result (listed_limits_of (listed_written_seen listed.now) numbers) }
    ensures counted { IfOk result (λ l. vec_len l.shapes ≡ vec_len listed.now.maps) }
    ensures few { OnOk result (vec_len listed.now.written.maps ≤ most_maps) }
{
    if listed.written.maps.len() > most_of(listed.wide) {
        return Err(LoadError::at(Fault::Limit, Spot::At(map_key(listed.wide))));
    }
    listed_limits_with(alloc, listed, numbers)
}

/// Returns what is written, where it is within its limits.
#[tactic(auto, unfolding(crate::specs::Listed::listed_limits))]
pub fn listed_limits<'a>(
    alloc: Global,
    listed: &ListedWritten<'a>,
) -> Result<WithinLimits<'a>, LoadError>
    ensures value { Gives limited_seen result (listed_limits (listed_written_seen listed.now)) }
    ensures counted { IfOk result (λ l. vec_len l.shapes ≡ vec_len listed.now.maps) }
    ensures few { OnOk result (vec_len listed.now.written.maps ≤ most_maps) }
{
    let numbers = in_key(Fault::Limit, limited_numbers(listed.written.numbers))?;
    listed_limits_of(alloc, listed, numbers)
}
