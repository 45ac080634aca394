//! The lists of maps: the keys of their rows, or constants.
ghost use Rattle.std.specs.Prelude.{◌≡◌, IfOk, IfErr, OnOk, Some, length, map, option_map};
ghost use Rattle.bpf_lists.specs.Refusals.{AreListed};
ghost use Rattle.xdp_load.specs.Gives.{Gives};
ghost use Rattle.xdp_load.specs.Listed.{AreListedBelow, list_of, lists_of, row_bytes};
ghost use Rattle.xdp_load.specs.ListedFault.{IsListError, IsListed, IsUnlistedError};
ghost use Rattle.xdp_load.specs.ListedSeen.{list_seen, listed_seen, lists_seen, row_texts};
ghost use Rattle.bpf_lists.specs.declared.list.MapList.TheVariants.{Rows};

use crate::fault::{Fault, LoadError};
use crate::key::Key;
use crate::keyed::{ListedRow, text_in};
use crate::packets::bytes_in;
use crate::spot::Spot;
use bpf_lists::{ConstantBytes, KeyedRows, MapList, RowsRefusal};
use bpf_note::{KeyKind, MapKey, MapShape};
use std::alloc::Global;
use toml::Value;

/// The keys of a list, one after the other.
#[derive(Drop)]
pub struct KeyBytes {
    pub kind: KeyKind,
    pub keys: Vec<u8>,
}

/// The list of a map, as it is written.
#[derive(Drop)]
pub enum ListBytes {
    /// The keys of its rows.
    Keys(KeyBytes),
    /// Constants.
    Constants(ConstantBytes),
}

/// The bytes of the rows of a map, one after another.
fn row_bytes(alloc: Global, number: usize, rows: &[Value]) -> Result<Vec<u8>, LoadError>
    ensures { Gives (λ v. v.items) result (row_bytes number (row_texts rows.now)) }
{
    let mut keys = Vec::new(alloc);
    for row in rows {
        let bytes = bytes_in(alloc, Key::Rows, number, text_in(row))?;
        keys.extend_from_slice(bytes.as_slice())?;
    }
    Ok(keys)
}

/// The list of a map, or its constants, if it has some.
fn list_of(
    alloc: Global,
    number: usize,
    key: MapKey,
    rows: &[Value],
) -> Result<Option<ListBytes>, LoadError>
    ensures { Gives (λ l. option_map list_seen l) result (list_of number key (row_texts rows.now)) }
{
    match key {
        MapKey::Index => Ok(None),
        MapKey::Listed(kind) => {
            let keys = row_bytes(alloc, number, rows)?;
            Ok(Some(ListBytes::Keys(KeyBytes { kind, keys })))
        }
        MapKey::Constants(_) => {
            let bytes = row_bytes(alloc, number, rows)?;
            Ok(Some(ListBytes::Constants(ConstantBytes::make(bytes))))
        }
    }
}

/// The lists of maps of these shapes.
pub fn lists_of(
    alloc: Global,
    shapes: &[MapShape],
    maps: &[ListedRow<'_>],
) -> Result<Vec<Option<ListBytes>>, LoadError>
    requires { length shapes.now ≡ length maps.now }
    ensures { Gives (λ v. lists_seen v.items) result (lists_of 0 shapes.now (map listed_seen maps.now)) }
{
    let mut lists = Vec::new(alloc);
    for (i, map) in maps.iter().enumerate() {
        let list = list_of(alloc, i, shapes[i].key(), map.key.rows)?;
        lists.push(list)?;
    }
    Ok(lists)
}

/// The rows of a map's list, if a map can have them.
fn rows_of(alloc: Global, number: usize, list: &KeyBytes) -> Result<KeyedRows, LoadError>
    ensures rows { IfOk result (λ r. r ≡ record { kind = list.now.kind; keys = list.now.keys.items }) }
    ensures listed { OnOk result (AreListed list.now.kind list.now.keys.items) }
    ensures refused { IfErr result (IsUnlistedError number (Some (Rows (record { kind = list.now.kind; keys = list.now.keys.items })))) }
{
    match KeyedRows::make(alloc, list.kind, list.keys.as_slice()) {
        Ok(rows) => Ok(rows),
        Err(RowsRefusal::Memory) => Err(LoadError::Memory),
        Err(_) => Err(LoadError::at(Fault::Rows, Spot::Row(Key::Rows, number))),
    }
}

/// The list of a map, if a map can have it.
fn map_list(alloc: Global, number: usize, list: &ListBytes) -> Result<MapList, LoadError>
    ensures list { IfOk result (λ l. l ≡ list_seen list.now) }
    ensures listed { OnOk result (IsListed (Some (list_seen list.now))) }
    ensures refused { IfErr result (IsUnlistedError number (Some (list_seen list.now))) }
{
    match list {
        ListBytes::Keys(keys) => {
            let rows = rows_of(alloc, number, keys)?;
            Ok(MapList::Rows(rows))
        }
        ListBytes::Constants(bytes) => {
            let bytes = bytes.as_slice().to_vec(alloc)?;
            Ok(MapList::Constants(ConstantBytes::make(bytes)))
        }
    }
}

/// The list of the map, if it has one.
fn some_list(
    alloc: Global,
    number: usize,
    list: &Option<ListBytes>,
) -> Result<Option<MapList>, LoadError>
    ensures list { IfOk result (λ l. l ≡ option_map list_seen list.now) }
    ensures listed { OnOk result (IsListed (option_map list_seen list.now)) }
    ensures refused { IfErr result (IsUnlistedError number (option_map list_seen list.now)) }
{
    match list {
        Some(list) => {
            let given = map_list(alloc, number, list)?;
            Ok(Some(given))
        }
        None => Ok(None),
    }
}

/// The maps' lists, with their rows in order.
#[tactic(auto, using(crate::proofs::ListedLemmas::first_error))]
pub fn sorted_lists(
    alloc: Global,
    lists: &[Option<ListBytes>],
) -> Result<Vec<Option<MapList>>, LoadError>
    ensures rows { IfOk result (λ v. v.items ≡ lists_seen lists.now) }
    ensures listed { IfOk result (λ v. AreListedBelow v.items (length v.items)) }
    ensures refused { IfErr result (IsListError (lists_seen lists.now)) }
{
    let mut sorted = Vec::new(alloc);
    for (i, list) in lists.iter().enumerate() {
        let given = some_list(alloc, i, list)?;
        sorted.push(given)?;
    }
    Ok(sorted)
}
