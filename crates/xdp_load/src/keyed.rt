//! Maps whose values may be looked up by keys, as they are written.
ghost use Rattle.std.specs.Prelude.{◌≡◌, map};
ghost use Rattle.std.specs.List.{list_any};
ghost use Rattle.toml.specs.View.{table_view, view};
ghost use Rattle.xdp_load.specs.Gives.{seen_by};
ghost use Rattle.xdp_load.specs.ListedSeen.{key_seen, listed_seen, row_texts};
ghost use Rattle.xdp_load.specs.MapKeys.{is_no_text, key_of_fields, listed_of_fields, text_in, text_or, texts_at, truth_at};

use crate::key::Key;
use crate::kinds::{MapRow, map_of_fields};
use crate::rows::{Row, values_at};
use crate::table::{found, has_only, number_at};
use toml::{Table, Value};

/// The truth value at a key, false where it is left out.
pub fn truth_at(table: &Table, key: Key) -> Result<bool, Key>
    ensures { result ≡ truth_at key (table_view table.now) }
{
    match found(table, key) {
        Some(value) => value.as_bool().ok_or(key),
        None => Ok(false),
    }
}

/// The text at a key, or another where it is left out.
fn text_or<'a>(table: &'a Table, key: Key, other: &'a str) -> Result<&'a str, Key>
    ensures { seen_by (λ s. s.now) result ≡ text_or key other.now (table_view table.now) }
{
    match found(table, key) {
        Some(value) => value.as_str().ok_or(key),
        None => Ok(other),
    }
}

/// The text that a value is; an empty one for what is none.
pub fn text_in(value: &Value) -> &str
    ensures { result.now ≡ text_in (view value.now) }
{
    match value.as_str() {
        Some(text) => text,
        None => "",
    }
}

/// Returns whether a value is no text.
fn has_other(values: &[Value]) -> bool
    ensures { result ≡ list_any is_no_text (map view values.now) }
{
    values.iter().any(|value| value.as_str().is_none())
}

/// The list of texts at a key, none where it is left out.
fn texts_at(table: &Table, key: Key) -> Result<&[Value], Key>
    ensures { seen_by (λ r. row_texts r.now) result ≡ texts_at key (table_view table.now) }
{
    match values_at(table, key) {
        Some(values) => if has_other(values) {
            Err(key)
        } else {
            Ok(values)
        },
        None => Err(key),
    }
}

/// The kind of a map's keys, their bytes of data, its list of keys, which are texts, and whether a load may take a part of a counter.
#[derive(Clone, Copy)]
pub struct KeyRow<'a> {
    pub kind: &'a str,
    pub size: i64,
    pub rows: &'a [Value],
    pub parts: bool,
}

/// Returns what a table with known keys says of a map's keys.
fn key_of_fields<'a>(table: &'a Table) -> Result<KeyRow<'a>, Key>
    ensures { seen_by key_seen result ≡ key_of_fields (table_view table.now) }
{
    let kind = text_or(table, Key::KeyKind, "index")?;
    let size = number_at(table, Key::KeySize)?;
    let rows = texts_at(table, Key::Rows)?;
    let parts = truth_at(table, Key::Parts)?;
    Ok(KeyRow {
        kind,
        size,
        rows,
        parts,
    })
}

/// A map whose values may be looked up by keys, as it is written.
#[derive(Clone, Copy)]
pub struct ListedRow<'a> {
    pub map: MapRow<'a>,
    pub key: KeyRow<'a>,
}

/// The map of a table with known keys.
fn listed_of_fields<'a>(table: &'a Table) -> Result<ListedRow<'a>, Key>
    ensures { seen_by listed_seen result ≡ listed_of_fields (table_view table.now) }
{
    let map = map_of_fields(table)?;
    let key = key_of_fields(table)?;
    Ok(ListedRow { map, key })
}

/// The keys of a map's table.
const MAP_KEYS: [Key; 8] = [
    Key::Name,
    Key::Entries,
    Key::Counters,
    Key::Values,
    Key::KeyKind,
    Key::KeySize,
    Key::Rows,
    Key::Parts,
];

impl<'a> Row<'a> for ListedRow<'a> {
    ghost use Rattle.xdp_load.specs.ListedSeen.{listed_seen};
    ghost use Rattle.xdp_load.specs.MapKeys.{ListedText, listed_row};

    ghost Text = { ListedText };

    ghost seen = { listed_seen };

    ghost meaning = { listed_row };

    fn of(value: &'a Value) -> Result<ListedRow<'a>, Key> {
        let table = value.as_table().ok_or(Key::Map)?;
        if !has_only(table, &MAP_KEYS) {
            return Err(Key::Map);
        }
        listed_of_fields(table)
    }
}
