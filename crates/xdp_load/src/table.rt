//! What a table of a document holds at a key.
ghost use Rattle.std.specs.Prelude.{◌≡◌, option_map};
ghost use Rattle.std.specs.List.{list_any};
ghost use Rattle.std.specs.Str.{bytes_eq};
ghost use Rattle.toml.specs.View.{view, table_view};
ghost use Rattle.xdp_load.specs.Document.{found, has_only, number_at, text_at, unknown_key};
ghost use Rattle.xdp_load.specs.Gives.{seen_by};
ghost use Rattle.xdp_load.specs.Keys.{name};

use crate::key::Key;
use toml::{Table, Value};

/// Returns whether the key is one of those.
fn is_known(key: &str, known: &[Key]) -> bool
    ensures { result ≡ list_any (λ k. bytes_eq key.now (name k)) known.now }
{
    known.iter().any(|k| key == k.name())
}

/// The first key that isn't one of those.
pub fn unknown_key<'a>(table: &'a Table, known: &[Key]) -> Option<&'a str>
    ensures { option_map (λ k. k.now) result ≡ unknown_key known.now (table_view table.now) }
{
    let key = table.keys().find(|key| !is_known(key.as_str(), known))?;
    Some(key.as_str())
}

/// Returns whether the table has no key but those.
pub fn has_only(table: &Table, known: &[Key]) -> bool
    ensures { result ≡ has_only known.now (table_view table.now) }
{
    unknown_key(table, known).is_none()
}

/// Returns what the table has at a key.
pub fn found(table: &Table, key: Key) -> Option<&Value>
    ensures { option_map (λ v. view v.now) result ≡ found key (table_view table.now) }
{
    table.get(key.name())
}

/// The text at a key.
pub fn text_at(table: &Table, key: Key) -> Result<&str, Key>
    ensures { seen_by (λ s. s.now) result ≡ text_at key (table_view table.now) }
{
    match found(table, key) {
        Some(value) => value.as_str().ok_or(key),
        None => Err(key),
    }
}

/// The whole number at a key, or the one that it has where it is left out.
pub fn number_at(table: &Table, key: Key) -> Result<i64, Key>
    ensures { result ≡ number_at key (table_view table.now) }
{
    match found(table, key) {
        Some(value) => value.as_integer().ok_or(key),
        None => key.missing().ok_or(key),
    }
}
