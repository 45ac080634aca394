//! Arrays of rows in a document.
ghost use Rattle.std.specs.Prelude.{◌≡◌, map, option_map};
ghost use Rattle.toml.specs.View.{view, table_view};
ghost use Rattle.xdp_load.specs.Document.{list_at, rows, rows_in, values_at};
ghost use Rattle.xdp_load.specs.Gives.{Gives, each};
ghost use Rattle.xdp_load.specs.Written.{rows_of};
ghost use Rattle.xdp_load.specs.declared.fault.Fault.TheVariants as fault;

use crate::fault::{Fault, LoadError, in_row};
use crate::key::Key;
use crate::spot::Spot;
use crate::table::found;
use std::alloc::Global;
use toml::{Table, Value};

/// A type that a row of an array spells.
pub trait Row<'a>: Sized {
    ghost use Rattle.std.specs.Prelude.{◌≡◌, Result};
    ghost use Rattle.toml.specs.Data.{Data};
    ghost use Rattle.toml.specs.View.{view};
    ghost use Rattle.xdp_load.specs.Gives.{seen_by};
    ghost use Rattle.xdp_load.specs.declared.key.Key.{Key};

    ghost Text: { Type 0 };

    ghost seen: { Self → Text };

    ghost meaning: { Data → Result Text Key };

    /// The row of a value, or the key by which it is none.
    fn of(value: &'a Value) -> Result<Self, Key>
        ensures { seen_by seen result ≡ meaning (view value.now) };
}

/// The rows of an array.
pub fn rows_in(value: &Value) -> Option<&[Value]>
    ensures { option_map (λ vs. map view vs.now) result ≡ rows_in (view value.now) }
{
    match value.as_array() {
        Some(array) => Some(array.as_slice()),
        None => None,
    }
}

/// The rows of the array at a key.
pub fn list_at(table: &Table, key: Key) -> Option<&[Value]>
    ensures { option_map (λ vs. map view vs.now) result ≡ list_at key (table_view table.now) }
{
    match found(table, key) {
        Some(value) => rows_in(value),
        None => None,
    }
}

/// The rows of the array at a key, none where there is no such key.
pub fn values_at(table: &Table, key: Key) -> Option<&[Value]>
    ensures { option_map (λ vs. map view vs.now) result ≡ values_at key (table_view table.now) }
{
    match found(table, key) {
        Some(value) => rows_in(value),
        None => Some(&[]),
    }
}

/// The values, each as a row.
fn each_row<'a, T: Row<'a> + Drop>(alloc: Global, values: &'a [Value]) -> Result<Vec<T>, LoadError>
    ensures { Gives (λ v. map T.seen v.items) result (each fault.Key T.meaning 0 (map view values.now)) }
{
    let mut rows = Vec::new(alloc);
    for (i, value) in values.iter().enumerate() {
        let row = in_row(Fault::Key, i, T::of(value))?;
        rows.push(row)?;
    }
    Ok(rows)
}

/// The rows of the list at a key, if it is one.
pub fn rows<'a, T: Row<'a> + Drop>(
    alloc: Global,
    key: Key,
    values: Option<&'a [Value]>,
) -> Result<Vec<T>, LoadError>
    ensures { Gives (λ v. map T.seen v.items) result (rows T.meaning key (option_map (λ vs. map view vs.now) values.entry)) }
{
    match values {
        Some(values) => each_row(alloc, values),
        None => Err(LoadError::at(Fault::Key, Spot::At(key))),
    }
}

/// The rows of the array at a key, none where there is no such key.
#[tactic(auto, unfolding(crate::specs::Written::rows_of))]
pub fn rows_at<'a, T: Row<'a> + Drop>(
    alloc: Global,
    table: &'a Table,
    key: Key,
) -> Result<Vec<T>, LoadError>
    ensures { Gives (λ v. map T.seen v.items) result (rows_of T.meaning key (table_view table.now)) }
{
    rows(alloc, key, values_at(table, key))
}
