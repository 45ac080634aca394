//! The numbers that a map's counters begin with.
ghost use Rattle.std.specs.Prelude.{◌≡◌, IfOk, map, unsigned_abs};
ghost use Rattle.std.specs.List.{list_any};
ghost use Rattle.toml.specs.View.{table_view, view};
ghost use Rattle.xdp_load.specs.Document.{is_no_number, number_in, numbers_at};
ghost use Rattle.xdp_load.specs.Gives.{seen_by};
ghost use Rattle.xdp_load.specs.Seen.{map_seen, row_numbers};
ghost use Rattle.xdp_load.specs.Values.{are_values, is_negative, values_of};

use crate::key::Key;
use crate::kinds::MapRow;
use crate::rows::values_at;
use std::alloc::{AllocError, Global};
use toml::{Table, Value};

/// The whole number that a value is; 0 for what is none.
fn number_in(value: &Value) -> i64
    ensures { result ≡ number_in (view value.now) }
{
    match value.as_integer() {
        Some(number) => number,
        None => 0,
    }
}

/// Returns whether a value is no whole number.
fn has_other(values: &[Value]) -> bool
    ensures { result ≡ list_any is_no_number (map view values.now) }
{
    values.iter().any(|value| value.as_integer().is_none())
}

/// The list of whole numbers at a key, none where it is left out.
pub fn numbers_at(table: &Table, key: Key) -> Result<&[Value], Key>
    ensures { seen_by (λ r. row_numbers r.now) result ≡ numbers_at key (table_view table.now) }
{
    match values_at(table, key) {
        Some(values) => if has_other(values) {
            Err(key)
        } else {
            Ok(values)
        },
        None => Err(key),
    }
}

/// Returns whether a number is negative.
fn is_negative(number: i64) -> bool
    ensures { result ≡ is_negative number }
{
    match u64::try_from(number) {
        Ok(_) => false,
        Err(_) => true,
    }
}

/// Returns whether one of the numbers is negative.
fn has_negative(numbers: &[Value]) -> bool
    ensures { result ≡ list_any is_negative (row_numbers numbers.now) }
{
    numbers.iter().any(|value| is_negative(number_in(value)))
}

/// Returns whether so many counters can begin with these numbers.
#[tactic(auto, using(crate::proofs::ListedLemmas::numbers_counted))]
pub fn are_values(counters: usize, numbers: &[Value]) -> bool
    ensures { result ≡ are_values counters (row_numbers numbers.now) }
{
    numbers.len() <= counters && !has_negative(numbers)
}

/// The numbers of a map.
fn values_of(alloc: Global, row: &MapRow<'_>) -> Result<Vec<u64>, AllocError>
    ensures { IfOk result (λ v. v.items ≡ values_of (map_seen row.now)) }
{
    let mut values = Vec::with_capacity(alloc, row.values.len())?;
    for value in row.values {
        values.push(number_in(value).unsigned_abs())?;
    }
    Ok(values)
}

/// The numbers of the maps.
pub fn values_in(alloc: Global, maps: &[MapRow<'_>]) -> Result<Vec<Vec<u64>>, AllocError>
    ensures { IfOk result (λ v. map (λ l. l.items) v.items ≡ map values_of (map map_seen maps.now)) }
{
    let mut values = Vec::with_capacity(alloc, maps.len())?;
    for row in maps {
        values.push(values_of(alloc, row)?)?;
    }
    Ok(values)
}
