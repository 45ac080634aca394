//! How the order of rows is made.
ghost use Rattle.std.specs.Prelude.{◌≡◌, ◌+◌, ◌-◌, ◌*◌, ◌^◌, ◌<◌, ◌≤◌, ℕ, length, IfOk, IfErr, OnOk};
ghost use Rattle.std.specs.Ordering.{nat_cmp};
ghost use Rattle.std.specs.List.{range_with_len};
ghost use Rattle.bpf_note.specs.Keys.{size as size_of};
ghost use Rattle.bpf_lists.specs.Keys.{row as row_of, count as count_of};
ghost use Rattle.bpf_lists.specs.Refusals.{AreRows, AreListed, IsRefused};
ghost use Rattle.bpf_lists.specs.Order.{AreParents, AreLeads, AreFronts, AreSorted, spot, Differ};

use crate::order::Order;
use crate::refusal::RowsRefusal;
use crate::{keys, numbers};
use bpf_note::KeyKind;
use std::alloc::{AllocError, Global};
use std::cmp::Ordering;

/// Compares rows by their data, then their length, then their number. A number past the last row is taken for the last.
fn compare_rows(kind: KeyKind, keys: &[u8], last: u32, a: u32, b: u32) -> Ordering
    requires rows { AreRows kind keys.now }
    requires last { last < count_of kind keys.now }
    ensures { result ≡ nat_cmp (spot kind keys.now last a) (spot kind keys.now last b) }
{
    let x = keys::key_at(kind, keys, a.min(last) as usize);
    let y = keys::key_at(kind, keys, b.min(last) as usize);
    numbers::compare(kind.data_bytes(x), kind.data_bytes(y))
        .then(kind.data_bits(x).cmp(&kind.data_bits(y)))
        .then(a.cmp(&b))
}

/// For each row the number at the front of its data.
fn fronts(alloc: Global, kind: KeyKind, keys: &[u8], count: u32) -> Result<Vec<u64>, AllocError>
    requires rows { AreRows kind keys.now }
    requires count { count ≡ count_of kind keys.now }
    ensures { IfOk result (λ fronts. AreFronts kind keys.now fronts.items) }
{
    let mut fronts = Vec::with_capacity(alloc, count as usize)?;
    for row in 0..count {
        let key = keys::key_at(kind, keys, row as usize);
        fronts.push(numbers::lead(kind.data_bytes(key)))?;
    }
    Ok(fronts)
}

/// Compares rows as `compare_rows` does, by the numbers at their fronts where these differ.
fn compare_fronts(kind: KeyKind, keys: &[u8], fronts: &[u64], last: u32, a: u32, b: u32) -> Ordering
    requires rows { AreRows kind keys.now }
    requires fronts { AreFronts kind keys.now fronts.now }
    requires last { last < count_of kind keys.now }
    ensures { result ≡ nat_cmp (spot kind keys.now last a) (spot kind keys.now last b) }
{
    let first = fronts[a.min(last) as usize];
    let second = fronts[b.min(last) as usize];
    if first != second {
        return first.cmp(&second);
    }
    compare_rows(kind, keys, last, a, b)
}

/// The numbers below `count`.
fn numbers_below(alloc: Global, count: u32) -> Result<Vec<u32>, AllocError>
    ensures { IfOk result (λ rows. rows.items ≡ range_with_len 0 count) }
{
    let mut rows = Vec::with_capacity(alloc, count as usize)?;
    for row in 0..count {
        rows.push(row)?;
    }
    Ok(rows)
}

/// The rows in order.
fn sorted(alloc: Global, kind: KeyKind, keys: &[u8], count: u32) -> Result<Vec<u32>, AllocError>
    requires rows { AreRows kind keys.now }
    requires count { count ≡ count_of kind keys.now }
    ensures { IfOk result (λ rows. AreSorted kind keys.now rows.items) }
{
    let mut rows = numbers_below(alloc, count)?;
    if count == 0 {
        return Ok(rows);
    }
    let fronts = fronts(alloc, kind, keys, count)?;
    let fronts = fronts.as_slice();
    let last = count - 1;
    rows.sort_unstable_by(|a, b| compare_fronts(kind, keys, fronts, last, *a, *b));
    Ok(rows)
}

/// Refuses rows that have one key. They are neighbours.
fn check_distinct(kind: KeyKind, keys: &[u8], rows: &[u32]) -> Result<(), RowsRefusal>
    requires good { AreRows kind keys.now }
    requires sorted { AreSorted kind keys.now rows.now }
    ensures distinct { OnOk result (Differ kind keys.now rows.now) }
    ensures refused { IfErr result (IsRefused kind keys.now) }
{
    for place in 1..rows.len() {
        let first = keys::key_at(kind, keys, rows[place - 1] as usize);
        let second = keys::key_at(kind, keys, rows[place] as usize);
        if keys::are_same(kind, first, second) {
            return Err(RowsRefusal::Repeated(rows[place - 1], rows[place]));
        }
    }
    Ok(())
}

/// The rows in order, if none has another's key.
pub(crate) fn order(
    alloc: Global,
    kind: KeyKind,
    keys: &[u8],
    count: usize,
) -> Result<Order, RowsRefusal>
    requires rows { AreRows kind keys.now }
    requires count { count ≡ count_of kind keys.now }
    ensures kind { IfOk result (λ o. o.kind ≡ kind) }
    ensures keys { IfOk result (λ o. o.keys ≡ keys.now) }
    ensures listed { IfOk result (λ o. AreListed kind keys.now) }
    ensures refused { IfErr result (IsRefused kind keys.now) }
{
    let rows = sorted(alloc, kind, keys, count as u32)?;
    check_distinct(kind, keys, rows.as_slice())?;
    let keys = keys.to_vec(alloc)?;
    Ok(Order { kind, keys, rows })
}

/// For each place one above that of the longest other row that covers its row, or 0.
pub(crate) fn parents(alloc: Global, order: &Order) -> Result<Vec<u32>, AllocError>
    ensures nested { IfOk result (λ parents. AreParents order.now parents.items) }
    ensures len { IfOk result (λ parents. length parents.items ≡ length order.now.rows) }
{
    let mut parents = Vec::with_capacity(alloc, order.len())?;
    for place in 0..order.len() {
        let parent = order.climb(parents.as_slice(), place, order.key(place));
        parents.push(parent as u32)?;
    }
    Ok(parents)
}

/// For each place the number at the front of its row's data.
pub(crate) fn leads(alloc: Global, order: &Order) -> Result<Vec<u64>, AllocError>
    ensures { IfOk result (λ leads. AreLeads order.now leads.items) }
{
    let mut leads = Vec::with_capacity(alloc, order.len())?;
    for place in 0..order.len() {
        leads.push(numbers::lead(order.data_at(place)))?;
    }
    Ok(leads)
}
