//! The keys of rows, one after the other.
ghost use Rattle.std.specs.Prelude.{◌≡◌, ◌+◌, ◌*◌, ◌<◌, ◌≤◌, length, ◌↔◌, IsTrue, IfOk, IfErr, OnOk};
ghost use Rattle.bpf_note.specs.Keys.{size as size_of, IsKind};
ghost use Rattle.bpf_lists.specs.Keys.{row as row_of, count as count_of};
ghost use Rattle.bpf_lists.specs.Refusals.{IsWithin, IsSame, AreFew, AreRows, IsRefused};
ghost use Rattle.bpf_lists.specs.Order.{Covers};

use crate::numbers;
use crate::refusal::RowsRefusal;
use bpf_note::KeyKind;

/// The most rows of a map.
pub(crate) const MOST_ROWS: usize = 65536;

/// The key of a row.
pub(crate) fn key_at(kind: KeyKind, keys: &[u8], row: usize) -> &[u8]
    requires { size_of kind * row + size_of kind ≤ length keys.now }
    ensures value { result.now ≡ row_of kind keys.now row }
    ensures len { length result.now ≡ size_of kind }
{
    let start = kind.size() * row;
    &keys[start..start + kind.size()]
}

/// Returns whether the first key's bits begin the second, which is no shorter.
pub(crate) fn covers(kind: KeyKind, a: &[u8], b: &[u8]) -> bool
    requires first { length a.now ≡ size_of kind }
    requires second { length b.now ≡ size_of kind }
    requires within { IsWithin kind a.now }
    ensures { IsTrue result ↔ Covers kind a.now b.now }
{
    let bits = kind.data_bits(a);
    bits <= kind.data_bits(b) && numbers::begin_alike(bits, kind.data_bytes(a), kind.data_bytes(b))
}

/// Returns whether two keys are one.
pub(crate) fn are_same(kind: KeyKind, a: &[u8], b: &[u8]) -> bool
    requires first { length a.now ≡ size_of kind }
    requires second { length b.now ≡ size_of kind }
    ensures { IsTrue result ↔ IsSame kind a.now b.now }
{
    kind.data_bits(a) == kind.data_bits(b) && kind.data_bytes(a) == kind.data_bytes(b)
}

/// Returns the number of rows that the bytes are, if they are whole rows and few enough.
pub(crate) fn checked_count(kind: KeyKind, keys: &[u8]) -> Result<usize, RowsRefusal>
    ensures ok { IfOk result (λ n. n ≡ count_of kind keys.now) }
    ensures few { OnOk result (AreFew kind keys.now) }
    ensures refused { IfErr result (IsRefused kind keys.now) }
{
    if !kind.is_supported() {
        return Err(RowsRefusal::Width);
    }
    let size = kind.size();
    if keys.len() % size != 0 {
        return Err(RowsRefusal::Partial);
    }
    let count = keys.len() / size;
    if count > MOST_ROWS {
        return Err(RowsRefusal::TooMany);
    }
    Ok(count)
}

/// Refuses the first row that a map can't have.
pub(crate) fn check_rows(kind: KeyKind, keys: &[u8], count: usize) -> Result<(), RowsRefusal>
    requires few { AreFew kind keys.now }
    requires count { count ≡ count_of kind keys.now }
    ensures rows { OnOk result (AreRows kind keys.now) }
    ensures refused { IfErr result (IsRefused kind keys.now) }
{
    for row in 0..count {
        let key = key_at(kind, keys, row);
        let bits = kind.data_bits(key);
        if bits as usize > 8 * kind.width() {
            return Err(RowsRefusal::Length(row as u32));
        }
        if !numbers::is_plain(bits, kind.data_bytes(key)) {
            return Err(RowsRefusal::Beyond(row as u32));
        }
    }
    Ok(())
}
