//! Questions about the rows of keyed maps: whether they are taken, and which is found.

use bpf_lists::KeyedRows;
use bpf_note::KeyKind;
use std::alloc::{AllocError, Global};

fn kind_of(word: &str, bytes: &str) -> Option<KeyKind> {
    let bytes = bytes.parse().ok()?;
    match word {
        "exact" => Some(KeyKind::Exact(bytes)),
        "prefix" => Some(KeyKind::Prefix(bytes)),
        _ => None,
    }
}

/// The rows of a question, if they are taken.
fn rows(alloc: Global, rest: &str) -> Option<KeyedRows> {
    let mut words = rest.split(' ');
    let kind = kind_of(words.next()?, words.next()?)?;
    let keys = hex::decode(alloc, words.next()?).ok()?;
    KeyedRows::make(alloc, kind, keys.as_slice()).ok()
}

/// The row of a question's key.
fn row(alloc: Global, rest: &str) -> Option<u32> {
    let rows = rows(alloc, rest)?;
    let key = hex::decode(alloc, rest.split(' ').nth(3)?).ok()?;
    if key.len() != rows.kind().size() {
        return None;
    }
    rows.find(key.as_slice())
}

/// The answer to a question about rows, if it is one.
pub fn answer(alloc: Global, kind: &str, rest: &str) -> Result<Option<String>, AllocError> {
    match kind {
        "taken" => match rows(alloc, rest) {
            Some(_rows) => Ok(Some(format!(in alloc; "yes")?)),
            None => Ok(Some(format!(in alloc; "no")?)),
        },
        "found" => match row(alloc, rest) {
            Some(row) => Ok(Some(format!(in alloc; "{row}")?)),
            None => Ok(Some(format!(in alloc; "none")?)),
        },
        _ => Ok(None),
    }
}
