//! Questions about grants: grant_table.h.

use crate::numbers::numbers;
use std::alloc::{AllocError, Global};
use xen_page::{Entry, GrantFault};

fn entry(alloc: Global, rest: &str) -> Result<String, AllocError> {
    let [first, second, _] = numbers(rest);
    let entry = Entry::of_words(first, second);
    let [first, second] = entry.words();
    let permits = entry.permits_access();
    let readonly = entry.is_readonly();
    let marked = entry.is_marked();
    let Entry {
        flags,
        domid,
        frame,
    } = entry;
    format!(in alloc; "{flags} {domid} {frame} {permits} {readonly} {marked}, {first} {second}")
}

fn faults(alloc: Global) -> Result<String, AllocError> {
    let reference = GrantFault::BadGntref.number();
    let permission = GrantFault::PermissionDenied.number();
    let page = GrantFault::BadPage.number();
    let again = GrantFault::Eagain.number();
    format!(in alloc; "{reference} {permission} {page} {again}")
}

pub fn answer(alloc: Global, kind: &str, rest: &str) -> Result<Option<String>, AllocError> {
    Ok(Some(match kind {
        "entry" => entry(alloc, rest)?,
        "faults" => faults(alloc)?,
        _ => return Ok(None),
    }))
}
