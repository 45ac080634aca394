//! Beginnings of a program.
use crate::programs::{COUNTING, answer, bytes_of};
use bpf_verify::{Cause, MapShape};
use std::alloc::Global;

/// The refusal of the first slots, from one slot on: ten beginnings that have no exit to come to.
const REFUSED: [(Cause, u32); 10] = [
    (Cause::End, 0),
    (Cause::End, 1),
    (Cause::End, 2),
    (Cause::Opcode, 3),
    (Cause::End, 3),
    (Cause::End, 5),
    (Cause::Target, 6),
    (Cause::Target, 6),
    (Cause::Target, 6),
    (Cause::End, 9),
];

/// Returns why a beginning of `length` bytes is refused.
fn wanted(length: usize) -> Option<(Cause, u32)> {
    match (length / 8).checked_sub(1) {
        Some(last) if length % 8 == 0 => REFUSED.get(last).copied(),
        _ => Some((Cause::Length, 0)),
    }
}

/// Returns the number of bytes that a program has that is accepted, if each beginning of it has its refusal; the first that has
/// another, if there is one. Nothing without memory.
fn accepted_after_refusals(alloc: Global) -> Option<(usize, Option<usize>)> {
    let bytes = bytes_of(alloc, &COUNTING).ok()?;
    let shape = MapShape::of(2, 1)?;
    for length in 0..bytes.len() {
        let given = answer(alloc, &bytes[..length], &[shape]).err();
        if given.map(|refusal| (refusal.cause, refusal.pc)) != wanted(length) {
            return Some((bytes.len(), Some(length)));
        }
    }
    let whole = answer(alloc, &bytes, &[shape]);
    whole.is_ok().then_some((bytes.len(), None))
}

#[test]
fn each_beginning_has_its_refusal(rt: HostRuntime) {
    assert_eq!(rt; accepted_after_refusals(rt.alloc()), Some((88, None)));
}
