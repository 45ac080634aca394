//! What a note says, as plain values.

use bpf_note::{Note, Val};
use std::alloc::AllocError;

/// The greatest base of an id, and how many bytes from its base on lie in the packet.
pub fn bounds(note: &Note, id: u16) -> (u32, Option<u32>) {
    (note.top(id), note.safe(id))
}

/// Returns whether these bytes of the stack are set.
pub fn set_bytes(note: &Note, bytes: [u16; 3]) -> [bool; 3] {
    let [first, second, third] = bytes;
    [note.is_set(first), note.is_set(second), note.is_set(third)]
}

/// Returns what two registers hold, and what a stack slot keeps.
pub fn values(note: &Note, [first, second]: [u8; 2], slot: u8) -> ([Val; 2], Option<Val>) {
    let registers = [note.register(first), note.register(second)];
    (registers, note.kept(slot))
}

/// Sets the greatest base of an id, and how many bytes from its base on lie in the packet.
pub fn set_bounds(note: &mut Note, id: u16, top: u32, safe: Option<u32>) -> Result<(), AllocError> {
    note.set_top(id, top)?;
    note.set_safe(id, safe)
}
