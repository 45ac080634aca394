//! The stack's slots that an access touches.
ghost use Rattle.std.specs.Prelude.{◌≡◌, ◌+◌, ◌-◌, ◌<◌, ◌≤◌, IfOk, IfSome, Option, map, string_bytes};
ghost use Rattle.bpf_note.specs.Parts.{facts};
ghost use Rattle.bpf_explain.specs.Stack.{byte_text, bytes_text, content_text, place_of, slot_text, slots_text, stack_place};
ghost use Rattle.bpf_explain.specs.Stack.{stack_text, touched_text};

use crate::access::{Access, access_of};
use crate::values::known_text;
use bpf_insn::Insn;
use bpf_note::{Note, Val};
use std::alloc::{AllocError, Global};

/// The number of bytes that the stack has.
const STACK: u32 = 512;

fn byte_text(set: bool) -> &'static str
    ensures { result.now ≡ byte_text set }
{
    if set { "#" } else { "?" }
}

/// Returns which of the eight bytes from a place on are set.
fn bytes_text(alloc: Global, note: &Note, place: u16) -> Result<String, AllocError>
    requires { place < 512 }
    ensures { IfOk result (λ s. string_bytes s ≡ bytes_text (facts note.now) place 8) }
{
    let mut text = String::new(alloc);
    for byte in place..place + 8 {
        text.push_str(byte_text(note.is_set(byte)))?;
    }
    Ok(text)
}

/// Returns what is known of a slot's eight bytes.
fn content_text(
    alloc: Global,
    names: &[String],
    note: &Note,
    slot: u8,
) -> Result<String, AllocError>
    requires { slot < 64 }
    ensures { IfOk result (λ s. string_bytes s ≡ content_text (map string_bytes names.now) (facts note.now) slot
        ((facts note.now).kept slot)) }
{
    match note.kept(slot) {
        None => bytes_text(alloc, note, 8 * u16::from(slot)),
        Some(value) => known_text(alloc, names, note, value),
    }
}

/// A slot of the stack, by its distance from the stack's end.
fn slot_text(alloc: Global, names: &[String], note: &Note, slot: u8) -> Result<String, AllocError>
    requires { slot < 64 }
    ensures { IfOk result (λ s. string_bytes s ≡ slot_text (map string_bytes names.now) (facts note.now) slot) }
{
    let below = STACK - 8 * u32::from(slot);
    let content = content_text(alloc, names, note, slot)?;
    format!(in alloc; "  fp-{below}={content}")
}

/// The slots from `first` up to, but not including, `end`.
fn slots_text(
    alloc: Global,
    names: &[String],
    note: &Note,
    first: u8,
    end: u8,
) -> Result<String, AllocError>
    requires { (first ≤ end) × (end ≤ 64) }
    ensures { IfOk result (λ s. string_bytes s ≡ slots_text (map string_bytes names.now) (facts note.now) first (end - first)) }
{
    let mut text = String::new(alloc);
    for slot in first..end {
        text.push_str(slot_text(alloc, names, note, slot)?.as_str())?;
    }
    Ok(text)
}

/// The slots that `bytes` bytes from `place` on touch.
fn touched_text(
    alloc: Global,
    names: &[String],
    note: &Note,
    place: u32,
    bytes: u32,
) -> Result<String, AllocError>
    requires some { 1 ≤ bytes }
    requires inside { place + bytes ≤ 512 }
    ensures { IfOk result (λ s. string_bytes s ≡ touched_text (map string_bytes names.now) (facts note.now) (Option.Some place) bytes) }
{
    let first = (place / 8) as u8;
    let last = ((place + bytes - 1) / 8) as u8;
    slots_text(alloc, names, note, first, last + 1)
}

/// The place of `bytes` bytes, `off` past an address of the stack, if they lie in the stack.
fn stack_place(value: Val, off: i16, bytes: u32) -> Option<u32>
    requires { bytes ≤ 512 }
    ensures place { result ≡ stack_place value off bytes }
    ensures inside { IfSome result (λ p. p + bytes ≤ 512) }
{
    let Val::Stack { off: from } = value else {
        return None;
    };
    let at = 512 + i32::from(from) + i32::from(off);
    if at < 0 {
        return None;
    }
    let place = at as u32;
    if place + bytes <= STACK {
        Some(place)
    } else {
        None
    }
}

/// The place of an instruction's access, if it lies in the stack.
pub(crate) fn place_of(note: &Note, insn: Insn) -> Option<u32>
    ensures { result ≡ place_of (facts note.now) insn }
{
    match access_of(insn) {
        None => None,
        Some(access) => stack_place(
            note.register(access.base.number()),
            access.off,
            access.bytes,
        ),
    }
}

/// The slots that an access touches.
pub(crate) fn stack_text(
    alloc: Global,
    names: &[String],
    note: &Note,
    access: Access,
) -> Result<String, AllocError>
    requires some { 1 ≤ access.bytes }
    requires few { access.bytes ≤ 512 }
    ensures { IfOk result (λ s. string_bytes s ≡ stack_text (map string_bytes names.now) (facts note.now) (Option.Some access)) }
{
    let value = note.register(access.base.number());
    match stack_place(value, access.off, access.bytes) {
        None => Ok(String::new(alloc)),
        Some(place) => touched_text(alloc, names, note, place, access.bytes),
    }
}
