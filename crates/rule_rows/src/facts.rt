//! What is known before and after an instruction, as in a row: facts, a blank apart.

use crate::values::{id, value};
use bpf_note::{KeyKind, MapKey, MapShape, Note, Val};
use std::alloc::Global;

/// A fact of a note.
#[derive(Clone, Copy)]
enum Fact {
    /// `r2=..`
    Register(u8, Val),
    /// `s62=..`: what a slot of eight stack bytes keeps.
    Kept(u8, Val),
    /// `byte502=set`
    Set(u16),
    /// `top7=..`: the greatest base of an id.
    Top(u16, u32),
    /// `safe7=..`: how many bytes from the base of an id on lie in the packet.
    Safe(u16, Option<u32>),
}

fn safe_bound(text: &str) -> Option<Option<u32>> {
    if text == "none" {
        return Some(None);
    }
    Some(Some(text.parse().ok()?))
}

fn read_fact(text: &str) -> Option<Fact> {
    let (place, known) = text.split_once('=')?;
    if let Some(number) = place.strip_prefix("byte") {
        return if known == "set" {
            Some(Fact::Set(number.parse().ok()?))
        } else {
            None
        };
    }
    if let Some(of) = place.strip_prefix("top") {
        return Some(Fact::Top(id(of)?, known.parse().ok()?));
    }
    if let Some(of) = place.strip_prefix("safe") {
        return Some(Fact::Safe(id(of)?, safe_bound(known)?));
    }
    if let Some(number) = place.strip_prefix("r") {
        return Some(Fact::Register(number.parse().ok()?, value(known)?));
    }
    let slot = place.strip_prefix("s")?;
    Some(Fact::Kept(slot.parse().ok()?, value(known)?))
}

/// Makes a note say a fact; None for a register, a slot or a byte that isn't there, and if memory runs out.
fn say(note: &mut Note, fact: Fact) -> Option<()> {
    match fact {
        Fact::Register(number, known) if number < 11 => note.set_register(number, known),
        Fact::Kept(slot, known) if slot < 64 => note.keep(slot, known),
        Fact::Set(byte) if byte < 512 => note.set_byte(byte),
        Fact::Top(of, top) => note.set_top(of, top).ok()?,
        Fact::Safe(of, safe) => note.set_safe(of, safe).ok()?,
        _ => return None,
    }
    Some(())
}

/// Makes a note say what a row says; None if that is no list of facts.
pub fn say_all(note: &mut Note, facts: &str) -> Option<()> {
    for text in facts.split_whitespace() {
        say(note, read_fact(text)?)?;
    }
    Some(())
}

/// Returns what is known at a program's start, and those facts.
pub fn known(alloc: Global, facts: &str) -> Option<Note> {
    let mut note = Note::entry(alloc);
    say_all(&mut note, facts)?;
    Some(note)
}

/// By what a list is looked up, as in `exact6` or `prefix4`, or how many constants there are, as in `constants64`.
fn key(text: &str) -> Option<MapKey> {
    if let Some(bytes) = text.strip_prefix("exact") {
        return Some(MapKey::Listed(KeyKind::Exact(bytes.parse().ok()?)));
    }
    if let Some(bytes) = text.strip_prefix("constants") {
        return Some(MapKey::Constants(bytes.parse().ok()?));
    }
    let bytes = text.strip_prefix("prefix")?;
    Some(MapKey::Listed(KeyKind::Prefix(bytes.parse().ok()?)))
}

/// The entries of a map, and the counters of an entry.
fn size(text: &str) -> Option<(u32, u32)> {
    let (entries, counters) = text.split_once('x')?;
    Some((entries.parse().ok()?, counters.parse().ok()?))
}

fn shape(text: &str) -> Option<MapShape> {
    match text.split_once(':') {
        None => {
            let (entries, counters) = size(text)?;
            MapShape::of(entries, counters)
        }
        Some((text, "parts")) => {
            let (entries, counters) = size(text)?;
            Some(MapShape::of(entries, counters)?.with_parts())
        }
        Some((text, list)) => {
            let (entries, counters) = size(text)?;
            MapShape::keyed(key(list)?, entries, counters)
        }
    }
}

/// The maps that a row begins with, as `2x1` for one of two entries of one counter, or `2x1:exact6` if they are looked up by a
/// list of keys of six bytes, `1x1:constants64` for constants, or `1x1:parts` if its counters may be loaded in parts, and what comes
/// after them.
pub fn maps(alloc: Global, text: &str) -> Option<(Vec<MapShape>, &str)> {
    let mut shapes = Vec::new(alloc);
    match text.strip_prefix("maps=") {
        None => Some((shapes, text)),
        Some(rest) => {
            let (list, facts) = rest.split_once(' ').unwrap_or((rest, ""));
            for text in list.split(',') {
                shapes.push(shape(text)?).ok()?;
            }
            Some((shapes, facts))
        }
    }
}
