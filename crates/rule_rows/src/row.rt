//! Rows: what is known, an instruction, and what is known where it leads.

use crate::facts::{known, maps, say_all};
use bpf_flow::{Successor, Successors, after, jump_target};
use bpf_insn::{Cause, Insn, decode};
use bpf_note::{MapShape, Note, covers, join};
use std::alloc::Global;

/// The slot of each row's instruction.
const SLOT: u32 = 7;

/// The outcome of a row.
pub enum Outcome {
    AsWanted,
    Otherwise,
    NoRow,
}

impl From<bool> for Outcome {
    fn from(is_wanted: bool) -> Outcome {
        if is_wanted {
            Outcome::AsWanted
        } else {
            Outcome::Otherwise
        }
    }
}

/// The instruction that the bytes of a text spell.
fn spelled(alloc: Global, hex: &str) -> Option<Insn> {
    let bytes = hex::decode(alloc, hex).ok()?;
    decode(alloc, &bytes).ok()?.insns().first().copied()
}

/// The instruction of a text, its bytes and its words, if both are of one: `0f32000000000000 r2 += r3`.
fn instruction(alloc: Global, text: &str) -> Option<Insn> {
    let (hex, words) = text.split_once(' ')?;
    let insn = spelled(alloc, hex)?;
    if insn.to_string(alloc).ok()?.as_str() == words {
        Some(insn)
    } else {
        None
    }
}

/// Returns where the instruction leads, if the rule speaks of it.
fn answer(
    alloc: Global,
    insn: &Insn,
    note: &Note,
    shapes: &[MapShape],
) -> Option<Result<Successors, Cause>> {
    match *insn {
        Insn::Second => None,
        Insn::MapRef { m, .. } if shapes.len() <= m as usize => None,
        Insn::Ja { to, .. } if jump_target(SLOT, to).is_none() => None,
        Insn::Jump { off, .. } if jump_target(SLOT, i32::from(off)).is_none() => None,
        _ => Some(after(alloc, insn, SLOT, note, shapes)),
    }
}

/// Returns whether one way leads to the slot of a text, with what was known and the facts of the text: `8 r2=5`.
fn is_way(alloc: Global, text: &str, note: &Note, way: &Successor) -> Option<bool> {
    let (slot, facts) = text.split_once(' ').unwrap_or((text, ""));
    let slot: u32 = slot.parse().ok()?;
    let mut wanted = note.copy(alloc).ok()?;
    say_all(&mut wanted, facts)?;
    Some(slot == way.pc && way.note.same_as(&wanted))
}

/// Returns whether both ways are those of two texts.
fn are_ways(
    alloc: Global,
    texts: (&str, &str),
    note: &Note,
    ways: (&Successor, &Successor),
) -> Option<bool> {
    let is_next = is_way(alloc, texts.0, note, ways.0)?;
    let is_target = is_way(alloc, texts.1, note, ways.1)?;
    Some(is_next && is_target)
}

/// Returns whether an answer is the one of a text: a cause, as `V7`, `none`, a way, or two, as `8 r2=0..4, 10 r2=5..9`.
fn is_wanted(
    alloc: Global,
    text: &str,
    note: &Note,
    answer: &Result<Successors, Cause>,
) -> Option<bool> {
    if let Some(number) = text.strip_prefix("V") {
        let number: u8 = number.parse().ok()?;
        return Some(matches!(answer, Err(cause) if cause.number() == number));
    }
    match (answer, text.split_once(", ")) {
        (Ok(Successors::None), None) => Some(text == "none"),
        (Ok(Successors::One(way)), None) => is_way(alloc, text, note, way),
        (Ok(Successors::Two(next, target)), Some(texts)) => {
            are_ways(alloc, texts, note, (next, target))
        }
        _ => Some(false),
    }
}

/// Returns what comes of the row of an instruction.
fn of_instruction(alloc: Global, before: &str, insn: &str, wanted: &str) -> Option<bool> {
    let (shapes, facts) = maps(alloc, before)?;
    let note = known(alloc, facts)?;
    let insn = instruction(alloc, insn)?;
    let answer = answer(alloc, &insn, &note, &shapes)?;
    is_wanted(alloc, wanted, &note, &answer)
}

/// Returns what comes of the row of a join.
fn of_join(alloc: Global, left: &str, right: &str, wanted: &str) -> Option<bool> {
    let joined = join(alloc, &known(alloc, left)?, &known(alloc, right)?).ok()?;
    Some(joined.same_as(&known(alloc, wanted)?))
}

/// Returns what comes of the row of whether a note covers another.
fn of_covers(alloc: Global, left: &str, right: &str, wanted: &str) -> Option<bool> {
    let is_covered = covers(&known(alloc, left)?, &known(alloc, right)?);
    match wanted {
        "yes" => Some(is_covered),
        "no" => Some(!is_covered),
        _ => None,
    }
}

/// Three texts with a semicolon between them.
fn parts(row: &str) -> Option<(&str, &str, &str)> {
    let (first, rest) = row.split_once(';')?;
    let (second, third) = rest.split_once(';')?;
    Some((first.trim(), second.trim(), third.trim()))
}

fn judged(alloc: Global, row: &str) -> Option<bool> {
    if let Some(rest) = row.strip_prefix("join ") {
        let (left, right, wanted) = parts(rest)?;
        return of_join(alloc, left, right, wanted);
    }
    if let Some(rest) = row.strip_prefix("covers ") {
        let (left, right, wanted) = parts(rest)?;
        return of_covers(alloc, left, right, wanted);
    }
    let (before, insn, wanted) = parts(row)?;
    of_instruction(alloc, before, insn, wanted)
}

/// Returns what comes of a row.
pub fn outcome_of(alloc: Global, row: &str) -> Outcome {
    match judged(alloc, row) {
        Some(is_wanted) => Outcome::from(is_wanted),
        None => Outcome::NoRow,
    }
}
