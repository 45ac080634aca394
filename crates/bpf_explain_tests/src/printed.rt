//! What is printed of refused programs, compared with what it should be.
ghost use Rattle.std.specs.Prelude.{◌<◌, All};

use bpf_explain::{advice_for, explained_text, undecoded_text};
use bpf_insn::{Cause, Insn, Refusal, decode};
use bpf_note::{MapShape, Note, Val};
use std::alloc::{AllocError, Global};

/// A note that gives registers these values.
pub fn note_of(alloc: Global, registers: &[(u8, Val)]) -> Note
    requires { All (λ r. r.0 < 11) registers.now }
{
    let mut note = Note::entry(alloc);
    for (register, value) in registers {
        note.set_register(*register, *value);
    }
    note
}

/// The names of the maps: that of the first.
fn names(alloc: Global) -> Result<Vec<String>, AllocError> {
    let mut names = Vec::new(alloc);
    names.push(String::from_str(alloc, "hits")?)?;
    Ok(names)
}

/// Returns what is printed of a program whose first map has a name.
pub fn text(
    alloc: Global,
    bytes: &[u8],
    shapes: &[MapShape],
    refusal: Refusal,
    note: Option<&Note>,
) -> Option<String> {
    let code = decode(alloc, bytes).ok()?;
    let names = names(alloc).ok()?;
    explained_text(alloc, &code, names.as_slice(), shapes, refusal, note).ok()
}

/// Returns whether this is printed of a program over one map of two values with three counters, refused at a slot.
pub fn prints(
    alloc: Global,
    bytes: &[u8],
    (cause, pc): (Cause, u32),
    note: &Note,
    wanted: &str,
) -> Option<bool> {
    let shapes = [MapShape::of(2, 3)?];
    let text = text(alloc, bytes, &shapes, Refusal { cause, pc }, Some(note))?;
    Some(text.as_str() == wanted)
}

/// As [`prints`], if only these registers' values are known beside those at the entry.
pub fn prints_by_registers(
    alloc: Global,
    bytes: &[u8],
    refusal: (Cause, u32),
    registers: &[(u8, Val)],
    wanted: &str,
) -> Option<bool>
    requires { All (λ r. r.0 < 11) registers.now }
{
    let note = note_of(alloc, registers);
    prints(alloc, bytes, refusal, &note, wanted)
}

/// Returns whether this is printed of bytes that are no program.
pub fn prints_undecoded(
    alloc: Global,
    bytes: &[u8],
    (cause, pc): (Cause, u32),
    wanted: &str,
) -> Option<bool> {
    let text = undecoded_text(alloc, bytes, Refusal { cause, pc }).ok()?;
    Some(text.as_str() == wanted)
}

/// The advice for an instruction if two registers have these values.
pub fn advice_by(
    alloc: Global,
    cause: Cause,
    insn: Insn,
    [first, second]: [Val; 2],
) -> &'static str {
    let note = note_of(alloc, &[(0, first), (1, second)]);
    advice_for(&[], cause, Some(insn), Some(&note))
}
