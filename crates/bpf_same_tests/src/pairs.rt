//! What a comparison answers of a pair of programs, and where it stops.
ghost use Rattle.std.specs.Prelude.{◌≤◌, length};

use bpf_insn::{Code, decode};
use bpf_note::{MapKey, MapShape};
use bpf_same::{Comparison, Obstacle, Witness, compare};
use bpf_verify::{Verified, verify};
use std::alloc::Global;

/// Both programs in hex, a slot each or several; how many maps of four counters they have; and for each slot of the new one where
/// the old program stands: `c12` for a copy of slot 12, `o12` for an instruction of the new program's own before it.
#[derive(Clone, Copy, Debug, Drop)]
pub struct Pair<'a> {
    pub old: &'a [&'a str],
    pub new: &'a [&'a str],
    pub maps: u8,
    pub witnesses: &'a str,
}

fn code(alloc: Global, slots: &[&str]) -> Option<Code> {
    let mut bytes = Vec::new(alloc);
    for slot in slots {
        let slot = hex::decode(alloc, *slot).ok()?;
        bytes.extend_from_slice(slot.as_slice()).ok()?;
    }
    decode(alloc, bytes.as_slice()).ok()
}

fn witness(word: &str) -> Option<Witness> {
    let stutters = word.starts_with('o');
    let at = word.get(1..)?.parse().ok()?;
    Some(Witness { stutters, at })
}

/// The answer where nothing is shown, wherever the comparison stops.
pub const NOT_SHOWN: Comparison = Comparison::NotShown { obstacle: None };

/// A pair, decoded; its new program is accepted.
#[derive(Drop)]
struct Decoded {
    old: Code,
    new: Verified,
    witnesses: Vec<Witness>,
}

/// A pair over at most one map.
fn read_pair_over(alloc: Global, pair: &Pair, shapes: &[MapShape]) -> Option<Decoded>
    requires { length shapes.now ≤ 1 }
{
    let mut witnesses = Vec::new(alloc);
    for word in pair.witnesses.split_ascii_whitespace() {
        witnesses.push(witness(word)?).ok()?;
    }
    let new = verify(alloc, code(alloc, pair.new)?, shapes).ok()?;
    let old = code(alloc, pair.old)?;
    Some(Decoded {
        old,
        new,
        witnesses,
    })
}

fn read_pair(alloc: Global, pair: &Pair) -> Option<Decoded> {
    let shapes = [MapShape::of(4, 1)?];
    let shapes = if pair.maps == 0 {
        &shapes[..0]
    } else {
        &shapes[..]
    };
    read_pair_over(alloc, pair, shapes)
}

impl Decoded {
    fn answer(&self, alloc: Global) -> Option<Comparison> {
        compare(alloc, &self.new, &self.old, self.witnesses.as_slice()).ok()
    }

    /// The answer, without where the comparison stops.
    fn compared(&self, alloc: Global) -> Option<Comparison> {
        match self.answer(alloc)? {
            Comparison::NotShown { .. } => Some(NOT_SHOWN),
            shown => Some(shown),
        }
    }
}

/// Returns what [`compare`] answers for a pair. None if the new program isn't accepted, or if memory runs out.
pub fn compared(alloc: Global, pair: &Pair) -> Option<Comparison> {
    read_pair(alloc, pair)?.compared(alloc)
}

/// Returns what [`compare`] answers for a pair whose one map has this shape.
fn compared_over(alloc: Global, pair: &Pair, shape: MapShape) -> Option<Comparison> {
    read_pair_over(alloc, pair, &[shape])?.compared(alloc)
}

/// Returns what [`compare`] answers for a pair whose one map has this many bytes of constants.
pub fn compared_with_constants(alloc: Global, pair: &Pair, bytes: u32) -> Option<Comparison> {
    compared_over(
        alloc,
        pair,
        MapShape::keyed(MapKey::Constants(bytes), 1, 1)?,
    )
}

/// Returns what [`compare`] answers for a pair whose one map has this many counters in each of its four values.
pub fn compared_with_counters(alloc: Global, pair: &Pair, counters: u32) -> Option<Comparison> {
    compared_over(alloc, pair, MapShape::of(4, counters)?)
}

/// Returns where the comparison of a pair stops. None also if it is shown.
pub fn stopped(alloc: Global, pair: &Pair) -> Option<Obstacle> {
    match read_pair(alloc, pair)?.answer(alloc)? {
        Comparison::NotShown { obstacle } => obstacle,
        _ => None,
    }
}
