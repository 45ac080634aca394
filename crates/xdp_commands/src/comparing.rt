//! A setup's program beside the one that it was made of.
ghost use Rattle.std.specs.Prelude.{◌≡◌, IfOk, map, string_bytes};
ghost use Rattle.bpf_insn.specs.Code.{Spells};
ghost use Rattle.xdp_load.specs.OriginalSeen.{rewritten_view};
ghost use Rattle.xdp_load.specs.ListedGiven.{listed_view};
ghost use Rattle.xdp_load.specs.ListedSound.{IsListedSound};
ghost use Rattle.xdp_commands.specs.Comparing.{Compares, compared_status, compared_text, not_shown_text, obstacle_words, tried_of};
ghost use Rattle.xdp_commands.specs.Executing.{IsProgramOfBytes};

use crate::executing::accept;
use crate::lines::refused_text;
use bpf_insn::{Code, Refusal, decode};
use bpf_same::{Comparison, Obstacle, ObstacleKind, Witness};
use bpf_verify::Verified;
use std::alloc::{AllocError, Global};
use xdp_load::Rewritten;

/// The answer of a comparison of a setup's program with the one that it was made of.
#[derive(Drop)]
pub enum Compared {
    /// Each run of one is a run of the other. The program has `slots` slots, and the original has `originals`.
    Same { slots: u32, originals: usize },
    /// Each run of the program is one of the original, but that one atomic addition to a counter may stand for a load and a store,
    /// as where nobody else writes the counter between.
    SameByCounts { slots: u32, originals: usize },
    /// Where nobody else writes the counters, each ends as the other does and leaves the same in them.
    SameAlone { slots: u32, originals: usize },
    /// Nothing is shown of their runs; and where the comparison stops, if that is known.
    NotShown { obstacle: Option<Obstacle> },
    /// The program is refused.
    Refused(Refusal),
    /// The bytes of the original spell no program.
    Undecoded(Refusal),
}

/// The settings' places, as witnesses to be tried.
fn witnesses_of(
    alloc: Global,
    places: &[xdp_load::OriginalPlace],
) -> Result<Vec<Witness>, AllocError>
    ensures { IfOk result (λ v. v.items ≡ map tried_of places.now) }
{
    places
        .iter()
        .map(|place| Witness {
            stutters: place.own,
            at: place.at,
        })
        .collect(alloc)
}

/// Compares the program of a setup, which was accepted, with the one that it was made of.
fn compare_with(
    alloc: Global,
    rewritten: &Rewritten,
    program: &Verified,
    original: &Code,
) -> Result<Compared, AllocError>
    requires program { IsProgramOfBytes rewritten.now.listed.setup.program.items rewritten.now.listed.setup.shapes.items program.now }
    requires original { Spells original.now rewritten.now.original.items }
    ensures { IfOk result (Compares (rewritten_view rewritten.now)) }
{
    let witnesses = witnesses_of(alloc, rewritten.places.as_slice())?;
    match bpf_same::compare(alloc, program, original, witnesses.as_slice())? {
        Comparison::Same => Ok(Compared::Same {
            slots: program.slots(),
            originals: original.insns().len(),
        }),
        Comparison::SameByCounts => Ok(Compared::SameByCounts {
            slots: program.slots(),
            originals: original.insns().len(),
        }),
        Comparison::SameAlone => Ok(Compared::SameAlone {
            slots: program.slots(),
            originals: original.insns().len(),
        }),
        Comparison::NotShown { obstacle } => Ok(Compared::NotShown { obstacle }),
    }
}

/// Accepts the program of a setup and compares it with the one that it was made of, or refuses one of them.
pub fn compare(alloc: Global, rewritten: &Rewritten) -> Result<Compared, AllocError>
    requires { IsListedSound (listed_view rewritten.now.listed) }
    ensures { IfOk result (Compares (rewritten_view rewritten.now)) }
{
    let setup = &rewritten.listed.setup;
    match accept(alloc, setup.program.as_slice(), setup.shapes.as_slice()) {
        Ok(program) => match decode(alloc, rewritten.original.as_slice()) {
            Ok(original) => compare_with(alloc, rewritten, &program, &original),
            Err(refusal) => Ok(Compared::Undecoded(refusal)),
        },
        Err(refusal) => Ok(Compared::Refused(refusal)),
    }
}

/// The words for what stands against a proof.
fn obstacle_words(kind: ObstacleKind) -> &'static str
    ensures { result.now ≡ obstacle_words kind }
{
    match kind {
        ObstacleKind::Witness => "the next place isn't reached",
        ObstacleKind::Instruction => "the instructions differ",
        ObstacleKind::Jump => "a jump isn't decided",
        ObstacleKind::Registers => "too little is known of the registers",
    }
}

/// The lines of `same` where nothing is shown.
fn not_shown_text(alloc: Global, obstacle: Option<Obstacle>) -> Result<String, AllocError>
    ensures { IfOk result (λ s. string_bytes s ≡ not_shown_text obstacle) }
{
    match obstacle {
        None => String::from_str(alloc, "not shown\n"),
        Some(Obstacle { slot, old, kind }) => {
            let words = obstacle_words(kind);
            format!(in alloc; "not shown\nat slot {slot}, the original at {old}: {words}\n")
        }
    }
}

/// The lines of `same`.
pub fn compared_text(alloc: Global, compared: &Compared) -> Result<String, AllocError>
    ensures { IfOk result (λ s. string_bytes s ≡ compared_text compared.now) }
{
    match compared {
        Compared::Same { slots, originals } => {
            format!(in alloc; "same, {slots} slots for {originals}\n")
        }
        Compared::SameByCounts { slots, originals } => {
            format!(in alloc; "same by counts, {slots} slots for {originals}\n")
        }
        Compared::SameAlone { slots, originals } => {
            format!(in alloc; "same alone, {slots} slots for {originals}\n")
        }
        Compared::NotShown { obstacle } => not_shown_text(alloc, *obstacle),
        Compared::Refused(refusal) => refused_text(alloc, refusal),
        Compared::Undecoded(refusal) => {
            let refused = refused_text(alloc, refusal)?;
            format!(in alloc; "original {refused}")
        }
    }
}

/// The status of what became of the two.
pub fn compared_status(compared: &Compared) -> u8
    ensures { result ≡ compared_status compared.now }
{
    match compared {
        Compared::Same { .. } | Compared::SameByCounts { .. } | Compared::SameAlone { .. } => 0,
        Compared::NotShown { .. } | Compared::Refused(_) | Compared::Undecoded(_) => 1,
    }
}
