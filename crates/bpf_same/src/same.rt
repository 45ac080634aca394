//! Whether an accepted program has the runs of another one.
ghost use Rattle.std.specs.Prelude.{◌≡◌, ◌≢◌, ◌<◌, ◌≤◌, ℕ, length, IfOk, IfSome, IsTrue};
ghost use Rattle.bpf_verify.specs.Consistent.{IsConsistent};
ghost use Rattle.bpf_note.specs.Regions.{HaveNoParts};
ghost use Rattle.bpf_same.specs.Alone.{IsSameAlone};
ghost use Rattle.bpf_same.specs.Counts.{IsSameByCounts, IsWholeByCounts};
ghost use Rattle.bpf_same.specs.Renumbered.{IsRenumbering};
ghost use Rattle.bpf_same.specs.Same.{IsSame};
ghost use Rattle.bpf_same.specs.Stops.{obstacle_of, stop_of};

use crate::equal::is_same_code;
use crate::find::Pair;
use crate::findings::Findings;
use crate::fuse::{Fusion, fusion_of};
use crate::fused::{Draft, same_by_counts};
use crate::laws::{same_alone, same_both_ways, same_by_counts_both_ways};
use crate::live::live_registers;
use crate::obstacle::Obstacle;
use crate::renumbered::is_same_renumbered;
use crate::simulation::Simulation;
use crate::witness::Witness;
use bpf_insn::{Code, Insn};
use bpf_note::{MapShape, the_entry_describes_every_start};
use bpf_verify::Verified;
use bpf_vm::accepted_programs_end;
use std::alloc::{AllocError, Global};

/// The answer of a comparison of two programs.
#[derive(Clone, Copy, Debug, PartialEq, Eq, Drop)]
pub enum Comparison {
    /// Each run of one is a run of the other.
    Same,
    /// Each run of the new program is one of the old one, but that one atomic addition to a counter may stand for a load and a store,
    /// as where nobody else writes the counter between.
    SameByCounts,
    /// From all contents of the counters, where nobody else writes them: each program ends with the same number and bytes as the other,
    /// and leaves the same in the counters.
    SameAlone,
    /// Nothing: they may have the same runs or not; and where the comparison stops, if that is known.
    NotShown { obstacle: Option<Obstacle> },
}

/// What comes of a search for a simulation: it is found, or it stops here, if that is known.
#[derive(Clone, Copy, Drop)]
pub(crate) enum Attempt {
    Shown,
    Stopped(Option<Obstacle>),
}

/// Searches for a simulation by the witnesses, which shows that the new program has the old one's runs.
fn tried(
    alloc: Global,
    new: &[Insn],
    shapes: &[MapShape],
    old: &[Insn],
    witnesses: &[Witness],
) -> Result<Attempt, AllocError>
    requires short { length old.now ≤ 4096 }
    requires few { length new.now ≤ 4096 }
    ensures shown { IfOk result (λ a. a ≡ Attempt.Shown → IsSame shapes.now old.now new.now) }
    ensures stops { IfOk result (λ a. IfSome (stop_of a) (λ b. b.slot < length new.now)) }
{
    the_entry_describes_every_start();
    let pair = Pair {
        new,
        shapes,
        old,
        witnesses,
        alone: false,
    };
    let findings = Findings::of(alloc, &pair)?;
    let simulation = Simulation {
        old,
        witnesses,
        notes: findings.notes.as_slice(),
        relations: findings.found.relations.as_slice(),
        low: findings.low,
        alone: false,
    };
    if simulation.is_simulation(alloc, new, shapes)? {
        return Ok(Attempt::Shown);
    }
    let obstacle = simulation.first_obstacle(alloc, new, shapes)?;
    Ok(Attempt::Stopped(obstacle))
}

/// The same of programs that alone have the counters.
fn tried_alone(
    alloc: Global,
    new: &Verified,
    old: &[Insn],
    witnesses: &[Witness],
) -> Result<Attempt, AllocError>
    requires short { length old.now ≤ 4096 }
    ensures shown { IfOk result (λ a. a ≡ Attempt.Shown → IsSameAlone new.now.shapes old.now new.now.code) }
    ensures stops { IfOk result (λ a. IfSome (stop_of a) (λ b. b.slot < length new.now.code)) }
{
    the_entry_describes_every_start();
    accepted_programs_end();
    let (insns, shapes) = (new.insns(), new.shapes());
    let pair = Pair {
        new: insns,
        shapes,
        old,
        witnesses,
        alone: true,
    };
    let findings = Findings::of(alloc, &pair)?;
    let simulation = Simulation {
        old,
        witnesses,
        notes: findings.notes.as_slice(),
        relations: findings.found.relations.as_slice(),
        low: findings.low,
        alone: true,
    };
    if simulation.is_simulation(alloc, insns, shapes)? {
        return Ok(Attempt::Shown);
    }
    let obstacle = simulation.first_obstacle(alloc, insns, shapes)?;
    Ok(Attempt::Stopped(obstacle))
}

/// Returns whether all counters are loaded whole.
fn have_no_parts(shapes: &[MapShape]) -> bool
    ensures { IsTrue result → HaveNoParts shapes.now }
{
    for shape in shapes {
        if shape.has_parts() {
            return false;
        }
    }
    true
}

/// Searches for a simulation by the old program with its counts made additions.
fn tried_by_counts(
    alloc: Global,
    new: &[Insn],
    shapes: &[MapShape],
    old: &[Insn],
    witnesses: &[Witness],
    fusion: &Fusion,
) -> Result<Attempt, AllocError>
    requires short { length old.now ≤ 4096 }
    requires few { length new.now ≤ 4096 }
    ensures shown { IfOk result (λ a. a ≡ Attempt.Shown → IsSameByCounts shapes.now old.now new.now) }
    ensures stops { IfOk result (λ a. IfSome (stop_of a) (λ b. b.slot < length new.now)) }
{
    same_by_counts();
    let code = fusion.code.as_slice();
    if code.len() > old.len() {
        return Ok(Attempt::Stopped(None));
    }
    if !have_no_parts(shapes) {
        return Ok(Attempt::Stopped(None));
    }
    let live = live_registers(alloc, code)?;
    let draft = Draft {
        old,
        new: code,
        live: live.as_slice(),
        roles: fusion.roles.as_slice(),
    };
    if !draft.holds() {
        return Ok(Attempt::Stopped(None));
    }
    tried(alloc, new, shapes, code, witnesses)
}

/// Returns what is shown of the two programs: by counts first, since a program with a count in it is simulated as an addition. Where nothing
/// is, that one stops here.
fn compared(
    alloc: Global,
    new: &[Insn],
    shapes: &[MapShape],
    old: &[Insn],
    witnesses: &[Witness],
) -> Result<Comparison, AllocError>
    requires short { length old.now ≤ 4096 }
    requires few { length new.now ≤ 4096 }
    ensures same { IfOk result (λ c. c ≡ Comparison.Same → IsSame shapes.now old.now new.now) }
    ensures counts { IfOk result (λ c. c ≡ Comparison.SameByCounts → IsSameByCounts shapes.now old.now new.now) }
    ensures never_alone { IfOk result (λ c. c ≢ Comparison.SameAlone) }
    ensures stops { IfOk result (λ c. IfSome (obstacle_of c) (λ b. b.slot < length new.now)) }
    ensures itself { IfOk result (λ c. new.now ≡ old.now → c ≡ Comparison.Same) }
    ensures renumbered { IfOk result (λ c. IsRenumbering witnesses.now old.now new.now → c ≡ Comparison.Same) }
{
    if is_same_code(new, old) {
        return Ok(Comparison::Same);
    }
    if is_same_renumbered(witnesses, old, new) {
        return Ok(Comparison::Same);
    }
    let mut obstacle = None;
    if let Some(fusion) = fusion_of(alloc, old, new, witnesses)? {
        match tried_by_counts(alloc, new, shapes, old, witnesses, &fusion)? {
            Attempt::Shown => return Ok(Comparison::SameByCounts),
            Attempt::Stopped(counted) => obstacle = counted,
        }
    }
    match tried(alloc, new, shapes, old, witnesses)? {
        Attempt::Shown => Ok(Comparison::Same),
        Attempt::Stopped(_) => Ok(Comparison::NotShown { obstacle }),
    }
}

/// The obstacle at the later slot.
fn later_of(one: Option<Obstacle>, other: Option<Obstacle>) -> Option<Obstacle>
    ensures { (bound : ℕ) → IfSome one (λ b. b.slot < bound) → IfSome other (λ b. b.slot < bound) → IfSome result (λ b. b.slot < bound) }
{
    match (one, other) {
        (Some(here), Some(there)) => Some(if there.slot < here.slot { here } else { there }),
        (found, None) | (None, found) => found,
    }
}

/// Compares an accepted program with one that it was made of. The old program need not be accepted, and may loop. A witness is the slot of
/// the old program that matches a slot of the new one; the witnesses need not be right, nor as many as the slots.
pub fn compare(
    alloc: Global,
    new: &Verified,
    old: &Code,
    witnesses: &[Witness],
) -> Result<Comparison, AllocError>
    // Each run of the new program is one of the old.
    ensures same { IfOk result (λ c. c ≡ Comparison.Same → IsSame new.now.shapes old.now new.now.code) }
    // Each run of the old program is one of the new.
    ensures whole { IfOk result (λ c. c ≡ Comparison.Same → IsSame new.now.shapes new.now.code old.now) }
    // Each run of the new program is one of the old one, by counts.
    ensures counts { IfOk result (λ c. c ≡ Comparison.SameByCounts → IsSameByCounts new.now.shapes old.now new.now.code) }
    // Each run of the old program is one of the new one, by counts.
    ensures counts_whole { IfOk result (λ c. c ≡ Comparison.SameByCounts → IsWholeByCounts new.now.shapes new.now.code old.now) }
    // Alone, what the new program ends with and leaves, the old one does.
    ensures alone { IfOk result (λ c. c ≡ Comparison.SameAlone → IsSameAlone new.now.shapes old.now new.now.code) }
    // Alone, what the old program ends with and leaves, the new one does.
    ensures alone_whole { IfOk result (λ c. c ≡ Comparison.SameAlone → IsSameAlone new.now.shapes new.now.code old.now) }
    // A program is the same as itself, whatever the witnesses.
    ensures itself { IfOk result (λ c. new.now.code ≡ old.now → c ≡ Comparison.Same) }
    // A program is the same as one of which it is a renumbering by the witnesses.
    ensures renumbered { IfOk result (λ c. IsRenumbering witnesses.now old.now new.now.code → c ≡ Comparison.Same) }
    // The comparison stops at a slot of the new program.
    ensures stops { IfOk result (λ c. IfSome (obstacle_of c) (λ b. b.slot < length new.now.code)) }
    ensures accepted { IsConsistent new.now }
{
    same_both_ways();
    same_by_counts_both_ways();
    same_alone();
    let originals = old.insns();
    let shown = compared(alloc, new.insns(), new.shapes(), originals, witnesses)?;
    let Comparison::NotShown { obstacle } = shown else {
        return Ok(shown);
    };
    match tried_alone(alloc, new, originals, witnesses)? {
        Attempt::Shown => Ok(Comparison::SameAlone),
        Attempt::Stopped(alone) => Ok(Comparison::NotShown {
            obstacle: later_of(alone, obstacle),
        }),
    }
}
