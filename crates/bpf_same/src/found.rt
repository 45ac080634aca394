//! The relations that are found at the slots behind an instruction. Nothing is promised of them: `simulation` judges.
ghost use Rattle.std.specs.Prelude.{◌<◌, ◌≤◌, vec_len, IsTrue};

use crate::at_slot::{insn_at, witness_at};
use crate::caught::{Place, caught_up};
use crate::find::Known;
use crate::found_content::found_after;
use crate::meet::met;
use crate::relation::Relation;
use crate::step::Step;
use crate::way::on_way;
use crate::witness::Witness;
use bpf_flow::{Successor, Successors, jump_target, next_slot};
use bpf_insn::Insn;
use bpf_note::Note;
use std::alloc::{AllocError, Global};

/// The relations that are found so far.
#[derive(Drop)]
pub(crate) struct Found {
    pub(crate) relations: Vec<Relation>,
    /// of each slot whether it is reached
    reached: Vec<bool>,
}

impl Found {
    /// The first slot alone is reached, where both programs hold the same.
    pub(crate) fn at_start(alloc: Global, slots: usize) -> Result<Found, AllocError>
        requires { slots ≤ 4096 }
    {
        let mut relations = Vec::with_capacity(alloc, slots)?;
        let mut reached = Vec::with_capacity(alloc, slots)?;
        for _slot in 0..slots {
            relations.push(Relation::none())?;
            reached.push(false)?;
        }
        let mut found = Found { relations, reached };
        found.add(0, Relation::alike());
        Ok(found)
    }

    pub(crate) fn is_reached(&self, slot: usize) -> bool
        ensures led { IsTrue result → slot < vec_len self.now.reached }
        ensures inside { IsTrue result → slot < vec_len self.now.relations }
    {
        slot < self.reached.len() && slot < self.relations.len() && self.reached[slot]
    }

    /// Forgets the notes of slots that are not reached.
    pub(crate) fn forget(&self, alloc: Global, notes: &mut Vec<Vec<Box<Note>>>) {
        for slot in 0..notes.len() {
            if !self.is_reached(slot) {
                notes[slot] = Vec::new(alloc);
            }
        }
    }

    /// Adds a relation to that of a slot.
    pub(crate) fn add(&mut self, slot: u32, claimed: Relation) {
        let slot = slot as usize;
        if self.is_reached(slot) {
            self.relations[slot] = met(&self.relations[slot], &claimed);
        } else if slot < self.reached.len() && slot < self.relations.len() {
            self.relations[slot] = claimed;
            self.reached[slot] = true;
        }
    }

    /// Adds the relation after a step, and after what the old program then does alone.
    fn add_after(&mut self, source: &Source, way: &Way) {
        let relation = found_after(&source.step(way));
        let caught = source.caught_up(way, relation);
        self.add(way.there.pc, caught.unwrap_or(relation));
    }

    /// Adds the relations on the ways that may be taken.
    pub(crate) fn add_ways(&mut self, source: &Source, is_taken: Option<bool>, there: &Successors) {
        match there {
            Successors::None => {}
            Successors::One(one) => self.add_after(source, &Way::of(source.insn, false, one)),
            Successors::Two(next, taken) => {
                if is_taken != Some(true) {
                    self.add_after(source, &Way::of(source.insn, false, next));
                }
                if is_taken != Some(false) {
                    self.add_after(source, &Way::of(source.insn, true, taken));
                }
            }
        }
    }
}

/// A way behind an instruction: what is known there of it, and where it leads.
#[derive(Clone, Copy, Drop)]
struct Way<'a> {
    insn: Insn,
    is_taken: bool,
    there: &'a Successor,
}

impl<'a> Way<'a> {
    /// The one behind an instruction, or one of the two behind a conditional jump.
    fn of(insn: Insn, is_taken: bool, there: &'a Successor) -> Way<'a> {
        Way {
            insn: on_way(insn, is_taken),
            is_taken,
            there,
        }
    }
}

/// An instruction, its witness, and the relation before it.
#[derive(Clone, Copy, Drop)]
pub(crate) struct Source<'a> {
    pub(crate) insn: Insn,
    pub(crate) witness: Witness,
    pub(crate) before: &'a Relation,
    pub(crate) known: &'a Known<'a>,
}

impl Source<'_> {
    /// The step on a way behind the instruction.
    fn step<'b>(&'b self, way: &'b Way<'_>) -> Step<'b> {
        Step {
            insn: way.insn,
            stutters: self.witness.stutters
                || matches!(way.insn, Insn::Ja { .. } | Insn::Jump { .. }),
            alone: self.known.pair.alone,
            low: self.known.low,
            before: self.before,
            after: &way.there.note,
        }
    }

    /// The relation where the old program, alone, comes from a way on to the witness of its slot.
    fn caught_up(&self, way: &Way, relation: Relation) -> Option<Relation> {
        let at = self.old_after(way.is_taken)?;
        let witness = witness_at(self.known.pair.witnesses, way.there.pc)?;
        if self.known.pair.old.len() > 4096 {
            return None;
        }
        caught_up(
            self.known.pair.old,
            &Place { at, relation },
            &way.there.note,
            witness.at,
        )
    }

    /// Returns where the old program is after the instruction, which may be a jump that is taken.
    fn old_after(&self, is_taken: bool) -> Option<u32> {
        let at = self.witness.at;
        if at >= 4096 {
            return None;
        }
        if self.witness.stutters || matches!(self.insn, Insn::Ja { .. }) {
            return Some(at);
        }
        match insn_at(self.known.pair.old, at)? {
            Insn::Jump { off, .. } if is_taken => jump_target(at, i32::from(off)),
            _ => Some(next_slot(self.insn, at)),
        }
    }
}
