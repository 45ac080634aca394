//! Whether a candidate is a simulation, by induction: its relation holds at the start, and the old program simulates each instruction.
ghost use Rattle.std.specs.Prelude.{◌≡◌, ◌<◌, ◌≤◌, ℕ, Some, length, slice_get, IfOk, IsTrue};
ghost use Rattle.std.specs.Global.{Box};
ghost use Rattle.bpf_note.specs.Facts.{entry};
ghost use Rattle.bpf_note.specs.Parts.{Noted, facts};
ghost use Rattle.bpf_same.specs.Candidates.{candidate_of};
ghost use Rattle.bpf_same.specs.Simulated.{IsSimulation, IsInitial, Simulates, SimulatesPlain, SimulatesSlot, SimulatesFrom};

use crate::at_slot::{insn_at, relation_at, witness_at};
use crate::relation::Relation;
use crate::simulation::{Point, Simulation};
use crate::start::{holds_at_entry, is_without_contents};
use crate::witness::Witness;
use bpf_flow::Successor;
use bpf_insn::Insn;
use bpf_note::{MapShape, Note};
use std::alloc::{AllocError, Global};

impl Simulation<'_> {
    /// Returns whether the old program simulates an instruction that leads to one slot, or to another one.
    pub(crate) fn simulates_both(&self, before: &Point, one: &Successor, other: &Successor) -> bool
        requires { length self.now.old.now ≤ 4096 }
        ensures { IsTrue result → SimulatesPlain (candidate_of self.now) before.now.witness.stutters before.now.witness.at before.now.insn before.now.relation.now (facts before.now.note.now)
            (facts one.now.note.value) one.now.pc × SimulatesPlain (candidate_of self.now) before.now.witness.stutters before.now.witness.at before.now.insn before.now.relation.now (facts before.now.note.now)
            (facts other.now.note.value) other.now.pc }
    {
        self.simulates_plain(before, one) && self.simulates_plain(before, other)
    }

    /// Returns whether the old program simulates an instruction, whichever of the notes at its slot describes the state.
    fn simulates_each(
        &self,
        alloc: Global,
        witness: Witness,
        insn: Insn,
        notes: &[Box<Note>],
        relation: &Relation,
        pc: u32,
        shapes: &[MapShape],
    ) -> Result<bool, AllocError>
        requires short { length self.now.old.now ≤ 4096 }
        requires inside { pc < 4096 }
        ensures { IfOk result (λ yes. IsTrue yes → (k : ℕ) (n : Box Noted) → slice_get notes.now k ≡ Some n →
            Simulates (candidate_of self.now) shapes.now witness.at insn relation.now (facts n.value) pc) }
    {
        for k in 0..notes.len() {
            let before = Point {
                insn,
                witness,
                note: &notes[k],
                relation,
            };
            if !self.simulates(alloc, &before, pc, shapes)? {
                return Ok(false);
            }
        }
        Ok(true)
    }

    /// Returns whether the old program simulates the instruction of a slot.
    fn simulates_slot(
        &self,
        alloc: Global,
        new: &[Insn],
        pc: u32,
        shapes: &[MapShape],
    ) -> Result<bool, AllocError>
        requires short { length self.now.old.now ≤ 4096 }
        requires inside { pc < length new.now }
        requires few { length new.now ≤ 4096 }
        ensures { IfOk result (λ yes. IsTrue yes → SimulatesSlot (candidate_of self.now) new.now shapes.now pc) }
    {
        let Some(witness) = witness_at(self.witnesses, pc) else {
            return Ok(false);
        };
        let Some(insn) = insn_at(new, pc) else {
            return Ok(false);
        };
        let Some(relation) = relation_at(self.relations, pc) else {
            return Ok(false);
        };
        if pc as usize >= self.notes.len() {
            return Ok(false);
        }
        let notes = self.notes[pc as usize].as_slice();
        self.simulates_each(alloc, witness, insn, notes, &relation, pc, shapes)
    }

    /// Returns whether the old program reaches the first slot's witness silently.
    fn simulates_start(&self, alloc: Global) -> bool
        requires { length self.now.old.now ≤ 4096 }
        ensures { IsTrue result → SimulatesFrom (candidate_of self.now) entry 0 0 }
    {
        let note = Note::entry(alloc);
        self.simulates_from(0, 0, &note)
    }

    /// Returns whether the relation holds where both programs begin.
    fn is_initial(&self, alloc: Global) -> bool
        requires { length self.now.old.now ≤ 4096 }
        ensures { IsTrue result → IsInitial (candidate_of self.now) }
    {
        let Some(relation) = relation_at(self.relations, 0) else {
            return false;
        };
        if !holds_at_entry(&relation) {
            return false;
        }
        is_without_contents(&relation) && self.simulates_start(alloc)
    }

    /// Returns whether the candidate is a simulation.
    pub(crate) fn is_simulation(
        &self,
        alloc: Global,
        new: &[Insn],
        shapes: &[MapShape],
    ) -> Result<bool, AllocError>
        requires short { length self.now.old.now ≤ 4096 }
        requires few { length new.now ≤ 4096 }
        ensures { IfOk result (λ yes. IsTrue yes → IsSimulation (candidate_of self.now) new.now shapes.now) }
    {
        if !self.is_initial(alloc) {
            return Ok(false);
        }
        for pc in 0..new.len() as u32 {
            if !self.simulates_slot(alloc, new, pc, shapes)? {
                return Ok(false);
            }
        }
        Ok(true)
    }
}
