//! The notes at a slot.
ghost use Rattle.std.specs.Prelude.{◌≡◌, ◌↔◌, map, Contains, IsTrue, OnOk, IfOk, IfSome, IfNone, [], ◌∷◌, ◌++◌, reverse};
ghost use Rattle.bpf_note.specs.Facts.{entry};
ghost use Rattle.bpf_note.specs.Parts.{facts};
ghost use Rattle.bpf_verify.specs.Gathered.{Arrives};

use bpf_note::{Note, Spares, join_in_place, notes_that_say_the_same_are_equal};
use std::alloc::{AllocError, Global};
use std::marker::Model;
use std::mem;

/// The most notes that a slot has.
pub(crate) const MOST_NOTES: usize = 8;

/// The notes at a slot, in the order in which they came.
#[derive(Drop)]
pub(crate) struct NoteList {
    notes: Vec<Box<Note>>,
}

impl Model for NoteList {
    ghost use Rattle.std.specs.Prelude.{List, length, map, ◌≤◌};
    ghost use Rattle.bpf_note.specs.Parts.{Noted};

    ghost Value = { List Noted };

    ghost view = { λ l. map (λ b. b.value) l.notes.items };

    ghost invariant = { λ l. length l.notes.items ≤ 8 };
}

/// Returns whether two notes say the same.
fn say_the_same(a: &Note, b: &Note) -> bool
    ensures { IsTrue result ↔ (facts a.now ≡ facts b.now) }
{
    notes_that_say_the_same_are_equal(a, b);
    a.same_as(b)
}

impl NoteList {
    /// No notes.
    pub(crate) fn empty(alloc: Global) -> NoteList
        ensures { result ≡ [] }
    {
        NoteList {
            notes: Vec::new(alloc),
        }
    }

    /// Returns what is known at the entry.
    pub(crate) fn at_entry(alloc: Global) -> Result<NoteList, AllocError>
        ensures { IfOk result (λ l. map facts l ≡ entry ∷ []) }
    {
        let mut notes = Vec::new(alloc);
        notes.push(Box::new(alloc, Note::entry(alloc))?)?;
        Ok(NoteList { notes })
    }

    /// The notes.
    pub(crate) fn into_notes(self) -> Vec<Box<Note>>
        ensures { map (λ b. b.value) result.items ≡ self }
    {
        self.notes
    }

    /// The last note stands first, and so on.
    pub(crate) fn reverse(&mut self)
        ensures { self.new ≡ reverse self.old }
    {
        self.notes.reverse();
    }

    /// The last note goes.
    pub(crate) fn take_last(&mut self) -> Option<Box<Note>>
        ensures some { IfSome result (λ b. self.old ≡ self.new ++ b.value ∷ []) }
        ensures none { IfNone result (self.old ≡ []) }
    {
        self.notes.pop()
    }

    /// Takes over the memory of a list without notes, if it has no notes either.
    pub(crate) fn take_over(&mut self, spare: &mut NoteList)
        ensures { self.new ≡ self.old }
    {
        if self.notes.is_empty() && spare.notes.is_empty() {
            mem::swap(&mut self.notes, &mut spare.notes);
        }
    }

    /// Returns whether a note of the list says the same as this one.
    fn holds(&self, note: &Note) -> bool
        ensures { IsTrue result ↔ Contains (map facts self.now) (facts note.now) }
    {
        for listed in &self.notes {
            if say_the_same(listed, note) {
                return true;
            }
        }
        false
    }

    /// A note comes to the list. One that isn't appended becomes a spare note.
    pub(crate) fn arrive(&mut self, note: Box<Note>, spares: &mut Spares) -> Result<(), AllocError>
        ensures { OnOk result (Arrives (map facts self.old) (facts note.value) (map facts self.new)) }
    {
        if self.holds(&note) {
            spares.take(note);
            return Ok(());
        }
        if self.notes.len() < MOST_NOTES {
            self.notes.push(note)?;
            return Ok(());
        }
        join_in_place(&mut self.notes[MOST_NOTES - 1], &note)?;
        spares.take(note);
        Ok(())
    }
}
