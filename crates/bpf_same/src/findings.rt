//! All that is found about a new program. Nothing is promised of it: `simulation` judges.
ghost use Rattle.std.specs.Prelude.{◌≤◌, length};

use crate::find::{Known, Pair, lowest_of, notes_of};
use crate::found::Found;
use bpf_note::Note;
use std::alloc::{AllocError, Global};

/// The notes and the relation of each slot.
#[derive(Drop)]
pub(crate) struct Findings {
    pub(crate) notes: Vec<Vec<Box<Note>>>,
    pub(crate) found: Found,
    /// below which byte of the stack the new program's own words lie
    pub(crate) low: u32,
}

impl Findings {
    /// Finds all, though not all of it may hold.
    pub(crate) fn of(alloc: Global, pair: &Pair) -> Result<Findings, AllocError>
        requires { length pair.now.new.now ≤ 4096 }
    {
        let mut notes = notes_of(alloc, pair.new, pair.shapes)?;
        let low = lowest_of(pair.new, pair.witnesses, notes.as_slice());
        let known = Known {
            pair,
            notes: notes.as_slice(),
            low,
        };
        let found = known.found(alloc)?;
        found.forget(alloc, &mut notes);
        Ok(Findings { notes, found, low })
    }
}
