//! Notes that are done with, whose memory copies take over.
ghost use Rattle.std.specs.Prelude.{◌≡◌, IfOk};

use crate::note::Note;
use std::alloc::{AllocError, Global};

/// The number that is kept: as many as a slot has notes, which are done with one after another.
const MOST_SPARES: usize = 8;

/// Notes that are done with. A copy takes over the memory of one of them: then it takes no memory for a note, and writes no
/// more of the stack than what one of the two knows.
#[derive(Drop)]
pub struct Spares {
    alloc: Global,
    notes: Vec<Box<Note>>,
}

impl Spares {
    /// None yet. It takes no memory.
    pub fn none(alloc: Global) -> Spares {
        Spares {
            alloc,
            notes: Vec::new(alloc),
        }
    }

    /// A note is done with. It goes at once if enough are kept, or memory runs out.
    pub fn take(&mut self, note: Box<Note>) {
        if self.notes.len() < MOST_SPARES {
            let _is_kept = self.notes.push(note).is_ok();
        }
    }

    /// A copy of the note, in a box.
    pub fn copy(&mut self, note: &Note) -> Result<Box<Note>, AllocError>
        ensures { IfOk result (λ b. b.value ≡ note.now) }
    {
        match self.notes.pop() {
            Some(mut spare) => {
                spare.become_copy(note)?;
                Ok(spare)
            }
            None => note.boxed(self.alloc),
        }
    }
}
