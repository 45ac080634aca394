//! A relation without what a step doesn't preserve. Nothing is promised of it: `preserve` judges.
ghost use Rattle.std.specs.Prelude.{◌<◌};

use crate::content::CONTENTS;
use crate::linear_form::{REGISTERS, TERMS};
use crate::relation::Relation;
use crate::room::ROOMS;
use crate::step::Step;

impl Step<'_> {
    /// Takes out of a relation what the step doesn't preserve of a register.
    fn keep_register(&self, kept: &mut Relation, next: &Relation, register: u8)
        requires { register < 11 }
    {
        let at = register as usize;
        if !self.preserves_register(next, register) {
            kept.old[at] = None;
        }
        if !self.preserves_bound(next, register) {
            kept.bounds[at] = None;
        }
        if !self.preserves_shifted(next, register) {
            kept.shifted[at] = None;
        }
    }

    /// Returns what the step preserves of a relation.
    pub(crate) fn preserved_of(&self, next: &Relation) -> Relation {
        let mut kept = *next;
        for register in 0..REGISTERS {
            self.keep_register(&mut kept, next, register);
        }
        for term in 0..TERMS {
            if !self.preserves_term(next, term) {
                kept.new[term as usize] = None;
            }
        }
        for number in 0..ROOMS {
            if !self.preserves_room(next, number) {
                kept.rooms[number as usize] = None;
            }
        }
        for index in 0..CONTENTS {
            if !self.preserves_content(next, index) {
                kept.contents[index as usize] = None;
            }
        }
        kept
    }
}
