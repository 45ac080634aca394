//! The relation of both programs' registers, and of the new program's own words of the stack.
ghost use Rattle.std.specs.Prelude.{◌≡◌, ◌<◌, ℕ, Option, IsTrue};
ghost use Rattle.bpf_same.specs.LinearForms.{Hold, new_of, old_of, total};

use crate::content::Content;
use crate::linear_form::{LinearForm, REGISTERS};
use crate::range::Range;
use crate::room::Room;

/// Of each register of the old program the linear form of the new one's terms that it holds, if that is related; of each term of the new
/// one the same, if it is another form than the term itself; which forms are addresses in the packet; between which
/// numbers registers lie; which forms registers hold shifted to their upper halves; and what stands in counters.
#[derive(Clone, Copy, Drop)]
pub(crate) struct Relation {
    pub(crate) old: [Option<LinearForm>; 11],
    pub(crate) new: [Option<LinearForm>; 64],
    pub(crate) rooms: [Option<Room>; 8],
    pub(crate) bounds: [Option<Range>; 11],
    pub(crate) shifted: [Option<LinearForm>; 11],
    pub(crate) contents: [Option<Content>; 8],
}

impl Relation {
    /// Nothing is related.
    pub(crate) fn none() -> Relation {
        Relation {
            old: [None; 11],
            new: [None; 64],
            rooms: [None; 8],
            bounds: [None; 11],
            shifted: [None; 11],
            contents: [None; 8],
        }
    }

    /// Each register holds the same in both programs.
    pub(crate) fn alike() -> Relation {
        let mut alike = Relation::none();
        for register in 0..REGISTERS {
            alike.old[register as usize] = Some(LinearForm::held(register));
        }
        alike
    }

    /// The linear form of a register of the old program, if it has one.
    pub(crate) fn old_form(&self, register: u8) -> Option<LinearForm>
        ensures { result ≡ old_of self.now register }
    {
        match self.old.get(usize::from(register)) {
            Some(form) => *form,
            None => None,
        }
    }

    /// The linear form of a term of the new program, if it has another than itself.
    pub(crate) fn claimed(&self, term: u8) -> Option<LinearForm>
        ensures { result ≡ new_of self.now term }
    {
        match self.new.get(usize::from(term)) {
            Some(form) => *form,
            None => None,
        }
    }

    /// The linear form of a term of the new program: another one, or itself.
    pub(crate) fn new_form(&self, term: u8) -> LinearForm
        requires { term < 64 }
        ensures { (f g : ℕ → Option ℕ) → Hold self.now f g → f term ≡ total f result }
    {
        match self.claimed(term) {
            Some(form) => form,
            None => LinearForm::held(term),
        }
    }

    /// Returns whether a register holds the same in both programs.
    pub(crate) fn is_same(&self, register: u8) -> bool
        requires { register < 11 }
        ensures { IsTrue result → (f g : ℕ → Option ℕ) → Hold self.now f g → g register ≡ f register }
    {
        let Some(form) = self.old_form(register) else {
            return false;
        };
        form.is(self.new_form(register))
    }
}
