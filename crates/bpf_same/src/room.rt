//! Rooms: linear forms that are addresses from the packet's start to its end.
ghost use Rattle.std.specs.Prelude.{◌≡◌, ◌+◌, ◌-◌, ◌%◌, ◌^◌, ℕ, Option, IsTrue};
ghost use Rattle.bpf_same.specs.LinearForms.{Hold, IsAddress, IsRoom, first_form, last_form, room_of, total};

use crate::linear_form::LinearForm;
use crate::range::MOST_BYTES;
use crate::relation::Relation;

/// The most rooms of a relation.
pub(crate) const ROOMS: u8 = 8;

/// The most bytes of a room.
pub(crate) const LONGEST: u64 = MOST_BYTES as u64;

/// With each constant from the first to the last, the sum with these terms is an address from the packet's start to its end.
#[derive(Clone, Copy, PartialEq, Eq, Drop)]
pub(crate) struct Room {
    pub(crate) first: u64,
    pub(crate) last: u64,
    pub(crate) terms: u64,
}

impl Room {
    pub(crate) fn first_form(self) -> LinearForm
        ensures { result ≡ first_form self }
    {
        LinearForm {
            constant: self.first,
            terms: self.terms,
        }
    }

    pub(crate) fn last_form(self) -> LinearForm
        ensures { result ≡ last_form self }
    {
        LinearForm {
            constant: self.last,
            terms: self.terms,
        }
    }

    /// The number of bytes from the first address to the last.
    pub(crate) fn length(self) -> u64
        ensures { result ≡ (self.last + (2 ^ 64 - self.first)) % 2 ^ 64 }
    {
        self.last.wrapping_sub(self.first)
    }

    /// Returns whether a form is one of the room's addresses.
    pub(crate) fn has(self, form: LinearForm) -> bool
        ensures { IsTrue result → (f : ℕ → Option ℕ) → IsRoom f self → IsAddress f (total f form) }
    {
        if self.terms != form.terms {
            return false;
        }
        let length = self.length();
        length <= LONGEST && form.constant.wrapping_sub(self.first) <= length
    }
}

impl Relation {
    pub(crate) fn room(&self, number: u8) -> Option<Room>
        ensures { result ≡ room_of self.now number }
    {
        match self.rooms.get(usize::from(number)) {
            Some(room) => *room,
            None => None,
        }
    }

    /// Returns whether a form is an address of one of the rooms.
    pub(crate) fn has_room_of(&self, form: LinearForm) -> bool
        ensures { IsTrue result → (f g : ℕ → Option ℕ) → Hold self.now f g → IsAddress f (total f form) }
    {
        for number in 0..ROOMS {
            if let Some(room) = self.room(number) {
                if room.has(form) {
                    return true;
                }
            }
        }
        false
    }
}
