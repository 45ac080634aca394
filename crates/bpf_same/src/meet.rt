//! The relation where ways meet. Nothing is promised of it: `preserve` judges.
ghost use Rattle.std.specs.Prelude.{◌<◌};

use crate::after::{add_room, in_order};
use crate::found_content::add_common_contents;
use crate::linear_form::{LinearForm, REGISTERS, TERMS};
use crate::range::Range;
use crate::relation::Relation;
use crate::room::{ROOMS, Room};

/// A linear form in which each term is replaced by what is known of it.
fn total_in(relation: &Relation, form: LinearForm) -> Option<LinearForm> {
    let mut total = LinearForm::constant(form.constant);
    for term in 0..TERMS {
        if form.has(term) {
            match total.plus(relation.new_form(term)) {
                Some(more) => total = more,
                None => return None,
            }
        }
    }
    Some(total)
}

/// The numbers that a register lies between in one relation or another one.
fn common_bound(one: &Relation, other: &Relation, register: u8) -> Option<Range> {
    let (here, there) = (one.bound(register)?, other.bound(register)?);
    Some(Range {
        low: here.low.min(there.low),
        high: here.high.max(there.high),
    })
}

/// The addresses that are in both rooms.
fn common(one: Room, other: Room) -> Option<Room> {
    let (from, to, later) = in_order(one, other)?;
    let length = from.length().checked_sub(later)?.min(to.length());
    Some(Room {
        last: to.first.wrapping_add(length),
        ..to
    })
}

/// The addresses that are in a room and in one of a relation.
fn common_room(here: Room, other: &Relation) -> Option<Room> {
    for number in 0..ROOMS {
        if let Some(there) = other.room(number) {
            if here.terms == there.terms {
                return common(here, there);
            }
        }
    }
    None
}

/// Adds what is in rooms of both.
fn add_common_rooms(met: &mut Relation, one: &Relation, other: &Relation) {
    for number in 0..ROOMS {
        if let Some(here) = one.room(number) {
            if let Some(room) = common_room(here, other) {
                add_room(met, room);
            }
        }
    }
}

/// A room of which a term is an address, but for a constant, as one of that term.
fn room_of_term(relation: &Relation, term: u8, room: Room) -> Option<Room>
    requires { term < 64 }
{
    let form = relation.new_form(term);
    (form.terms == room.terms).then_some(Room {
        first: room.first.wrapping_sub(form.constant),
        last: room.last.wrapping_sub(form.constant),
        terms: LinearForm::held(term).terms,
    })
}

/// The addresses that are in both rooms, as those of a term.
fn common_of_term(
    meeting: &Meeting,
    term: u8,
    here: Option<Room>,
    there: Option<Room>,
) -> Option<Room>
    requires { term < 64 }
{
    let one = room_of_term(meeting.one, term, here?)?;
    let other = room_of_term(meeting.other, term, there?)?;
    common(one, other)
}

/// Adds what is in rooms of both by a term that is one form in one of them, and another one in the other.
fn add_rooms_of_term(meeting: &Meeting, met: &mut Relation, term: u8)
    requires { term < 64 }
{
    for number in 0..ROOMS {
        for other in 0..ROOMS {
            let (here, there) = (meeting.one.room(number), meeting.other.room(other));
            if let Some(room) = common_of_term(meeting, term, here, there) {
                add_room(met, room);
            }
        }
    }
}

/// Adds what is in rooms of both by terms that hold themselves where they meet.
fn add_rooms_of_terms(meeting: &Meeting, met: &mut Relation) {
    for term in 0..TERMS {
        if meeting.differs(term) && met.claimed(term).is_none() {
            add_rooms_of_term(meeting, met, term);
        }
    }
}

/// The linear forms that are one in both, by terms that hold themselves where they meet.
#[derive(Drop)]
pub(crate) struct Meeting<'a> {
    pub(crate) one: &'a Relation,
    pub(crate) other: &'a Relation,
    met: Relation,
    /// terms that are still to come
    rest: u64,
}

impl Meeting<'_> {
    fn differs(&self, term: u8) -> bool
        requires { term < 64 }
    {
        self.one.new_form(term) != self.other.new_form(term)
    }

    /// Returns whether a term holds itself where they meet.
    fn is_itself(&self, term: u8) -> bool
        requires { term < 64 }
    {
        if self.rest & LinearForm::held(term).terms == 0 {
            return self.met.claimed(term).is_none();
        }
        self.one.claimed(term).is_none() && self.other.claimed(term).is_none()
    }

    /// Returns whether a linear form is the same in both, of terms that hold themselves.
    fn is_met(&self, form: LinearForm, there: LinearForm) -> bool {
        for term in 0..TERMS {
            if form.has(term) && !self.is_itself(term) {
                return false;
            }
        }
        total_in(self.other, form) == Some(there)
    }

    /// A linear form that is one number in both.
    pub(crate) fn form_of(&self, here: LinearForm, there: LinearForm) -> Option<LinearForm> {
        if self.is_met(here, there) {
            return Some(here);
        }
        for term in 0..TERMS {
            if self.differs(term) {
                if let Some(rest) = here.minus(self.one.new_form(term)) {
                    if let Some(form) = rest.plus(LinearForm::held(term)) {
                        if self.is_met(form, there) {
                            return Some(form);
                        }
                    }
                }
            }
        }
        None
    }

    fn meet_term(&mut self, term: u8)
        requires { term < 64 }
    {
        let (here, there) = (self.one.new_form(term), self.other.new_form(term));
        if self.one.claimed(term).is_some() || self.other.claimed(term).is_some() {
            self.met.new[term as usize] = self.form_of(here, there);
        }
        self.rest &= !LinearForm::held(term).terms;
    }

    fn meet_register(&mut self, register: u8)
        requires { register < 11 }
    {
        let both = (self.one.old_form(register), self.other.old_form(register));
        if self.one.is_same(register) && self.other.is_same(register) {
            self.met.old[register as usize] = Some(self.met.new_form(register));
        } else if let (Some(here), Some(there)) = both {
            self.met.old[register as usize] = self.form_of(here, there);
        }
    }
}

/// Returns what holds in both.
pub(crate) fn met(one: &Relation, other: &Relation) -> Relation {
    let mut meeting = Meeting {
        one,
        other,
        met: Relation::none(),
        rest: u64::MAX,
    };
    for word in REGISTERS..TERMS {
        meeting.meet_term(word);
    }
    for register in 0..REGISTERS {
        meeting.meet_term(register);
    }
    for register in 0..REGISTERS {
        meeting.meet_register(register);
    }
    let mut met = meeting.met;
    add_common_contents(&meeting, &mut met);
    add_common_rooms(&mut met, one, other);
    add_rooms_of_terms(&meeting, &mut met);
    for register in 0..REGISTERS {
        met.bounds[register as usize] = common_bound(one, other, register);
        if one.shifted_form(register) == other.shifted_form(register) {
            met.shifted[register as usize] = one.shifted_form(register);
        }
    }
    met
}
