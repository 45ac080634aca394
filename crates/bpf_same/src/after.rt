//! The relation after a step. Nothing is promised of it: `preserve` judges.
ghost use Rattle.std.specs.Prelude.{◌<◌, ◌≤◌, IfSome};

use crate::linear_form::{LinearForm, REGISTERS, TERMS};
use crate::range::Range;
use crate::relation::Relation;
use crate::room::{LONGEST, ROOMS, Room};
use crate::shifted::is_shift;
use crate::step::{PACKET_START, Step, alters};
use bpf_insn::{AluOp, Insn, Operand};
use bpf_note::Val;

/// A linear form before a step, by terms that hold the same after it.
pub(crate) fn moved(step: &Step, form: LinearForm) -> Option<LinearForm> {
    let mut total = LinearForm::constant(form.constant);
    for part in 0..TERMS {
        if form.terms >> part == 0 {
            break;
        }
        if form.has(part) {
            match term_of(step, part) {
                Some(term) => total.terms |= LinearForm::held(term).terms,
                None => return None,
            }
        }
    }
    Some(total)
}

/// The term that has after a step what another had before: itself, if it is left as it was.
fn term_of(step: &Step, part: u8) -> Option<u8>
    requires { part < 64 }
    ensures { IfSome result (λ h. h < 64) }
{
    let wanted = Some(LinearForm::held(part));
    if step.new_after(part) == wanted {
        return Some(part);
    }
    for term in 0..TERMS {
        if step.new_after(term) == wanted {
            return Some(term);
        }
    }
    None
}

/// A sum before a step, by the same terms, which differ by constants after it.
fn sum_after(step: &Step, sum: LinearForm) -> Option<LinearForm> {
    let mut total = sum;
    if sum.terms.count_ones() < 2 {
        return None;
    }
    for part in 0..TERMS {
        if sum.has(part) {
            let there = step.new_after(part)?;
            if there.terms != LinearForm::held(part).terms {
                return None;
            }
            total.constant = total.constant.wrapping_sub(there.constant);
        }
    }
    Some(total)
}

/// The form of a term after a step, by terms that hold the same after it or by such that differ by a constant, unless that is itself.
fn form_after(step: &Step, found: &Relation, term: u8) -> Option<LinearForm>
    requires { term < 64 }
{
    let here = step.new_after(term)?;
    if here == LinearForm::held(term) {
        return None;
    }
    match moved(step, here) {
        Some(form) => (form != LinearForm::held(term)).then_some(form),
        None => form_beside(step, found, here, term).or(sum_after(step, here)),
    }
}

/// The form of a term after a step, by an earlier one that differs by a constant.
pub(crate) fn form_beside(
    step: &Step,
    found: &Relation,
    here: LinearForm,
    term: u8,
) -> Option<LinearForm>
    requires { term ≤ 64 }
{
    for other in 0..term {
        if let Some(there) = step.new_after(other) {
            if there.terms == here.terms && found.claimed(other).is_none() {
                let by = here.constant.wrapping_sub(there.constant);
                return Some(LinearForm::held(other).moved(by));
            }
        }
    }
    None
}

/// Makes registers that held what a step subtracts another one from the sum of that one and the difference.
fn add_differences(step: &Step, found: &mut Relation) {
    let Insn::Alu {
        op: AluOp::Sub,
        wide: true,
        dst,
        src: Operand::Register(src),
    } = step.insn
    else {
        return;
    };
    let difference = dst.number();
    if dst == src || step.new_after(difference).is_some() {
        return;
    }
    let whole = Some(step.before.new_form(difference));
    let part = found.new_form(src.number());
    let Some(sum) = LinearForm::held(difference).plus(part) else {
        return;
    };
    for register in 0..REGISTERS {
        if register != difference && register != src.number() && step.new_after(register) == whole {
            found.new[register as usize] = Some(sum);
        }
    }
}

/// The relation after a step.
pub(crate) fn relation_after(step: &Step) -> Relation {
    let mut found = Relation::none();
    for term in 0..TERMS {
        found.new[term as usize] = form_after(step, &found, term);
    }
    add_differences(step, &mut found);
    for register in 0..REGISTERS {
        found.old[register as usize] = old_claim_after(step, &found, register);
    }
    add_rooms_after(step, &mut found);
    for register in 0..REGISTERS {
        found.bounds[register as usize] = bound_after(step, register);
        found.shifted[register as usize] = shifted_after(step, register);
    }
    found
}

/// A room before a step, by terms that hold the same after it, or by a register that differs by a constant.
fn moved_room(step: &Step, found: &Relation, room: Room) -> Option<Room> {
    if let Some(form) = moved(step, room.first_form()) {
        return Some(Room {
            terms: form.terms,
            ..room
        });
    }
    for register in 0..REGISTERS {
        if let Some(room) = room_by(step, found, room, register) {
            return Some(room);
        }
    }
    None
}

/// A room before a step, by a register that differs by a constant.
fn room_by(step: &Step, found: &Relation, room: Room, register: u8) -> Option<Room>
    requires { register < 11 }
{
    let here = step.new_after(register)?;
    let there = found.new_form(register);
    let by = there.constant.wrapping_sub(here.constant);
    (here.terms == room.terms).then_some(Room {
        first: room.first.wrapping_add(by),
        last: room.last.wrapping_add(by),
        terms: there.terms,
    })
}

/// The room that the note after a step says by where a register points.
fn noted_room(step: &Step, found: &Relation, register: u8) -> Option<Room>
    requires { register < 11 }
{
    let Val::Pkt { id, off } = step.after.register(register) else {
        return None;
    };
    let safe = step.after.safe(id)?;
    let form = found.new_form(register);
    let first = form.constant.wrapping_sub(u64::from(off));
    Some(Room {
        first,
        last: first.wrapping_add(u64::from(safe)),
        terms: form.terms,
    })
}

/// The room up to an address that a jump compares, and the one of numbers. A jump leaves what terms hold.
fn compared_rooms(step: &Step) -> Option<(Room, Room)> {
    let address = step.compared()?;
    let form = step.before.new_form(address.register);
    let last = form.constant.wrapping_add(address.by);
    let room = Room {
        first: last.wrapping_sub(address.distance),
        last,
        terms: form.terms,
    };
    let reached = Room {
        first: PACKET_START,
        last: PACKET_START.wrapping_add(address.distance),
        terms: 0,
    };
    Some((room, reached))
}

/// Adds the rooms before a step, and those that the note after it says.
fn add_rooms_after(step: &Step, found: &mut Relation) {
    for number in 0..ROOMS {
        if let Some(room) = step.before.room(number) {
            if let Some(room) = moved_room(step, found, room) {
                add_room(found, room);
            }
        }
    }
    for register in 0..REGISTERS {
        if let Some(room) = noted_room(step, found, register) {
            add_room(found, room);
        }
    }
    if let Some((room, reached)) = compared_rooms(step) {
        add_room(found, room);
        add_room(found, reached);
    }
}

/// The form that a register holds after a step that shifts it to its upper half.
fn shifted_after(step: &Step, register: u8) -> Option<LinearForm>
    requires { register < 11 }
{
    if !is_shift(step.insn, register) {
        return None;
    }
    let form = moved(step, step.before.new_form(register))?;
    step.is_shifted(register, form).then_some(form)
}

/// The numbers that a register lies between after a step, if they are addresses.
fn bound_after(step: &Step, register: u8) -> Option<Range>
    requires { register < 11 }
{
    let range = step.range_before(step.new_after(register)?)?;
    (range.low >= PACKET_START).then_some(range)
}

/// Two rooms of the same terms: the one that begins first, the other one, and by how much that begins later; unless they lie apart.
pub(crate) fn in_order(one: Room, other: Room) -> Option<(Room, Room, u64)> {
    let later = other.first.wrapping_sub(one.first);
    if later <= LONGEST {
        return Some((one, other, later));
    }
    let later = one.first.wrapping_sub(other.first);
    (later <= LONGEST).then_some((other, one, later))
}

/// The room from the first address of both to the last one.
fn joined(one: Room, other: Room) -> Option<Room> {
    let (from, to, later) = in_order(one, other)?;
    let length = from.length().max(later.wrapping_add(to.length()));
    Some(Room {
        last: from.first.wrapping_add(length),
        ..from
    })
}

/// Adds a room, joined to one of the same terms. The first one makes place for it if there are eight.
pub(crate) fn add_room(relation: &mut Relation, room: Room) {
    for number in 0..ROOMS {
        match relation.room(number) {
            None => {
                relation.rooms[number as usize] = Some(room);
                return;
            }
            Some(here) if here.terms == room.terms => {
                relation.rooms[number as usize] = joined(here, room).or(Some(here));
                return;
            }
            Some(_) => {}
        }
    }
    relation.rooms.rotate_left(1);
    relation.rooms[7] = Some(room);
}

/// The linear form of a register of the old program after a step.
fn old_claim_after(step: &Step, found: &Relation, register: u8) -> Option<LinearForm>
    requires { register < 11 }
{
    let same = if step.stutters || !alters(step.insn, register) {
        step.old_after(register) == step.new_after(register) && step.old_after(register).is_some()
    } else {
        true
    };
    if same {
        return Some(found.new_form(register));
    }
    match step.old_after(register) {
        Some(form) => match moved(step, form) {
            Some(form) => Some(form),
            None => form_beside(step, found, form, TERMS),
        },
        None => None,
    }
}
