//! The parts of a note, each set and read.

use crate::known::{bounds, set_bounds, set_bytes, values};
use bpf_note::{Note, PACKET_ID, Spares, Val};
use std::alloc::{AllocError, Global};
use std::test::Fail;

/// A value of which nothing is known.
const UNKNOWN: Val = Val::Unset;

#[test]
fn the_entry(rt: HostRuntime) {
    let note = Note::entry(rt.alloc());
    let registers = [0, 1, 2, 3, 4, 5, 6, 7, 8, 9, 10, 11].map(|number| note.register(number));
    let mut wanted = [UNKNOWN; 12];
    wanted[1] = Val::Ctx;
    wanted[10] = Val::Stack { off: 0 };
    assert_eq!(rt; registers, wanted);
    assert_eq!(rt; (note.kept(0), note.is_set(511)), (None, false));
    assert_eq!(rt; bounds(&note, PACKET_ID), (0, None));
}

/// Returns what `r3`, `r2` and `r11` hold after `r3` alone was set.
fn registers_set(alloc: Global) -> [Val; 3] {
    let mut note = Note::entry(alloc);
    note.set_register(3, Val::FULL);
    [note.register(3), note.register(2), note.register(11)]
}

#[test]
fn registers(rt: HostRuntime) {
    assert_eq!(rt; registers_set(rt.alloc()), [Val::FULL, UNKNOWN, UNKNOWN]);
}

/// Returns what the last stack slot keeps, and which bytes of it and beside it are set.
fn last_slot(note: &Note) -> (Option<Val>, [bool; 3], bool) {
    let set = set_bytes(note, [504, 505, 511]);
    (note.kept(63), set, note.is_set(503))
}

/// The last slot while it is kept, and after a byte of it was set.
fn kept_and_set(alloc: Global) -> [(Option<Val>, [bool; 3], bool); 2] {
    let mut note = Note::entry(alloc);
    note.keep(63, Val::PktEnd);
    let kept = last_slot(&note);
    note.set_byte(505);
    [kept, last_slot(&note)]
}

#[test]
fn slots_and_bytes(rt: HostRuntime) {
    let set = [true; 3];
    let wanted = [(Some(Val::PktEnd), set, false), (None, set, false)];
    assert_eq!(rt; kept_and_set(rt.alloc()), wanted);
}

#[test]
fn a_single_byte(rt: HostRuntime) {
    let mut note = Note::entry(rt.alloc());
    note.set_byte(8);
    assert_eq!(rt; set_bytes(&note, [7, 8, 9]), [false, true, false]);
}

/// Bounds of the packet's id, of id 7 and of id 3.
fn with_bounds(alloc: Global) -> Result<Note, AllocError> {
    let mut note = Note::entry(alloc);
    note.set_safe(PACKET_ID, Some(14))?;
    note.set_top(7, 100)?;
    set_bounds(&mut note, 3, 60, None)?;
    note.set_safe(7, Some(20))?;
    Ok(note)
}

#[test]
fn ids(rt: HostRuntime) -> Result<(), Fail> {
    let mut note = with_bounds(rt.alloc())?;
    let set = [bounds(&note, PACKET_ID), bounds(&note, 3), bounds(&note, 7)];
    set_bounds(&mut note, 7, 0, None)?;
    let unset = [bounds(&note, 3), bounds(&note, 7)];
    assert_eq!(rt; set, [(0, Some(14)), (60, None), (100, Some(20))]);
    assert_eq!(rt; unset, [(60, None), (0, None)]);
    Ok(())
}

/// Values that have id 5 and id 6, before id 5 is made anew.
fn with_made_id(alloc: Global) -> Result<Note, AllocError> {
    let mut note = Note::entry(alloc);
    note.set_register(2, Val::Pkt { id: 5, off: 4 });
    note.set_register(3, Val::Pkt { id: 6, off: 4 });
    note.keep(0, Val::MaybeValue { m: 1, id: 5 });
    note.set_safe(5, Some(8))?;
    note.make_id(5, 255)?;
    Ok(note)
}

#[test]
fn an_id_is_made(rt: HostRuntime) -> Result<(), Fail> {
    let note = with_made_id(rt.alloc())?;
    let registers = [Val::FULL, Val::Pkt { id: 6, off: 4 }];
    assert_eq!(rt; values(&note, [2, 3], 0), (registers, Some(Val::FULL)));
    assert_eq!(rt; bounds(&note, 5), (255, None));
    Ok(())
}

/// Returns what is known of three lookups' results, two of them with id 9, after that id is resolved.
fn resolved(alloc: Global) -> ([Val; 2], Option<Val>) {
    let mut note = Note::entry(alloc);
    note.set_register(0, Val::MaybeValue { m: 2, id: 9 });
    note.set_register(6, Val::MaybeValue { m: 2, id: 8 });
    note.keep(1, Val::MaybeValue { m: 2, id: 9 });
    note.resolve(9, Val::Value { m: 2 });
    values(&note, [0, 6], 1)
}

#[test]
fn an_id_is_resolved(rt: HostRuntime) {
    let value = Val::Value { m: 2 };
    let other = Val::MaybeValue { m: 2, id: 8 };
    assert_eq!(rt; resolved(rt.alloc()), ([value, other], Some(value)));
}

/// Returns whether a note is its copy, after the copy was made, changed, changed back and changed elsewhere.
fn are_equal(note: &Note, copy: &mut Note) -> Result<[bool; 4], AllocError> {
    let at_first = note.same_as(copy);
    copy.set_top(4, 8)?;
    let changed = note.same_as(copy);
    copy.set_top(4, 9)?;
    let changed_back = note.same_as(copy);
    copy.set_byte(0);
    Ok([at_first, changed, changed_back, note.same_as(copy)])
}

/// A note and its copy.
fn copied(alloc: Global) -> Result<(Note, Note), AllocError> {
    let mut note = Note::entry(alloc);
    note.set_top(4, 9)?;
    let copy = note.copy(alloc)?;
    Ok((note, copy))
}

#[test]
fn copies_are_equal(rt: HostRuntime) -> Result<(), Fail> {
    let (note, mut copy) = copied(rt.alloc())?;
    let equal = are_equal(&note, &mut copy)?;
    assert_eq!(rt; equal, [true, false, true, false]);
    Ok(())
}

/// A copy in the memory of a note that knows more of the stack.
fn copied_over(alloc: Global) -> Result<Box<Note>, AllocError> {
    let mut deep = Note::entry(alloc);
    deep.keep(0, Val::FULL);
    let mut spares = Spares::none(alloc);
    spares.take(Box::new(alloc, deep)?);
    let mut note = Note::entry(alloc);
    note.set_byte(511);
    spares.copy(&note)
}

#[test]
fn a_copy_takes_over_a_spare_note(rt: HostRuntime) -> Result<(), Fail> {
    let copy = copied_over(rt.alloc())?;
    assert_eq!(rt; (copy.kept(0), copy.is_set(511)), (None, true));
    Ok(())
}
