//! The relation where both programs begin.
ghost use Rattle.std.specs.Prelude.{◌≡◌, ◌<◌, ℕ, Option, Some, None, IsTrue};
ghost use Rattle.bpf_same.specs.Contents.{content_of};
ghost use Rattle.bpf_same.specs.LinearForms.{bound_of, new_of, old_of, room_of, shifted_of, IsWord, total};
ghost use Rattle.bpf_same.specs.Simulated.{HoldsAtStart};
ghost use Rattle.bpf_same.specs.declared.linear_form.LinearForm.{LinearForm};

use crate::content::CONTENTS;
use crate::linear_form::{LinearForm, REGISTERS, TERMS};
use crate::relation::Relation;
use crate::room::ROOMS;

fn is_itself(relation: &Relation, register: u8) -> bool
    requires { register < 11 }
    ensures { IsTrue result → (s : LinearForm) → old_of relation.now register ≡ Some s →
        (f : ℕ → Option ℕ) → IsWord (f register) → total f s ≡ f register }
{
    match relation.old_form(register) {
        Some(form) => form.is(LinearForm::held(register)),
        None => true,
    }
}

fn is_free(relation: &Relation, term: u8) -> bool
    ensures { IsTrue result → new_of relation.now term ≡ None }
{
    relation.claimed(term).is_none()
}

fn is_roomless(relation: &Relation, number: u8) -> bool
    ensures { IsTrue result → room_of relation.now number ≡ None }
{
    relation.room(number).is_none()
}

fn is_boundless(relation: &Relation, register: u8) -> bool
    ensures { IsTrue result → bound_of relation.now register ≡ None }
{
    relation.bound(register).is_none()
}

fn is_unshifted(relation: &Relation, register: u8) -> bool
    ensures { IsTrue result → shifted_of relation.now register ≡ None }
{
    relation.shifted_form(register).is_none()
}

/// Returns whether the relation says no more than that registers are the same.
pub(crate) fn holds_at_entry(relation: &Relation) -> bool
    ensures { IsTrue result → HoldsAtStart relation.now }
{
    for register in 0..REGISTERS {
        if !is_itself(relation, register) {
            return false;
        }
    }
    for term in 0..TERMS {
        if !is_free(relation, term) {
            return false;
        }
    }
    for number in 0..ROOMS {
        if !is_roomless(relation, number) {
            return false;
        }
    }
    for index in 0..REGISTERS {
        if !is_boundless(relation, index) {
            return false;
        }
    }
    for shifted in 0..REGISTERS {
        if !is_unshifted(relation, shifted) {
            return false;
        }
    }
    true
}

/// Returns whether a relation says nothing of what stands in counters.
pub(crate) fn is_without_contents(relation: &Relation) -> bool
    ensures { IsTrue result → (k : ℕ) → k < 8 → content_of relation.now k ≡ None }
{
    for index in 0..CONTENTS {
        if relation.content(index).is_some() {
            return false;
        }
    }
    true
}
