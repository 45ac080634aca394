//! Whether both programs do the same: the same instruction, or an access of the same address by another register or offset.
ghost use Rattle.std.specs.Prelude.{◌≡◌, ℕ, ℤ, Option, Some, false, IsTrue};
ghost use Rattle.bpf_insn.specs.Register.{number};
ghost use Rattle.bpf_insn.specs.Signed.{sign_extended};
ghost use Rattle.bpf_insn.specs.declared.insn.Insn.TheVariants as insns;
ghost use Rattle.bpf_same.specs.LinearForms.{Hold, plus, total};
ghost use Rattle.bpf_note.specs.Parts.{facts};
ghost use Rattle.bpf_same.specs.Candidates.{candidate_of};
ghost use Rattle.bpf_same.specs.Simulated.{IsCopied};
ghost use Rattle.bpf_same.specs.Moved.{DoesAlike, IsMovedAccess, address_in};

use crate::access::{is_shared, reads_alike};
use crate::at_slot::insn_at;
use crate::equal::{is_addition, is_load, is_register_store, is_same_insn};
use crate::linear_form::LinearForm;
use crate::relation::Relation;
use crate::simulation::{Point, Simulation};
use bpf_insn::{Insn, Register, Size};

/// An offset, extended by its sign.
fn offset(off: i16) -> u64
    ensures { result ≡ sign_extended off }
{
    i64::from(off).cast_unsigned()
}

/// Returns what an offset added to a form comes to.
pub(crate) fn at_offset(form: LinearForm, off: i16) -> LinearForm
    ensures { (f : ℕ → Option ℕ) → total f result ≡ plus (total f form) (Some (sign_extended off)) }
{
    form.moved(offset(off))
}

/// Returns whether a number of the old program and an offset are the address that one of the new program and another offset are.
pub(crate) fn is_same_address(
    relation: &Relation,
    there: Register,
    from: i16,
    base: Register,
    off: i16,
) -> bool
    ensures { IsTrue result → (f g : ℕ → Option ℕ) → Hold relation.now f g → address_in g there from ≡ address_in f base off }
{
    let place = there.number();
    let Some(form) = relation.old_form(place) else {
        return false;
    };
    let register = base.number();
    let held = relation.new_form(register);
    let old = at_offset(form, from);
    let new = at_offset(held, off);
    old.is(new)
}

/// Returns whether a register of the old program holds what one of the new program does.
fn is_same_number(relation: &Relation, there: Register, register: Register) -> bool
    ensures { IsTrue result → (f g : ℕ → Option ℕ) → Hold relation.now f g → g (number there) ≡ f (number register) }
{
    let Some(form) = relation.old_form(there.number()) else {
        return false;
    };
    form.is(relation.new_form(register.number()))
}

/// Returns whether the old program loads as many bytes from the same address into the same register.
fn is_moved_load(
    relation: &Relation,
    there: Insn,
    size: Size,
    signed: bool,
    dst: Register,
    src: Register,
    off: i16,
) -> bool
    ensures { IsTrue result → IsMovedAccess relation.now there (insns.Ldx size signed dst src off) }
{
    match there {
        Insn::Ldx {
            src: base,
            off: from,
            ..
        } => {
            is_load(there, size, signed, dst, base, from)
                && is_same_address(relation, base, from, src, off)
        }
        _ => false,
    }
}

/// Returns whether the old program stores as many bytes of the same number to the same address.
fn is_moved_store(
    relation: &Relation,
    there: Insn,
    size: Size,
    dst: Register,
    src: Register,
    off: i16,
) -> bool
    ensures { IsTrue result → IsMovedAccess relation.now there (insns.Stx size dst src off) }
{
    match there {
        Insn::Stx {
            dst: base,
            src: value,
            off: from,
            ..
        } => {
            is_register_store(there, size, base, value, from)
                && is_same_number(relation, value, src)
                && is_same_address(relation, base, from, dst, off)
        }
        _ => false,
    }
}

/// Returns whether the old program adds the same register to the counter at the same address.
fn is_moved_addition(
    relation: &Relation,
    there: Insn,
    fetch: bool,
    dst: Register,
    src: Register,
    off: i16,
) -> bool
    ensures { IsTrue result → IsMovedAccess relation.now there (insns.AddCounter fetch dst src off) }
{
    match there {
        Insn::AddCounter {
            dst: base,
            off: from,
            ..
        } => {
            is_addition(there, fetch, base, src, from)
                && is_same_number(relation, src, src)
                && is_same_address(relation, base, from, dst, off)
        }
        _ => false,
    }
}

/// Returns whether an access of the old program is this one by another register or offset.
fn is_moved_access(relation: &Relation, there: Insn, insn: Insn) -> bool
    ensures { IsTrue result → IsMovedAccess relation.now there insn }
{
    match insn {
        Insn::Ldx {
            size,
            signed,
            dst,
            src,
            off,
        } => is_moved_load(relation, there, size, signed, dst, src, off),
        Insn::Stx {
            size,
            dst,
            src,
            off,
        } => is_moved_store(relation, there, size, dst, src, off),
        Insn::AddCounter {
            fetch,
            dst,
            src,
            off,
        } => is_moved_addition(relation, there, fetch, dst, src, off),
        _ => false,
    }
}

/// Returns whether an instruction of the old program does what one of the new program does.
fn does_alike(relation: &Relation, there: Insn, insn: Insn) -> bool
    ensures { IsTrue result → DoesAlike relation.now there insn }
{
    if is_same_insn(there, insn) && reads_alike(relation, insn) {
        true
    } else {
        is_moved_access(relation, there, insn)
    }
}

impl Simulation<'_> {
    /// Returns whether the old program has an instruction that does the same, and touches no word of the new one's own.
    pub(crate) fn is_copied(&self, before: &Point) -> bool
        ensures { IsTrue result → IsCopied (candidate_of self.now) before.now.witness.at before.now.insn before.now.relation.now (facts before.now.note.now) }
    {
        let Some(old) = insn_at(self.old, before.witness.at) else {
            return false;
        };
        does_alike(before.relation, old, before.insn)
            && is_shared(before.insn, before.note, self.low)
    }
}
