//! What stands at a slot.
ghost use Rattle.std.specs.Prelude.{◌≡◌, Some, slice_get, IsTrue};

use crate::equal::is_same_insn;
use crate::relation::Relation;
use crate::witness::Witness;
use bpf_insn::Insn;

pub(crate) fn witness_at(witnesses: &[Witness], at: u32) -> Option<Witness>
    ensures { result ≡ slice_get witnesses.now at }
{
    if (at as usize) < witnesses.len() {
        Some(witnesses[at as usize])
    } else {
        None
    }
}

pub(crate) fn insn_at(code: &[Insn], at: u32) -> Option<Insn>
    ensures { result ≡ slice_get code.now at }
{
    if (at as usize) < code.len() {
        Some(code[at as usize])
    } else {
        None
    }
}

pub(crate) fn relation_at(relations: &[Relation], at: u32) -> Option<Relation>
    ensures { result ≡ slice_get relations.now at }
{
    if (at as usize) < relations.len() {
        Some(relations[at as usize])
    } else {
        None
    }
}

/// Returns whether this instruction stands at a slot.
pub(crate) fn is_at(code: &[Insn], at: u32, insn: Insn) -> bool
    ensures { IsTrue result → slice_get code.now at ≡ Some insn }
{
    (at as usize) < code.len() && is_same_insn(code[at as usize], insn)
}
