//! What stands at a slot.
ghost use Rattle.std.specs.Prelude.{◌≡◌, slice_get};
ghost use Rattle.bpf_verify.specs.Structure.{begins, falls_through, jump_of, landing};

use bpf_insn::Insn;

/// Returns whether a slot holds an instruction.
pub(crate) fn begins(slot: Option<Insn>) -> bool
    ensures { result ≡ begins slot }
{
    match slot {
        None | Some(Insn::Second) => false,
        Some(_) => true,
    }
}

pub(crate) fn insn_at(code: &[Insn], pc: u32) -> Option<Insn>
    ensures { result ≡ slice_get code.now pc }
{
    code.get(pc as usize).copied()
}

/// The slot, if an instruction stands there.
pub(crate) fn landing(code: &[Insn], to: Option<u32>) -> Option<u32>
    ensures { result ≡ landing code.now to }
{
    match to {
        None => None,
        Some(to) => {
            if begins(insn_at(code, to)) {
                Some(to)
            } else {
                None
            }
        }
    }
}

pub(crate) fn jump_of(insn: Insn) -> Option<i32>
    ensures { result ≡ jump_of insn }
{
    match insn {
        Insn::Ja { to, .. } => Some(to),
        Insn::Jump { off, .. } => Some(i32::from(off)),
        _ => None,
    }
}

pub(crate) fn falls_through(insn: Insn) -> bool
    ensures { result ≡ falls_through insn }
{
    !matches!(insn, Insn::Ja { .. } | Insn::Exit | Insn::Second)
}
