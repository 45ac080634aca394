//! Whether two instructions are one.
ghost use Rattle.std.specs.Prelude.{ℤ, ◌≡◌, ◌↔◌, IsTrue};
ghost use Rattle.bpf_insn.specs.declared.insn.Insn.TheVariants.{Ldx, Stx, AddCounter, Jump};

use bpf_insn::{Condition, Insn, Operand, Register, Size};

pub(crate) fn is_exit(insn: Insn) -> bool
    ensures { IsTrue result → insn ≡ Insn.Exit }
{
    matches!(insn, Insn::Exit)
}

pub(crate) fn is_load(
    there: Insn,
    size: Size,
    signed: bool,
    dst: Register,
    src: Register,
    off: i16,
) -> bool
    ensures { IsTrue result ↔ there ≡ Ldx size signed dst src off }
{
    is_same_insn(
        there,
        Insn::Ldx {
            size,
            signed,
            dst,
            src,
            off,
        },
    )
}

pub(crate) fn is_register_store(
    there: Insn,
    size: Size,
    dst: Register,
    src: Register,
    off: i16,
) -> bool
    ensures { IsTrue result ↔ there ≡ Stx size dst src off }
{
    is_same_insn(
        there,
        Insn::Stx {
            size,
            dst,
            src,
            off,
        },
    )
}

pub(crate) fn is_addition(there: Insn, fetch: bool, dst: Register, src: Register, off: i16) -> bool
    ensures { IsTrue result ↔ there ≡ AddCounter fetch dst src off }
{
    is_same_insn(
        there,
        Insn::AddCounter {
            fetch,
            dst,
            src,
            off,
        },
    )
}

pub(crate) fn is_jump(
    there: Insn,
    cond: Condition,
    wide: bool,
    dst: Register,
    src: Operand,
    off: i16,
) -> bool
    ensures { IsTrue result ↔ there ≡ Jump cond wide dst src off }
{
    is_same_insn(
        there,
        Insn::Jump {
            cond,
            wide,
            dst,
            src,
            off,
        },
    )
}

/// Returns whether an instruction is this conditional jump but for its offset.
pub(crate) fn is_but_for_offset(
    insn: Insn,
    cond: Condition,
    wide: bool,
    dst: Register,
    src: Operand,
) -> bool
    ensures { IsTrue result → (o : ℤ) × (insn ≡ Jump cond wide dst src o) }
{
    match insn {
        Insn::Jump { off, .. } => is_jump(insn, cond, wide, dst, src, off),
        _ => false,
    }
}

/// Returns whether the instructions are one.
pub(crate) fn is_same_insn(there: Insn, insn: Insn) -> bool
    ensures { IsTrue result ↔ there ≡ insn }
{
    there == insn
}

/// Returns whether the programs are one.
pub(crate) fn is_same_code(there: &[Insn], code: &[Insn]) -> bool
    ensures { IsTrue result ↔ there.now ≡ code.now }
{
    there == code
}
