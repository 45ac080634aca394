//! What is known on a way of a conditional jump.
ghost use Rattle.std.specs.Prelude.{◌≡◌};
ghost use Rattle.bpf_flow.specs.Branch.{opposite};
ghost use Rattle.bpf_same.specs.Decided.{not_taken, on_way, opposed};

use bpf_insn::{Condition, Insn, Operand, Register};

/// A jump of which nothing is known.
pub(crate) const UNKNOWN: Insn = Insn::Ja {
    wide_offset: false,
    to: 0,
};

/// The condition that holds where another one doesn't, if there is one.
fn opposite(cond: Condition) -> Option<Condition>
    ensures { result ≡ opposite cond }
{
    match cond {
        Condition::Equal => Some(Condition::NotEqual),
        Condition::NotEqual => Some(Condition::Equal),
        Condition::Greater => Some(Condition::LessOrEqual),
        Condition::LessOrEqual => Some(Condition::Greater),
        Condition::GreaterOrEqual => Some(Condition::Less),
        Condition::Less => Some(Condition::GreaterOrEqual),
        _ => None,
    }
}

/// A jump of which it is known that it is taken where this one isn't.
fn opposed(cond: Condition, dst: Register, src: Operand, off: i16) -> Insn
    ensures { result ≡ opposed (opposite cond) dst src off }
{
    match opposite(cond) {
        Some(cond) => Insn::Jump {
            cond,
            wide: true,
            dst,
            src,
            off,
        },
        None => UNKNOWN,
    }
}

/// The jump that is taken where a conditional one isn't.
fn not_taken(insn: Insn) -> Insn
    ensures { result ≡ not_taken insn }
{
    match insn {
        Insn::Jump {
            cond,
            wide: true,
            dst,
            src,
            off,
        } => opposed(cond, dst, src, off),
        Insn::Jump { .. } => UNKNOWN,
        _ => insn,
    }
}

/// The jump that is taken on a way of a conditional jump.
pub(crate) fn on_way(insn: Insn, way: bool) -> Insn
    ensures { result ≡ on_way insn way }
{
    if way { insn } else { not_taken(insn) }
}
