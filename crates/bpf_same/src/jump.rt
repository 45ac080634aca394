//! The conditional jumps of both programs.
ghost use Rattle.std.specs.Prelude.{◌<◌, Some, IfSome, IsTrue};
ghost use Rattle.bpf_same.specs.Simulated.{AreSameJump, IsBranch};

use crate::equal::is_but_for_offset;
use bpf_flow::jump_target;
use bpf_insn::Insn;

/// The target of a jump of the old program, if it is this one but for its offset.
pub(crate) fn same_target(there: Insn, at: u32, insn: Insn) -> Option<Option<u32>>
    requires { at < 4096 }
    ensures { IfSome result (AreSameJump (Some there) at insn) }
{
    match there {
        Insn::Jump {
            cond,
            wide,
            dst,
            src,
            off,
        } => is_but_for_offset(insn, cond, wide, dst, src).then_some(jump_target(
            at,
            i32::from(off),
        )),
        _ => None,
    }
}

/// Returns whether an instruction is a conditional jump to these two slots.
pub(crate) fn is_branch(insn: Insn, pc: u32, next: u32, taken: u32) -> bool
    requires { pc < 4096 }
    ensures { IsTrue result → IsBranch insn pc next taken }
{
    match insn {
        Insn::Jump { off, .. } => {
            next == pc + 1 && next != taken && jump_target(pc, i32::from(off)) == Some(taken)
        }
        _ => false,
    }
}
