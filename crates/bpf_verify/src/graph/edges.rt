//! Where an instruction leads.
ghost use Rattle.std.specs.Prelude.{◌≡◌, ◌<◌};
ghost use Rattle.bpf_verify.specs.Ways.{fall_to, jump_to};

use crate::slot::{falls_through, insn_at, jump_of, landing};
use bpf_flow::{jump_target, next_slot};
use bpf_insn::Insn;

/// The slot of the instruction that follows the one at `pc`.
#[tactic(auto, unfolding(crate::specs::Ways::fall_to))]
pub(crate) fn fall_to(code: &[Insn], pc: u32) -> Option<u32>
    requires { pc < 4096 }
    ensures { result ≡ fall_to code.now pc }
{
    match insn_at(code, pc) {
        None => None,
        Some(insn) => {
            if falls_through(insn) {
                landing(code, Some(next_slot(insn, pc)))
            } else {
                None
            }
        }
    }
}

/// The slot of the instruction to which the one at `pc` jumps.
#[tactic(auto, unfolding(crate::specs::Ways::jump_to))]
pub(crate) fn jump_to(code: &[Insn], pc: u32) -> Option<u32>
    requires { pc < 4096 }
    ensures { result ≡ jump_to code.now pc }
{
    let insn = insn_at(code, pc)?;
    let off = jump_of(insn)?;
    landing(code, jump_target(pc, off))
}
