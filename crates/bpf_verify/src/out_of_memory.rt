//! The refusal when memory runs out.

ghost use Rattle.std.specs.Prelude.{◌≡◌};
ghost use Rattle.bpf_insn.specs.declared.refusal.Cause.TheVariants.{Memory};

use bpf_insn::{Cause, Refusal};
use std::alloc::AllocError;

/// The refusal when memory runs out: V0 at the slot being checked, or at 0 before the first. It takes the error of the
/// allocation that failed, so nothing else can make one.
pub(crate) fn memory_refusal(error: AllocError, pc: u32) -> Refusal
    ensures cause { result.cause ≡ Memory }
    ensures slot { result.pc ≡ pc }
{
    Refusal {
        cause: Cause::from(error),
        pc,
    }
}
