//! Why a handle has no program.
use bpf_insn::{Cause, Refusal};
use std::alloc::{AllocError, AllocFailed};
use xdp_program::TextFault;

/// The reason why there is no program.
#[derive(Clone, Copy, Drop)]
pub enum Fault {
    /// The decoder or the verifier refuses it. Out of memory is V0.
    Refused(Refusal),
    /// The first map that is out of its limits, or the fifth.
    Map(u32),
    /// The settings text has a fault, L0 to L8.
    Text(TextFault),
    /// There is no program to make another of.
    Empty,
}

impl From<AllocError> for Fault {
    ghost use Rattle.std.specs.Prelude.{◌≡◌};
    ghost use Rattle.xdp_host.specs.Verdict.{out_of_memory};

    ghost from_gives = { λ _ e. e ≡ out_of_memory };

    fn from(error: AllocError) -> Fault {
        Fault::Refused(Refusal {
            cause: Cause::from(error),
            pc: 0,
        })
    }
}

impl<T: Drop> From<AllocFailed<T>> for Fault {
    ghost use Rattle.std.specs.Prelude.{◌≡◌};
    ghost use Rattle.xdp_host.specs.Verdict.{out_of_memory};

    ghost from_gives = { λ _ e. e ≡ out_of_memory };

    fn from(_error: AllocFailed<T>) -> Fault {
        Fault::Refused(Refusal {
            cause: Cause::Memory,
            pc: 0,
        })
    }
}
