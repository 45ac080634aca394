//! Why there is no program.
use bpf_insn::{Cause, Refusal};
use std::alloc::{AllocError, AllocFailed};

/// The reason why a program isn't accepted.
#[derive(Clone, Copy, Debug, PartialEq, Eq, Drop)]
pub enum LoadFault {
    /// There are more than 16 maps.
    Maps,
    /// The decoder or the verifier refuses it. Out of memory is V0.
    Refused(Refusal),
}

impl From<AllocError> for LoadFault {
    ghost use Rattle.std.specs.Prelude.{◌≡◌};
    ghost use Rattle.xdp_program.specs.Refused.{out_of_memory};

    ghost from_gives = { λ _ e. e ≡ out_of_memory };

    fn from(error: AllocError) -> LoadFault {
        LoadFault::Refused(Refusal {
            cause: Cause::from(error),
            pc: 0,
        })
    }
}

impl<T: Drop> From<AllocFailed<T>> for LoadFault {
    ghost use Rattle.std.specs.Prelude.{◌≡◌};
    ghost use Rattle.xdp_program.specs.Refused.{out_of_memory};

    ghost from_gives = { λ _ e. e ≡ out_of_memory };

    fn from(_error: AllocFailed<T>) -> LoadFault {
        LoadFault::Refused(Refusal {
            cause: Cause::Memory,
            pc: 0,
        })
    }
}

/// The reason why there is no program of a settings text.
#[derive(Clone, Copy, Debug, PartialEq, Eq, Drop)]
pub enum SettingsFault {
    /// The text has a fault, L0 to L8.
    Text(xdp_load::TextFault),
    /// Its program isn't accepted with its maps.
    Program(LoadFault),
}

/// The reason why a settings text has no lists for a program.
#[derive(Clone, Copy, Debug, PartialEq, Eq, Drop)]
pub enum RelistFault {
    /// The text has a fault, L0 to L8.
    Text(xdp_load::TextFault),
    /// Its program is another one, or has other maps.
    Other,
}

impl From<AllocError> for RelistFault {
    ghost use Rattle.std.specs.Prelude.{◌≡◌};
    ghost use Rattle.xdp_program.specs.Settings.{relist_out_of_memory};

    ghost from_gives = { λ _ e. e ≡ relist_out_of_memory };

    fn from(_error: AllocError) -> RelistFault {
        RelistFault::Text(xdp_load::TextFault::Memory)
    }
}

impl<T: Drop> From<AllocFailed<T>> for RelistFault {
    ghost use Rattle.std.specs.Prelude.{◌≡◌};
    ghost use Rattle.xdp_program.specs.Settings.{relist_out_of_memory};

    ghost from_gives = { λ _ e. e ≡ relist_out_of_memory };

    fn from(_error: AllocFailed<T>) -> RelistFault {
        RelistFault::Text(xdp_load::TextFault::Memory)
    }
}
