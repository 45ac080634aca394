//! Why there is no report.
ghost use Rattle.std.specs.Prelude.{◌≡◌};
ghost use Rattle.thread_pair.specs.declared.fault.PairFault.TheVariants.{Memory};

use std::alloc::{AllocError, AllocFailed};
use thiserror::Error;

/// The reason why queues were not run to their end.
#[derive(Clone, Copy, Debug, PartialEq, Eq, Error)]
pub enum PairFault {
    #[error("out of memory")]
    Memory,
    #[error("a ring's page could not be mapped")]
    Map,
    #[error("a thread could not be started")]
    Thread,
}

impl From<AllocError> for PairFault {
    ghost from_gives = { λ _ e. e ≡ Memory };

    fn from(_error: AllocError) -> PairFault {
        PairFault::Memory
    }
}

impl<T: Drop> From<AllocFailed<T>> for PairFault {
    ghost from_gives = { λ _ e. e ≡ Memory };

    fn from(_error: AllocFailed<T>) -> PairFault {
        PairFault::Memory
    }
}
