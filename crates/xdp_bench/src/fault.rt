//! Why a line has no time.

use std::alloc::{AllocError, AllocFailed};
use thiserror::Error;

/// The reason why a line has no time.
#[derive(Clone, Copy, Debug, PartialEq, Eq, Error)]
pub enum Fault {
    #[error("out of memory")]
    Memory,
    #[error("the line isn't understood")]
    Line,
    #[error("the program is refused")]
    Refused,
    #[error("a packet or a turn isn't as expected")]
    Unexpected,
    #[error("the clock failed")]
    Clock,
}

impl From<AllocError> for Fault {
    fn from(_error: AllocError) -> Fault {
        Fault::Memory
    }
}

impl<T: Drop> From<AllocFailed<T>> for Fault {
    fn from(_error: AllocFailed<T>) -> Fault {
        Fault::Memory
    }
}
