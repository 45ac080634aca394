//! Why a host ends.

use std::alloc::AllocError;
use std::io;
use xen_page::GrantFault;

/// The reason why a turn wasn't made, or wasn't told.
#[derive(Drop)]
pub enum Fault {
    Memory,
    Refused,
    Output(io::Error),
}

impl From<AllocError> for Fault {
    fn from(_error: AllocError) -> Fault {
        Fault::Memory
    }
}

impl From<io::Error> for Fault {
    fn from(error: io::Error) -> Fault {
        Fault::Output(error)
    }
}

impl From<GrantFault> for Fault {
    fn from(_fault: GrantFault) -> Fault {
        Fault::Refused
    }
}
