//! Why and where settings are refused.
ghost use Rattle.std.specs.Prelude.{◌≡◌};
ghost use Rattle.xdp_load.specs.FaultNumber.{fault_number};
ghost use Rattle.xdp_load.specs.Gives.{Gives, fault_of, in_key, in_row, original_error};
ghost use Rattle.xdp_load.specs.declared.fault.LoadError.TheVariants as error;
ghost use Rattle.xdp_load.specs.declared.fault.Part.TheVariants.{Settings};

use crate::key::Key;
use crate::spot::Spot;
use std::alloc::{AllocError, AllocFailed};
use thiserror::Error;

/// The fault of a settings text. The first of these that applies to the whole document is its fault.
#[derive(Clone, Copy, Debug, PartialEq, Eq, Error)]
pub enum Fault {
    /// L1
    #[error("the text has more than 1,048,576 bytes, or is not UTF-8")]
    Text,
    /// L2
    #[error("the text is not TOML")]
    Syntax,
    /// L3: a step of the script that isn't two whole numbers too
    #[error("a key is unknown, missing or of the wrong type")]
    Key,
    /// L4: a fifth map, or a queue that isn't below `queues`, too
    #[error("a number or the length of a packet is outside its limits")]
    Limit,
    /// L5
    #[error("the name of a map is empty, too long or given twice")]
    Name,
    /// L6
    #[error("a hex text is refused")]
    Hex,
    /// L7
    #[error("a relocation names no map, or no wide load of its own")]
    Relocation,
    /// L8: a prefix with a bit set beyond its length too
    #[error("a row of a map is no prefix of its data, or is given twice")]
    Rows,
}

/// The fault of settings of which there is no setup, wherever it is.
#[derive(Clone, Copy, Debug, PartialEq, Eq, Error)]
pub enum TextFault {
    /// L0
    #[error("out of memory")]
    Memory,
    /// L1 to L8
    #[error("the settings are refused")]
    Refused(Fault),
}

impl TextFault {
    /// The number after the L.
    pub fn number(self) -> u8
        ensures { result ≡ fault_number self }
    {
        match self {
            TextFault::Memory => 0,
            TextFault::Refused(Fault::Text) => 1,
            TextFault::Refused(Fault::Syntax) => 2,
            TextFault::Refused(Fault::Key) => 3,
            TextFault::Refused(Fault::Limit) => 4,
            TextFault::Refused(Fault::Name) => 5,
            TextFault::Refused(Fault::Hex) => 6,
            TextFault::Refused(Fault::Relocation) => 7,
            TextFault::Refused(Fault::Rows) => 8,
        }
    }
}

/// The settings' own keys, or those of the table `original`.
#[derive(Clone, Copy, Debug, PartialEq, Eq)]
pub enum Part {
    Settings,
    Original,
}

/// A fault of settings, and where it is.
#[derive(Debug, PartialEq, Eq, Drop)]
pub struct Refused {
    pub fault: Fault,
    pub part: Part,
    pub spot: Spot,
}

/// The reason why there is no setup of a settings text.
#[derive(Debug, PartialEq, Eq, Error, Drop)]
pub enum LoadError {
    /// L0
    #[error("out of memory")]
    Memory,
    /// L1 to L8
    #[error("the settings are refused")]
    Refused(Refused),
}

impl LoadError {
    /// A fault of the settings' own keys.
    pub fn at(fault: Fault, spot: Spot) -> LoadError
        ensures { result ≡ error.Refused (record { fault = fault; part = Settings; spot = spot }) }
    {
        LoadError::Refused(Refused {
            fault,
            part: Part::Settings,
            spot,
        })
    }

    /// The same fault of the original's keys.
    pub fn in_original(self) -> LoadError
        ensures { result ≡ original_error self }
    {
        match self {
            LoadError::Memory => LoadError::Memory,
            LoadError::Refused(refused) => LoadError::Refused(Refused {
                fault: refused.fault,
                part: Part::Original,
                spot: refused.spot,
            }),
        }
    }

    /// The fault alone.
    pub fn fault(&self) -> TextFault
        ensures { result ≡ fault_of self.now }
    {
        match self {
            LoadError::Memory => TextFault::Memory,
            LoadError::Refused(refused) => TextFault::Refused(refused.fault),
        }
    }
}

impl From<AllocError> for LoadError {
    ghost from_gives = { λ _ e. e ≡ error.Memory };

    fn from(_error: AllocError) -> LoadError {
        LoadError::Memory
    }
}

impl<T: Drop> From<AllocFailed<T>> for LoadError {
    ghost from_gives = { λ _ e. e ≡ error.Memory };

    fn from(_error: AllocFailed<T>) -> LoadError {
        LoadError::Memory
    }
}

/// Returns what a key of the document gives.
pub fn in_key<T: Drop>(fault: Fault, read: Result<T, Key>) -> Result<T, LoadError>
    ensures { Gives (λ x. x) result (in_key fault read) }
{
    match read {
        Ok(value) => Ok(value),
        Err(key) => Err(LoadError::at(fault, Spot::At(key))),
    }
}

/// Returns what a row gives.
pub fn in_row<T: Drop>(fault: Fault, number: usize, read: Result<T, Key>) -> Result<T, LoadError>
    ensures { Gives (λ x. x) result (in_row fault number read) }
{
    match read {
        Ok(value) => Ok(value),
        Err(key) => Err(LoadError::at(fault, Spot::Row(key, number))),
    }
}
