//! What is given beside a program for a map that is no array.
ghost use Rattle.std.specs.Prelude.{◌≡◌};

use crate::rows::KeyedRows;
use std::marker::Model;

/// The bytes of constants. Contracts see the bytes.
#[derive(Drop)]
pub struct ConstantBytes {
    bytes: Vec<u8>,
}

impl Model for ConstantBytes {
    ghost use Rattle.std.specs.Prelude.{ℕ, List};

    ghost Value = { List ℕ };

    ghost view = { λ c. c.bytes.items };
}

impl ConstantBytes {
    /// These bytes.
    pub fn make(bytes: Vec<u8>) -> ConstantBytes
        ensures { result ≡ bytes.items }
    {
        ConstantBytes { bytes }
    }

    /// The bytes as a machine takes them.
    pub fn as_slice(&self) -> &[u8]
        ensures { result.now ≡ self.now }
    {
        self.bytes.as_slice()
    }
}

/// The list that is given beside a program for a map that is no array.
#[derive(Drop)]
pub enum MapList {
    /// The rows of a map that is looked up by keys.
    Rows(KeyedRows),
    /// The bytes of constants. Those that a shorter list doesn't have are 0.
    Constants(ConstantBytes),
}
