//! Relocations: what changes a function's bytes.
ghost use Rattle.std.specs.Prelude.{◌≡◌, ◌+◌, ◌-◌, ◌/◌, ◌^◌, ◌<◌, ◌≤◌, length, ◌↔◌, IsTrue};
ghost use Rattle.bpf_object.specs.Program.{relocation_at, relocation as relocation_of, is_within, IsLoad, IsOfZero, reference as reference_of};
ghost use Rattle.bpf_object.specs.Bytes.{word as word_at};

use crate::bytes;
use crate::reference::MapReference;
use crate::symbol::Symbol;

/// A relocation without an addend.
#[derive(Clone, Copy, Drop)]
pub(crate) struct Relocation {
    /// The place in the section whose bytes it changes.
    pub(crate) offset: u64,
    /// Its type.
    pub(crate) kind: u32,
    /// The number of its symbol.
    pub(crate) symbol: u32,
}

/// The size of a relocation.
pub(crate) const ROW_BYTES: usize = 16;

/// The type of relocations that give a wide load its number: R_BPF_64_64.
pub(crate) const ADDRESS: u32 = 1;

/// The opcode of a wide load, and its length in bytes.
const WIDE_LOAD: u8 = 0x18;

const LOAD_BYTES: usize = 16;

#[tactic(auto, unfolding(crate::specs::Program::relocation_at))]
fn read(rows: &[u8], at: usize) -> Relocation
    requires { at + 16 ≤ length rows.now }
    ensures { result ≡ relocation_at rows.now at }
{
    Relocation {
        offset: bytes::long(rows, at),
        kind: bytes::word(rows, at + 8),
        symbol: bytes::word(rows, at + 12),
    }
}

/// The number of relocations.
pub(crate) fn count(rows: &[u8]) -> usize
    ensures { result ≡ length rows.now / 16 }
{
    rows.len() / ROW_BYTES
}

/// A relocation.
pub(crate) fn at(rows: &[u8], number: usize) -> Relocation
    requires { number < length rows.now / 16 }
    ensures { result ≡ relocation_of rows.now number }
{
    read(rows, ROW_BYTES * number)
}

impl Relocation {
    /// Returns whether it changes one of a function's bytes.
    pub(crate) fn is_within(&self, function: Symbol) -> bool
        requires { function.value + function.size < 2 ^ 64 }
        ensures { result ≡ is_within function self.now }
    {
        function.value <= self.offset && self.offset < function.value + function.size
    }

    /// Returns whether it changes a wide load of a number.
    pub(crate) fn is_load(&self, function: Symbol, code: &[u8]) -> bool
        requires within { function.value ≤ self.now.offset }
        requires len { length code.now ≡ function.size }
        ensures { IsTrue result ↔ IsLoad function code.now self.now }
    {
        let start = (self.offset - function.value) as usize;
        start % 8 == 0
            && code.len() >= LOAD_BYTES
            && start <= code.len() - LOAD_BYTES
            && code[start] == WIDE_LOAD
            && code[start + 1] / 16 == 0
    }

    /// Returns whether the number of its wide load is 0.
    pub(crate) fn is_of_zero(&self, function: Symbol, code: &[u8]) -> bool
        requires within { function.value ≤ self.now.offset }
        requires len { length code.now ≡ function.size }
        requires load { IsLoad function code.now self.now }
        ensures { IsTrue result ↔ IsOfZero function code.now self.now }
    {
        let start = (self.offset - function.value) as usize;
        bytes::word(code, start + 4) == 0 && bytes::word(code, start + 12) == 0
    }

    /// The imm of its wide load.
    pub(crate) fn imm(&self, function: Symbol, code: &[u8]) -> u32
        requires within { function.value ≤ self.now.offset }
        requires len { length code.now ≡ function.size }
        requires load { IsLoad function code.now self.now }
        ensures { result ≡ word_at code.now (self.now.offset - function.value + 4) }
    {
        let start = (self.offset - function.value) as usize;
        bytes::word(code, start + 4)
    }

    /// The slot of its wide load.
    pub(crate) fn slot(&self, function: Symbol) -> usize
        requires { function.value ≤ self.now.offset }
        ensures { result ≡ (self.now.offset - function.value) / 8 }
    {
        (self.offset - function.value) as usize / 8
    }

    /// The slot that it changes, and its symbol.
    pub(crate) fn reference(&self, function: Symbol) -> MapReference
        requires { function.value ≤ self.now.offset }
        ensures { result ≡ reference_of function self.now }
    {
        MapReference {
            slot: self.slot(function),
            map: self.symbol as usize,
        }
    }
}
