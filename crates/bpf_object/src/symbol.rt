//! Symbols: functions, maps, constants and globals.
ghost use Rattle.std.specs.Prelude.{◌≡◌, ◌+◌, ◌<◌, ◌≤◌, ◌^◌, ℕ, length, ◌↔◌, IsTrue, IfSome, IfNone};
ghost use Rattle.bpf_object.specs.Bytes.{IsText, Begins};
ghost use Rattle.bpf_object.specs.Symbol.{symbol_at, symbol as symbol_of, symbol_count, IsFunction, IsMap, IsMapSection, IsCalled, IsOfConstants, IsOfGlobals, IsConstant, IsGlobal, HasCode, code as code_of};
ghost use Rattle.bpf_object.specs.Section.{shnum};

use crate::object::Object;
use crate::{bytes, section};

/// A symbol, without what isn't used.
#[derive(Clone, Copy, Drop)]
pub(crate) struct Symbol {
    /// The place of its name in the table of names.
    pub(crate) name: u32,
    /// Its binding.
    pub(crate) binding: u8,
    /// Its type.
    pub(crate) kind: u8,
    /// The section that it lies in.
    pub(crate) section: u16,
    /// The place in the section at which it begins.
    pub(crate) value: u64,
    /// Its length in bytes.
    pub(crate) size: u64,
}

/// The size of a symbol.
const SYMBOL_BYTES: usize = 24;

/// The types of symbols that are variables and functions.
pub(crate) const OBJECT: u8 = 1;

const FUNCTION: u8 = 2;

/// The type of sections that hold code.
const PROGRAM_BITS: u32 = 1;

/// The section of maps.
const MAPS: &[u8] = b".maps";

/// The sections of constants, and of globals: a name, and how longer names begin.
const CONSTANTS: &[u8] = b".rodata";

const MORE_CONSTANTS: &[u8] = b".rodata.";

const DATA: &[u8] = b".data";

const MORE_DATA: &[u8] = b".data.";

const ZEROS: &[u8] = b".bss";

const MORE_ZEROS: &[u8] = b".bss.";

#[tactic(auto, unfolding(crate::specs::Symbol::symbol_at))]
fn read(table: &[u8], at: usize) -> Symbol
    requires { at + 24 ≤ length table.now }
    ensures { result ≡ symbol_at table.now at }
{
    Symbol {
        name: bytes::word(table, at),
        binding: table[at + 4] / 16,
        kind: table[at + 4] % 16,
        section: bytes::half(table, at + 6),
        value: bytes::long(table, at + 8),
        size: bytes::long(table, at + 16),
    }
}

impl<'a> Object<'a> {
    /// The number of symbols.
    pub(crate) fn symbol_count(&self) -> usize
        ensures value { result ≡ symbol_count self.now }
        ensures small { result < 2 ^ 60 }
    {
        self.symbols.len() / SYMBOL_BYTES
    }

    /// The symbol of a number.
    pub(crate) fn symbol(&self, number: usize) -> Symbol
        requires { number < symbol_count self.now }
        ensures { result ≡ symbol_of self.now.symbols number }
    {
        read(self.symbols, SYMBOL_BYTES * number)
    }

    /// Returns whether a symbol is a function of this name.
    fn is_function(&self, name: &[u8], number: usize) -> bool
        requires { number < symbol_count self.now }
        ensures { IsTrue result ↔ IsFunction self.now name.now number }
    {
        let symbol = self.symbol(number);
        symbol.kind == FUNCTION && bytes::is_text(self.strings, symbol.name as usize, name)
    }

    /// The first function of this name from a symbol on.
    pub(crate) fn next_function(&self, name: &[u8], from: usize) -> Option<usize>
        ensures some { IfSome result (λ n. IsFunction self.now name.now n) }
        ensures from { IfSome result (λ n. from ≤ n) }
        ensures below { IfSome result (λ n. n < 2 ^ 60) }
        ensures before { IfSome result (λ n. (m : ℕ) → from ≤ m → m < n → IsFunction self.now name.now m → ⊥) }
        ensures none { IfNone result ((m : ℕ) → from ≤ m → IsFunction self.now name.now m → ⊥) }
    {
        for number in from..self.symbol_count() {
            if self.is_function(name, number) {
                return Some(number);
            }
        }
        None
    }

    /// Returns whether a section is that of maps.
    fn is_map_section(&self, number: u16) -> bool
        ensures { IsTrue result ↔ IsMapSection self.now number }
    {
        number < section::count(self.bytes)
            && bytes::is_text(
                self.names,
                section::at(self.bytes, number).name as usize,
                MAPS,
            )
    }

    /// Returns whether a symbol is a map.
    pub fn is_map(&self, number: usize) -> bool
        ensures { IsTrue result ↔ IsMap self.now number }
    {
        if number >= self.symbol_count() {
            return false;
        }
        let symbol = self.symbol(number);
        symbol.kind == OBJECT && self.is_map_section(symbol.section)
    }

    /// Returns whether a section has this name, or one that begins so.
    fn is_called(&self, number: u16, name: &[u8], beginning: &[u8]) -> bool
        ensures { IsTrue result ↔ IsCalled self.now number name.now beginning.now }
    {
        if number >= section::count(self.bytes) {
            return false;
        }
        let at = section::at(self.bytes, number).name as usize;
        bytes::is_text(self.names, at, name) || bytes::begins(self.names, at, beginning)
    }

    /// Returns whether a section has constants.
    pub(crate) fn is_of_constants(&self, number: u16) -> bool
        ensures { IsTrue result ↔ IsOfConstants self.now number }
    {
        self.is_called(number, CONSTANTS, MORE_CONSTANTS)
            && section::at(self.bytes, number).kind == PROGRAM_BITS
    }

    /// Returns whether a section has globals.
    fn is_of_globals(&self, number: u16) -> bool
        ensures { IsTrue result ↔ IsOfGlobals self.now number }
    {
        self.is_called(number, DATA, MORE_DATA) || self.is_called(number, ZEROS, MORE_ZEROS)
    }

    /// Returns whether a symbol lies among constants.
    pub(crate) fn is_constant(&self, number: usize) -> bool
        ensures { IsTrue result ↔ IsConstant self.now number }
    {
        number < self.symbol_count() && self.is_of_constants(self.symbol(number).section)
    }

    /// Returns whether a symbol lies among globals.
    pub(crate) fn is_global(&self, number: usize) -> bool
        ensures { IsTrue result ↔ IsGlobal self.now number }
    {
        number < self.symbol_count() && self.is_of_globals(self.symbol(number).section)
    }

    /// The first map from a symbol on.
    pub fn next_map(&self, from: usize) -> Option<usize>
        ensures some { IfSome result (λ n. IsMap self.now n) }
        ensures from { IfSome result (λ n. from ≤ n) }
        ensures below { IfSome result (λ n. n < 2 ^ 60) }
        ensures before { IfSome result (λ n. (m : ℕ) → from ≤ m → m < n → IsMap self.now m → ⊥) }
        ensures none { IfNone result ((m : ℕ) → from ≤ m → IsMap self.now m → ⊥) }
    {
        for number in from..self.symbol_count() {
            if self.is_map(number) {
                return Some(number);
            }
        }
        None
    }

    /// Returns whether a symbol's bytes are whole slots of a section that holds code.
    pub(crate) fn has_code(&self, symbol: Symbol) -> bool
        ensures { IsTrue result ↔ HasCode self.now symbol }
    {
        if symbol.section == 0 || symbol.section >= section::count(self.bytes) {
            return false;
        }
        let section = section::at(self.bytes, symbol.section);
        section.kind == PROGRAM_BITS
            && symbol.value % 8 == 0
            && symbol.size % 8 == 0
            && symbol.size > 0
            && symbol.size <= section.size
            && symbol.value <= section.size - symbol.size
    }

    /// A symbol's bytes.
    pub(crate) fn code(&self, symbol: Symbol) -> &'a [u8]
        requires { HasCode self.now symbol }
        ensures code { result.now ≡ code_of self.now symbol }
        ensures len { length result.now ≡ symbol.size }
        ensures end { symbol.value + symbol.size < 2 ^ 64 }
    {
        let section = section::at(self.bytes, symbol.section);
        let start = symbol.value as usize;
        &section.contents(self.bytes)[start..start + symbol.size as usize]
    }
}
