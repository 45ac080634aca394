//! Objects.
ghost use Rattle.std.specs.Prelude.{◌≡◌, ◌<◌, ◌≤◌, ℕ, length, ◌↔◌, IsTrue, OnOk, IfOk, IfErr, IfSome, IfNone};
ghost use Rattle.bpf_object.specs.Section.{section as section_of, shnum};
ghost use Rattle.bpf_object.specs.Header.{IsStringTable, shstrndx};
ghost use Rattle.bpf_object.specs.Object.{IsElf, AreInside, AreNamed, IsSymbolTable, IsOneSymbolTable, HasSymbols, IsObject, IsNoObject};

use crate::fault::ObjectFault;
use crate::section::Section;
use crate::{bytes, header, section};
use std::marker::Model;

/// The type of symbol tables.
const SYMBOL_TABLE: u32 = 2;

/// The size of a symbol.
const SYMBOL_BYTES: u64 = 24;

/// An object for BPF. Contracts see its bytes, which section its symbol table is, and the bytes of the tables.
#[derive(Drop)]
pub struct Object<'a> {
    pub(crate) bytes: &'a [u8],
    pub(crate) table: u16,
    pub(crate) names: &'a [u8],
    pub(crate) symbols: &'a [u8],
    pub(crate) strings: &'a [u8],
}

impl<'a> Model for Object<'a> {
    ghost use Rattle.bpf_object.specs.Object.{Parts, IsObject};

    ghost Value = { Parts };

    ghost view = { λ o. record { bytes = o.bytes.now; table = o.table; names = o.names.now; symbols = o.symbols.now; strings = o.strings.now } };

    ghost invariant = { λ o. IsObject (record { bytes = o.bytes.now; table = o.table; names = o.names.now; symbols = o.symbols.now; strings = o.strings.now }) };
}

/// Refuses the first section that doesn't lie in the file.
fn check_sections(bytes: &[u8]) -> Result<(), ObjectFault>
    requires { IsElf bytes.now }
    ensures ok { OnOk result (AreInside bytes.now) }
    ensures err { IfErr result (IsNoObject bytes.now) }
{
    for number in 0..section::count(bytes) {
        if !section::at(bytes, number).is_inside(bytes) {
            return Err(ObjectFault::Section(number));
        }
    }
    Ok(())
}

/// The section that has the names of sections.
fn names(bytes: &[u8]) -> Result<Section, ObjectFault>
    requires { AreInside bytes.now }
    ensures ok { IfOk result (λ s. s ≡ section_of bytes.now (shstrndx bytes.now)) }
    ensures named { OnOk result (AreNamed bytes.now) }
    ensures err { IfErr result (IsNoObject bytes.now) }
{
    let number = bytes::half(bytes, 62);
    if !header::is_string_table(bytes, u32::from(number)) {
        return Err(ObjectFault::SectionNames);
    }
    Ok(section::at(bytes, number))
}

/// The first symbol table from a section on.
fn next_symbol_table(bytes: &[u8], from: u16) -> Option<u16>
    requires { IsElf bytes.now }
    ensures some { IfSome result (λ t. IsSymbolTable bytes.now t) }
    ensures from { IfSome result (λ t. from ≤ t) }
    ensures below { IfSome result (λ t. t < 65535) }
    ensures before { IfSome result (λ t. (u : ℕ) → from ≤ u → u < t → IsSymbolTable bytes.now u → ⊥) }
    ensures none { IfNone result ((u : ℕ) → from ≤ u → IsSymbolTable bytes.now u → ⊥) }
{
    for number in from..section::count(bytes) {
        if section::at(bytes, number).kind == SYMBOL_TABLE {
            return Some(number);
        }
    }
    None
}

/// The one symbol table.
#[tactic(auto, using(crate::proofs::OneLemmas::only, crate::proofs::OneLemmas::only_below))]
fn symbol_table(bytes: &[u8]) -> Result<u16, ObjectFault>
    requires { AreNamed bytes.now }
    ensures ok { IfOk result (IsOneSymbolTable bytes.now) }
    ensures err { IfErr result (IsNoObject bytes.now) }
{
    let Some(first) = next_symbol_table(bytes, 0) else {
        return Err(ObjectFault::NoSymbols);
    };
    match next_symbol_table(bytes, first + 1) {
        Some(second) => Err(ObjectFault::TwoSymbolTables(first, second)),
        None => Ok(first),
    }
}

/// Returns whether a section is whole symbols and has a string table.
fn has_symbols(bytes: &[u8], number: u16) -> bool
    requires elf { IsElf bytes.now }
    requires below { number < shnum bytes.now }
    ensures value { IsTrue result ↔ HasSymbols bytes.now number }
    ensures small { IsTrue result → (section_of bytes.now number).link < 65536 }
{
    let table = section::at(bytes, number);
    table.entry == SYMBOL_BYTES
        && table.size % SYMBOL_BYTES == 0
        && header::is_string_table(bytes, table.link)
}

impl<'a> Object<'a> {
    /// Reads an object from its bytes.
    pub fn parse(bytes: &'a [u8]) -> Result<Object<'a>, ObjectFault>
        ensures bytes { IfOk result (λ o. o.bytes ≡ bytes.now) }
        ensures object { IfOk result (λ o. IsObject o) }
        ensures refused { IfErr result (IsNoObject bytes.now) }
    {
        header::check(bytes)?;
        check_sections(bytes)?;
        let names = names(bytes)?;
        let number = symbol_table(bytes)?;
        if !has_symbols(bytes, number) {
            return Err(ObjectFault::Symbols);
        }
        let table = section::at(bytes, number);
        let strings = section::at(bytes, table.link as u16);
        Ok(Object {
            bytes,
            table: number,
            names: names.contents(bytes),
            symbols: table.contents(bytes),
            strings: strings.contents(bytes),
        })
    }
}
