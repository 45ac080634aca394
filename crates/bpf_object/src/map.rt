//! The maps of an object: which struct defines a symbol's map.
ghost use Rattle.std.specs.Prelude.{◌≡◌, ◌+◌, ◌*◌, ◌<◌, ◌≤◌, ◌^◌, ℕ, length, ◌↔◌, IsTrue, OnOk, IfOk, IfErr, IfSome, IfNone};
ghost use Rattle.bpf_object.specs.Map.{IsTypeSection, IsOneTypeSection, AreTypesOf, HasNoTypes, IsMaps, IsOneMaps, IsMapsRow, HasNoMaps, entry as entry_of, IsVariable, IsOneVariable, IsVariableType, HasNoVariable, IsVariableSymbol, IsOneVariableSymbol, IsNamedMap, HasNoName, IsStructOf, IsMapOf, IsNoMap};
ghost use Rattle.bpf_object.specs.Types.{row as row_of, row_bytes};
ghost use Rattle.bpf_object.specs.Section.{shnum};
ghost use Rattle.bpf_object.specs.Symbol.{symbol_count};

use crate::definition::{MOST_STEPS, MapDefinition};
use crate::fault::{MapFault, TypesFault};
use crate::object::Object;
use crate::sought::Sought;
use crate::symbol::OBJECT;
use crate::types::{ROW_BYTES, SECTION, STRUCT, TypeRow, Types, VARIABLE};
use crate::{bytes, section, types};
use std::alloc::Global;

/// The section of types.
const TYPES: &[u8] = b".BTF";

/// The section of maps, among the types.
const MAPS: &[u8] = b".maps";

/// The linkage of global variables.
const GLOBAL: u32 = 1;

/// The bindings of symbols that other files see.
const GLOBAL_BINDING: u8 = 1;

const WEAK_BINDING: u8 = 2;

impl<'a> Types<'a> {
    /// Returns whether a type is the section of maps.
    fn is_maps(&self, number: usize) -> bool
        ensures { IsTrue result ↔ IsMaps self.now number }
    {
        let Some(row) = self.row(number) else {
            return false;
        };
        row.kind == SECTION && bytes::is_text(self.strings, row.name as usize, MAPS)
    }

    /// The first section of maps from a type on.
    fn next_maps(&self, from: usize) -> Option<usize>
        ensures some { IfSome result (λ n. IsMaps self.now n) }
        ensures from { IfSome result (λ n. from ≤ n) }
        ensures below { IfSome result (λ n. n < 2 ^ 63) }
        ensures before { IfSome result (λ n. (m : ℕ) → from ≤ m → m < n → IsMaps self.now m → ⊥) }
        ensures none { IfNone result ((m : ℕ) → from ≤ m → IsMaps self.now m → ⊥) }
    {
        for number in from..self.places.len() + 1 {
            if self.is_maps(number) {
                return Some(number);
            }
        }
        None
    }

    /// The number of the one section of maps.
    fn one_maps(&self) -> Result<usize, MapFault>
        ensures ok { IfOk result (IsOneMaps self.now) }
        ensures err { IfErr result (HasNoMaps self.now) }
    {
        let Some(first) = self.next_maps(0) else {
            return Err(MapFault::NoSection);
        };
        match self.next_maps(first + 1) {
            Some(second) => Err(MapFault::TwoSections(first, second)),
            None => Ok(first),
        }
    }

    /// The one section of maps.
    #[tactic(auto, using(crate::proofs::TypeLemmas::section_inside))]
    fn maps(&self) -> Result<TypeRow, MapFault>
        ensures ok { IfOk result (λ r. IsMapsRow self.now r) }
        ensures inside { IfOk result (λ r. r.at + 12 + 12 * r.count ≤ length self.now.bytes) }
        ensures err { IfErr result (HasNoMaps self.now) }
    {
        let number = self.one_maps()?;
        match self.row(number) {
            Some(row) => Ok(row),
            None => Err(MapFault::NoSection),
        }
    }

    /// The type of a section's entry.
    fn entry(&self, row: TypeRow, number: u16) -> Option<TypeRow>
        requires inside { row.at + 12 + 12 * row.count ≤ length self.now.bytes }
        requires below { number < row.count }
        ensures value { result ≡ row_of self.now (entry_of self.now row number) }
        ensures whole { IfSome result (λ r. r.at + row_bytes r ≤ length self.now.bytes) }
    {
        self.row(types::first_number(self.bytes, row, number) as usize)
    }

    /// Returns whether a section's entry is a global variable of this name.
    #[tactic(auto, using(crate::proofs::TypeLemmas::variable_inside))]
    fn is_variable(&self, row: TypeRow, name: &[u8], number: u16) -> bool
        requires inside { row.at + 12 + 12 * row.count ≤ length self.now.bytes }
        requires below { number < row.count }
        ensures { IsTrue result ↔ IsVariable self.now row name.now number }
    {
        let Some(variable) = self.entry(row, number) else {
            return false;
        };
        variable.kind == VARIABLE
            && bytes::word(self.bytes, variable.at + ROW_BYTES) == GLOBAL
            && bytes::is_text(self.strings, variable.name as usize, name)
    }

    /// The first global variable of this name from an entry on.
    fn next_variable(&self, row: TypeRow, name: &[u8], from: u16) -> Option<u16>
        requires inside { row.at + 12 + 12 * row.count ≤ length self.now.bytes }
        ensures some { IfSome result (λ n. IsVariable self.now row name.now n) }
        ensures from { IfSome result (λ n. from ≤ n) }
        ensures below { IfSome result (λ n. n < row.count) }
        ensures before { IfSome result (λ n. (m : ℕ) → from ≤ m → m < n → IsVariable self.now row name.now m → ⊥) }
        ensures none { IfNone result ((m : ℕ) → from ≤ m → IsVariable self.now row name.now m → ⊥) }
    {
        for number in from..row.count {
            if self.is_variable(row, name, number) {
                return Some(number);
            }
        }
        None
    }

    /// The number of a section's one global variable of this name.
    fn one_variable(&self, row: TypeRow, name: &[u8]) -> Result<u16, MapFault>
        requires inside { row.at + 12 + 12 * row.count ≤ length self.now.bytes }
        ensures ok { IfOk result (IsOneVariable self.now row name.now) }
        ensures err { IfErr result (HasNoVariable self.now row name.now) }
    {
        let Some(first) = self.next_variable(row, name, 0) else {
            return Err(MapFault::NoVariable);
        };
        match self.next_variable(row, name, first + 1) {
            Some(second) => Err(MapFault::TwoVariables(first, second)),
            None => Ok(first),
        }
    }

    /// The type of a section's one global variable of this name.
    fn variable_type(&self, row: TypeRow, name: &[u8]) -> Result<u32, MapFault>
        requires inside { row.at + 12 + 12 * row.count ≤ length self.now.bytes }
        ensures ok { IfOk result (IsVariableType self.now row name.now) }
        ensures err { IfErr result (HasNoVariable self.now row name.now) }
    {
        let number = self.one_variable(row, name)?;
        match self.entry(row, number) {
            Some(variable) => Ok(variable.of),
            None => Err(MapFault::NoVariable),
        }
    }
}

impl<'a> Object<'a> {
    /// Returns whether a section is that of types.
    fn is_type_section(&self, number: u16) -> bool
        requires { number < shnum self.now.bytes }
        ensures { IsTrue result ↔ IsTypeSection self.now number }
    {
        let section = section::at(self.bytes, number);
        bytes::is_text(self.names, section.name as usize, TYPES)
    }

    /// The first section of types from a section on.
    fn next_type_section(&self, from: u16) -> Option<u16>
        ensures some { IfSome result (λ n. IsTypeSection self.now n) }
        ensures from { IfSome result (λ n. from ≤ n) }
        ensures below { IfSome result (λ n. n < 65535) }
        ensures before { IfSome result (λ n. (m : ℕ) → from ≤ m → m < n → IsTypeSection self.now m → ⊥) }
        ensures none { IfNone result ((m : ℕ) → from ≤ m → IsTypeSection self.now m → ⊥) }
    {
        for number in from..section::count(self.bytes) {
            if self.is_type_section(number) {
                return Some(number);
            }
        }
        None
    }

    /// The one section of types.
    #[tactic(auto, using(crate::proofs::OneLemmas::only, crate::proofs::OneLemmas::only_below))]
    fn type_section(&self) -> Result<u16, TypesFault>
        ensures ok { IfOk result (IsOneTypeSection self.now) }
        ensures err { IfErr result (HasNoTypes self.now) }
    {
        let Some(first) = self.next_type_section(0) else {
            return Err(TypesFault::NoSection);
        };
        match self.next_type_section(first + 1) {
            Some(second) => Err(TypesFault::TwoSections(first, second)),
            None => Ok(first),
        }
    }

    /// Reads the types that clang says of the object. Their memory is at most the bytes of the object.
    pub fn types(&self, alloc: Global) -> Result<Types<'a>, TypesFault>
        ensures ok { IfOk result (AreTypesOf self.now) }
        ensures refused { IfErr result (HasNoTypes self.now) }
    {
        let number = self.type_section()?;
        Types::parse(alloc, self.contents(number))
    }

    /// Returns whether a symbol is a global variable of the name that is sought.
    fn is_variable_symbol(&self, sought: &mut Sought, number: usize) -> bool
        requires table { sought.old.table ≡ self.now.strings }
        requires below { number < symbol_count self.now }
        ensures value { IsTrue result ↔ IsVariableSymbol self.now sought.old.name number }
        ensures kept { sought.new ≡ sought.old }
    {
        let symbol = self.symbol(number);
        symbol.kind == OBJECT
            && (symbol.binding == GLOBAL_BINDING || symbol.binding == WEAK_BINDING)
            && sought.is_at(symbol.name as usize)
    }

    /// The first global variable of the name that is sought, from a symbol on.
    fn next_variable_symbol(&self, sought: &mut Sought, from: usize) -> Option<usize>
        requires { sought.old.table ≡ self.now.strings }
        ensures kept { sought.new ≡ sought.old }
        ensures some { IfSome result (λ n. IsVariableSymbol self.now sought.old.name n) }
        ensures from { IfSome result (λ n. from ≤ n) }
        ensures below { IfSome result (λ n. n < 2 ^ 60) }
        ensures before { IfSome result (λ n. (m : ℕ) → from ≤ m → m < n → IsVariableSymbol self.now sought.old.name m → ⊥) }
        ensures none { IfNone result ((m : ℕ) → from ≤ m → IsVariableSymbol self.now sought.old.name m → ⊥) }
    {
        for number in from..self.symbol_count() {
            if self.is_variable_symbol(sought, number) {
                return Some(number);
            }
        }
        None
    }

    /// Returns whether a symbol is the one global variable of this name.
    fn is_one_variable_symbol(&self, alloc: Global, name: &'a [u8], number: usize) -> bool
        requires { number < symbol_count self.now }
        ensures { IsTrue result ↔ IsOneVariableSymbol self.now name.now number }
    {
        let mut sought = Sought::new(alloc, self.strings, name);
        let Some(first) = self.next_variable_symbol(&mut sought, 0) else {
            return false;
        };
        if first != number {
            return false;
        }
        match self.next_variable_symbol(&mut sought, first + 1) {
            Some(_second) => false,
            None => true,
        }
    }

    /// The name of a map's symbol. Its memory is at most the names of the symbols.
    pub fn map_name(&self, alloc: Global, number: usize) -> Result<&'a [u8], MapFault>
        ensures ok { IfOk result (λ name. IsNamedMap self.now number name.now) }
        ensures err { IfErr result (HasNoName self.now number) }
    {
        if !self.is_map(number) {
            return Err(MapFault::NoMap);
        }
        let Some(name) = bytes::text(self.strings, self.symbol(number).name as usize) else {
            return Err(MapFault::Name);
        };
        if !self.is_one_variable_symbol(alloc, name, number) {
            return Err(MapFault::Symbol);
        }
        Ok(name)
    }

    /// The struct that defines the map of a symbol of this name.
    #[tactic(auto, using(crate::proofs::TypeLemmas::struct_inside))]
    fn map_struct(&self, types: &Types, number: usize, name: &[u8]) -> Result<TypeRow, MapFault>
        requires { IsNamedMap self.now number name.now }
        ensures ok { IfOk result (IsStructOf self.now types.now number) }
        ensures inside { IfOk result (λ r. r.at + 12 + 12 * r.count ≤ length types.now.bytes) }
        ensures err { IfErr result (IsNoMap self.now types.now number) }
    {
        let section = types.maps()?;
        let declared = types.variable_type(section, name)?;
        let Some(row) = types.plain(MOST_STEPS, declared) else {
            return Err(MapFault::NoStruct);
        };
        if row.kind != STRUCT {
            return Err(MapFault::NoStruct);
        }
        Ok(row)
    }

    /// Returns what the map of a symbol is, whose name was found, by the object's types.
    pub fn named_map(
        &self,
        types: &Types,
        number: usize,
        name: &[u8],
    ) -> Result<MapDefinition, MapFault>
        requires { IsNamedMap self.now number name.now }
        ensures ok { IfOk result (IsMapOf self.now types.now number) }
        ensures refused { IfErr result (IsNoMap self.now types.now number) }
    {
        let row = self.map_struct(types, number, name)?;
        types.definition(row)
    }

    /// Returns what the map of a symbol is, by the object's types.
    pub fn map(
        &self,
        alloc: Global,
        types: &Types,
        number: usize,
    ) -> Result<MapDefinition, MapFault>
        ensures ok { IfOk result (IsMapOf self.now types.now number) }
        ensures refused { IfErr result (IsNoMap self.now types.now number) }
    {
        let name = self.map_name(alloc, number)?;
        self.named_map(types, number, name)
    }
}
