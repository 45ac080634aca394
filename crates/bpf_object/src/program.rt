//! A function of an object, and the maps and constants that it refers to.
ghost use Rattle.std.specs.Prelude.{◌≡◌, ◌+◌, ◌*◌, ◌/◌, ◌^◌, ◌<◌, ◌≤◌, ℕ, All, length, ◌↔◌, IsTrue, OnOk, IfOk, IfErr, IfSome, IfNone};
ghost use Rattle.bpf_object.specs.Section.{section as section_of, shnum, contents as contents_of};
ghost use Rattle.bpf_object.specs.Symbol.{symbol as symbol_of, symbol_count, IsConstant, IsFunction, HasCode, code as code_of};
ghost use Rattle.bpf_object.specs.Program.{AppliesTo, IsTable, AreRows, AreInOrder, AreReferences, IsInsideSection, IsLoad, IsWrong, IsWrongSymbol, constant_place};
ghost use Rattle.bpf_object.specs.References.{IsTarget};
ghost use Rattle.bpf_object.specs.Program.{IsOneFunction, IsProgram, IsNoProgram, IsNotFound, HasNoTable, IsLow, HasNoReferences};

use crate::fault::{ProgramFault, RelocationFault};
use crate::object::Object;
use crate::reference::{ConstantReference, MapReference, References, Target};
use crate::relocation::{self, Relocation};
use crate::section;
use crate::symbol::Symbol;
use std::alloc::Global;

/// A function's instructions, and the maps and constants that it refers to, by rising slots.
#[derive(Drop)]
pub struct ObjectProgram<'a> {
    /// The bytes of its instructions: 8 bytes per slot.
    pub code: &'a [u8],
    /// The maps.
    pub maps: Vec<MapReference>,
    /// The constants.
    pub constants: Vec<ConstantReference>,
}

/// The types of sections that are relocations, without addends and with them.
const RELOCATIONS: u32 = 9;

const RELOCATIONS_WITH_ADDENDS: u32 = 4;

/// Refuses relocations that aren't in rising order.
fn check_order(rows: &[u8]) -> Result<(), ProgramFault>
    ensures ok { OnOk result (AreInOrder rows.now) }
    ensures err { IfErr result (IsLow rows.now) }
{
    for row in 1..relocation::count(rows) {
        if relocation::at(rows, row).offset <= relocation::at(rows, row - 1).offset {
            return Err(ProgramFault::Order(row));
        }
    }
    Ok(())
}

impl<'a> Object<'a> {
    /// The one function of this name.
    #[tactic(auto, using(crate::proofs::OneLemmas::only, crate::proofs::OneLemmas::only_below))]
    fn function(&self, name: &[u8]) -> Result<usize, ProgramFault>
        ensures ok { IfOk result (IsOneFunction self.now name.now) }
        ensures err { IfErr result (IsNotFound self.now name.now) }
    {
        let Some(first) = self.next_function(name, 0) else {
            return Err(ProgramFault::NoFunction);
        };
        match self.next_function(name, first + 1) {
            Some(second) => Err(ProgramFault::TwoFunctions(first, second)),
            None => Ok(first),
        }
    }

    /// Returns whether a section is relocations of another.
    fn applies_to(&self, target: u16, number: u16) -> bool
        requires { number < shnum self.now.bytes }
        ensures { IsTrue result ↔ AppliesTo self.now target number }
    {
        let section = section::at(self.bytes, number);
        (section.kind == RELOCATIONS || section.kind == RELOCATIONS_WITH_ADDENDS)
            && section.info == u32::from(target)
    }

    /// The first relocations of a section from a section on.
    pub(crate) fn next_table(&self, target: u16, from: u16) -> Option<u16>
        ensures some { IfSome result (AppliesTo self.now target) }
        ensures from { IfSome result (λ r. from ≤ r) }
        ensures below { IfSome result (λ r. r < 65535) }
        ensures none { IfNone result ((q : ℕ) → from ≤ q → AppliesTo self.now target q → ⊥) }
        ensures before { IfSome result (λ r. (q : ℕ) → from ≤ q → q < r → AppliesTo self.now target q → ⊥) }
    {
        for number in from..section::count(self.bytes) {
            if self.applies_to(target, number) {
                return Some(number);
            }
        }
        None
    }

    /// Returns whether a section is whole relocations without addends.
    fn is_table(&self, number: u16) -> bool
        requires { number < shnum self.now.bytes }
        ensures { IsTrue result ↔ IsTable self.now number }
    {
        let section = section::at(self.bytes, number);
        section.kind == RELOCATIONS
            && section.entry == relocation::ROW_BYTES as u64
            && section.size % relocation::ROW_BYTES as u64 == 0
            && section.link == u32::from(self.table)
    }

    /// The bytes of a section.
    pub(crate) fn contents(&self, number: u16) -> &'a [u8]
        requires { number < shnum self.now.bytes }
        ensures { result.now ≡ contents_of self.now.bytes (section_of self.now.bytes number) }
    {
        section::at(self.bytes, number).contents(self.bytes)
    }

    /// The relocations of a section.
    #[tactic(auto, using(crate::proofs::OneLemmas::only, crate::proofs::OneLemmas::only_below))]
    fn rows(&self, target: u16) -> Result<&'a [u8], ProgramFault>
        ensures ok { IfOk result (λ rows. AreRows self.now target rows.now) }
        ensures err { IfErr result (HasNoTable self.now target) }
    {
        let Some(first) = self.next_table(target, 0) else {
            return Ok(&[]);
        };
        if let Some(second) = self.next_table(target, first + 1) {
            return Err(ProgramFault::TwoTables(first, second));
        }
        if !self.is_table(first) {
            return Err(ProgramFault::Table(first));
        }
        Ok(self.contents(first))
    }

    /// Returns where the constant of a relocation lies in its section.
    fn constant_place(&self, function: Symbol, code: &[u8], relocation: Relocation) -> u32
        requires within { function.value ≤ relocation.offset }
        requires code { code.now ≡ code_of self.now function }
        requires len { length code.now ≡ function.size }
        requires load { IsLoad function code.now relocation }
        requires constant { IsConstant self.now relocation.symbol }
        ensures { result ≡ constant_place self.now function relocation }
    {
        let start = (self.symbol(relocation.symbol as usize).value % 4_294_967_296) as u32;
        relocation.imm(function, code).wrapping_add(start)
    }

    /// Returns what the wide load of a constant's relocation refers to.
    fn constant(
        &self,
        function: Symbol,
        code: &[u8],
        relocation: Relocation,
    ) -> Result<Target, RelocationFault>
        requires within { function.value ≤ relocation.offset }
        requires code { code.now ≡ code_of self.now function }
        requires len { length code.now ≡ function.size }
        requires kind { relocation.kind ≡ 1 }
        requires load { IsLoad function code.now relocation }
        requires constant { IsConstant self.now relocation.symbol }
        ensures ok { IfOk result (IsTarget self.now function relocation) }
        ensures err { IfErr result (IsWrongSymbol self.now function relocation) }
    {
        let section = self.symbol(relocation.symbol as usize).section;
        let place = self.constant_place(function, code, relocation);
        if u64::from(place) >= section::at(self.bytes, section).size {
            return Err(RelocationFault::Outside);
        }
        Ok(Target::Constant(ConstantReference {
            slot: relocation.slot(function),
            section,
            place,
        }))
    }

    /// Returns what the wide load of a relocation refers to.
    fn target_of_load(
        &self,
        function: Symbol,
        code: &[u8],
        relocation: Relocation,
    ) -> Result<Target, RelocationFault>
        requires within { function.value ≤ relocation.offset }
        requires code { code.now ≡ code_of self.now function }
        requires len { length code.now ≡ function.size }
        requires kind { relocation.kind ≡ 1 }
        requires load { IsLoad function code.now relocation }
        ensures ok { IfOk result (IsTarget self.now function relocation) }
        ensures err { IfErr result (IsWrongSymbol self.now function relocation) }
    {
        let symbol = relocation.symbol as usize;
        if self.is_map(symbol) {
            return if relocation.is_of_zero(function, code) {
                Ok(Target::Map(relocation.reference(function)))
            } else {
                Err(RelocationFault::InsideMap)
            };
        }
        if self.is_constant(symbol) {
            return self.constant(function, code, relocation);
        }
        if self.is_global(symbol) {
            return Err(RelocationFault::Global);
        }
        Err(RelocationFault::Other)
    }

    /// Returns what a relocation refers to.
    fn target(
        &self,
        function: Symbol,
        code: &[u8],
        relocation: Relocation,
    ) -> Result<Target, RelocationFault>
        requires within { function.value ≤ relocation.offset }
        requires code { code.now ≡ code_of self.now function }
        requires len { length code.now ≡ function.size }
        ensures ok { IfOk result (IsTarget self.now function relocation) }
        ensures err { IfErr result (IsWrong self.now function relocation) }
    {
        if relocation.kind != relocation::ADDRESS {
            return Err(RelocationFault::Kind);
        }
        if !relocation.is_load(function, code) {
            return Err(RelocationFault::Place);
        }
        self.target_of_load(function, code, relocation)
    }

    /// Returns what a function refers to.
    fn references(
        &self,
        alloc: Global,
        function: Symbol,
        code: &[u8],
        rows: &[u8],
    ) -> Result<References, ProgramFault>
        requires has { HasCode self.now function }
        requires code { code.now ≡ code_of self.now function }
        requires len { length code.now ≡ function.size }
        requires end { function.value + function.size < 2 ^ 64 }
        ensures ok { IfOk result (λ rs. AreReferences self.now function rows.now (length rows.now / 16) rs.maps.items rs.constants.items) }
        ensures maps { IfOk result (λ rs. All (λ r. 8 * r.slot + 16 ≤ length code.now) rs.maps.items) }
        ensures constants { IfOk result (λ rs. All (λ r. 8 * r.slot + 16 ≤ length code.now) rs.constants.items) }
        ensures err { IfErr result (HasNoReferences self.now function rows.now) }
    {
        let mut references = References::none(alloc);
        for row in 0..relocation::count(rows) {
            let relocation = relocation::at(rows, row);
            if !relocation.is_within(function) {
                continue;
            }
            match self.target(function, code, relocation) {
                Ok(target) => references.add(target)?,
                Err(cause) => return Err(ProgramFault::Relocation(row, cause)),
            }
        }
        Ok(references)
    }

    /// The program that the function of this name is. Its memory is at most three times the relocations' of its section.
    pub fn program(&self, alloc: Global, name: &[u8]) -> Result<ObjectProgram<'a>, ProgramFault>
        ensures ok { IfOk result (λ p. IsProgram self.now name.now p.code.now p.maps.items p.constants.items) }
        ensures maps { IfOk result (λ p. All (λ r. 8 * r.slot + 16 ≤ length p.code.now) p.maps.items) }
        ensures constants { IfOk result (λ p. All (λ r. 8 * r.slot + 16 ≤ length p.code.now) p.constants.items) }
        ensures refused { IfErr result (IsNoProgram self.now name.now) }
    {
        let number = self.function(name)?;
        let function = self.symbol(number);
        if !self.has_code(function) {
            return Err(ProgramFault::Code);
        }
        let code = self.code(function);
        let rows = self.rows(function.section)?;
        check_order(rows)?;
        let references = self.references(alloc, function, code, rows)?;
        Ok(ObjectProgram {
            code,
            maps: references.maps,
            constants: references.constants,
        })
    }
}
