//! What a map's struct in C defines, by its type.
ghost use Rattle.std.specs.Prelude.{◌≡◌, ◌+◌, ◌*◌, ◌<◌, ◌≤◌, ℕ, length, ◌↔◌, IsTrue, OnOk, OnSome, IfOk, IfErr, IfSome, IfNone};
ghost use Rattle.bpf_object.specs.Types.{row as row_of};
ghost use Rattle.bpf_object.specs.Definition.{element, elements, size as size_of, member_type, IsMember, field_name, IsField, number_of_array, number as number_of, pointed_size, meaning, HasField, or_zero, array_size, size_field, AreSize, AreApart, IsNumber, IsSize, IsDefinition, IsNoDefinition};

use crate::bytes;
use crate::fault::{FieldFault, MapFault};
use crate::types::{self, ARRAY, POINTER, TypeRow, Types};

/// The definition of a map: its type, as Linux numbers them, how many entries it has, and the sizes of keys and values. A number
/// that isn't said is 0.
#[derive(Clone, Copy, Debug, PartialEq, Eq, Drop)]
pub struct MapDefinition {
    pub kind: u32,
    pub entries: u32,
    pub key_bytes: u32,
    pub value_bytes: u32,
}

/// The fields of a definition that are looked at.
#[derive(Clone, Copy, Debug, PartialEq, Eq, Drop)]
pub enum MapField {
    /// `type`
    Kind,
    /// `max_entries`
    Entries,
    /// `key_size`
    KeySize,
    /// `key`
    Key,
    /// `value_size`
    ValueSize,
    /// `value`
    Value,
}

/// The most names, qualifiers and arrays that may stand around a type.
pub(crate) const MOST_STEPS: u32 = 32;

/// The size of a pointer.
const POINTER_BYTES: u32 = 8;

impl MapField {
    /// Its name in C.
    fn name(self) -> &'static [u8]
        ensures { result.now ≡ field_name self }
    {
        match self {
            MapField::Kind => b"type",
            MapField::Entries => b"max_entries",
            MapField::KeySize => b"key_size",
            MapField::Key => b"key",
            MapField::ValueSize => b"value_size",
            MapField::Value => b"value",
        }
    }

    /// The field that says the size of its type by a number.
    fn size(self) -> MapField
        ensures { result ≡ size_field self }
    {
        match self {
            MapField::Key => MapField::KeySize,
            MapField::Value => MapField::ValueSize,
            field => field,
        }
    }
}

impl<'a> Types<'a> {
    /// The type of an array's elements, and how many there are.
    fn element(&self, array: TypeRow) -> u32
        requires { array.at + 24 ≤ length self.now.bytes }
        ensures { result ≡ element self.now array }
    {
        bytes::word(self.bytes, array.at + 12)
    }

    fn elements(&self, array: TypeRow) -> u32
        requires { array.at + 24 ≤ length self.now.bytes }
        ensures { result ≡ elements self.now array }
    {
        bytes::word(self.bytes, array.at + 20)
    }

    /// Returns the number of bytes that a type has, with fewer names, qualifiers and arrays around it than the limit.
    #[tactic(auto, using(crate::proofs::TypeLemmas::size_none, crate::proofs::TypeLemmas::size_missing, crate::proofs::TypeLemmas::array_inside))]
    fn size(&self, limit: u32, number: u32) -> Option<u32>
        ensures { result ≡ size_of self.now limit number }
    {
        if limit == 0 {
            return None;
        }
        let Some(row) = self.row(number as usize) else {
            return None;
        };
        if row.is_sized() {
            return Some(row.of);
        }
        if row.kind == POINTER {
            return Some(POINTER_BYTES);
        }
        if row.kind == ARRAY {
            return array_size(self.elements(row), self.size(limit - 1, self.element(row)));
        }
        if row.is_alias() {
            return self.size(limit - 1, row.of);
        }
        None
    }

    /// Returns whether a struct's member has this name.
    fn is_member(&self, row: TypeRow, name: &[u8], number: u16) -> bool
        requires inside { row.at + 12 + 12 * row.count ≤ length self.now.bytes }
        requires below { number < row.count }
        ensures { IsTrue result ↔ IsMember self.now row name.now number }
    {
        let place = types::first_number(self.bytes, row, number) as usize;
        bytes::is_text(self.strings, place, name)
    }

    /// The first member of this name from a member on.
    fn next_member(&self, row: TypeRow, name: &[u8], from: u16) -> Option<u16>
        requires inside { row.at + 12 + 12 * row.count ≤ length self.now.bytes }
        ensures some { IfSome result (λ n. IsMember self.now row name.now n) }
        ensures from { IfSome result (λ n. from ≤ n) }
        ensures below { IfSome result (λ n. n < 65535) }
        ensures before { IfSome result (λ n. (m : ℕ) → from ≤ m → m < n → IsMember self.now row name.now m → ⊥) }
        ensures none { IfNone result ((m : ℕ) → from ≤ m → IsMember self.now row name.now m → ⊥) }
    {
        for number in from..row.count {
            if self.is_member(row, name, number) {
                return Some(number);
            }
        }
        None
    }

    /// The type of a struct's one member of a field's name.
    fn field_type(&self, row: TypeRow, field: MapField) -> Result<Option<u32>, MapFault>
        requires inside { row.at + 12 + 12 * row.count ≤ length self.now.bytes }
        ensures ok { IfOk result (IsField self.now row (field_name field)) }
        ensures err { IfErr result (IsNoDefinition self.now row) }
    {
        let name = field.name();
        let Some(first) = self.next_member(row, name, 0) else {
            return Ok(None);
        };
        if let Some(_second) = self.next_member(row, name, first + 1) {
            return Err(MapFault::Field(field, FieldFault::Twice));
        }
        Ok(Some(types::second_number(self.bytes, row, first)))
    }

    /// The number of elements of an array.
    #[tactic(auto, using(crate::proofs::TypeLemmas::array_inside))]
    fn number_of_array(&self, number: u32) -> Option<u32>
        ensures { result ≡ number_of_array self.now (row_of self.now number) }
    {
        match self.row(number as usize) {
            Some(row) if row.kind == ARRAY => Some(self.elements(row)),
            _ => None,
        }
    }

    /// The number that a type hides: how many elements the array has that it points to.
    fn number(&self, number: u32) -> Option<u32>
        ensures { result ≡ number_of self.now number }
    {
        match self.plain(MOST_STEPS, number) {
            Some(row) if row.kind == POINTER => self.number_of_array(row.of),
            _ => None,
        }
    }

    /// The size of the type that a type points to.
    fn pointed_size(&self, number: u32) -> Option<u32>
        ensures { result ≡ pointed_size self.now number }
    {
        match self.plain(MOST_STEPS, number) {
            Some(row) if row.kind == POINTER => self.size(MOST_STEPS, row.of),
            _ => None,
        }
    }

    /// Returns what the type of a field means.
    fn meaning(&self, field: MapField, number: u32) -> Option<u32>
        ensures { result ≡ meaning self.now field number }
    {
        match field {
            MapField::Key | MapField::Value => self.pointed_size(number),
            _ => self.number(number),
        }
    }

    /// A field's number or size.
    fn field(&self, row: TypeRow, field: MapField) -> Result<Option<u32>, MapFault>
        requires inside { row.at + 12 + 12 * row.count ≤ length self.now.bytes }
        ensures ok { IfOk result (HasField self.now row field) }
        ensures err { IfErr result (IsNoDefinition self.now row) }
    {
        let Some(number) = self.field_type(row, field)? else {
            return Ok(None);
        };
        match self.meaning(field, number) {
            None => Err(MapFault::Field(field, FieldFault::Kind)),
            Some(value) => Ok(Some(value)),
        }
    }

    /// A field's number, or 0.
    fn number_field(&self, row: TypeRow, field: MapField) -> Result<u32, MapFault>
        requires inside { row.at + 12 + 12 * row.count ≤ length self.now.bytes }
        ensures ok { IfOk result (IsNumber self.now row field) }
        ensures err { IfErr result (IsNoDefinition self.now row) }
    {
        let said = self.field(row, field)?;
        Ok(or_zero(said))
    }

    /// The size of keys or of values, or 0.
    fn size_field(&self, row: TypeRow, field: MapField) -> Result<u32, MapFault>
        requires inside { row.at + 12 + 12 * row.count ≤ length self.now.bytes }
        ensures ok { IfOk result (IsSize self.now row field) }
        ensures err { IfErr result (IsNoDefinition self.now row) }
    {
        let said = self.field(row, field.size())?;
        let behind = self.field(row, field)?;
        match agreed(said, behind) {
            Some(size) => Ok(size),
            None => Err(MapFault::Sizes(field)),
        }
    }

    /// Returns what a struct defines.
    pub(crate) fn definition(&self, row: TypeRow) -> Result<MapDefinition, MapFault>
        requires inside { row.at + 12 + 12 * row.count ≤ length self.now.bytes }
        ensures ok { IfOk result (IsDefinition self.now row) }
        ensures err { IfErr result (IsNoDefinition self.now row) }
    {
        let kind = self.number_field(row, MapField::Kind)?;
        if kind == 0 {
            return Err(MapFault::NoKind);
        }
        let entries = self.number_field(row, MapField::Entries)?;
        let key_bytes = self.size_field(row, MapField::Key)?;
        let value_bytes = self.size_field(row, MapField::Value)?;
        Ok(MapDefinition {
            kind,
            entries,
            key_bytes,
            value_bytes,
        })
    }
}

/// A number, or 0.
fn or_zero(number: Option<u32>) -> u32
    ensures { result ≡ or_zero number }
{
    match number {
        None => 0,
        Some(number) => number,
    }
}

/// The size of an array of some elements of a size, if it has 32 bits.
fn array_size(count: u32, size: Option<u32>) -> Option<u32>
    ensures { result ≡ array_size count size }
{
    match size {
        None => None,
        Some(size) => size.checked_mul(count),
    }
}

/// The size that is said in two ways, if they agree.
fn agreed(said: Option<u32>, behind: Option<u32>) -> Option<u32>
    ensures some { IfSome result (AreSize said behind) }
    ensures none { IfNone result (AreApart said behind) }
{
    match (said, behind) {
        (Some(size), Some(other)) if size != other => None,
        (None, None) => Some(0),
        (Some(size), _) | (None, Some(size)) => Some(size),
    }
}
