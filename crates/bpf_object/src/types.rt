//! Types, as BTF has them: a table of rows, numbered from 1 on.
ghost use Rattle.std.specs.Prelude.{◌≡◌, ◌+◌, ◌*◌, ◌^◌, ◌<◌, ◌≤◌, ℕ, [], ◌∷◌, ◌++◌, length, map, ◌↔◌, IsTrue, OnOk, OnSome, IfOk, IfErr, IfSome, IfNone};
ghost use Rattle.std.specs.List.{range_with_len};
ghost use Rattle.bpf_object.specs.Bytes.{word as word_at};
ghost use Rattle.bpf_object.specs.Types.{HasTypes, type_part, string_part, types_start, strings_start, row_at, fixed_bytes, each_bytes, row_bytes, IsWhole, AreFirst, AreTypes, IsTable, IsNoTable, IsNoTypes};
ghost use Rattle.bpf_object.specs.Types.{row as row_of, is_sized, is_alias, plain as plain_of};

use crate::bytes;
use crate::fault::TypesFault;
use std::alloc::{AllocError, Global};
use std::marker::Model;

/// A type, without what isn't used.
#[derive(Clone, Copy, Drop)]
pub(crate) struct TypeRow {
    /// The place at which it begins.
    pub(crate) at: usize,
    /// The place of its name in the table of names.
    pub(crate) name: u32,
    /// Its kind.
    pub(crate) kind: u8,
    /// The number of its members.
    pub(crate) count: u16,
    /// Its size, or the number of another type.
    pub(crate) of: u32,
}

/// Kinds of types.
const INT: u8 = 1;

pub(crate) const POINTER: u8 = 2;

pub(crate) const ARRAY: u8 = 3;

pub(crate) const STRUCT: u8 = 4;

const UNION: u8 = 5;

const ENUM: u8 = 6;

const TYPEDEF: u8 = 8;

const VOLATILE: u8 = 9;

const CONST: u8 = 10;

const RESTRICT: u8 = 11;

const FUNCTION_TYPE: u8 = 13;

pub(crate) const VARIABLE: u8 = 14;

pub(crate) const SECTION: u8 = 15;

const FLOAT: u8 = 16;

const TAG: u8 = 17;

const TYPE_TAG: u8 = 18;

const ENUM_64: u8 = 19;

/// The size of the header, and of what each type begins with.
const HEADER_BYTES: usize = 24;

pub(crate) const ROW_BYTES: usize = 12;

/// The size of a member.
const MEMBER_BYTES: usize = 12;

/// The first bytes of a header, and the one version.
const MAGIC: u16 = 0xeb9f;

const VERSION: u8 = 1;

/// Returns where the types and the strings begin.
fn types_start(bytes: &[u8]) -> usize
    requires { 24 ≤ length bytes.now }
    ensures value { result ≡ types_start bytes.now }
    ensures small { result < 2 ^ 33 }
{
    bytes::word(bytes, 4) as usize + bytes::word(bytes, 8) as usize
}

fn strings_start(bytes: &[u8]) -> usize
    requires { 24 ≤ length bytes.now }
    ensures value { result ≡ strings_start bytes.now }
    ensures small { result < 2 ^ 33 }
{
    bytes::word(bytes, 4) as usize + bytes::word(bytes, 16) as usize
}

/// Returns whether a section begins with a header by which its parts lie in it.
pub(crate) fn has_types(bytes: &[u8]) -> bool
    ensures { IsTrue result ↔ HasTypes bytes.now }
{
    bytes.len() >= HEADER_BYTES
        && bytes::half(bytes, 0) == MAGIC
        && bytes[2] == VERSION
        && types_start(bytes) + bytes::word(bytes, 12) as usize <= bytes.len()
        && strings_start(bytes) + bytes::word(bytes, 20) as usize <= bytes.len()
}

/// The bytes of the types and of the strings.
fn type_part(bytes: &[u8]) -> &[u8]
    requires { HasTypes bytes.now }
    ensures { result.now ≡ type_part bytes.now }
{
    let start = types_start(bytes);
    &bytes[start..start + bytes::word(bytes, 12) as usize]
}

fn string_part(bytes: &[u8]) -> &[u8]
    requires { HasTypes bytes.now }
    ensures { result.now ≡ string_part bytes.now }
{
    let start = strings_start(bytes);
    &bytes[start..start + bytes::word(bytes, 20) as usize]
}

#[tactic(auto, unfolding(crate::specs::Types::row_at))]
fn read(bytes: &[u8], at: usize) -> TypeRow
    requires { at + 12 ≤ length bytes.now }
    ensures { result ≡ row_at bytes.now at }
{
    TypeRow {
        at,
        name: bytes::word(bytes, at),
        kind: bytes[at + 7] % 32,
        count: bytes::half(bytes, at + 4),
        of: bytes::word(bytes, at + 8),
    }
}

/// Returns the number of bytes that follow what each type begins with: by the kind, and for each member.
fn fixed_bytes(kind: u8) -> usize
    ensures value { result ≡ fixed_bytes kind }
    ensures few { result ≤ 12 }
{
    if kind == INT || kind == VARIABLE || kind == TAG {
        4
    } else if kind == ARRAY {
        12
    } else {
        0
    }
}

fn each_bytes(kind: u8) -> usize
    ensures value { result ≡ each_bytes kind }
    ensures few { result ≤ 12 }
{
    if kind == STRUCT || kind == UNION || kind == SECTION || kind == ENUM_64 {
        12
    } else if kind == ENUM || kind == FUNCTION_TYPE {
        8
    } else {
        0
    }
}

impl TypeRow {
    /// Returns its number of bytes in all.
    #[tactic(auto, unfolding(crate::specs::Types::row_bytes))]
    fn bytes(&self) -> usize
        ensures value { result ≡ row_bytes self.now }
        ensures some { 12 ≤ result }
        ensures few { result < 1000000 }
    {
        ROW_BYTES + fixed_bytes(self.kind) + each_bytes(self.kind) * self.count as usize
    }

    /// Returns whether it says its size.
    pub(crate) fn is_sized(&self) -> bool
        ensures { result ≡ is_sized self.now.kind }
    {
        self.kind == INT
            || self.kind == STRUCT
            || self.kind == UNION
            || self.kind == ENUM
            || self.kind == FLOAT
            || self.kind == ENUM_64
    }

    /// Returns whether it is a name or a qualifier of another type.
    pub(crate) fn is_alias(&self) -> bool
        ensures { result ≡ is_alias self.now.kind }
    {
        self.kind == TYPEDEF
            || self.kind == VOLATILE
            || self.kind == CONST
            || self.kind == RESTRICT
            || self.kind == TYPE_TAG
    }
}

/// The type at a place, if a whole one of a known kind is there.
fn whole(bytes: &[u8], at: usize) -> Option<TypeRow>
    ensures some { IfSome result (λ r. r ≡ row_at bytes.now at) }
    ensures whole { OnSome result (IsWhole bytes.now at) }
    ensures none { IfNone result (IsWhole bytes.now at → ⊥) }
{
    if at > bytes.len() || bytes.len() - at < ROW_BYTES {
        return None;
    }
    let row = read(bytes, at);
    if row.kind == 0 || row.kind > ENUM_64 || row.bytes() > bytes.len() - at {
        return None;
    }
    Some(row)
}

/// Adds a place.
fn add(places: &mut Vec<usize>, place: usize) -> Result<(), AllocError>
    ensures { OnOk result (places.new.items ≡ places.old.items ++ place ∷ []) }
{
    places.push(place)?;
    Ok(())
}

/// The first and the second number of a type's member.
pub(crate) fn first_number(bytes: &[u8], row: TypeRow, member: u16) -> u32
    requires inside { row.at + 12 + 12 * row.count ≤ length bytes.now }
    requires below { member < row.count }
    ensures { result ≡ word_at bytes.now (row.at + 12 + 12 * member) }
{
    bytes::word(bytes, row.at + ROW_BYTES + MEMBER_BYTES * member as usize)
}

pub(crate) fn second_number(bytes: &[u8], row: TypeRow, member: u16) -> u32
    requires inside { row.at + 12 + 12 * row.count ≤ length bytes.now }
    requires below { member < row.count }
    ensures { result ≡ word_at bytes.now (row.at + 12 + 12 * member + 4) }
{
    bytes::word(
        bytes,
        row.at + ROW_BYTES + MEMBER_BYTES * member as usize + 4,
    )
}

/// Returns where each type begins.
#[tactic(auto, using(crate::proofs::TypeLemmas::none_first, crate::proofs::TypeLemmas::none_place, crate::proofs::TypeLemmas::first_more, crate::proofs::TypeLemmas::place_more, crate::proofs::TypeLemmas::length_more))]
fn places(alloc: Global, bytes: &[u8]) -> Result<Vec<usize>, TypesFault>
    ensures ok { IfOk result (λ v. AreTypes bytes.now v.items) }
    ensures err { IfErr result (IsNoTable bytes.now) }
{
    let mut places = Vec::with_capacity(alloc, bytes.len() / ROW_BYTES)?;
    let mut at = 0;
    while at < bytes.len() {
        let Some(row) = whole(bytes, at) else {
            return Err(TypesFault::Row(places.len() + 1));
        };
        add(&mut places, at)?;
        at += row.bytes();
    }
    Ok(places)
}

/// An object's types. Contracts see their bytes, those of the strings, and where each type begins.
#[derive(Drop)]
pub struct Types<'a> {
    pub(crate) bytes: &'a [u8],
    pub(crate) strings: &'a [u8],
    pub(crate) places: Vec<usize>,
}

impl<'a> Model for Types<'a> {
    ghost use Rattle.bpf_object.specs.Types.{Table, AreTypes};

    ghost Value = { Table };

    ghost view = { λ t. record { bytes = t.bytes.now; strings = t.strings.now; places = t.places.items } };

    ghost invariant = { λ t. AreTypes t.bytes.now t.places.items };
}

impl<'a> Types<'a> {
    /// Reads the types of a section.
    pub(crate) fn parse(alloc: Global, bytes: &'a [u8]) -> Result<Types<'a>, TypesFault>
        ensures ok { IfOk result (IsTable bytes.now) }
        ensures err { IfErr result (IsNoTypes bytes.now) }
    {
        if !has_types(bytes) {
            return Err(TypesFault::Header);
        }
        let rows = type_part(bytes);
        let places = places(alloc, rows)?;
        Ok(Types {
            bytes: rows,
            strings: string_part(bytes),
            places,
        })
    }

    /// The type of a number.
    #[tactic(auto, unfolding(crate::specs::Types::row))]
    pub(crate) fn row(&self, number: usize) -> Option<TypeRow>
        ensures value { result ≡ row_of self.now number }
        ensures whole { IfSome result (λ r. r.at + row_bytes r ≤ length self.now.bytes) }
    {
        if number == 0 || number > self.places.len() {
            return None;
        }
        Some(read(self.bytes, self.places[number - 1]))
    }

    /// A type without names and qualifiers, of which there are fewer than the limit.
    #[tactic(auto, using(crate::proofs::TypeLemmas::plain_none, crate::proofs::TypeLemmas::plain_missing, crate::proofs::TypeLemmas::plain_alias, crate::proofs::TypeLemmas::plain_some))]
    pub(crate) fn plain(&self, limit: u32, number: u32) -> Option<TypeRow>
        ensures value { result ≡ plain_of self.now limit number }
        ensures whole { IfSome result (λ r. r.at + row_bytes r ≤ length self.now.bytes) }
    {
        if limit == 0 {
            return None;
        }
        match self.row(number as usize) {
            None => None,
            Some(row) if row.is_alias() => self.plain(limit - 1, row.of),
            Some(row) => Some(row),
        }
    }
}
