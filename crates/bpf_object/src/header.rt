//! The ELF header.
ghost use Rattle.std.specs.Prelude.{◌≡◌, ◌<◌, ◌≤◌, length, ◌↔◌, IsTrue, OnOk, IfErr};
ghost use Rattle.bpf_object.specs.Section.{shnum};
ghost use Rattle.bpf_object.specs.Header.{HasHeader, HasFormat, IsForBpf, HasTable, IsStringTable};
ghost use Rattle.bpf_object.specs.Object.{IsElf, IsNoObject};

use crate::fault::ObjectFault;
use crate::{bytes, section};

/// The size of the header.
const HEADER_BYTES: usize = 64;

/// The first bytes of a file.
const MAGIC: [u8; 4] = [0x7f, b'E', b'L', b'F'];

/// Files of 64 bits, of little-endian byte order, of the one version.
const CLASS_64: u8 = 2;

const LITTLE_ENDIAN: u8 = 1;

const VERSION: u8 = 1;

/// Relocatable files, the machine BPF, and the type of string tables.
const RELOCATABLE: u16 = 1;

const BPF: u16 = 247;

const STRING_TABLE: u32 = 3;

/// Returns whether there is a whole header that begins as one.
fn has_header(bytes: &[u8]) -> bool
    ensures { IsTrue result ↔ HasHeader bytes.now }
{
    bytes.len() >= HEADER_BYTES && &bytes[..4] == &MAGIC[..]
}

/// Returns whether the file is one of 64 bits and little-endian byte order.
fn has_format(bytes: &[u8]) -> bool
    requires { 64 ≤ length bytes.now }
    ensures { IsTrue result ↔ HasFormat bytes.now }
{
    bytes[4] == CLASS_64 && bytes[5] == LITTLE_ENDIAN && bytes[6] == VERSION
}

/// Returns whether the file is relocatable and for BPF.
fn is_for_bpf(bytes: &[u8]) -> bool
    requires { 64 ≤ length bytes.now }
    ensures { IsTrue result ↔ IsForBpf bytes.now }
{
    bytes::half(bytes, 16) == RELOCATABLE && bytes::half(bytes, 18) == BPF
}

/// Returns whether the table of section headers lies in the file.
fn has_table(bytes: &[u8]) -> bool
    requires { 64 ≤ length bytes.now }
    ensures { IsTrue result ↔ HasTable bytes.now }
{
    let length = bytes.len() as u64;
    let size = 64 * u64::from(section::count(bytes));
    bytes::half(bytes, 58) == 64 && size <= length && bytes::long(bytes, 40) <= length - size
}

/// Refuses bytes that don't begin as an object for BPF.
pub(crate) fn check(bytes: &[u8]) -> Result<(), ObjectFault>
    ensures ok { OnOk result (IsElf bytes.now) }
    ensures err { IfErr result (IsNoObject bytes.now) }
{
    if !has_header(bytes) {
        return Err(ObjectFault::NoHeader);
    }
    if !has_format(bytes) {
        return Err(ObjectFault::Format);
    }
    if !is_for_bpf(bytes) {
        return Err(ObjectFault::Machine);
    }
    if !has_table(bytes) {
        return Err(ObjectFault::SectionTable);
    }
    Ok(())
}

/// Returns whether a section is there and is a string table.
pub(crate) fn is_string_table(bytes: &[u8], number: u32) -> bool
    requires { IsElf bytes.now }
    ensures value { IsTrue result ↔ IsStringTable bytes.now number }
    ensures small { IsTrue result → number < 65536 }
{
    number < u32::from(section::count(bytes))
        && section::at(bytes, number as u16).kind == STRING_TABLE
}
