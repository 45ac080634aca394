//! Sections.
ghost use Rattle.std.specs.Prelude.{◌≡◌, ◌+◌, ◌*◌, ◌<◌, ◌≤◌, length, ◌↔◌, IsTrue};
ghost use Rattle.bpf_object.specs.Section.{section_at, section as section_of, shoff, shnum, IsInside, contents as contents_of};
ghost use Rattle.bpf_object.specs.Header.{HasTable};

use crate::bytes;

/// A section's header, without what isn't used.
#[derive(Clone, Copy, Drop)]
pub(crate) struct Section {
    /// The place of its name in the table of names.
    pub(crate) name: u32,
    /// Its type.
    pub(crate) kind: u32,
    /// The place at which its bytes begin in the file.
    pub(crate) offset: u64,
    /// Its length in bytes.
    pub(crate) size: u64,
    /// The section that it is linked to.
    pub(crate) link: u32,
    /// The section that it applies to, for relocations.
    pub(crate) info: u32,
    /// The size of an entry, for tables.
    pub(crate) entry: u64,
}

/// The types of sections that have no bytes in the file.
const NULL: u32 = 0;

const NO_BITS: u32 = 8;

/// The size of a header.
pub(crate) const HEADER_BYTES: usize = 64;

#[tactic(auto, unfolding(crate::specs::Section::section_at))]
fn read(bytes: &[u8], at: usize) -> Section
    requires { at + 64 ≤ length bytes.now }
    ensures { result ≡ section_at bytes.now at }
{
    Section {
        name: bytes::word(bytes, at),
        kind: bytes::word(bytes, at + 4),
        offset: bytes::long(bytes, at + 24),
        size: bytes::long(bytes, at + 32),
        link: bytes::word(bytes, at + 40),
        info: bytes::word(bytes, at + 44),
        entry: bytes::long(bytes, at + 56),
    }
}

/// The number of sections.
pub(crate) fn count(bytes: &[u8]) -> u16
    requires { 64 ≤ length bytes.now }
    ensures { result ≡ shnum bytes.now }
{
    bytes::half(bytes, 60)
}

/// The header of a section.
pub(crate) fn at(bytes: &[u8], number: u16) -> Section
    requires whole { 64 ≤ length bytes.now }
    requires table { HasTable bytes.now }
    requires below { number < shnum bytes.now }
    ensures { result ≡ section_of bytes.now number }
{
    read(
        bytes,
        bytes::long(bytes, 40) as usize + HEADER_BYTES * number as usize,
    )
}

impl Section {
    /// Returns whether its bytes lie in the file.
    pub(crate) fn is_inside(&self, bytes: &[u8]) -> bool
        ensures { IsTrue result ↔ IsInside bytes.now self.now }
    {
        if self.kind == NULL || self.kind == NO_BITS {
            return true;
        }
        let length = bytes.len() as u64;
        self.size <= length && self.offset <= length - self.size
    }

    /// Its bytes.
    pub(crate) fn contents<'a>(&self, bytes: &'a [u8]) -> &'a [u8]
        requires { IsInside bytes.now self.now }
        ensures { result.now ≡ contents_of bytes.now self.now }
    {
        if self.kind == NULL || self.kind == NO_BITS {
            return &[];
        }
        let start = self.offset as usize;
        &bytes[start..start + self.size as usize]
    }
}
