//! A grant table's entry, and its check.

ghost use Rattle.std.specs.Prelude.{◌≡◌, ◌∷◌, [], IfOk, Some, slice_get};
ghost use Rattle.xen_page.specs.Entry.{entry_of, first_word, is_marked, is_readonly, permits_access};
ghost use Rattle.xen_page.specs.Grant.{allows, checked, owns};

use crate::fault::GrantFault;
use crate::owners::Owners;

/// The bits of the flags that hold the entry's type.
pub const GTF_TYPE_MASK: u16 = 3;
/// The type of an entry that lets its domain map the frame.
pub const GTF_PERMIT_ACCESS: u16 = 1;
/// The frame may be mapped for reading alone.
pub const GTF_READONLY: u16 = 4;
/// The mark of a mapping that reads.
pub const GTF_READING: u16 = 8;
/// The mark of a mapping that writes.
pub const GTF_WRITING: u16 = 16;

/// The rights that a domain wants to a frame that it is granted.
#[derive(Clone, Copy, Debug, PartialEq, Eq)]
pub enum Rights {
    /// To read it alone.
    ReadOnly,
    /// To read it and to write it.
    ReadWrite,
}

/// An entry of a grant table, version 1, as its two words were read.
#[derive(Clone, Copy, Debug, PartialEq, Eq, Hash)]
pub struct Entry {
    pub flags: u16,
    /// The domain that may use the frame.
    pub domid: u16,
    pub frame: u32,
}

impl Entry {
    /// The entry with these two words.
    pub fn of_words(a: u32, b: u32) -> Entry
        ensures entry { result ≡ entry_of a b }
        ensures back { first_word result ≡ a }
    {
        Entry {
            flags: (a & 0xffff) as u16,
            domid: (a >> 16) as u16,
            frame: b,
        }
    }

    /// The two words of the entry.
    pub fn words(self) -> [u32; 2]
        ensures words { result ≡ first_word self ∷ self.frame ∷ [] }
        ensures back { entry_of (first_word self) self.frame ≡ self }
    {
        [
            u32::from(self.flags) + (u32::from(self.domid) << 16),
            self.frame,
        ]
    }

    pub fn permits_access(self) -> bool
        ensures { result ≡ permits_access self }
    {
        self.flags & GTF_TYPE_MASK == GTF_PERMIT_ACCESS
    }

    pub fn is_readonly(self) -> bool
        ensures { result ≡ is_readonly self }
    {
        self.flags & GTF_READONLY != 0
    }

    /// Returns whether the frame may be used with these rights.
    fn allows(self, rights: Rights) -> bool
        ensures { result ≡ allows self rights }
    {
        match rights {
            Rights::ReadOnly => true,
            Rights::ReadWrite => !self.is_readonly(),
        }
    }

    /// Returns whether the entry carries the mark of a mapping.
    pub fn is_marked(self) -> bool
        ensures { result ≡ is_marked self }
    {
        self.flags & (GTF_READING | GTF_WRITING) != 0
    }
}

/// Returns whether `user` may reach the frame of an entry of `granter`'s table with these rights: the frame, which is then the
/// granter's, or the first fault.
#[inline(always)]
pub fn check(
    owners: &Owners,
    granter: u16,
    user: u16,
    entry: Entry,
    rights: Rights,
) -> Result<u32, GrantFault>
    ensures checked { result ≡ checked owners.now granter user entry rights }
    ensures owned { IfOk result (λ frame. slice_get owners.now frame ≡ Some granter) }
{
    if !entry.permits_access() {
        return Err(GrantFault::BadGntref);
    }
    if entry.domid != user || !entry.allows(rights) {
        return Err(GrantFault::PermissionDenied);
    }
    if !is_owner(owners, granter, entry.frame) {
        return Err(GrantFault::BadPage);
    }
    Ok(entry.frame)
}

#[inline(always)]
pub(crate) fn is_owner(owners: &Owners, domain: u16, frame: u32) -> bool
    ensures { result ≡ owns owners.now domain frame }
{
    match owners.of(frame) {
        Some(owner) => owner == domain,
        None => false,
    }
}
