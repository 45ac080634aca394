//! Mapping a granted frame, and ending the mapping.

ghost use Rattle.std.specs.Prelude.{◌≡◌, ◌<◌, List, All, IfOk, Some, false, slice_get};
ghost use Rattle.xen_page.specs.Access.{Performs};
ghost use Rattle.xen_page.specs.Entry.{is_marked};
ghost use Rattle.xen_page.specs.Mapping.{IsMap, IsMappedBy, IsUnmap, mappable, marks};
ghost use Rattle.xen_page.specs.Table.{IsTable};
ghost use Rattle.xen_page.specs.declared.access.Access.{Access};

use crate::bus::Bus;
use crate::entry::{Entry, GTF_READING, GTF_WRITING, Rights, check};
use crate::fault::GrantFault;
use crate::mapped::Mapped;
use crate::owners::Owners;
use crate::table::Table;

/// Maps the frame that `granter` lends `user` under a reference of its table, with these rights. The entry's two
/// words are read once each; then its flags word is exchanged for one with the marks.
pub fn map<B: Bus>(
    bus: &mut B,
    table: &Table,
    owners: &Owners,
    granter: u16,
    user: u16,
    gref: u32,
    rights: Rights,
) -> Result<Mapped, GrantFault>
    requires table { IsTable owners.now granter table.now }
    requires within { All (λ frame. frame < B.size bus.old) table.now }
    ensures size { B.size bus.new ≡ B.size bus.old }
    ensures lent { IfOk result (IsMappedBy owners.now granter) }
    ensures rights { IfOk result (λ m. m.rights ≡ rights) }
    ensures entry { IfOk result (λ m. m.at.frame < B.size bus.new) }

    // The accesses, and the answer that they fix.
    ensures mapped { (t : List Access) × IsMap table.now owners.now granter user gref rights t result
        × Performs B.log B.access_gives bus.old t bus.new }
{
    let Some(at) = table.place(gref) else {
        return Err(GrantFault::BadGntref);
    };
    let word = bus.read(at);
    let frame = bus.read(at.next());
    let entry = Entry::of_words(word, frame);
    let frame = check_unmarked(owners, granter, user, entry, rights)?;
    let found = bus.cas(at, word, word | marks_for(rights));
    if found != word {
        return Err(GrantFault::Eagain);
    }
    Ok(Mapped {
        granter,
        frame,
        rights,
        at,
        word,
    })
}

/// Ends a mapping: one exchange takes the marks away. If the flags word was changed meanwhile, it stays as
/// it is, and the mapping is handed back.
pub fn unmap<B: Bus>(bus: &mut B, mapped: Mapped) -> Result<(), Mapped>
    requires { mapped.at.frame < B.size bus.old }
    ensures size { B.size bus.new ≡ B.size bus.old }
    ensures unmapped { (t : List Access) × IsUnmap mapped t result
        × Performs B.log B.access_gives bus.old t bus.new }
{
    let marked = mapped.word | marks_for(mapped.rights);
    let found = bus.cas(mapped.at, marked, mapped.word);
    if found == marked { Ok(()) } else { Err(mapped) }
}

fn check_unmarked(
    owners: &Owners,
    granter: u16,
    user: u16,
    entry: Entry,
    rights: Rights,
) -> Result<u32, GrantFault>
    ensures mappable { result ≡ mappable owners.now granter user entry rights }
    ensures owned { IfOk result (λ frame. slice_get owners.now frame ≡ Some granter) }
    ensures unmarked { IfOk result (λ frame. (frame ≡ entry.frame) × (is_marked entry ≡ false)) }
{
    let frame = check(owners, granter, user, entry, rights)?;
    if entry.is_marked() {
        Err(GrantFault::Eagain)
    } else {
        Ok(frame)
    }
}

fn marks_for(rights: Rights) -> u32
    ensures { result ≡ marks rights }
{
    match rights {
        Rights::ReadOnly => u32::from(GTF_READING),
        Rights::ReadWrite => u32::from(GTF_READING | GTF_WRITING),
    }
}
