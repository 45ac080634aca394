//! The rings' pages: their headers and grants, and their mappings.
ghost use Rattle.std.specs.Prelude.{◌≡◌, ◌<◌, ◌*◌, IfErr, IfOk, List, Result, length};
ghost use Rattle.thread_pair.specs.declared.fault.PairFault.TheVariants.{Map};
ghost use Rattle.thread_pair.specs.Rings.{ring_of};
ghost use Rattle.xen_page.specs.Access.{Performs};
ghost use Rattle.xen_page.specs.Mapping.{IsMap, IsMappedBy, Mapping};
ghost use Rattle.xen_page.specs.declared.access.Access.{Access};
ghost use Rattle.xen_page.specs.declared.entry.Rights.TheVariants.{ReadWrite};
ghost use Rattle.xen_page.specs.declared.fault.GrantFault.{GrantFault};
ghost use Rattle.xen_page.specs.Shared.{frames_of};
ghost use Rattle.xdp_world.specs.Frames.{frame_of, owners_of, table_frames};

use crate::fault::PairFault;
use crate::shared::Shared;
use xdp_world::{BACK, FRONT};
use xen_page::{Bus, Mapped, PageBus, Place, Rights, map};
use xen_ring::{REQ_EVENT, REQ_PROD, RSP_EVENT, RSP_PROD};

/// The frame that reference 0 grants.
pub(crate) const FIRST_GRANTED: u32 = 17;

/// The flags word of an entry that permits the back to read and write: `GTF_permit_access`, with the back's domain 0.
const PERMIT: u32 = 1;

/// Writes a word of a page.
fn put(bus: &mut PageBus<'_>, frame: u32, word: u32, value: u32)
    requires frame { frame < frames_of bus.old }
    requires word { word < 1024 }
    ensures { bus.new ≡ bus.old }
{
    bus.write(Place { frame, word }, value);
}

/// Writes the header of a new ring, and the entry that grants its page.
fn write_ring(shared: &Shared, bus: &mut PageBus<'_>, gref: u32)
    requires gref { gref < 514 * shared.now.layout.queues }
    requires size { frames_of bus.old ≡ shared.now.frames }
    ensures { bus.new ≡ bus.old }
{
    let frame = FIRST_GRANTED + gref;
    let event = shared.start.wrapping_add(1);
    put(bus, frame, REQ_PROD, shared.start);
    put(bus, frame, REQ_EVENT, event);
    put(bus, frame, RSP_PROD, shared.start);
    put(bus, frame, RSP_EVENT, event);
    if let Some(entry) = shared.layout.table().place(gref) {
        bus.write(entry, PERMIT);
        bus.write(entry.next(), frame);
    }
}

/// Maps the page of a reference for writing. A mapping that gave another page isn't taken: the entry was rewritten meanwhile.
fn map_ring<B: Bus>(shared: &Shared, bus: &mut B, gref: u32) -> Result<Mapped, PairFault>
    requires gref { gref < 514 * shared.now.layout.queues }
    requires size { B.size bus.old ≡ length (owners_of shared.now.layout.queues) }
    ensures lent { IfOk result (IsMappedBy (owners_of shared.now.layout.queues) 1) }
    ensures rights { IfOk result (λ m. m.rights ≡ ReadWrite) }
    ensures mapped { (t : List Access) × (answer : Result Mapping GrantFault) ×
        IsMap table_frames (owners_of shared.now.layout.queues) 1 0 gref ReadWrite t answer × Performs B.log B.access_gives bus.old t bus.new ×
        (result ≡ ring_of gref answer) }
{
    let mapped = map(
        bus,
        shared.layout.table(),
        shared.layout.owners(),
        FRONT,
        BACK,
        gref,
        Rights::ReadWrite,
    );
    match mapped {
        Ok(ring) if ring.frame() == FIRST_GRANTED + gref => Ok(ring),
        Ok(_) | Err(_) => Err(PairFault::Map),
    }
}

/// A new ring in the page of a reference, mapped for writing.
pub(crate) fn make_ring(shared: &Shared, gref: u32) -> Result<Mapped, PairFault>
    requires { gref < 514 * shared.now.layout.queues }
    ensures lent { IfOk result (IsMappedBy (owners_of shared.now.layout.queues) 1) }
    ensures rights { IfOk result (λ m. m.rights ≡ ReadWrite) }
    ensures frame { IfOk result (λ m. m.frame ≡ frame_of gref) }
    ensures fault { IfErr result (λ e. e ≡ Map) }
{
    let mut bus = PageBus::of(&shared.frames);
    write_ring(shared, &mut bus, gref);
    map_ring(shared, &mut bus, gref)
}
