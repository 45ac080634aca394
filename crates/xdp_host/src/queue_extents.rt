//! A queue of a guest whose frames C gives in extents.
ghost use Rattle.std.specs.Prelude.{◌≡◌, IfErr, IfNone, IfOk, IfSome};
ghost use Rattle.xen_page.specs.Owned.{domains_of};
ghost use Rattle.xen_host.specs.Frames.{extent_limits};
ghost use Rattle.xen_host.specs.Making.{IsFaultOf, IsMadeOf};
ghost use Rattle.xdp_host.specs.Made.{MakesOr, extent_of, extents_of, fault_number, given};

use crate::handle::XdpProgram;
use crate::queue_abi::XdpQueueDesc;
use crate::queue_calls::boxed;
use crate::queue_fault::QueueFault;
use crate::queue_handle::XdpQueue;
use std::alloc::{AllocError, Global};
use xen_host::{Extent, FrameOwners, Lists, MakeFault, Program, Queue};

/// `frames` frames, one after another, which one domain owns. `include/laxonje.h` has this struct in the same order.
#[repr(C)]
#[derive(Clone, Copy, Drop)]
pub struct XdpExtent {
    pub frames: u32,
    pub domain: u16,
}

/// The extent that C gives.
fn extent_of(given: XdpExtent) -> Extent
    ensures { result ≡ extent_of given }
{
    Extent {
        frames: given.frames,
        domain: given.domain,
    }
}

/// The extents that C gives.
fn extents_of(alloc: Global, given: &[XdpExtent]) -> Result<Vec<Extent>, AllocError>
    ensures { IfOk result (λ extents. extents.items ≡ extents_of given.now) }
{
    given.iter().map(|extent| extent_of(*extent)).collect(alloc)
}

/// A queue of what C gives, in a box.
fn boxed_of_extents(
    alloc: Global,
    program: &Program,
    lists: &Lists,
    extents: &[XdpExtent],
    table: &[u32],
    desc: &XdpQueueDesc,
) -> Result<Box<Queue>, MakeFault>
    ensures made { IfOk result (λ b.
        IsMadeOf program.now lists.now (given (domains_of (extents_of extents.now)) extent_limits table.now desc.now) b.value) }
    ensures fault { IfErr result (IsFaultOf (given (domains_of (extents_of extents.now)) extent_limits table.now desc.now)) }
{
    let extents = extents_of(alloc, extents)?;
    boxed(
        alloc,
        program,
        lists,
        FrameOwners::Extents(&extents),
        table,
        desc,
    )
}

/// Makes a queue as `laxonje_queue_make` does, of a guest whose frames are given in extents.
#[unsafe(no_mangle)]
pub extern "C" fn laxonje_queue_make_extents(
    alloc: Global,
    program: &mut XdpProgram,
    extents: &[XdpExtent],
    table: &[u32],
    desc: &XdpQueueDesc,
    out: &mut XdpQueue,
) -> u32
    ensures kept { program.new.slot.held ≡ program.old.slot.held }
    ensures made { IfSome program.old.slot.held (λ h.
        MakesOr h.program h.lists (given (domains_of (extents_of extents.now)) extent_limits table.now desc.now)
        out.old.slot.held out.new.slot.held result) }
    ensures none { IfNone program.old.slot.held ((result ≡ fault_number QueueFault.Empty) × (out.new.slot.held ≡ out.old.slot.held)) }
{
    match program.held_mut() {
        Some(held) => {
            let made = boxed_of_extents(alloc, &held.program, &held.lists, extents, table, desc);
            out.set(made)
        }
        None => QueueFault::Empty.number(),
    }
}
