//! Making the front of a pair.
ghost use Rattle.std.specs.Prelude.{◌≡◌, IfOk};
ghost use Rattle.honest_pair.specs.Made.{IsFresh};
ghost use Rattle.xdp_world.specs.Buffers.{granted_from};

use std::alloc::{AllocError, Global};
use xdp_world::{BACK, Layout};
use xen_front::{ACCEPTS_WHOLE, Front, FrontDesc, GrantedPage};
use xen_ring::Port;

/// The front of a pair, over these buffers.
pub(crate) fn front<'p>(
    alloc: Global,
    layout: &'p Layout,
    tx: &'p [GrantedPage],
    rx: &'p [GrantedPage],
    start: u32,
) -> Result<Front<'p>, AllocError>
    requires layout { layout.now.queues ≡ 1 }
    requires tx { tx.now ≡ granted_from 2 }
    requires rx { rx.now ≡ granted_from 258 }
    ensures { IfOk result (IsFresh start) }
{
    let Some(port) = Port::of(0) else {
        unreachable!()
    };
    let desc = FrontDesc {
        frames: 531,
        tx_frame: 17,
        rx_frame: 18,
        table: layout.table(),
        tx,
        rx,
        back: BACK,
        port,
        start,
    };
    Front::make(alloc, desc, ACCEPTS_WHOLE)
}
