//! Making a front.

ghost use Rattle.std.specs.Prelude.{IfOk};
ghost use Rattle.xen_front.specs.Making.{IsMade, IsNew};
ghost use Rattle.xen_buffers.specs.Wired.{IsWired, wiring_in};

use crate::by_event::phase::Phase;
use crate::front::Front;
use crate::packet::Packet;
use crate::state::{Counts, FrontState, Ring};
use std::alloc::{AllocError, Global};
use xen_buffers::{FrontDesc, FrontWiring};
use xen_netif::Accepts;

/// A ring with nothing in flight, at this index.
fn new_ring(start: u32) -> Ring
    ensures { IsNew result start }
{
    Ring {
        prod: start,
        cons: start,
        out: [false; 256],
    }
}

impl<'p> Front<'p> {
    /// A front between activities. All the memory that it ever needs is allocated here: room for a packet to be sent and for
    /// one received. [`FrontDesc::is_wired`] tests its condition. The features in XenStore tell the other end what the front
    /// accepts.
    pub fn make(
        alloc: Global,
        desc: FrontDesc<'p>,
        accepts: Accepts,
    ) -> Result<Front<'p>, AllocError>
        requires { IsWired (wiring_in desc) }
        ensures { IfOk result (IsMade desc.entry accepts) }
    {
        let wiring = FrontWiring {
            frames: desc.frames,
            tx_frame: desc.tx_frame,
            rx_frame: desc.rx_frame,
            table: desc.table,
            tx: desc.tx,
            rx: desc.rx,
            back: desc.back,
            port: desc.port,
        };
        let state = FrontState {
            tx: new_ring(desc.start),
            rx: new_ring(desc.start),
            posts: [0; 256],
            accepts,
            counts: Counts {
                okay: 0,
                dropped: 0,
                error: 0,
                other: 0,
            },
            halt: None,
        };
        let sent = Packet::make(alloc)?;
        let received = Packet::make(alloc)?;
        Ok(Front {
            wiring,
            state,
            sent,
            received,
            phase: Phase::Ready,
        })
    }
}
