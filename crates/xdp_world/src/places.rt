//! The references, frames and ports of a queue in a layout.
ghost use Rattle.std.specs.Prelude.{◌≡◌, ◌<◌, ◌+◌, ◌*◌};
ghost use Rattle.xdp_world.specs.Frames.{frame_of};

use crate::layout::Layout;
use xen_ring::Port;

/// The number of references that a queue has: of its tx ring, of its rx ring, and of [`BUFFERS`] buffers for each.
pub const REFERENCES: u32 = 514;
/// The number of buffers that a front has for each of a queue's rings.
pub const BUFFERS: u32 = 256;

/// The frame that reference 0 grants, after the back's frame and the grant table.
pub(crate) const FIRST_GRANTED: u32 = 17;

/// The first reference of a queue.
fn first_reference(queue: usize) -> u32
    requires { queue < 8 }
    ensures { result ≡ 514 * queue }
{
    REFERENCES * queue as u32
}

/// The port with a number below 64.
fn port(number: u32) -> Port
    requires { number < 64 }
    ensures { result ≡ number }
{
    let Some(port) = Port::of(number) else {
        unreachable!()
    };
    port
}

impl Layout {
    /// The frame that a reference grants.
    pub fn frame_of(gref: u32) -> u32
        requires { gref < 4112 }
        ensures { result ≡ frame_of gref }
    {
        FIRST_GRANTED + gref
    }

    /// The reference of a queue's tx ring.
    pub fn tx_ring(queue: usize) -> u32
        requires { queue < 8 }
        ensures { result ≡ 514 * queue }
    {
        first_reference(queue)
    }

    /// The reference of a queue's rx ring.
    pub fn rx_ring(queue: usize) -> u32
        requires { queue < 8 }
        ensures { result ≡ 514 * queue + 1 }
    {
        first_reference(queue) + 1
    }

    /// The port on which a queue's back gets its notices.
    pub fn back_port(queue: usize) -> Port
        requires { queue < 8 }
        ensures { result ≡ 2 * queue + 1 }
    {
        port(2 * queue as u32 + 1)
    }
}
