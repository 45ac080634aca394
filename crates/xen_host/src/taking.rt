//! Whether the frontend takes a packet.

ghost use Rattle.std.specs.Prelude.{◌≡◌, length, true};
ghost use Rattle.xen_netif.specs.Offloads.{is_taken as is_taken_spec};
ghost use Rattle.xen_turns.specs.Delivered.{is_frame};

use xen_netif::{Accepts, RxOffload};

/// Returns whether a frontend that accepts so much takes a packet that can be delivered.
pub fn is_taken(accepts: &Accepts, offload: &RxOffload, packet: &[u8]) -> bool
    requires { is_frame packet.now ≡ true }
    ensures { result ≡ is_taken_spec accepts.now (length packet.now) offload.now }
{
    accepts.takes(offload, packet.len() as u32)
}
