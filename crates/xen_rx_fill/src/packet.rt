//! The packet that a transmit sends.

use xen_netif::RxOffload;

/// A packet for the frontend.
#[derive(Clone, Copy)]
pub struct RxPacket<'p> {
    /// The work that it leaves to the frontend.
    pub offload: RxOffload,
    pub bytes: &'p [u8],
}
