//! What a queue is wired to.

use bpf_lists::MapList;
use bpf_verify::Verified;
use xen_netif::{Accepts, Offers};
use xen_rx_fill::Vif;

/// The parts that a queue shares with its frontend, its offers, and its program with the lists of its maps and the numbers that it
/// sees.
#[derive(Clone, Copy)]
pub struct Wiring<'p> {
    pub vif: Vif<'p>,
    pub offers: Offers,
    /// The offloads that the frontend accepts of the host's packets.
    pub accepts: Accepts,
    pub program: &'p Verified,
    /// The lists that are given for the maps that are no arrays, by the maps' numbers. A map without rows finds nothing, and one
    /// without constants reads 0.
    pub lists: &'p [Option<MapList>],
    pub ifindex: u32,
    pub queue: u32,
}
