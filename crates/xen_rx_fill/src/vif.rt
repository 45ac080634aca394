//! The shared side of a virtual interface.

use xen_page::{Owners, Table};
use xen_ring::Port;

/// The parts that a back queue shares with its frontend.
#[derive(Clone, Copy)]
pub struct Vif<'p> {
    /// The frame of the tx ring's page.
    pub tx: u32,
    /// The frame of the rx ring's page.
    pub rx: u32,
    /// The frontend's grant table.
    pub table: &'p Table,
    /// The owner of each frame.
    pub owners: &'p Owners,
    /// The frontend's domain.
    pub granter: u16,
    /// The backend's domain.
    pub user: u16,
    /// The frontend's event channel.
    pub port: Port,
}
