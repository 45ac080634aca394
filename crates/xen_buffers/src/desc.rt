//! What a front is made with.

use crate::wiring::GrantedPage;
use xen_page::Table;
use xen_ring::Port;

/// The pages and references that a front is made with.
#[derive(Clone, Copy)]
pub struct FrontDesc<'p> {
    /// The number of frames on the bus.
    pub frames: u32,
    /// The tx ring's page.
    pub tx_frame: u32,
    /// The rx ring's page.
    pub rx_frame: u32,
    /// The front's grant table.
    pub table: &'p Table,
    /// The tx ring's buffers by their ids, 256 of them.
    pub tx: &'p [GrantedPage],
    /// The rx ring's buffers by their ids, 256 of them.
    pub rx: &'p [GrantedPage],
    /// The back's domain.
    pub back: u16,
    /// The port of the notices to the back.
    pub port: Port,
    /// The index at which both rings begin.
    pub start: u32,
}
