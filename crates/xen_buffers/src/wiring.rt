//! The pages that a front uses.

use xen_page::Table;
use xen_ring::Port;

/// A page that a front lends, and the reference that grants it.
#[derive(Clone, Copy, Debug, PartialEq, Eq)]
pub struct GrantedPage {
    pub gref: u32,
    pub frame: u32,
}

/// The part of a [`FrontDesc`](crate::FrontDesc) that stays.
#[derive(Clone, Copy)]
pub struct FrontWiring<'p> {
    pub frames: u32,
    pub tx_frame: u32,
    pub rx_frame: u32,
    pub table: &'p Table,
    pub tx: &'p [GrantedPage],
    pub rx: &'p [GrantedPage],
    pub back: u16,
    pub port: Port,
}
