//! How a run ended.

use crate::packet::PacketBuf;

/// The outcome of a run: the action's number, the packet, and how many instructions were done, the exit included.
#[derive(Drop)]
pub struct Ended<'b> {
    pub number: u32,
    pub packet: PacketBuf<'b>,
    pub instructions: u32,
}
