//! Hex texts: the program and the packets.
ghost use Rattle.std.specs.Prelude.{map};
ghost use Rattle.xdp_load.specs.Gives.{Gives, each, in_row};
ghost use Rattle.xdp_load.specs.Seen.{hex_seen};
ghost use Rattle.xdp_load.specs.LimitsSeen.{hex_packet_seen};
ghost use Rattle.xdp_load.specs.Setup.{bytes_in, joined, packet_of};
ghost use Rattle.xdp_load.specs.SetupSeen.{packet_view};
ghost use Rattle.xdp_load.specs.declared.fault.Fault.TheVariants.{Hex};

use crate::fault::{Fault, LoadError};
use crate::key::Key;
use crate::kinds::HexRow;
use crate::limits::HexPacket;
use crate::spot::Spot;
use hex::FromHexError;
use std::alloc::Global;

/// A packet of 14 to 65,535 bytes, the queue on which it is sent, and how many times, 1 to 100,000.
#[derive(Drop)]
pub struct SentPacket {
    pub queue: usize,
    pub bytes: Vec<u8>,
    pub times: u32,
}

/// The bytes of the hex text at a key, in the row with that number.
pub fn bytes_in(alloc: Global, key: Key, number: usize, text: &str) -> Result<Vec<u8>, LoadError>
    ensures { Gives (λ v. v.items) result (bytes_in key number text.now) }
{
    match hex::decode(alloc, text) {
        Ok(bytes) => Ok(bytes),
        Err(FromHexError::OutOfMemory) => Err(LoadError::Memory),
        Err(_) => Err(LoadError::at(Fault::Hex, Spot::Row(key, number))),
    }
}

/// The bytes of some hex texts of a program, one after another.
pub fn joined(alloc: Global, texts: &[HexRow<'_>]) -> Result<Vec<u8>, LoadError>
    ensures { Gives (λ v. v.items) result (joined 0 (map hex_seen texts.now)) }
{
    let mut program = Vec::new(alloc);
    for (i, text) in texts.iter().enumerate() {
        let bytes = bytes_in(alloc, Key::Program, i, text.text)?;
        program.extend_from_slice(bytes.as_slice())?;
    }
    Ok(program)
}

/// The packet of the row with that number.
#[tactic(auto, using(crate::proofs::RowLemmas::packet_fails, crate::proofs::RowLemmas::packet_read))]
fn packet_of(alloc: Global, number: usize, row: &HexPacket<'_>) -> Result<SentPacket, LoadError>
    ensures { Gives packet_view result (in_row Hex number (packet_of (hex_packet_seen row.now))) }
{
    let bytes = bytes_in(alloc, Key::Bytes, number, row.bytes)?;
    Ok(SentPacket {
        queue: row.queue,
        bytes,
        times: row.times,
    })
}

/// The packets with their bytes.
pub fn packets_of(alloc: Global, rows: &[HexPacket<'_>]) -> Result<Vec<SentPacket>, LoadError>
    ensures { Gives (λ v. map packet_view v.items) result (each Hex packet_of 0 (map hex_packet_seen rows.now)) }
{
    let mut packets = Vec::new(alloc);
    for (i, row) in rows.iter().enumerate() {
        let packet = packet_of(alloc, i, row)?;
        packets.push(packet)?;
    }
    Ok(packets)
}
