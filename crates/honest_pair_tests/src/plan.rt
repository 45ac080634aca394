//! Lists of events for pairs.
ghost use Rattle.std.specs.Prelude.{◌≡◌, IfOk, vec_len};

use honest_pair::PairEvent;
use std::alloc::{AllocError, Global};

/// Events of a pair, one after another.
#[derive(Drop)]
pub struct Plan {
    events: Vec<PairEvent>,
}

impl Plan {
    pub fn new(alloc: Global) -> Plan {
        Plan {
            events: Vec::new(alloc),
        }
    }

    pub fn events(&self) -> &[PairEvent] {
        self.events.as_slice()
    }

    pub fn add(&mut self, event: PairEvent) -> Result<(), AllocError> {
        self.events.push(event)?;
        Ok(())
    }

    /// A send of `size` bytes. The first is given, and the others count on from a seed.
    pub fn send(&mut self, size: usize, first: u8, seed: u32) -> Result<(), AllocError> {
        let packet = packet(*self.events.allocator(), size, first, seed)?;
        self.add(PairEvent::Send { packet })
    }

    /// A delivery of `size` bytes. The first is given, and the others count on from a seed.
    pub fn deliver(&mut self, size: usize, first: u8, seed: u32) -> Result<(), AllocError> {
        let packet = packet(*self.events.allocator(), size, first, seed)?;
        self.add(PairEvent::Deliver { packet })
    }

    pub fn front_steps(&mut self, count: usize) -> Result<(), AllocError> {
        for _step in 0..count {
            self.add(PairEvent::FrontStep)?;
        }
        Ok(())
    }

    pub fn back_steps(&mut self, count: usize) -> Result<(), AllocError> {
        for _step in 0..count {
            self.add(PairEvent::BackStep)?;
        }
        Ok(())
    }
}

/// A packet of `size` bytes. The first is given, and the others count on from a seed.
pub fn packet(alloc: Global, size: usize, first: u8, seed: u32) -> Result<Vec<u8>, AllocError>
    ensures { IfOk result (λ packet. vec_len packet ≡ size) }
{
    let mut bytes = Vec::with_capacity(alloc, size)?;
    let mut next = seed;
    for i in 0..size {
        let [byte, _, _, _] = next.to_be_bytes();
        bytes.push(if i == 0 { first } else { byte })?;
        next = next.wrapping_mul(1_664_525).wrapping_add(1_013_904_223);
    }
    Ok(bytes)
}
