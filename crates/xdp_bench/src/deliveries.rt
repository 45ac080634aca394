//! Deliveries of a host's own packet over pages.
ghost use Rattle.std.specs.Prelude.{◌≡◌};

use crate::fault::Fault;
use crate::line::Memory;
use crate::packet::Packets;
use crate::pages::{FRONT, TABLE, domains, fill, owners, plain_words, publish};
use crate::program::accepted;
use crate::timing::{Timed, since};
use crate::turns::{batches, queue};
use bpf_vm::Buffer;
use std::alloc::Alloc;
use std::time::Instant;
use xen_back::Delivery;
use xen_netif::RxOffload;
use xen_page::{Bus, Frames, PageBus, PlainBus, Table};
use xen_ring::Ports;

/// `r0 = 2` and `exit`: no delivery runs it.
const PASSES: &[u8] = b"\xb7\x00\x00\x00\x02\x00\x00\x00\x95\x00\x00\x00\x00\x00\x00\x00";

/// Only deliveries that were sent are timed.
fn timed(delivery: Delivery) -> Result<(), Fault> {
    match delivery {
        Delivery::Sent { .. } => Ok(()),
        _ => Err(Fault::Unexpected),
    }
}

/// Times `times` deliveries over a bus of the interface's frames.
fn time_over<B: Bus>(rt: &HostRuntime, bus: &mut B, size: usize, times: u32) -> Result<Timed, Fault>
    requires { B.size bus.old ≡ 20 }
{
    let program = accepted(rt.alloc(), PASSES)?;
    let owners = owners(rt.alloc())?;
    let table = Table::make(&owners, FRONT, &[TABLE]).ok_or(Fault::Unexpected)?;
    fill(bus);
    let mut buffer = Buffer::make(rt.alloc())?;
    let mut queue = queue(bus, &table, &owners, &program, &mut buffer)?;
    let ports = Ports::new();
    let bytes = [0x5a; 65_535];
    let packet = bytes.get(..size).ok_or(Fault::Line)?;
    let packets = Packets::of(size, None);
    let mut nanoseconds = 0u64;
    let mut producer = 0u32;
    for _batch in 0..times {
        producer = publish(bus, producer, packets, packets.batch());
        let start = Instant::now(rt).map_err(|_| Fault::Clock)?;
        for _delivery in 0..packets.batch() {
            timed(queue.deliver(packet, RxOffload::Whole, bus, &ports))?;
        }
        nanoseconds = nanoseconds.saturating_add(since(rt, &start)?);
    }
    Ok(batches(times, packets.batch(), nanoseconds))
}

/// Times `times` deliveries of a packet of `size` bytes. Posting the buffers isn't timed.
pub fn time(rt: &HostRuntime, memory: Memory, size: usize, times: u32) -> Result<Timed, Fault> {
    match memory {
        Memory::Shared => {
            let frames = Frames::make(rt.alloc(), &domains())?;
            time_over(rt, &mut PageBus::of(&frames), size, times)
        }
        Memory::Plain => {
            let mut words = plain_words(rt.alloc())?;
            time_over(rt, &mut PlainBus::of(words.as_mut_slice()), size, times)
        }
    }
}
