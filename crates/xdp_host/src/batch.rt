//! Many packets in one call.
ghost use Rattle.std.specs.Prelude.{◌≡◌, drop, length, min, take};
ghost use Rattle.xdp_host.specs.Batch.{RanEach, RunsOne};

use crate::abi::XdpRun;
use crate::loaded_program::LoadedProgram;

/// A packet of a batch: `length` of its bytes, from `start` on.
#[repr(C)]
#[derive(Clone, Copy, Drop)]
pub struct XdpPacket {
    pub start: usize,
    pub length: usize,
}

/// Runs a program on one packet of a batch.
fn run_one(
    held: &mut LoadedProgram,
    counters: &mut [u64],
    bytes: &mut [u8],
    packet: XdpPacket,
    ifindex: u32,
    queue: u32,
) -> XdpRun
    ensures kept { held.new ≡ held.old }
    ensures ran { RunsOne held.old.program held.old.lists ifindex queue packet result
        (record { bytes = bytes.old; words = counters.old }) (record { bytes = bytes.new; words = counters.new }) }
{
    let XdpPacket { start, length } = packet;
    if length > bytes.len() || start > bytes.len() - length {
        return XdpRun::nothing();
    }
    let packet = &mut bytes[start..start + length];
    XdpRun::from(held.run(counters, packet, ifindex, queue))
}

/// Runs a program on the packets of a batch, one after another, as far as there are results. How many that are.
pub fn run_each(
    held: &mut LoadedProgram,
    counters: &mut [u64],
    bytes: &mut [u8],
    packets: &[XdpPacket],
    results: &mut [XdpRun],
    ifindex: u32,
    queue: u32,
) -> usize
    ensures kept { held.new ≡ held.old }
    ensures ran { RanEach held.old.program held.old.lists ifindex queue (record { bytes = bytes.old; words = counters.old })
        (take result packets.now) (take result results.new) (record { bytes = bytes.new; words = counters.new }) }
    ensures count { result ≡ min (length packets.now) (length results.old) }
    ensures rest { drop result results.new ≡ drop result results.old }
{
    let count = packets.len().min(results.len());
    for number in 0..count {
        results[number] = run_one(held, counters, bytes, packets[number], ifindex, queue);
    }
    count
}
