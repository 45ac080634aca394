//! Turns of a queue over pages.
ghost use Rattle.std.specs.Prelude.{◌≡◌, IfOk, length};
ghost use Rattle.xen_back.specs.Queues.{IsReady, wiring_of};
ghost use Rattle.xen_page.specs.Mapping.{IsMappedBy};
ghost use Rattle.xen_page.specs.declared.entry.Rights.TheVariants.{ReadWrite};
ghost use Rattle.xen_page.specs.Table.{IsTable};

use crate::fault::Fault;
use crate::line::Memory;
use crate::packet::Packets;
use crate::pages::{FRONT, RX, TABLE, TX, domains, fill, owners, plain_words, publish};
use crate::program::accepted;
use crate::timing::{Timed, since};
use bpf_maps::{CounterSeat, Counters};
use bpf_verify::Verified;
use bpf_vm::Buffer;
use std::alloc::Alloc;
use std::time::Instant;
use xen_back::{Queue, QueueDesc, Turn};
use xen_netif::{ACCEPTS_WHOLE, NO_OFFERS};
use xen_page::{Bus, Frames, Mapped, Owners, PageBus, PlainBus, Rights, Table, map};
use xen_ring::{Port, Ports};

/// Only turns that ran the program are timed, or idle ones if no packet is there.
fn timed(turn: Turn<'_>, packets: u32) -> Result<(), Fault> {
    match turn {
        Turn::Ran { .. } if packets > 0 => Ok(()),
        Turn::Idle if packets == 0 => Ok(()),
        _ => Err(Fault::Unexpected),
    }
}

/// `times` batches of turns or deliveries, with the time that they took. One batch alone is too short to be timed.
pub fn batches(times: u32, batch: u32, nanoseconds: u64) -> Timed {
    Timed {
        done: times.saturating_mul(batch),
        nanoseconds: (times > 1).then_some(nanoseconds),
    }
}

/// The ring under a reference, mapped for writing.
fn ring<B: Bus>(bus: &mut B, table: &Table, owners: &Owners, gref: u32) -> Result<Mapped, Fault>
    requires table { IsTable owners.now 1 table.now }
    requires size { B.size bus.old ≡ length owners.now }
    ensures size { B.size bus.new ≡ B.size bus.old }
    ensures lent { IfOk result (IsMappedBy owners.now 1) }
    ensures rights { IfOk result (λ m. m.rights ≡ ReadWrite) }
{
    map(bus, table, owners, FRONT, 0, gref, Rights::ReadWrite).map_err(|_| Fault::Unexpected)
}

/// A queue over both rings, which are new.
pub fn queue<'p, 'b, B: Bus>(
    bus: &mut B,
    table: &'p Table,
    owners: &'p Owners,
    program: &'p Verified,
    buffer: &'b mut Buffer,
) -> Result<Queue<'p, 'b>, Fault>
    requires table { IsTable owners.now 1 table.now }
    requires size { B.size bus.old ≡ length owners.now }
    ensures size { B.size bus.new ≡ B.size bus.old }
    ensures ready { IfOk result IsReady }
    ensures owners { IfOk result (λ q. (wiring_of q).vif.owners.now ≡ owners.now) }
    ensures program { IfOk result (λ q. (wiring_of q).program.now ≡ program.now) }
{
    let desc = QueueDesc {
        tx: ring(bus, table, owners, TX)?,
        rx: ring(bus, table, owners, RX)?,
        table,
        owners,
        granter: FRONT,
        user: 0,
        ifindex: 0,
        queue: 0,
        port: Port::of(1).ok_or(Fault::Unexpected)?,
        offers: NO_OFFERS,
        accepts: ACCEPTS_WHOLE,
        start: 0,
    };
    Ok(Queue::make(program, &[], desc, buffer))
}

/// Times `times` turns over a bus of the interface's frames.
fn time_over<B: Bus>(
    rt: &HostRuntime,
    bus: &mut B,
    packets: Packets,
    times: u32,
    program: &[u8],
) -> Result<Timed, Fault>
    requires { B.size bus.old ≡ 20 }
{
    let program = accepted(rt.alloc(), program)?;
    let owners = owners(rt.alloc())?;
    let table = Table::make(&owners, FRONT, &[TABLE]).ok_or(Fault::Unexpected)?;
    fill(bus);
    let mut buffer = Buffer::make(rt.alloc())?;
    let mut queue = queue(bus, &table, &owners, &program, &mut buffer)?;
    let (counters, mut seats) = Counters::make(rt.alloc(), program.shapes(), 1)?;
    let mut seat = seats.pop().ok_or(Fault::Unexpected)?;
    let ports = Ports::new();
    let mut nanoseconds = 0u64;
    let mut producer = 0u32;
    let published = if packets.size == 0 {
        0
    } else {
        packets.batch()
    };
    for _batch in 0..times {
        producer = publish(bus, producer, packets, published);
        let start = Instant::now(rt).map_err(|_| Fault::Clock)?;
        for _turn in 0..packets.batch() {
            let turn = queue.drive_turn(bus, &counters, &mut seat, &ports);
            timed(turn, published)?;
        }
        nanoseconds = nanoseconds.saturating_add(since(rt, &start)?);
    }
    Ok(batches(times, packets.batch(), nanoseconds))
}

/// Times `times` batches of turns, a packet each. No packet of 0 bytes is published. Filling the pages isn't timed.
pub fn time(
    rt: &HostRuntime,
    memory: Memory,
    packets: Packets,
    times: u32,
    program: &[u8],
) -> Result<Timed, Fault> {
    match memory {
        Memory::Shared => {
            let frames = Frames::make(rt.alloc(), &domains())?;
            time_over(rt, &mut PageBus::of(&frames), packets, times, program)
        }
        Memory::Plain => {
            let mut words = plain_words(rt.alloc())?;
            time_over(
                rt,
                &mut PlainBus::of(words.as_mut_slice()),
                packets,
                times,
                program,
            )
        }
    }
}
