//! A host that drives a queue of netback over a bus of its own. docs/EMBEDDING.md shows this file and its modules.
//!
//! - `bus`: a bus over pages that this host has itself
//! - `guest`: what the guest does, which a host doesn't write
//! - `fault`: why the host ends
#![tactic(auto)]

ghost use Rattle.std.specs.Prelude.{◌≡◌, IfOk, length};
ghost use Rattle.xen_back.specs.Queues.{IsReady, IsSameWiring, wiring_of};
ghost use Rattle.xen_page.specs.Table.{IsTable};

mod bus;
mod fault;
mod guest;

use crate::bus::Pages;
use crate::fault::Fault;
use crate::guest::{BACK, FRONT, OWNERS, RX, TABLE, TX, lend, post, send};
use bpf_insn::decode;
use bpf_maps::Counters;
use bpf_verify::{Verified, verify};
use bpf_vm::Buffer;
use std::alloc::Global;
use std::io;
use xen_back::{Awaited, Delivery, Queue, QueueDesc, Turn};
use xen_netif::{ACCEPTS_WHOLE, NO_OFFERS, RxOffload};
use xen_page::{Owners, Rights, Table, map};
use xen_ring::{Port, Ports};

/// `r0 = 2` and `exit`: each packet passes.
const PASSES: &[u8] = b"\xb7\x00\x00\x00\x02\x00\x00\x00\x95\x00\x00\x00\x00\x00\x00\x00";

/// The host's answer to the guest: an Ethernet header.
const ANSWER: &[u8] = b"\x02\x00\x00\x00\x00\x01\x02\x00\x00\x00\x00\x02\x88\xb5";

/// Returns what a host does with a turn: this one prints it.
fn take(rt: &HostRuntime, turn: Turn<'_>) -> io::Result<()> {
    match turn {
        Turn::Ran { action, packet, .. } => {
            println!(rt; "{}, {} bytes", action.name(), packet.len())
        }
        Turn::Idle => println!(rt; "idle"),
        Turn::Refused { .. } => println!(rt; "refused"),
        Turn::Halted { .. } => println!(rt; "halted"),
    }
}

/// A queue over the guest's rings.
fn queue<'p, 'b>(
    pages: &mut Pages,
    table: &'p Table,
    owners: &'p Owners,
    program: &'p Verified,
    room: &'b mut Buffer,
) -> Result<Queue<'p, 'b>, Fault>
    requires table { IsTable owners.now 1 table.now }
    requires frames { length owners.now ≡ 5 }
    ensures ready { IfOk result IsReady }
    ensures owners { IfOk result (λ q. (wiring_of q).vif.owners.now ≡ owners.now) }
    ensures program { IfOk result (λ q. (wiring_of q).program.now ≡ program.now) }
{
    let desc = QueueDesc {
        tx: map(pages, table, owners, FRONT, BACK, TX, Rights::ReadWrite)?,
        rx: map(pages, table, owners, FRONT, BACK, RX, Rights::ReadWrite)?,
        table,
        owners,
        granter: FRONT,
        user: BACK,
        ifindex: 1,
        queue: 0,
        port: Port::of(1).ok_or(Fault::Refused)?,
        offers: NO_OFFERS,
        accepts: ACCEPTS_WHOLE,
        start: 0,
    };
    Ok(Queue::make(program, &[], desc, room))
}

/// Delivers the answer, or asks to be told once the guest has posted a buffer for it.
fn answer(
    rt: &HostRuntime,
    queue: &mut Queue<'_, '_>,
    pages: &mut Pages,
    ports: &Ports,
) -> io::Result<()>
    requires ready { IsReady queue.old }
    requires frames { length (wiring_of queue.old).vif.owners.now ≡ 5 }
    ensures ready { IsReady queue.new }
    ensures same { IsSameWiring queue.old queue.new }
{
    match queue.deliver(ANSWER, RxOffload::Whole, pages, ports) {
        Delivery::Sent { slots } => println!(rt; "sent, slots: {slots}"),
        Delivery::FewSlots => match queue.await_slots(1, pages) {
            Awaited::Posted => println!(rt; "a buffer is there by now"),
            Awaited::Waiting => println!(rt; "waiting for a buffer"),
            Awaited::Halted { .. } => println!(rt; "halted"),
        },
        Delivery::Refused { .. } => println!(rt; "refused"),
        Delivery::Halted { .. } => println!(rt; "halted"),
        Delivery::NoFrame | Delivery::NotAccepted => println!(rt; "no packet"),
    }
}

/// Two turns of a queue, one packet and then none; and an answer to it, before the guest posts a buffer and after it.
fn serve(rt: &HostRuntime, alloc: Global) -> Result<(), Fault> {
    let code = decode(alloc, PASSES).map_err(|_| Fault::Refused)?;
    let program = verify(alloc, code, &[]).map_err(|_| Fault::Refused)?;
    let owners = Owners::make(alloc, &OWNERS)?;
    let table = Table::make(&owners, FRONT, &[TABLE]).ok_or(Fault::Refused)?;
    let mut pages = Pages::make(alloc)?;
    lend(&mut pages);
    let mut room = Buffer::make(alloc)?;
    let mut queue = queue(&mut pages, &table, &owners, &program, &mut room)?;
    let (counters, mut seats) = Counters::make(alloc, program.shapes(), 1)?;
    let mut seat = seats.pop().ok_or(Fault::Refused)?;
    let ports = Ports::new();
    send(&mut pages);
    for _turn in 0..2 {
        take(
            rt,
            queue.drive_turn(&mut pages, &counters, &mut seat, &ports),
        )?;
    }
    answer(rt, &mut queue, &mut pages, &ports)?;
    post(&mut pages);
    answer(rt, &mut queue, &mut pages, &ports)?;
    Ok(())
}

fn main(rt: HostRuntime) -> io::Result<()> {
    match serve(&rt, rt.alloc()) {
        Ok(()) => Ok(()),
        Err(Fault::Output(error)) => Err(error),
        Err(Fault::Refused) => println!(rt; "refused"),
        Err(Fault::Memory) => println!(rt; "out of memory"),
    }
}
