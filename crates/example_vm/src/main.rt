//! A host that runs a program by hand: it counts a packet in a map of its own. docs/EMBEDDING.md shows this file.
#![tactic(auto)]

ghost use Rattle.std.specs.Prelude.{◌≡◌};

use bpf_insn::decode;
use bpf_maps::Totals;
use bpf_note::MapShape;
use bpf_verify::{Verified, verify};
use bpf_vm::{Action, Buffer, PacketBuf, Vm, VmWant};
use std::alloc::{AllocError, Global};
use std::io;

/// Adds 1 to counter 0 of key 1 in map 0 for each packet, and passes it.
const COUNTS: &[u8] = b"\
    \x62\x0a\xfc\xff\x01\x00\x00\x00\xbf\xa2\x00\x00\x00\x00\x00\x00\x07\x02\x00\x00\xfc\xff\xff\xff\
    \x18\x11\x00\x00\x00\x00\x00\x00\x00\x00\x00\x00\x00\x00\x00\x00\x85\x00\x00\x00\x01\x00\x00\x00\
    \x15\x00\x02\x00\x00\x00\x00\x00\xb7\x01\x00\x00\x01\x00\x00\x00\xdb\x10\x00\x00\x00\x00\x00\x00\
    \xb7\x00\x00\x00\x02\x00\x00\x00\x95\x00\x00\x00\x00\x00\x00\x00";

/// The reason why nothing ran.
#[derive(Drop)]
enum Fault {
    Memory,
    Refused,
}

impl From<AllocError> for Fault {
    fn from(_error: AllocError) -> Fault {
        Fault::Memory
    }
}

/// Runs a program on a packet, and its loads and adds at these counters. The number that it ends with, if it ends.
fn run_with(program: &Verified, packet: PacketBuf<'_>, totals: &mut Totals) -> Option<u32>
    requires { totals.old.shapes ≡ program.now.shapes }
{
    let mut vm = Vm::start(program, packet, 0, 0, &[]);
    for _ in 0..program.instructions() {
        match vm.advance() {
            VmWant::Load { m, k, j } => vm.loaded(totals.at(m, k, j)),
            VmWant::Add { m, k, j, delta } => vm.added(totals.add(m, k, j, delta)),
            VmWant::Exit { .. } => return Some(vm.finish().0),
            VmWant::Step => unreachable!(),
        }
    }
    None
}

/// The action on one packet.
fn action(alloc: Global) -> Result<Action, Fault> {
    let hits = MapShape::of(2, 1).ok_or(Fault::Refused)?;
    let code = decode(alloc, COUNTS).map_err(|_| Fault::Refused)?;
    let program = verify(alloc, code, &[hits]).map_err(|_| Fault::Refused)?;
    let mut totals = Totals::make(alloc, program.shapes())?;
    let mut buffer = Buffer::make(alloc)?;
    let packet = PacketBuf::copy(&mut buffer, b"\x00\x01\x02\x03").map_err(|_| Fault::Refused)?;
    let number = run_with(&program, packet, &mut totals).ok_or(Fault::Refused)?;
    Ok(Action::of(number))
}

fn main(rt: HostRuntime) -> io::Result<()> {
    match action(rt.alloc()) {
        Ok(action) => println!(rt; "{}", action.name()),
        Err(Fault::Refused) => println!(rt; "refused"),
        Err(Fault::Memory) => println!(rt; "out of memory"),
    }
}
