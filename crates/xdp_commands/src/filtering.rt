//! Runs of a program on the packets of a setup.
ghost use Rattle.std.specs.Prelude.{◌≡◌, ◌≤◌, ◌<◌, ◌∷◌, [], IfOk, OnOk, length, replicate, string_bytes, vec_len};
ghost use Rattle.bpf_maps.specs.Layout.{total};
ghost use Rattle.xdp_load.specs.ListedGiven.{listed_view};
ghost use Rattle.xdp_load.specs.ListedSound.{IsListedSound};
ghost use Rattle.xdp_load.specs.SetupSeen.{packet_view, setup_view};
ghost use Rattle.xdp_commands.specs.Executing.{IsProgramOfBytes};
ghost use Rattle.xdp_commands.specs.Filtering.{Filters, HasFiltered, IsFilterOfSetup, inputs_of, passed_text};

use crate::executing::accept;
use bpf_insn::Refusal;
use bpf_lists::MapList;
use bpf_maps::Totals;
use bpf_verify::Verified;
use bpf_vm::{Action, Buffer, PacketBuf};
use std::alloc::{AllocError, Global};
use xdp_load::{Listed, SentPacket};
use xdp_program::run_on;

/// The lines of the runs so far, and the words of the counters.
#[derive(Drop)]
pub struct Filtered {
    pub lines: String,
    pub words: Vec<u64>,
}

/// The line of a run.
fn passed_text(alloc: Global, number: u32, bytes: &[u8]) -> Result<String, AllocError>
    ensures { IfOk result (λ s. string_bytes s ≡ passed_text (record { number = number; bytes = bytes.now })) }
{
    let name = Action::of(number).name();
    let length = bytes.len();
    let packet = hex::encode(alloc, bytes)?;
    format!(in alloc; "{name} {length} {packet}\n")
}

/// Runs a program with the lists of its maps on a packet, and adds the line of the run.
fn run_once(
    alloc: Global,
    program: &Verified,
    lists: &[Option<MapList>],
    ifindex: u32,
    packet: &SentPacket,
    buffer: &mut Buffer,
    filtered: &mut Filtered,
) -> Result<(), AllocError>
    requires short { length packet.now.bytes.items ≤ 65535 }
    requires queue { packet.now.queue < 8 }
    requires enough { total program.now.shapes ≤ vec_len filtered.old.words }
    ensures goes { OnOk result (HasFiltered program.now lists.now ifindex (packet_view packet.now ∷ []) filtered.old.words.items
        (string_bytes filtered.old.lines) filtered.new.words.items (string_bytes filtered.new.lines)) }
    ensures words { vec_len filtered.new.words ≡ vec_len filtered.old.words }
{
    let Ok(bytes) = PacketBuf::copy(buffer, packet.bytes.as_slice()) else {
        unreachable!();
    };
    let words = filtered.words.as_mut_slice();
    let ended = run_on(program, lists, words, bytes, ifindex, packet.queue as u32);
    let line = passed_text(alloc, ended.number, ended.packet.bytes())?;
    filtered.lines.push_str(line.as_str())?;
    Ok(())
}

/// Runs a program on a packet as many times as the packet says.
fn run_times(
    alloc: Global,
    program: &Verified,
    lists: &[Option<MapList>],
    ifindex: u32,
    packet: &SentPacket,
    buffer: &mut Buffer,
    filtered: &mut Filtered,
) -> Result<(), AllocError>
    requires short { length packet.now.bytes.items ≤ 65535 }
    requires queue { packet.now.queue < 8 }
    requires enough { total program.now.shapes ≤ vec_len filtered.old.words }
    ensures goes { OnOk result (HasFiltered program.now lists.now ifindex (replicate packet.now.times (packet_view packet.now))
        filtered.old.words.items (string_bytes filtered.old.lines) filtered.new.words.items (string_bytes filtered.new.lines)) }
    ensures words { vec_len filtered.new.words ≡ vec_len filtered.old.words }
{
    for _time in 0..packet.times {
        run_once(alloc, program, lists, ifindex, packet, buffer, filtered)?;
    }
    Ok(())
}

/// Runs a program on all packets of a setup with its lists, in order.
fn run_all(
    alloc: Global,
    program: &Verified,
    listed: &Listed,
    buffer: &mut Buffer,
    filtered: &mut Filtered,
) -> Result<(), AllocError>
    requires sound { IsListedSound (listed_view listed.now) }
    requires enough { total program.now.shapes ≤ vec_len filtered.old.words }
    ensures goes { OnOk result (HasFiltered program.now listed.now.lists.items listed.now.setup.ifindex (inputs_of (setup_view listed.now.setup).packets)
        filtered.old.words.items (string_bytes filtered.old.lines) filtered.new.words.items (string_bytes filtered.new.lines)) }
    ensures words { vec_len filtered.new.words ≡ vec_len filtered.old.words }
{
    let lists = listed.lists.as_slice();
    let ifindex = listed.setup.ifindex;
    for packet in listed.setup.packets.as_slice() {
        run_times(alloc, program, lists, ifindex, packet, buffer, filtered)?;
    }
    Ok(())
}

/// Runs a setup's program, which was accepted, on the setup's packets.
fn filter_with(alloc: Global, listed: &Listed, program: &Verified) -> Result<Filtered, AllocError>
    requires sound { IsListedSound (listed_view listed.now) }
    requires program { IsProgramOfBytes listed.now.setup.program.items listed.now.setup.shapes.items program.now }
    ensures { IfOk result (IsFilterOfSetup (listed_view listed.now)) }
{
    let mut buffer = Buffer::make(alloc)?;
    let setup = &listed.setup;
    let first = Totals::begin(alloc, setup.shapes.as_slice(), setup.values.as_slice())?;
    let mut filtered = Filtered {
        lines: String::new(alloc),
        words: first.into_numbers(),
    };
    run_all(alloc, program, listed, &mut buffer, &mut filtered)?;
    Ok(filtered)
}

/// Accepts the program of a setup and runs it on the setup's packets in order, with its lists and over one memory for its
/// counters; or refuses the program.
pub fn filter(alloc: Global, listed: &Listed) -> Result<Result<Filtered, Refusal>, AllocError>
    requires { IsListedSound (listed_view listed.now) }
    ensures { IfOk result (Filters (listed_view listed.now)) }
{
    let setup = &listed.setup;
    match accept(alloc, setup.program.as_slice(), setup.shapes.as_slice()) {
        Ok(program) => Ok(Ok(filter_with(alloc, listed, &program)?)),
        Err(refusal) => Ok(Err(refusal)),
    }
}
