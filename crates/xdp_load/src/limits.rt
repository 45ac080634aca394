//! The limits of the lists: the numbers and the lengths of their rows.
ghost use Rattle.std.specs.Prelude.{◌≡◌, ◌≤◌, IfOk, OnOk, vec_len, map};
ghost use Rattle.xdp_load.specs.Gives.{Gives, each, seen_by};
ghost use Rattle.xdp_load.specs.Limits.{is_packet_text, limited_lists, limited_of, limited_packet, limited_rows, limited_shape, limited_with};
ghost use Rattle.xdp_load.specs.Limits.{limited_step, packet_text};
ghost use Rattle.xdp_load.specs.Seen.{map_seen, packet_seen, step_seen, written_seen};
ghost use Rattle.xdp_load.specs.LimitsSeen.{hex_packet_seen, limited_seen};
ghost use Rattle.xdp_load.specs.declared.fault.Fault.TheVariants.{Limit};

use crate::document::Written;
use crate::fault::{Fault, LoadError, in_key, in_row};
use crate::key::Key;
use crate::kinds::{MapRow, PacketRow, StepRow};
use crate::numbers::{Limits, below, limited, limited_numbers};
use crate::spot::Spot;
use crate::values::are_values;
use bpf_note::MapShape;
use std::alloc::Global;

/// The shape of a map within its limits.
fn limited_shape(row: &MapRow<'_>) -> Result<MapShape, Key>
    ensures { result ≡ limited_shape (map_seen row.now) }
{
    let entries = limited(Key::Entries, row.entries)?;
    let counters = limited(Key::Counters, row.counters)?;
    if !are_values(counters as usize * entries as usize, row.values) {
        return Err(Key::Values);
    }
    MapShape::of(entries, counters).ok_or(Key::Map)
}

/// The shapes of the maps, each within its limits.
fn limited_shapes(alloc: Global, rows: &[MapRow<'_>]) -> Result<Vec<MapShape>, LoadError>
    ensures { Gives (λ v. v.items) result (each Limit limited_shape 0 (map map_seen rows.now)) }
{
    let mut shapes = Vec::new(alloc);
    for (i, row) in rows.iter().enumerate() {
        let shape = in_row(Fault::Limit, i, limited_shape(row))?;
        shapes.push(shape)?;
    }
    Ok(shapes)
}

/// A step within its limits.
fn limited_step(queues: u32, row: &StepRow) -> Result<(usize, u32), Key>
    ensures { result ≡ limited_step queues (step_seen row.now) }
{
    let queue = below(Key::StepQueue, queues, row.queue)?;
    let answer = limited(Key::Answer, row.answer)?;
    Ok((queue as usize, answer))
}

/// The steps within their limits.
fn limited_script(
    alloc: Global,
    queues: u32,
    rows: &[StepRow],
) -> Result<Vec<(usize, u32)>, LoadError>
    ensures { Gives (λ v. v.items) result (each Limit (limited_step queues) 0 (map step_seen rows.now)) }
{
    let mut script = Vec::new(alloc);
    for (i, row) in rows.iter().enumerate() {
        let step = in_row(Fault::Limit, i, limited_step(queues, row))?;
        script.push(step)?;
    }
    Ok(script)
}

/// A packet whose bytes are still hex.
#[derive(Clone, Copy)]
pub struct HexPacket<'a> {
    pub queue: usize,
    pub bytes: &'a str,
    pub times: u32,
}

/// Returns whether a hex text has the length of a packet, at two digits a byte.
fn is_packet_length(text: &str) -> bool
    ensures { result ≡ is_packet_text text.now }
{
    let length = text.len() / 2;
    14 <= length && length <= 65_535
}

/// The hex text of a packet, where it has the length of one.
fn packet_text(text: &str) -> Result<&str, Key>
    ensures { seen_by (λ t. t.now) result ≡ packet_text text.now }
{
    if is_packet_length(text) {
        Ok(text)
    } else {
        Err(Key::Bytes)
    }
}

/// A packet within its limits.
fn limited_packet<'a>(queues: u32, row: &PacketRow<'a>) -> Result<HexPacket<'a>, Key>
    ensures { seen_by hex_packet_seen result ≡ limited_packet queues (packet_seen row.now) }
{
    let queue = below(Key::PacketQueue, queues, row.queue)?;
    let bytes = packet_text(row.bytes)?;
    let times = limited(Key::Times, row.times)?;
    Ok(HexPacket {
        queue: queue as usize,
        bytes,
        times,
    })
}

/// The packets within their limits.
fn limited_packets<'a>(
    alloc: Global,
    queues: u32,
    rows: &[PacketRow<'a>],
) -> Result<Vec<HexPacket<'a>>, LoadError>
    ensures { Gives (λ v. map hex_packet_seen v.items) result (each Limit (limited_packet queues) 0 (map packet_seen rows.now)) }
{
    let mut packets = Vec::new(alloc);
    for (i, row) in rows.iter().enumerate() {
        let packet = in_row(Fault::Limit, i, limited_packet(queues, row))?;
        packets.push(packet)?;
    }
    Ok(packets)
}

/// The numbers and the lists within their limits.
#[derive(Drop)]
pub struct WithinLimits<'a> {
    pub numbers: Limits,
    pub shapes: Vec<MapShape>,
    pub script: Vec<(usize, u32)>,
    pub packets: Vec<HexPacket<'a>>,
}

/// The script and the packets within their limits, beside these maps.
#[tactic(auto, unfolding(crate::specs::Limits::limited_with))]
pub fn limited_with<'a>(
    alloc: Global,
    written: &Written<'a>,
    numbers: Limits,
    shapes: Vec<MapShape>,
) -> Result<WithinLimits<'a>, LoadError>
    ensures value { Gives limited_seen result (limited_with (written_seen written.now) numbers shapes.items) }
    ensures shapes { IfOk result (λ l. l.shapes.items ≡ shapes.items) }
{
    let script = limited_script(alloc, numbers.queues, written.script.as_slice())?;
    let packets = limited_packets(alloc, numbers.queues, written.packets.as_slice())?;
    Ok(WithinLimits {
        numbers,
        shapes,
        script,
        packets,
    })
}

/// The rows of the lists within their limits.
#[tactic(auto, unfolding(crate::specs::Limits::limited_rows))]
fn limited_rows<'a>(
    alloc: Global,
    written: &Written<'a>,
    numbers: Limits,
) -> Result<WithinLimits<'a>, LoadError>
    ensures { Gives limited_seen result (limited_rows (written_seen written.now) numbers) }
{
    let shapes = limited_shapes(alloc, written.maps.as_slice())?;
    limited_with(alloc, written, numbers, shapes)
}

/// The lists within their limits, where there are at most four maps.
#[tactic(auto, unfolding(crate::specs::Limits::limited_lists))]
fn limited_lists<'a>(
    alloc: Global,
    written: &Written<'a>,
    numbers: Limits,
) -> Result<WithinLimits<'a>, LoadError>
    ensures value { Gives limited_seen result (limited_lists (written_seen written.now) numbers) }
    ensures few { OnOk result (vec_len written.now.maps ≤ 4) }
{
    if written.maps.len() > 4 {
        return Err(LoadError::at(Fault::Limit, Spot::At(Key::Map)));
    }
    limited_rows(alloc, written, numbers)
}

/// Returns what is written, where it is within its limits.
#[tactic(auto, unfolding(crate::specs::Limits::limited_of))]
pub fn limited_of<'a>(alloc: Global, written: &Written<'a>) -> Result<WithinLimits<'a>, LoadError>
    ensures value { Gives limited_seen result (limited_of (written_seen written.now)) }
    ensures few { OnOk result (vec_len written.now.maps ≤ 4) }
{
    let numbers = in_key(Fault::Limit, limited_numbers(written.numbers))?;
    limited_lists(alloc, written, numbers)
}
