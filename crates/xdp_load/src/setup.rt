//! The setup of a settings text.
ghost use Rattle.std.specs.Prelude.{◌≡◌, ◌≤◌, if◌then◌else◌, IfOk, IsErrAnd, None, Some, map, option_map, string_bytes, vec_len};
ghost use Rattle.std.specs.Str.{is_utf8};
ghost use Rattle.xdp_load.specs.Gives.{Gives, IsError};
ghost use Rattle.xdp_load.specs.Seen.{written_seen};
ghost use Rattle.xdp_load.specs.LimitsSeen.{limited_seen};
ghost use Rattle.xdp_load.specs.Setup.{decoded_of, document_of, relocated_setup, setup_of, setup_of_limited, setup_of_table, text_of};
ghost use Rattle.xdp_load.specs.Sound.{IsSound};
ghost use Rattle.xdp_load.specs.Spot.{refused, whole};
ghost use Rattle.xdp_load.specs.SetupSeen.{packet_view, setup_view};
ghost use Rattle.xdp_load.specs.declared.fault.Fault.TheVariants.{Text};
ghost use Rattle.bpf_note.specs.Shape.{most_maps};
ghost use Rattle.toml.specs.View.{table_view};

use crate::document::{Written, read_document};
use crate::fault::{Fault, LoadError};
use crate::key::Key;
use crate::kinds::MapRow;
use crate::limits::{WithinLimits, limited_of};
use crate::names::bad_name;
use crate::packets::{SentPacket, joined, packets_of};
use crate::relocations::relocated;
use crate::spot::Spot;
use crate::values::values_in;
use bpf_note::MapShape;
use std::alloc::{AllocError, Global};
use toml::Table;

/// The settings of a run: the bytes of the program, its relocations applied; the maps' shapes, the numbers that their
/// counters begin with, and their names, by number; 1 to 8
/// queues; the number of the interface; the index at which each ring begins; the script, each step a queue and an answer;
/// the packets.
#[derive(Drop)]
pub struct Setup {
    pub program: Vec<u8>,
    pub shapes: Vec<MapShape>,
    pub values: Vec<Vec<u64>>,
    pub names: Vec<String>,
    pub queues: usize,
    pub ifindex: u32,
    pub start: u32,
    pub script: Vec<(usize, u32)>,
    pub packets: Vec<SentPacket>,
}

/// The bytes of the program and of the packets.
#[tactic(auto, unfolding(crate::specs::Setup::decoded_of))]
pub fn decoded_of(
    alloc: Global,
    written: &Written<'_>,
    limited: &WithinLimits<'_>,
) -> Result<(Vec<u8>, Vec<SentPacket>), LoadError>
    ensures { Gives (λ d. (d.0.items, map packet_view d.1.items)) result
        (decoded_of (written_seen written.now) (limited_seen limited.now)) }
{
    let program = joined(alloc, written.program.as_slice())?;
    let packets = packets_of(alloc, limited.packets.as_slice())?;
    Ok((program, packets))
}

/// The names of the maps.
fn names_of(alloc: Global, maps: &[MapRow<'_>]) -> Result<Vec<String>, AllocError>
    ensures { IfOk result (λ v. map string_bytes v.items ≡ map (λ m. m.name.now) maps.now) }
{
    let mut names = Vec::new(alloc);
    for row in maps {
        names.push(String::from_str(alloc, row.name)?)?;
    }
    Ok(names)
}

/// The setup of a document whose hex is read.
#[tactic(auto, using(crate::proofs::RowLemmas::names_seen), unfolding(crate::specs::Setup::relocated_setup))]
pub fn relocated_setup(
    alloc: Global,
    written: &Written<'_>,
    limited: WithinLimits<'_>,
    decoded: (Vec<u8>, Vec<SentPacket>),
) -> Result<Setup, LoadError>
    requires { vec_len written.now.maps ≤ most_maps }
    ensures { Gives setup_view result (relocated_setup (written_seen written.now) (limited_seen limited.entry)
        (decoded.0.items, map packet_view decoded.1.items)) }
{
    let (program, packets) = decoded;
    let program = relocated(program, written.maps.as_slice(), written.relocs.as_slice())?;
    let names = names_of(alloc, written.maps.as_slice())?;
    let values = values_in(alloc, written.maps.as_slice())?;
    Ok(Setup {
        program,
        shapes: limited.shapes,
        values,
        names,
        queues: limited.numbers.queues as usize,
        ifindex: limited.numbers.ifindex,
        start: limited.numbers.start,
        script: limited.script,
        packets,
    })
}

/// The setup of a document within its limits.
#[tactic(auto, using(crate::proofs::RowLemmas::names_seen), unfolding(crate::specs::Setup::setup_of_limited))]
pub fn setup_of_limited(
    alloc: Global,
    written: &Written<'_>,
    limited: WithinLimits<'_>,
) -> Result<Setup, LoadError>
    requires { vec_len written.now.maps ≤ most_maps }
    ensures { Gives setup_view result (setup_of_limited (written_seen written.now) (limited_seen limited.entry)) }
{
    if let Some(number) = bad_name(written.maps.as_slice()) {
        return Err(LoadError::at(Fault::Name, Spot::Row(Key::Name, number)));
    }
    let decoded = decoded_of(alloc, written, &limited)?;
    relocated_setup(alloc, written, limited, decoded)
}

/// The setup of a document.
#[tactic(auto, unfolding(crate::specs::Setup::setup_of_table))]
fn setup_of_table(alloc: Global, table: &Table) -> Result<Setup, LoadError>
    ensures { Gives setup_view result (setup_of_table (table_view table.now)) }
{
    let written = read_document(alloc, table)?;
    let limited = limited_of(alloc, &written)?;
    setup_of_limited(alloc, &written, limited)
}

/// The bytes as a text.
fn utf8_text(bytes: &[u8]) -> Option<&str>
    ensures { option_map (λ t. t.now) result ≡ (if is_utf8 bytes.now then Some bytes.now else None) }
{
    match std::str::from_utf8(bytes) {
        Ok(text) => Some(text),
        Err(_) => None,
    }
}

/// The bytes as a text, if they are few enough.
pub fn text_of(bytes: &[u8]) -> Option<&str>
    ensures { option_map (λ t. t.now) result ≡ text_of bytes.now }
{
    if bytes.len() > 1_048_576 {
        return None;
    }
    utf8_text(bytes)
}

/// The document of a text.
pub fn document_of(alloc: Global, text: &str) -> Result<Table, LoadError>
    ensures { Gives table_view result (document_of text.now) }
{
    match toml::table_from_str(alloc, text) {
        Ok(table) => Ok(table),
        Err(error) => match error.span() {
            Some(span) => Err(LoadError::at(Fault::Syntax, Spot::Byte(span.start))),
            None => Err(LoadError::Memory),
        },
    }
}

/// The setup of a settings text, read phase by phase.
#[tactic(auto, unfolding(crate::specs::Setup::setup_of))]
fn load_setup(alloc: Global, bytes: &[u8]) -> Result<Setup, LoadError>
    ensures gives { Gives setup_view result (setup_of bytes.now) }
    ensures text { text_of bytes.now ≡ None → IsErrAnd result (IsError (refused Text whole)) }
{
    let text = text_of(bytes).ok_or(LoadError::at(Fault::Text, Spot::Text))?;
    let table = document_of(alloc, text)?;
    setup_of_table(alloc, &table)
}

/// The setup of a settings text, or its first fault in the order of [`Fault`] over the whole document, and its first spot.
/// docs/SETTINGS.md has the keys.
pub fn load(alloc: Global, bytes: &[u8]) -> Result<Setup, LoadError>
    ensures value { Gives setup_view result (setup_of bytes.now) }

    // What is no text is refused before memory is taken.
    ensures text { text_of bytes.now ≡ None → IsErrAnd result (IsError (refused Text whole)) }
    ensures sound { IfOk result (λ s. IsSound (setup_view s)) }
{
    load_setup(alloc, bytes)
}
