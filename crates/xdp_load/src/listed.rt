//! Settings whose maps may have lists of keys, and wider limits.
ghost use Rattle.std.specs.Prelude.{◌≡◌, ◌≤◌, IfOk, IfErr, IsErrAnd, None, map, vec_len};
ghost use Rattle.bpf_note.specs.Shape.{most_maps};
ghost use Rattle.toml.specs.View.{table_view};
ghost use Rattle.xdp_load.specs.Gives.{Gives, IsError};
ghost use Rattle.xdp_load.specs.Listed.{listed_of, listed_of_table, listed_setup_of, listed_setup_with};
ghost use Rattle.xdp_load.specs.ListedGiven.{IsListedError, listed_view};
ghost use Rattle.xdp_load.specs.ListedSeen.{listed_written_seen, unsorted_seen};
ghost use Rattle.xdp_load.specs.LimitsSeen.{limited_seen};
ghost use Rattle.xdp_load.specs.ListedSound.{IsListedSound};
ghost use Rattle.xdp_load.specs.Setup.{text_of};
ghost use Rattle.xdp_load.specs.SetupSeen.{packet_view};
ghost use Rattle.xdp_load.specs.Spot.{refused, whole};
ghost use Rattle.xdp_load.specs.declared.fault.Fault.TheVariants.{Text};

use crate::fault::{Fault, LoadError};
use crate::key::Key;
use crate::keyed_limits::listed_limits;
use crate::limits::WithinLimits;
use crate::listed_document::{ListedWritten, read_listed};
use crate::lists::{ListBytes, lists_of, sorted_lists};
use crate::names::bad_name;
use crate::packets::SentPacket;
use crate::setup::{Setup, decoded_of, document_of, relocated_setup, text_of};
use crate::spot::Spot;
use bpf_lists::MapList;
use std::alloc::Global;
use toml::Table;

/// The setup of settings whose maps may have lists, with the keys of each.
#[derive(Drop)]
pub struct Unsorted {
    pub setup: Setup,
    pub lists: Vec<Option<ListBytes>>,
}

/// The setup of a document whose program and packets are read.
#[tactic(auto, unfolding(crate::specs::Listed::listed_setup_with))]
fn listed_setup_with(
    alloc: Global,
    listed: &ListedWritten<'_>,
    limits: WithinLimits<'_>,
    decoded: (Vec<u8>, Vec<SentPacket>),
) -> Result<Unsorted, LoadError>
    requires counted { vec_len limits.shapes ≡ vec_len listed.now.maps }
    requires few { vec_len listed.now.written.maps ≤ most_maps }
    ensures { Gives unsorted_seen result (listed_setup_with (listed_written_seen listed.now) (limited_seen limits.entry)
        (decoded.0.items, map packet_view decoded.1.items)) }
{
    let lists = lists_of(alloc, limits.shapes.as_slice(), listed.maps.as_slice())?;
    let setup = relocated_setup(alloc, &listed.written, limits, decoded)?;
    Ok(Unsorted { setup, lists })
}

/// The setup of a document within its limits.
#[tactic(auto, using(crate::proofs::RowLemmas::names_seen), unfolding(crate::specs::Listed::listed_setup_of))]
pub fn listed_setup_of(
    alloc: Global,
    listed: &ListedWritten<'_>,
    limits: WithinLimits<'_>,
) -> Result<Unsorted, LoadError>
    requires counted { vec_len limits.shapes ≡ vec_len listed.now.maps }
    requires few { vec_len listed.now.written.maps ≤ most_maps }
    ensures { Gives unsorted_seen result (listed_setup_of (listed_written_seen listed.now) (limited_seen limits.entry)) }
{
    if let Some(number) = bad_name(listed.written.maps.as_slice()) {
        return Err(LoadError::at(Fault::Name, Spot::Row(Key::Name, number)));
    }
    let decoded = decoded_of(alloc, &listed.written, &limits)?;
    listed_setup_with(alloc, listed, limits, decoded)
}

/// The setup of a document.
#[tactic(auto, unfolding(crate::specs::Listed::listed_of_table))]
fn listed_of_table(alloc: Global, table: &Table) -> Result<Unsorted, LoadError>
    ensures { Gives unsorted_seen result (listed_of_table (table_view table.now)) }
{
    let listed = read_listed(alloc, table)?;
    let limits = listed_limits(alloc, &listed)?;
    listed_setup_of(alloc, &listed, limits)
}

/// The setup of a settings text, read phase by phase.
#[tactic(auto, unfolding(crate::specs::Listed::listed_of))]
fn listed_setup(alloc: Global, bytes: &[u8]) -> Result<Unsorted, LoadError>
    ensures gives { Gives unsorted_seen result (listed_of bytes.now) }
    ensures text { text_of bytes.now ≡ None → IsErrAnd result (IsError (refused Text whole)) }
{
    let text = text_of(bytes).ok_or(LoadError::at(Fault::Text, Spot::Text))?;
    let table = document_of(alloc, text)?;
    listed_of_table(alloc, &table)
}

/// The setup of settings whose maps may have lists, and for each map its list, if it has one, where row `k` is the key of value `k`;
/// or its constants.
#[derive(Drop)]
pub struct Listed {
    pub setup: Setup,
    pub lists: Vec<Option<MapList>>,
}

/// The setup of a settings text whose maps may have lists and wider limits, or its first fault in the order of [`Fault`] over the
/// whole document, and its first spot. What has none of the keys for these is read as [`load`](crate::load) reads it.
pub fn load_listed(alloc: Global, bytes: &[u8]) -> Result<Listed, LoadError>
    ensures value { IfOk result (λ x. listed_of bytes.now ≡ Ok (listed_view x)) }
    ensures refused { IfErr result (IsListedError (listed_of bytes.now)) }

    // What is no text is refused before memory is taken.
    ensures text { text_of bytes.now ≡ None → IsErrAnd result (IsError (refused Text whole)) }
    ensures sound { IfOk result (λ x. IsListedSound (listed_view x)) }
{
    let unsorted = listed_setup(alloc, bytes)?;
    let lists = sorted_lists(alloc, unsorted.lists.as_slice())?;
    Ok(Listed {
        setup: unsorted.setup,
        lists,
    })
}
