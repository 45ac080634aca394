//! Settings that say of which program theirs was made.
ghost use Rattle.toml.specs.View.{table_view};
ghost use Rattle.xdp_load.specs.Gives.{Gives};
ghost use Rattle.xdp_load.specs.ListedSeen.{listed_written_seen};
ghost use Rattle.xdp_load.specs.Original.{listed_beside, rewritten_of_table};
ghost use Rattle.xdp_load.specs.OriginalRows.{rewritten_seen};

use crate::fault::LoadError;
use crate::key::REWRITTEN_KEYS;
use crate::keyed_limits::listed_limits;
use crate::listed::{Listed, listed_setup_of};
use crate::listed_document::{ListedWritten, listed_by};
use crate::lists::ListBytes;
use crate::original::{OriginalPlace, limited_places, original_of, original_program};
use crate::setup::Setup;
use std::alloc::Global;
use toml::Table;

/// The settings beside their original, the keys of their lists as they are written.
#[derive(Drop)]
pub struct Unsorted {
    pub setup: Setup,
    pub lists: Vec<Option<ListBytes>>,
    pub original: Vec<u8>,
    pub places: Vec<OriginalPlace>,
}

/// Returns what a document says beside its original.
#[tactic(auto, unfolding(crate::specs::Original::listed_beside))]
pub(crate) fn listed_beside<'a>(
    alloc: Global,
    table: &'a Table,
) -> Result<ListedWritten<'a>, LoadError>
    ensures { Gives listed_written_seen result (listed_beside (table_view table.now)) }
{
    listed_by(alloc, table, &REWRITTEN_KEYS)
}

/// Returns what a document says.
#[tactic(auto, unfolding(crate::specs::Original::rewritten_of_table))]
pub(crate) fn rewritten_of_table(alloc: Global, table: &Table) -> Result<Unsorted, LoadError>
    ensures { Gives rewritten_seen result (rewritten_of_table (table_view table.now)) }
{
    let original = original_of(alloc, table)?;
    let written = listed_beside(alloc, table)?;
    let places = limited_places(alloc, original.places.as_slice())?;
    let limits = listed_limits(alloc, &written)?;
    let listed = listed_setup_of(alloc, &written, limits)?;
    let original = original_program(alloc, written.written.maps.as_slice(), &original)?;
    Ok(Unsorted {
        setup: listed.setup,
        lists: listed.lists,
        original,
        places,
    })
}

/// A setup with the lists of its maps, the bytes of the program that its own was made of, which has the same maps, and a place for
/// each slot. Nobody has to trust the places.
#[derive(Drop)]
pub struct Rewritten {
    pub listed: Listed,
    pub original: Vec<u8>,
    pub places: Vec<OriginalPlace>,
}
