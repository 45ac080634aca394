//! A domain's grant table.

ghost use Rattle.std.specs.Prelude.{◌≡◌, ◌+◌, ◌<◌, ◌≤◌, ◌↔◌, All, Contains, IfSome, IsTrue, length};
ghost use Rattle.std.specs.Option.{SomeIff};
ghost use Rattle.xen_page.specs.Table.{IsSmallTable, IsTable, entry_place};

use crate::entry::is_owner;
use crate::owners::Owners;
use crate::place::Place;
use std::marker::Model;

/// The most frames of a table that `Table::make` makes, and of one that `Table::large` does: Xen's default for a guest.
pub const MAX_TABLE_FRAMES: usize = 16;

pub const MAX_LARGE_TABLE_FRAMES: usize = 64;
/// The number of entries of two words in a frame of a table.
pub const ENTRIES: u32 = 512;

/// The frames of a domain's grant table, 1 to 64 of them. Contracts see the list of the frames.
#[derive(Debug, Drop)]
pub struct Table {
    frames: [u32; MAX_LARGE_TABLE_FRAMES],
    count: usize,
}

impl Model for Table {
    ghost use Rattle.std.specs.Prelude.{ℕ, List, ◌≤◌, take};

    ghost Value = { List ℕ };

    ghost view = { λ t. take t.count t.frames };

    ghost invariant = { λ t. (1 ≤ t.count) × (t.count ≤ 64) };
}

impl Table {
    /// The table of these frames, if there are 1 to 16, which exist and are the granter's.
    pub fn make(owners: &Owners, granter: u16, frames: &[u32]) -> Option<Table>
        ensures { SomeIff result (IsSmallTable owners.now granter frames.now) frames.now }
    {
        if frames.len() > MAX_TABLE_FRAMES {
            return None;
        }
        Table::large(owners, granter, frames)
    }

    /// The table of these frames, if there are 1 to 64, which exist and are the granter's.
    pub fn large(owners: &Owners, granter: u16, frames: &[u32]) -> Option<Table>
        ensures { SomeIff result (IsTable owners.now granter frames.now) frames.now }
    {
        let count = frames.len();
        if count == 0
            || count > MAX_LARGE_TABLE_FRAMES
            || !frames.iter().all(|f| is_owner(owners, granter, *f))
        {
            return None;
        }
        let mut kept = [0; MAX_LARGE_TABLE_FRAMES];
        kept[..count].copy_from_slice(frames);
        Some(Table {
            frames: kept,
            count,
        })
    }

    /// The frames of the table.
    pub fn frames(&self) -> &[u32]
        ensures frames { result.now ≡ self.now }
        ensures few { length result.now ≤ 64 }
    {
        &self.frames[..self.count]
    }

    /// Returns whether the table lies within a bus of `frames` frames, as `map` requires.
    pub fn is_within(&self, frames: u32) -> bool
        ensures { IsTrue result ↔ All (λ frame. frame < frames) self.now }
    {
        self.frames[..self.count]
            .iter()
            .all(|frame| *frame < frames)
    }

    /// The place of the flags word of a reference's entry, if the reference is in the table.
    pub fn place(&self, gref: u32) -> Option<Place>
        ensures place { result ≡ entry_place self.now gref }
        ensures in_page { IfSome result (λ at. at.word + 1 < 1024) }
        ensures in_table { IfSome result (λ at. Contains self.now at.frame) }
    {
        let frame = *self.frames[..self.count].get((gref / ENTRIES) as usize)?;
        Some(Place {
            frame,
            word: 2 * (gref % ENTRIES),
        })
    }
}
