//! A name that is looked for at the names of many symbols.
ghost use Rattle.std.specs.Prelude.{◌≡◌, ◌<◌, ℕ, length, ◌↔◌, IsTrue};
ghost use Rattle.bpf_object.specs.Bytes.{IsText};
ghost use Rattle.bpf_object.specs.Sought.{AreMissed};

use crate::bytes;
use std::alloc::Global;
use std::marker::Model;

/// The most bytes of a name that is compared anew at each symbol.
const SHORT_BYTES: usize = 32;

/// A name and a string table. Of a long name the places are kept where it isn't, since many symbols may have theirs at one place: then
/// all comparisons together take no longer than the table. Contracts see the table and the name.
#[derive(Drop)]
pub(crate) struct Sought<'a> {
    table: &'a [u8],
    name: &'a [u8],
    missed: Vec<bool>,
}

impl<'a> Model for Sought<'a> {
    ghost use Rattle.bpf_object.specs.Sought.{NameIn, AreMissed};

    ghost Value = { NameIn };

    ghost view = { λ s. record { table = s.table.now; name = s.name.now } };

    ghost invariant = { λ s. AreMissed s.table.now s.name.now s.missed.items };
}

/// Room for the places of a table where a long name isn't. Without memory there is none, and no place is kept.
#[tactic(auto, using(crate::proofs::SoughtLemmas::none_missed))]
fn no_places(alloc: Global, table: &[u8], name: &[u8]) -> Vec<bool>
    ensures { AreMissed table.now name.now result.items }
{
    if name.len() <= SHORT_BYTES {
        return Vec::new(alloc);
    }
    match vec![in alloc; false; table.len()] {
        Ok(places) => places,
        Err(_) => Vec::new(alloc),
    }
}

impl<'a> Sought<'a> {
    /// The name, which wasn't looked for at any place yet.
    pub(crate) fn new(alloc: Global, table: &'a [u8], name: &'a [u8]) -> Sought<'a>
        ensures table { result.table ≡ table.now }
        ensures name { result.name ≡ name.now }
    {
        let missed = no_places(alloc, table, name);
        Sought {
            table,
            name,
            missed,
        }
    }

    /// Returns whether a place is known to be none of the name's.
    fn is_missed(&self, place: usize) -> bool
        ensures { IsTrue result → IsText self.now.table place self.now.name → ⊥ }
    {
        place < self.missed.len() && self.missed[place]
    }

    /// Keeps a place where the name isn't.
    fn miss(&mut self, place: usize)
        requires { IsText self.old.table place self.old.name → ⊥ }
        ensures { self.new ≡ self.old }
    {
        if place < self.missed.len() {
            self.missed[place] = true;
        }
    }

    /// Returns whether the table has the name at a place.
    pub(crate) fn is_at(&mut self, place: usize) -> bool
        ensures value { IsTrue result ↔ IsText self.old.table place self.old.name }
        ensures kept { self.new ≡ self.old }
    {
        if self.is_missed(place) {
            return false;
        }
        let is = bytes::is_text(self.table, place, self.name);
        if !is {
            self.miss(place);
        }
        is
    }
}
