//! Rows in the order of their data, and the search among them.
ghost use Rattle.std.specs.Prelude.{◌≡◌, ◌+◌, ◌-◌, ◌*◌, ◌<◌, ◌≤◌, ℕ, length, slice_index, ◌↔◌, IsTrue, ◌⊎◌};
ghost use Rattle.bpf_note.specs.Keys.{size as size_of, width as width_of, data_of};
ghost use Rattle.bpf_lists.specs.Keys.{value};
ghost use Rattle.bpf_lists.specs.Order.{at as key_of, lead as lead_of, IsOrdered, Covers, Reaches, AreParents, AreLeads, IsSpan};

use crate::starts::Starts;
use crate::{keys, numbers};
use bpf_note::KeyKind;
use std::marker::Model;

/// Rows in the order of their data, of those with the same data the shorter first.
#[derive(Drop)]
pub(crate) struct Order {
    pub(crate) kind: KeyKind,
    pub(crate) keys: Vec<u8>,
    pub(crate) rows: Vec<u32>,
}

/// The places among which a search goes on.
#[derive(Clone, Copy)]
struct Span {
    low: usize,
    high: usize,
}

impl Model for Order {
    ghost use Rattle.bpf_lists.specs.Order.{Ordered, IsOrdered};

    ghost Value = { Ordered };

    ghost view = { λ o. record { kind = o.kind; keys = o.keys.items; rows = o.rows.items } };

    ghost invariant = { λ o. IsOrdered (record { kind = o.kind; keys = o.keys.items; rows = o.rows.items }) };
}

impl Order {
    /// Returns the number of rows.
    pub(crate) fn len(&self) -> usize
        ensures value { result ≡ length self.now.rows }
        ensures ordered { IsOrdered self.now }
    {
        self.rows.len()
    }

    /// The kind of the keys.
    pub(crate) fn kind(&self) -> KeyKind
        ensures value { result ≡ self.now.kind }
        ensures ordered { IsOrdered self.now }
    {
        self.kind
    }

    /// The keys, one after the other.
    pub(crate) fn keys(&self) -> &[u8]
        ensures { result.now ≡ self.now.keys }
    {
        self.keys.as_slice()
    }

    /// The row at a place.
    pub(crate) fn row(&self, place: usize) -> u32
        requires { place < length self.now.rows }
        ensures { result ≡ slice_index self.now.rows place }
    {
        self.rows[place]
    }

    /// The key of the row at a place.
    pub(crate) fn key(&self, place: usize) -> &[u8]
        requires { place < length self.now.rows }
        ensures value { result.now ≡ key_of self.now place }
        ensures len { length result.now ≡ size_of self.now.kind }
    {
        keys::key_at(self.kind, self.keys.as_slice(), self.rows[place] as usize)
    }

    /// Returns whether the row at a place holds for a key.
    pub(crate) fn covers(&self, place: usize, key: &[u8]) -> bool
        requires place { place < length self.now.rows }
        requires key { length key.now ≡ size_of self.now.kind }
        ensures { IsTrue result ↔ Covers self.now.kind (key_of self.now place) key.now }
    {
        keys::covers(self.kind(), self.key(place), key)
    }

    /// The data of the row at a place.
    pub(crate) fn data_at(&self, place: usize) -> &[u8]
        requires { place < length self.now.rows }
        ensures value { result.now ≡ data_of self.now.kind (key_of self.now place) }
        ensures len { length result.now ≡ width_of self.now.kind }
    {
        self.kind().data_bytes(self.key(place))
    }

    /// Returns whether the data at a place are above these, by the numbers at their fronts where these differ.
    fn is_above(&self, leads: &[u64], place: usize, lead: u64, wanted: &[u8]) -> bool
        requires place { place < length self.now.rows }
        requires leads { AreLeads self.now leads.now }
        requires lead { lead ≡ lead_of wanted.now }
        requires wanted { length wanted.now ≡ width_of self.now.kind }
        ensures { IsTrue result ↔ (value wanted.now < value (data_of self.now.kind (key_of self.now place))) }
    {
        // Only the proof uses what this call ensures: the rows are in order.
        let _kind = self.kind();
        if leads[place] != lead {
            return lead < leads[place];
        }
        numbers::compare(self.data_at(place), wanted).is_gt()
    }

    /// The places that are left of a span once the row at this place is known, or the span if the place isn't in it.
    fn probed(&self, leads: &[u64], span: Span, place: usize, lead: u64, wanted: &[u8]) -> Span
        requires leads { AreLeads self.now leads.now }
        requires lead { lead ≡ lead_of wanted.now }
        requires wanted { length wanted.now ≡ width_of self.now.kind }
        requires span { IsSpan self.now (value wanted.now) span.low span.high }
        ensures span { IsSpan self.now (value wanted.now) result.low result.high }
        ensures less { span.low ≤ place → place < span.high → result.high - result.low < span.high - span.low }
    {
        // Only the proof uses what this call ensures: the rows are in order.
        let _kind = self.kind();
        if place < span.low || span.high <= place {
            return span;
        }
        if self.is_above(leads, place, lead, wanted) {
            Span {
                low: span.low,
                high: place,
            }
        } else {
            Span {
                low: place + 1,
                high: span.high,
            }
        }
    }

    /// The first place whose row's data are above those of the key.
    pub(crate) fn first_above(&self, leads: &[u64], starts: &Starts, key: &[u8]) -> usize
        requires leads { AreLeads self.now leads.now }
        requires key { length key.now ≡ size_of self.now.kind }
        ensures most { result ≤ length self.now.rows }
        ensures low { (i : ℕ) → i < result → value (data_of self.now.kind (key_of self.now i)) ≤ value (data_of self.now.kind key.now) }
        ensures high { (i : ℕ) → result ≤ i → i < length self.now.rows →
            value (data_of self.now.kind key.now) < value (data_of self.now.kind (key_of self.now i)) }
    {
        let wanted = self.kind().data_bytes(key);
        let lead = numbers::lead(wanted);
        let (before, after) = starts.around(lead);
        let all = Span {
            low: 0,
            high: self.len(),
        };
        let first = self.probed(leads, all, before, lead, wanted);
        let mut span = self.probed(leads, first, after, lead, wanted);
        while span.low < span.high {
            let middle = span.low + (span.high - span.low) / 2;
            span = self.probed(leads, span, middle, lead, wanted);
        }
        span.low
    }

    /// Goes from the place below `from` to the rows that cover its row, up to one that covers the key. One above its place, or 0.
    pub(crate) fn climb(&self, parents: &[u32], from: usize, key: &[u8]) -> usize
        requires from { from ≤ length parents.now }
        requires parents { length parents.now ≤ length self.now.rows }
        requires nested { AreParents self.now parents.now }
        requires key { length key.now ≡ size_of self.now.kind }
        requires start { Reaches self.now from key.now from }
        ensures most { result ≤ from }
        ensures reaches { Reaches self.now from key.now result }
        ensures covers { 0 < result → Covers self.now.kind (key_of self.now (result - 1)) key.now }
    {
        let mut above = from;
        while above > 0 && !self.covers(above - 1, key) {
            above = parents[above - 1] as usize;
        }
        above
    }
}
