//! The rows of a keyed map.
ghost use Rattle.std.specs.Prelude.{◌≡◌, length, IfOk, IfErr, ℕ, List, Option};
ghost use Rattle.bpf_note.specs.Keys.{size as size_of};
ghost use Rattle.bpf_lists.specs.Keys.{IsFound};
ghost use Rattle.bpf_lists.specs.Find.{row_for};
ghost use Rattle.bpf_lists.specs.Chains.{IsTold};
ghost use Rattle.bpf_lists.specs.Refusals.{AreListed, IsRefused};

use crate::chains::{Chains, Probe};
use crate::order::Order;
use crate::refusal::RowsRefusal;
use crate::starts::Starts;
use crate::{keys, sorting};
use bpf_note::KeyKind;
use std::alloc::Global;
use std::marker::Model;

/// The rows of a keyed map. Contracts see the kind of the keys, and the keys one after the other.
#[derive(Drop)]
pub struct KeyedRows {
    order: Order,
    parents: Vec<u32>,
    leads: Vec<u64>,
    starts: Starts,
    chains: Option<Chains>,
}

impl Model for KeyedRows {
    ghost use Rattle.std.specs.Prelude.{◌≡◌, length, IfSome};
    ghost use Rattle.bpf_lists.specs.Keys.{Keyed};
    ghost use Rattle.bpf_lists.specs.Order.{AreParents, AreLeads};
    ghost use Rattle.bpf_lists.specs.Chains.{AreChained};

    ghost Value = { Keyed };

    ghost view = { λ t. record { kind = t.order.kind; keys = t.order.keys } };

    ghost invariant = { λ t. (length t.parents.items ≡ length t.order.rows) × AreParents t.order t.parents.items × AreLeads t.order t.leads.items
        × IfSome t.chains (λ c. AreChained t.order.kind t.order.keys c.heads.items c.links.items) };
}

impl KeyedRows {
    /// Rows with these keys, one after the other, each as a map's lookup takes it.
    pub fn make(alloc: Global, kind: KeyKind, keys: &[u8]) -> Result<KeyedRows, RowsRefusal>
        ensures kind { IfOk result (λ t. t.kind ≡ kind) }
        ensures keys { IfOk result (λ t. t.keys ≡ keys.now) }
        ensures listed { IfOk result (λ t. AreListed kind keys.now) }
        ensures refused { IfErr result (IsRefused kind keys.now) }
    {
        let count = keys::checked_count(kind, keys)?;
        keys::check_rows(kind, keys, count)?;
        let order = sorting::order(alloc, kind, keys, count)?;
        let parents = sorting::parents(alloc, &order)?;
        let leads = sorting::leads(alloc, &order)?;
        let starts = Starts::make(alloc, &order, leads.as_slice())?;
        let chains = Chains::of(alloc, &order)?;
        Ok(KeyedRows {
            order,
            parents,
            leads,
            starts,
            chains,
        })
    }

    /// The kind of the keys.
    pub fn kind(&self) -> KeyKind
        ensures { result ≡ self.now.kind }
    {
        self.order.kind()
    }

    /// A lookup has one answer, which is the one that `row_for` computes. A law, empty at run time.
    pub fn has_one_answer(&self)
        ensures listed { AreListed self.now.kind self.now.keys }
        ensures found { (key : List ℕ) → IsFound self.now.kind self.now.keys key (row_for self.now key) }
        ensures one { (key : List ℕ) (answer : Option ℕ) → IsFound self.now.kind self.now.keys key answer → answer ≡ row_for self.now key }
    {
        // Only the proof uses what this call ensures: the rows are in order.
        let _kind = self.order.kind();
    }

    /// The row with this key, or with the longest prefix that it begins with and that is no longer.
    pub fn find(&self, key: &[u8]) -> Option<u32>
        requires { length key.now ≡ size_of self.now.kind }
        ensures { IsFound self.now.kind self.now.keys key.now result }
    {
        match self.probe(key) {
            Probe::Row(row) => Some(row),
            Probe::Absent => None,
            Probe::Unknown => self.search(key),
        }
    }

    /// Returns what the key's chain says of it. Prefixes have no chains.
    fn probe(&self, key: &[u8]) -> Probe
        ensures { IsTold self.now.kind self.now.keys key.now result }
    {
        match &self.chains {
            Some(chains) => chains.find(self.order.kind(), self.order.keys(), key),
            None => Probe::Unknown,
        }
    }

    /// The same by a search among all rows.
    fn search(&self, key: &[u8]) -> Option<u32>
        requires { length key.now ≡ size_of self.now.kind }
        ensures { IsFound self.now.kind self.now.keys key.now result }
    {
        let kind = self.order.kind();
        if kind.data_bits(key) as usize > 8 * kind.width() {
            return None;
        }
        let from = self
            .order
            .first_above(self.leads.as_slice(), &self.starts, key);
        let above = self.order.climb(self.parents.as_slice(), from, key);
        if above == 0 {
            return None;
        }
        Some(self.order.row(above - 1))
    }
}
