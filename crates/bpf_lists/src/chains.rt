//! Rows with exact keys in chains, by a number that the keys give.
ghost use Rattle.std.specs.Prelude.{◌≡◌, ◌+◌, ◌*◌, ◌<◌, ◌≤◌, ◌/◌, slice_index, IfOk, IfSome, IsTrue, ◌↔◌, [], length, replicate};
ghost use Rattle.bpf_note.specs.Keys.{size as size_of};
ghost use Rattle.bpf_lists.specs.Keys.{row as row_of, count as count_of};
ghost use Rattle.bpf_lists.specs.Refusals.{AreFew};
ghost use Rattle.bpf_lists.specs.Chains.{word_at, mixed, chain_of, AreChains, AreChained, IsTold};

use crate::keys;
use crate::order::Order;
use bpf_note::KeyKind;
use std::alloc::{AllocError, Global};

/// The number of bytes in a group.
const GROUP: usize = 4;
/// The factor of each group: 2^32 over the golden ratio, as in Knuth's multiplicative hashing.
const MIXER: u64 = 0x9E37_79B1;
/// The number of numbers of 32 bits.
const WORDS: u64 = 0x1_0000_0000;
/// The number of a chain's rows that are compared with a key. After these all rows are searched, so no list makes a lookup slow.
const MOST_STEPS: u32 = 8;

/// Rows in chains.
#[derive(Drop)]
pub(crate) struct Chains {
    /// One above the last row of each chain, or 0.
    pub(crate) heads: Vec<u32>,
    /// One above the row before each row in its chain, or 0.
    pub(crate) links: Vec<u32>,
}

/// The answer of a chain to a key.
#[derive(Clone, Copy)]
pub(crate) enum Probe {
    Row(u32),
    Absent,
    /// The chain was too long to be followed.
    Unknown,
}

/// The byte at a place, or 0 past the end.
fn byte_at(bytes: &[u8], at: usize) -> u8
    ensures { result ≡ slice_index bytes.now at }
{
    *bytes.get(at).unwrap_or(&0)
}

/// The four bytes at a place as a number, with zeros past the end.
fn word_at(bytes: &[u8], at: usize) -> u32
    requires { at ≤ length bytes.now }
    ensures { result ≡ word_at bytes.now at }
{
    if bytes.len() - at >= GROUP {
        return u32::from_le_bytes([bytes[at], bytes[at + 1], bytes[at + 2], bytes[at + 3]]);
    }
    u32::from_le_bytes([
        byte_at(bytes, at),
        byte_at(bytes, at + 1),
        byte_at(bytes, at + 2),
        byte_at(bytes, at + 3),
    ])
}

/// A number that bytes give, four at a time.
fn mixed(bytes: &[u8]) -> u64
    ensures { result ≡ mixed ((length bytes.now + 3) / 4) bytes.now }
{
    let mut number = 0;
    for group in 0..(bytes.len() + GROUP - 1) / GROUP {
        number = number % WORDS * MIXER + u64::from(word_at(bytes, GROUP * group));
    }
    number
}

/// A key's chain.
fn chain_of(key: &[u8], chains: usize) -> usize
    requires some { 0 < chains }
    requires few { chains ≤ 131073 }
    ensures value { result ≡ chain_of key.now chains }
    ensures within { result < chains }
{
    let word = mixed(key) % WORDS * MIXER % WORDS;
    (word * chains as u64 / WORDS) as usize
}

/// Returns whether a row has this key.
fn has_key(kind: KeyKind, keys: &[u8], row: usize, key: &[u8]) -> bool
    requires { size_of kind * row + size_of kind ≤ length keys.now }
    ensures { IsTrue result ↔ (row_of kind keys.now row ≡ key.now) }
{
    keys::key_at(kind, keys, row) == key
}

impl Chains {
    /// Chains without rows, half as many rows as there are chains to be.
    fn none(alloc: Global, count: usize) -> Result<Chains, AllocError>
        requires { count ≤ 65536 }
        ensures heads { IfOk result (λ c. c.heads.items ≡ replicate (2 * count + 1) 0) }
        ensures links { IfOk result (λ c. c.links.items ≡ []) }
    {
        let heads = vec![in alloc; 0u32; 2 * count + 1]?;
        let links = Vec::with_capacity(alloc, count)?;
        Ok(Chains { heads, links })
    }

    /// The chains of so many rows.
    pub(crate) fn make(
        alloc: Global,
        kind: KeyKind,
        keys: &[u8],
        count: usize,
    ) -> Result<Chains, AllocError>
        requires few { AreFew kind keys.now }
        requires count { count ≡ count_of kind keys.now }
        ensures { IfOk result (λ c. AreChains kind keys.now (length c.heads.items) count c.heads.items c.links.items) }
    {
        let mut chains = Chains::none(alloc, count)?;
        for row in 0..count {
            let chain = chain_of(keys::key_at(kind, keys, row), chains.heads.len());
            chains.links.push(chains.heads[chain])?;
            chains.heads[chain] = row as u32 + 1;
        }
        Ok(chains)
    }

    /// The chains of all rows, if their keys are exact.
    pub(crate) fn of(alloc: Global, order: &Order) -> Result<Option<Chains>, AllocError>
        ensures { IfOk result (λ o. IfSome o (λ c. AreChained order.now.kind order.now.keys c.heads.items c.links.items)) }
    {
        let kind = order.kind();
        match kind {
            KeyKind::Exact(_) => {
                let chains = Chains::make(alloc, kind, order.keys(), order.len())?;
                Ok(Some(chains))
            }
            KeyKind::Prefix(_) => Ok(None),
        }
    }

    /// Returns what the key's chain says of it.
    pub(crate) fn find(&self, kind: KeyKind, keys: &[u8], key: &[u8]) -> Probe
        requires { AreChained kind keys.now self.now.heads.items self.now.links.items }
        ensures { IsTold kind keys.now key.now result }
    {
        let mut above = self.heads[chain_of(key, self.heads.len())];
        for _step in 0..MOST_STEPS {
            if above == 0 {
                return Probe::Absent;
            }
            let row = above - 1;
            if has_key(kind, keys, row as usize, key) {
                return Probe::Row(row);
            }
            above = self.links[row as usize];
        }
        Probe::Unknown
    }
}
