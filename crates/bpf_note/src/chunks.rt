//! Bounds in chunks: chunk k has those of the ids 32 k to 32 k + 31, and past the last chunk there are none.
ghost use Rattle.std.specs.Prelude.{◌≡◌, ◌<◌, ◌≤◌, ◌↔◌, ◌/◌, ℕ, [], max, length, slice_index_or, IfOk, IsTrue, OnOk, OnErr};
ghost use Rattle.bpf_note.specs.Bounds.{AreJoined, IsSetIn};
ghost use Rattle.bpf_note.specs.Chunks.{SameChunks, AlikeChunks};
ghost use Rattle.bpf_note.specs.Parts.{IsNormal};

use crate::bound::Bound;
use crate::chunk::Chunk;
use std::alloc::{AllocError, Global};
use std::marker::Model;
use std::rc::Rc;

/// The ids of a chunk.
const CHUNK_IDS: u16 = 32;

/// All that is known of ids below 4,096. A copy shares the chunks until one of the two is changed.
#[derive(Drop)]
pub(crate) struct Chunks {
    list: Option<Rc<Vec<Chunk>>>,
}

impl Model for Chunks {
    ghost use Rattle.std.specs.Prelude.{List};
    ghost use Rattle.bpf_note.specs.declared.bound.Bound.{Bound};
    ghost use Rattle.bpf_note.specs.Shared.{listed};

    ghost Value = { List (List Bound) };

    ghost view = { λ s. listed (λ r. r.value.items) s.list };
}

impl Chunks {
    /// No chunks. It takes no memory.
    pub(crate) fn none() -> Chunks
        ensures { result ≡ [] }
    {
        Chunks { list: None }
    }

    /// Another reference to these chunks.
    pub(crate) fn share(&self) -> Result<Chunks, AllocError>
        ensures { IfOk result (λ s. s ≡ self.now) }
    {
        let list = match &self.list {
            Some(list) => Some(list.clone()?),
            None => None,
        };
        Ok(Chunks { list })
    }

    fn as_slice(&self) -> &[Chunk]
        ensures { result.now ≡ self.now }
    {
        match &self.list {
            Some(list) => list.as_slice(),
            None => &[],
        }
    }

    /// The bounds of the chunk that has an id.
    pub(crate) fn of_id(&self, id: u16) -> &[Bound]
        ensures same { result.now ≡ slice_index_or self.now (id / 32) [] }
        ensures normal { IsNormal result.now }
    {
        chunk_at(self.as_slice(), chunk_number(id))
    }

    /// Returns whether the two say the same of each id.
    pub(crate) fn same_as(&self, other: &Chunks) -> bool
        ensures { IsTrue result ↔ SameChunks self.now other.now }
    {
        are_same_chunks(self.as_slice(), other.as_slice())
    }

    /// Returns whether the chunks that both have are of the same fingerprints.
    pub(crate) fn look_alike(&self, other: &Chunks) -> bool
        ensures { IsTrue result ↔ AlikeChunks self.now other.now }
    {
        are_alike(self.as_slice(), other.as_slice())
    }

    /// Returns whether the join of each chunk with the other's is the first.
    pub(crate) fn covers(&self, other: &Chunks) -> bool
        ensures { IsTrue result ↔ ((k : ℕ) → AreJoined (slice_index_or self.now k []) (slice_index_or other.now k [])
            (slice_index_or self.now k [])) }
    {
        covers_chunks(self.as_slice(), other.as_slice())
    }

    /// The chunks joined one by one.
    pub(crate) fn joined(&self, alloc: Global, other: &Chunks) -> Result<Chunks, AllocError>
        ensures size { IfOk result (λ s. length s ≤ max (length self.now) (length other.now)) }
        ensures joined { IfOk result (λ s. (k : ℕ) →
            AreJoined (slice_index_or self.now k []) (slice_index_or other.now k []) (slice_index_or s k [])) }
    {
        if self.list.is_none() && other.list.is_none() {
            return Ok(Chunks::none());
        }
        let joined = join_chunks(alloc, self.as_slice(), other.as_slice())?;
        Ok(Chunks {
            list: Some(Rc::new(alloc, joined)?),
        })
    }

    /// Sets what is known of an id. After an `Err` the two say the same.
    pub(crate) fn set(&mut self, alloc: Global, new: Bound) -> Result<(), AllocError>
        requires few { length self.old ≤ 128 }
        requires low { new.id < 4096 }
        ensures few { length self.new ≤ 128 }
        ensures ok { OnOk result (IsSetIn self.old new self.new) }
        ensures err { OnErr result (SameChunks self.old self.new) }
    {
        if let Some(list) = &mut self.list {
            if let Some(own) = Rc::get_mut(list) {
                return set_in_chunks(alloc, own, new);
            }
        }
        let mut own = shared_chunks(alloc, self.as_slice(), chunk_number(new.id) + 1)?;
        set_in_chunks(alloc, &mut own, new)?;
        self.list = Some(Rc::new(alloc, own)?);
        Ok(())
    }
}

/// The number of the chunk that has an id.
fn chunk_number(id: u16) -> usize
    ensures { result ≡ id / 32 }
{
    usize::from(id / CHUNK_IDS)
}

/// The bounds of a chunk.
fn chunk_at(chunks: &[Chunk], number: usize) -> &[Bound]
    ensures same { result.now ≡ slice_index_or chunks.now number [] }
    ensures normal { IsNormal result.now }
{
    match chunks.get(number) {
        Some(chunk) => chunk.as_slice(),
        None => &[],
    }
}

/// Another reference to each of these chunks, with room for `room` chunks.
fn shared_chunks(alloc: Global, chunks: &[Chunk], room: usize) -> Result<Vec<Chunk>, AllocError>
    ensures { IfOk result (λ v. v.items ≡ chunks.now) }
{
    let mut copy = Vec::with_capacity(alloc, chunks.len().max(room))?;
    for chunk in chunks {
        copy.push(chunk.share()?)?;
    }
    Ok(copy)
}

/// Sets what is known of an id. An `Err` changes no chunk.
fn set_in_chunks(alloc: Global, chunks: &mut Vec<Chunk>, new: Bound) -> Result<(), AllocError>
    requires few { length chunks.old.items ≤ 128 }
    requires low { new.id < 4096 }
    ensures few { length chunks.new.items ≤ 128 }
    ensures ok { OnOk result (IsSetIn chunks.old.items new chunks.new.items) }
    ensures err { OnErr result (SameChunks chunks.old.items chunks.new.items) }
{
    let at = chunk_number(new.id);
    grow(chunks, at + 1)?;
    chunks[at].set(alloc, new)
}

/// Adds chunks without bounds until there are `size` chunks.
fn grow(chunks: &mut Vec<Chunk>, size: usize) -> Result<(), AllocError>
    ensures same { SameChunks chunks.old.items chunks.new.items }
    ensures most { length chunks.new.items ≤ max (length chunks.old.items) size }
    ensures ok { OnOk result (size ≤ length chunks.new.items) }
{
    while chunks.len() < size {
        chunks.push(Chunk::none())?;
    }
    Ok(())
}

/// The chunks joined one by one.
fn join_chunks(alloc: Global, a: &[Chunk], b: &[Chunk]) -> Result<Vec<Chunk>, AllocError>
    ensures size { IfOk result (λ v. length v.items ≡ max (length a.now) (length b.now)) }
    ensures joined { IfOk result (λ v. (k : ℕ) → AreJoined (slice_index_or a.now k []) (slice_index_or b.now k [])
        (slice_index_or v.items k [])) }
{
    let size = a.len().max(b.len());
    let mut joined = Vec::with_capacity(alloc, size)?;
    for k in 0..size {
        joined.push(join_chunk(alloc, a, b, k)?)?;
    }
    Ok(joined)
}

/// A chunk of either joined.
fn join_chunk(alloc: Global, a: &[Chunk], b: &[Chunk], number: usize) -> Result<Chunk, AllocError>
    ensures { IfOk result (λ c. AreJoined (slice_index_or a.now number []) (slice_index_or b.now number []) c) }
{
    let none = Chunk::none();
    let own = a.get(number).unwrap_or(&none);
    own.joined(alloc, b.get(number).unwrap_or(&none))
}

/// Returns whether the join of each chunk with the other's is the first.
fn covers_chunks(a: &[Chunk], b: &[Chunk]) -> bool
    ensures { IsTrue result ↔ ((k : ℕ) → AreJoined (slice_index_or a.now k []) (slice_index_or b.now k []) (slice_index_or a.now k [])) }
{
    for k in 0..a.len().max(b.len()) {
        if !covers_chunk(a, b, k) {
            return false;
        }
    }
    true
}

fn covers_chunk(a: &[Chunk], b: &[Chunk], number: usize) -> bool
    ensures { IsTrue result ↔ AreJoined (slice_index_or a.now number []) (slice_index_or b.now number []) (slice_index_or a.now number []) }
{
    let none = Chunk::none();
    let own = a.get(number).unwrap_or(&none);
    own.covers(b.get(number).unwrap_or(&none))
}

/// Returns whether the chunks are equal. Those that differ mostly do so in what was made last, so the last are compared first.
fn are_same_chunks(a: &[Chunk], b: &[Chunk]) -> bool
    ensures { IsTrue result ↔ SameChunks a.now b.now }
{
    let size = a.len().max(b.len());
    if !is_same_chunk(a, b, size.saturating_sub(1)) {
        return false;
    }
    for k in 0..size {
        if !is_same_chunk(a, b, k) {
            return false;
        }
    }
    true
}

/// Returns whether the chunks that both have are of the same fingerprints.
fn are_alike(a: &[Chunk], b: &[Chunk]) -> bool
    ensures { IsTrue result ↔ AlikeChunks a.now b.now }
{
    for k in 0..a.len().min(b.len()) {
        if a[k].fingerprint() != b[k].fingerprint() {
            return false;
        }
    }
    true
}

fn is_same_chunk(a: &[Chunk], b: &[Chunk], number: usize) -> bool
    ensures { IsTrue result ↔ (slice_index_or a.now number [] ≡ slice_index_or b.now number []) }
{
    let none = Chunk::none();
    let own = a.get(number).unwrap_or(&none);
    own.same_as(b.get(number).unwrap_or(&none))
}
