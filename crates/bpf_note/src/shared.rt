//! Bounds that notes share until one of them changes its own.
ghost use Rattle.std.specs.Prelude.{◌≡◌, ◌↔◌, [], IfOk, IsTrue, OnOk, OnErr};
ghost use Rattle.bpf_note.specs.Bounds.{IsSet, AreJoined};
ghost use Rattle.bpf_note.specs.Parts.{IsNormal, top_in, safe_in};

use crate::bound::Bound;
use crate::bounds::{safe_of, stands, top_of};
use crate::chunk::Chunk;
use crate::chunks::Chunks;
use std::alloc::{AllocError, Global};
use std::marker::Model;

/// The first id that isn't in the chunks: a slot's number is less.
const HIGH: u16 = 4096;

/// All that is known of ids. A copy shares each part until one of the two changes it: a change copies one chunk, and a list of
/// references to the others.
#[derive(Drop)]
pub(crate) struct SharedBounds {
    alloc: Global,
    /// The ids of slots.
    low: Chunks,
    /// The ids past them, the packet's start.
    high: Chunk,
}

impl Model for SharedBounds {
    ghost use Rattle.std.specs.Prelude.{List, ◌++◌};
    ghost use Rattle.bpf_note.specs.declared.bound.Bound.{Bound};
    ghost use Rattle.bpf_note.specs.Chunks.{AreChunks, together};

    ghost Value = { List Bound };

    ghost view = { λ s. together s.low ++ s.high };

    ghost invariant = { λ s. AreChunks s.low s.high };
}

impl SharedBounds {
    /// No bounds. It takes no memory.
    pub(crate) fn none(alloc: Global) -> SharedBounds
        ensures { result ≡ [] }
    {
        SharedBounds {
            alloc,
            low: Chunks::none(),
            high: Chunk::none(),
        }
    }

    /// A copy of these bounds, which shares their chunks.
    pub(crate) fn share(&self) -> Result<SharedBounds, AllocError>
        ensures { IfOk result (λ s. s ≡ self.now) }
    {
        Ok(SharedBounds {
            alloc: self.alloc,
            low: self.low.share()?,
            high: self.high.share()?,
        })
    }

    /// Bounds that say of an id what these do.
    fn near(&self, id: u16) -> &[Bound]
        ensures top { top_in result.now id ≡ top_in self.now id }
        ensures safe { safe_in result.now id ≡ safe_in self.now id }
        ensures normal { IsNormal result.now }
    {
        if id < HIGH {
            self.low.of_id(id)
        } else {
            self.high.as_slice()
        }
    }

    /// The greatest base of an id.
    pub(crate) fn top(&self, id: u16) -> u32
        ensures { result ≡ top_in self.now id }
    {
        top_of(self.near(id), id)
    }

    /// The safe bound of an id.
    pub(crate) fn safe(&self, id: u16) -> Option<u32>
        ensures { result ≡ safe_in self.now id }
    {
        safe_of(self.near(id), id)
    }

    /// Returns whether the bounds may be equal: by their fingerprints alone, which tell nearly all apart that differ.
    pub(crate) fn look_alike(&self, other: &SharedBounds) -> bool
        ensures { self.now ≡ other.now → IsTrue result }
    {
        self.high.fingerprint() == other.high.fingerprint() && self.low.look_alike(&other.low)
    }

    /// Returns whether the bounds are equal. What is known of the packet's start differs the most often, and is compared first.
    pub(crate) fn same_as(&self, other: &SharedBounds) -> bool
        ensures { IsTrue result ↔ (self.now ≡ other.now) }
    {
        self.high.same_as(&other.high) && self.low.same_as(&other.low)
    }

    /// Returns whether the join of the two is the first.
    pub(crate) fn covers(&self, other: &SharedBounds) -> bool
        ensures { IsTrue result ↔ AreJoined self.now other.now self.now }
    {
        self.high.covers(&other.high) && self.low.covers(&other.low)
    }

    /// Returns what is known of each id if either may be true.
    pub(crate) fn joined(&self, other: &SharedBounds) -> Result<SharedBounds, AllocError>
        ensures { IfOk result (λ s. AreJoined self.now other.now s) }
    {
        Ok(SharedBounds {
            alloc: self.alloc,
            low: self.low.joined(self.alloc, &other.low)?,
            high: self.high.joined(self.alloc, &other.high)?,
        })
    }

    /// Sets what is known of an id. An `Err` changes nothing.
    pub(crate) fn set(&mut self, new: Bound) -> Result<(), AllocError>
        ensures ok { OnOk result (IsSet self.old new self.new) }
        ensures err { OnErr result (self.new ≡ self.old) }
    {
        if stands(self.near(new.id), new) {
            return Ok(());
        }
        if new.id < HIGH {
            self.low.set(self.alloc, new)
        } else {
            self.high.set(self.alloc, new)
        }
    }
}
