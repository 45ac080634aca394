//! A list of bounds that is shared until one of its owners changes it.
ghost use Rattle.std.specs.Prelude.{◌≡◌, ◌↔◌, [], IfOk, IsTrue, OnOk, OnErr};
ghost use Rattle.bpf_note.specs.Bounds.{IsSet, AreJoined};
ghost use Rattle.bpf_note.specs.Fingerprint.{fingerprint_of};
ghost use Rattle.bpf_note.specs.Parts.{IsNormal};

use crate::bound::Bound;
use crate::bounds::{are_same, covers_bounds, join_bounds, set_bound, with_room};
use crate::fingerprint::fingerprint_of;
use std::alloc::{AllocError, Global};
use std::marker::Model;
use std::rc::Rc;

/// All that is known of some ids. A copy has the same list until one of the two is changed, and then lists of their own.
#[derive(Drop)]
pub(crate) struct Chunk {
    list: Option<Rc<Vec<Bound>>>,
    fingerprint: u64,
}

impl Model for Chunk {
    ghost use Rattle.std.specs.Prelude.{List};
    ghost use Rattle.bpf_note.specs.declared.bound.Bound.{Bound};
    ghost use Rattle.std.specs.Prelude.{◌≡◌};
    ghost use Rattle.bpf_note.specs.Fingerprint.{fingerprint_of};
    ghost use Rattle.bpf_note.specs.Parts.{IsNormal};
    ghost use Rattle.bpf_note.specs.Shared.{listed};

    ghost Value = { List Bound };

    ghost view = { λ s. listed (λ r. r.value.items) s.list };

    ghost invariant = { λ s. let bounds = listed (λ r. r.value.items) s.list in IsNormal bounds × (s.fingerprint ≡ fingerprint_of bounds) };
}

impl Chunk {
    /// No bounds. It takes no memory.
    #[tactic(auto, unfolding(crate::specs::Fingerprint::fingerprint_of))]
    pub(crate) fn none() -> Chunk
        ensures { result ≡ [] }
    {
        Chunk {
            list: None,
            fingerprint: 0,
        }
    }

    /// These bounds.
    fn of(alloc: Global, bounds: Vec<Bound>) -> Result<Chunk, AllocError>
        requires { IsNormal bounds.items }
        ensures { IfOk result (λ s. s ≡ bounds.items) }
    {
        let fingerprint = fingerprint_of(&bounds);
        Ok(Chunk {
            list: Some(Rc::new(alloc, bounds)?),
            fingerprint,
        })
    }

    /// What is known of one id alone.
    fn only(alloc: Global, new: Bound) -> Result<Chunk, AllocError>
        ensures { IfOk result (λ s. IsSet [] new s) }
    {
        let mut bounds = Vec::with_capacity(alloc, 1)?;
        set_bound(&mut bounds, new)?;
        Chunk::of(alloc, bounds)
    }

    /// Another reference to these bounds.
    pub(crate) fn share(&self) -> Result<Chunk, AllocError>
        ensures { IfOk result (λ s. s ≡ self.now) }
    {
        let list = match &self.list {
            Some(list) => Some(list.clone()?),
            None => None,
        };
        Ok(Chunk {
            list,
            fingerprint: self.fingerprint,
        })
    }

    /// The number of these bounds: bounds with another one differ.
    pub(crate) fn fingerprint(&self) -> u64
        ensures { result ≡ fingerprint_of self.now }
    {
        self.fingerprint
    }

    /// Returns whether the bounds are equal.
    pub(crate) fn same_as(&self, other: &Chunk) -> bool
        ensures { IsTrue result ↔ (self.now ≡ other.now) }
    {
        self.fingerprint == other.fingerprint && are_same(self.as_slice(), other.as_slice())
    }

    /// The bounds, by rising ids.
    pub(crate) fn as_slice(&self) -> &[Bound]
        ensures same { result.now ≡ self.now }
        ensures normal { IsNormal self.now }
    {
        match &self.list {
            Some(list) => list.as_slice(),
            None => &[],
        }
    }

    /// Sets what is known of an id. An `Err` changes nothing.
    pub(crate) fn set(&mut self, alloc: Global, new: Bound) -> Result<(), AllocError>
        ensures ok { OnOk result (IsSet self.old new self.new) }
        ensures err { OnErr result (self.new ≡ self.old) }
    {
        match &mut self.list {
            Some(list) => self.fingerprint = set_shared(list, alloc, new)?,
            None => *self = Chunk::only(alloc, new)?,
        }
        Ok(())
    }

    /// The join of the two: this one, if the other adds nothing to it.
    pub(crate) fn joined(&self, alloc: Global, other: &Chunk) -> Result<Chunk, AllocError>
        ensures { IfOk result (λ s. AreJoined self.now other.now s) }
    {
        if self.same_as(other) {
            return self.share();
        }
        match join_bounds(alloc, self.as_slice(), other.as_slice())? {
            Some(bounds) => Chunk::of(alloc, bounds),
            None => self.share(),
        }
    }

    /// Returns whether the join of the two is the first.
    pub(crate) fn covers(&self, other: &Chunk) -> bool
        ensures { IsTrue result ↔ AreJoined self.now other.now self.now }
    {
        let (own, others) = (self.as_slice(), other.as_slice());
        self.same_as(other) || covers_bounds(own, others)
    }
}

/// Makes a list that has other owners one with no other, with room for one more. An `Err` changes nothing.
fn part(list: &mut Rc<Vec<Bound>>, alloc: Global) -> Result<(), AllocError>
    ensures { list.new.value.items ≡ list.old.value.items }
{
    if Rc::strong_count(list) != 1 {
        let own = with_room(alloc, list.as_slice())?;
        *list = Rc::new(alloc, own)?;
    }
    Ok(())
}

/// Sets what is known of an id in a list that may have other owners. Gives the new fingerprint. An `Err` changes nothing.
fn set_shared(list: &mut Rc<Vec<Bound>>, alloc: Global, new: Bound) -> Result<u64, AllocError>
    requires { IsNormal list.old.value.items }
    ensures ok { OnOk result (IsSet list.old.value.items new list.new.value.items) }
    ensures fingerprint { IfOk result (λ f. f ≡ fingerprint_of list.new.value.items) }
    ensures err { OnErr result (list.new.value.items ≡ list.old.value.items) }
{
    part(list, alloc)?;
    let bounds = Rc::make_mut(list)?;
    set_bound(bounds, new)?;
    Ok(fingerprint_of(bounds))
}
