//! The chain of slots that a packet makes on the tx ring.

ghost use Rattle.std.specs.Prelude.{[], ◌∷◌, ◌++◌, ◌≡◌, ◌≢◌, ◌↔◌, ◌<◌, ◌≤◌, length, sum_by, None, Some, Ok, Err, MatchOption, MatchResult};
ghost use Rattle.std.specs.Prelude.{IfOk, IsTrue, List, OnErr, OnOk, if◌then◌else◌, slice_get};
ghost use Rattle.std.specs.List.{list_all};
ghost use Rattle.xen_netif.specs.Chain.{Slot, Stands, extra_info, requests_of};
ghost use Rattle.xen_netif.specs.Fragments.{fragment_size, fragments_of, is_in_page, packet_size, sized_fragments, slot_size};
ghost use Rattle.xen_netif.specs.Segments.{data_behind, offered_fragments, segments_of};
ghost use Rattle.xen_netif.specs.Slots.{tx_req_of};
ghost use Rattle.xen_netif.specs.Standing.{standing};

use crate::expected::Expected;
use crate::extra::asks_extra;
use crate::fault::{ChainFault, SizeFault};
use crate::fragment::{Fragment, all_in_page, split, total_size};
use crate::segments::{NO_OFFERS, Offers, Segments};
use crate::tx::TxReq;
use arrayvec::ArrayVec;
use std::marker::Model;

/// The next need of a chain.
#[derive(Clone, Copy, Debug, PartialEq, Eq)]
pub enum ChainState {
    /// A data slot.
    Data,
    /// An extra.
    Extra,
    /// Nothing: the chain is complete.
    Complete,
}

/// The slots of one packet, as they were read: a data slot, up to five extras if it says so, and up to
/// seventeen further data slots.
#[derive(Debug, Drop)]
pub struct Chain {
    slots: ArrayVec<[u32; 3], 23>,
    expected: Expected,
}

impl Model for Chain {
    ghost use Rattle.std.specs.Prelude.{List, ℕ};
    ghost use Rattle.xen_netif.specs.Expected.{Expects};

    ghost Value = { List (List ℕ) };

    ghost view = { λ c. c.slots.items };

    ghost invariant = { λ c. Expects c.slots.items c.expected };
}

impl Default for Chain {
    ghost use Rattle.std.specs.Prelude.{[], ◌≡◌};

    ghost is_default = { λ chain. chain ≡ [] };

    fn default() -> Self {
        Chain::new()
    }
}

impl Chain {
    /// A chain without slots.
    pub fn new() -> Self
        ensures { result ≡ [] }
    {
        Chain {
            slots: ArrayVec::new(),
            expected: Expected::First,
        }
    }

    /// Returns the number of slots, extras among them.
    pub fn len(&self) -> usize
        ensures len { result ≡ length self.now }
        ensures few { result ≤ 23 }
    {
        self.slots.len()
    }

    /// Returns whether there is no slot yet.
    pub fn is_empty(&self) -> bool
        ensures { IsTrue result ↔ (self.now ≡ []) }
    {
        self.slots.is_empty()
    }

    /// Returns what the chain wants next.
    pub fn state(&self) -> ChainState
        ensures grammar { Stands self.now (Some (Ok result)) }
        ensures standing { standing self.now ≡ Some (Ok result) }
    {
        self.expected.state()
    }

    /// Adds the slot of these three words, and says what is wanted next. A fault leaves the chain as it was.
    ///
    /// # Errors
    ///
    /// `UnknownExtra` if an extra is wanted and the slot's type is none of the five, `TooManyExtras` if the slot is
    /// a fifth extra and asks for a sixth, `TooManySlots` if it is an eighteenth data slot and asks for a nineteenth.
    pub fn push(&mut self, words: [u32; 3]) -> Result<ChainState, ChainFault>
        requires { standing self.old ≢ Some (Ok ChainState.Complete) }
        ensures grammar { Stands (self.old ++ words ∷ []) (Some result) }
        ensures standing { standing (self.old ++ words ∷ []) ≡ Some result }
        ensures ok { OnOk result (self.new ≡ self.old ++ words ∷ []) }
        ensures err { OnErr result (self.new ≡ self.old) }
    {
        let expected = self.expected.after(words)?;
        self.slots.push(words);
        self.expected = expected;
        Ok(expected.state())
    }

    /// The request in each slot, in order; `None` for an extra.
    pub fn requests(&self) -> ArrayVec<Option<TxReq>, 23>
        ensures items { result.items ≡ requests_of self.now }
        ensures len { length result.items ≡ length self.now }
    {
        requests_in(self.slots.as_slice())
    }

    /// The request in the slot of this number, as [`Chain::requests`] has it.
    #[inline]
    pub fn request(&self, number: usize) -> Option<TxReq>
        requires { number < length self.now }
        ensures { slice_get (requests_of self.now) number ≡ Some result }
    {
        request_in(self.slots.as_slice(), number)
    }

    /// The packet's parts in granted pages, one per slot, in order, as a queue takes it that offers nothing.
    ///
    /// # Errors
    ///
    /// The first that applies of `ExtraInfo`, `ShortPacket`, `LaterSizes` and `PastPage`.
    pub fn fragments(&self) -> Result<ArrayVec<Fragment, 18>, SizeFault>
        requires { standing self.now ≡ Some (Ok ChainState.Complete) }
        ensures answer { MatchResult result (λ v. fragments_of self.now ≡ Ok v.items)
            (λ fault. fragments_of self.now ≡ Err fault) }
        ensures sizes { IfOk result (λ v. sum_by fragment_size v.items ≡ packet_size self.now) }
        ensures short { IfOk result (λ v. sum_by fragment_size v.items ≤ 65535) }
        ensures count { IfOk result (λ v. length v.items ≡ length self.now) }
        ensures in_page { IfOk result (λ v. IsTrue (list_all is_in_page v.items)) }
    {
        fragments_in(self.slots.as_slice(), NO_OFFERS)
    }

    /// The packet's parts in granted pages, one per data slot, in order, as a queue takes it that offers this.
    ///
    /// # Errors
    ///
    /// The first that applies of `ExtraInfo`, `ShortPacket`, `LaterSizes` and `PastPage`.
    pub fn offered_fragments(&self, offers: Offers) -> Result<ArrayVec<Fragment, 18>, SizeFault>
        requires { standing self.now ≡ Some (Ok ChainState.Complete) }
        ensures answer { MatchResult result (λ v. offered_fragments offers self.now ≡ Ok v.items)
            (λ fault. offered_fragments offers self.now ≡ Err fault) }
        ensures sizes { IfOk result (λ v. sum_by fragment_size v.items ≡ packet_size self.now) }
        ensures short { IfOk result (λ v. sum_by fragment_size v.items ≤ 65535) }
        ensures in_page { IfOk result (λ v. IsTrue (list_all is_in_page v.items)) }
    {
        fragments_in(self.slots.as_slice(), offers)
    }

    /// Returns how the packet is to be segmented. `None` if its chain has no extra, and where a queue that offers this doesn't take
    /// it.
    pub fn segments(&self, offers: Offers) -> Option<Segments>
        ensures { result ≡ segments_of offers self.now }
    {
        segments_in(self.slots.as_slice(), offers)
    }
}

/// Returns how the packet of these slots is to be segmented.
fn segments_in(slots: &[[u32; 3]], offers: Offers) -> Option<Segments>
    ensures { result ≡ segments_of offers slots.now }
{
    let (first, later) = slots.split_first()?;
    if !TxReq::of_words(*first).flags.extra_info {
        return None;
    }
    let extra = later.first()?;
    offers.segments(*first, *extra)
}

/// The fragments of a whole chain's slots, as a queue takes them that offers this.
fn fragments_in(slots: &[[u32; 3]], offers: Offers) -> Result<ArrayVec<Fragment, 18>, SizeFault>
    requires { standing slots.now ≡ Some (Ok ChainState.Complete) }
    ensures answer { MatchResult result (λ v. offered_fragments offers slots.now ≡ Ok v.items)
        (λ fault. offered_fragments offers slots.now ≡ Err fault) }
    ensures sizes { IfOk result (λ v. sum_by fragment_size v.items ≡ packet_size slots.now) }
    ensures short { IfOk result (λ v. sum_by fragment_size v.items ≤ 65535) }
    ensures in_page { IfOk result (λ v. IsTrue (list_all is_in_page v.items)) }
{
    let first = slots[0];
    match data_behind(first, &slots[1..], offers) {
        Some(later) => sized_fragments(first, later),
        None => Err(SizeFault::ExtraInfo),
    }
}

/// The data slots behind a packet's first slot, if it has no extra or one that a queue takes.
fn data_behind(first: [u32; 3], later: &[[u32; 3]], offers: Offers) -> Option<&[[u32; 3]]>
    ensures { MatchOption result (data_behind offers (extra_info first) first later.now ≡ None)
        (λ rest. data_behind offers (extra_info first) first later.now ≡ Some rest.now) }
{
    if !TxReq::of_words(first).flags.extra_info {
        return Some(later);
    }
    let (extra, rest) = later.split_first()?;
    if offers.segments(first, *extra).is_some() {
        Some(rest)
    } else {
        None
    }
}

/// The fragments of a packet's data slots.
fn sized_fragments(first: [u32; 3], later: &[[u32; 3]]) -> Result<ArrayVec<Fragment, 18>, SizeFault>
    requires { length later.now ≤ 17 }
    ensures answer { MatchResult result (λ v. sized_fragments first later.now ≡ Ok v.items)
        (λ fault. sized_fragments first later.now ≡ Err fault) }
    ensures sizes { IfOk result (λ v. sum_by fragment_size v.items ≡ slot_size first) }
    ensures short { IfOk result (λ v. sum_by fragment_size v.items ≤ 65535) }
    ensures in_page { IfOk result (λ v. IsTrue (list_all is_in_page v.items)) }
{
    let first = TxReq::of_words(first);
    if first.size < 14 {
        return Err(SizeFault::ShortPacket);
    }
    let later_size = total_size(later);
    let packet_size = u32::from(first.size);
    if packet_size < later_size {
        return Err(SizeFault::LaterSizes);
    }
    let first = Fragment {
        gref: first.gref,
        offset: first.offset,
        size: (packet_size - later_size) as u16,
    };
    let fragments = split(first, later);
    if all_in_page(fragments.as_slice()) {
        Ok(fragments)
    } else {
        Err(SizeFault::PastPage)
    }
}

/// Returns whether a chain's slot behind these is an extra.
fn wants_extra(before: &[[u32; 3]]) -> bool
    ensures { (slot : Slot) (rest : List Slot) → slice_get (requests_of (before.now ++ slot ∷ rest)) (length before.now)
        ≡ Some (if result then None else Some (tx_req_of slot)) }
{
    let Some((first, later)) = before.split_first() else {
        return false;
    };
    let mut extra_asked = TxReq::of_words(*first).flags.extra_info;
    for slot in later {
        if !extra_asked {
            return false;
        }
        extra_asked = asks_extra(*slot);
    }
    extra_asked
}

/// The request in the slot of this number of a chain's slots.
fn request_in(slots: &[[u32; 3]], number: usize) -> Option<TxReq>
    requires { number < length slots.now }
    ensures { slice_get (requests_of slots.now) number ≡ Some result }
{
    if wants_extra(&slots[..number]) {
        None
    } else {
        Some(TxReq::of_words(slots[number]))
    }
}

/// The requests in a chain's slots.
fn requests_in(slots: &[[u32; 3]]) -> ArrayVec<Option<TxReq>, 23>
    requires { length slots.now ≤ 23 }
    ensures items { result.items ≡ requests_of slots.now }
    ensures len { length result.items ≡ length slots.now }
{
    let mut requests = ArrayVec::new();
    let Some((first, later)) = slots.split_first() else {
        return requests;
    };
    let first = TxReq::of_words(*first);
    requests.push(Some(first));
    let mut extra_asked = first.flags.extra_info;
    for slot in later {
        if extra_asked {
            extra_asked = asks_extra(*slot);
            requests.push(None);
        } else {
            requests.push(Some(TxReq::of_words(*slot)));
        }
    }
    requests
}
