//! The slots of a turn's chain.

ghost use Rattle.std.specs.Prelude.{◌≡◌, ◌≤◌, ◌∷◌, [], sum_by, false, IfOk, IsTrue, MatchResult, Ok};
ghost use Rattle.std.specs.Prelude.{Err, Some};
ghost use Rattle.std.specs.List.{list_all};
ghost use Rattle.xen_netif.specs.Chain.{extra_info, more_data};
ghost use Rattle.xen_netif.specs.Fragments.{fragment_size, is_in_page};
ghost use Rattle.xen_netif.specs.Segments.{offered_fragments};
ghost use Rattle.xen_netif.specs.Standing.{standing};

use arrayvec::ArrayVec;
use std::marker::Model;
use xen_netif::{
    Chain, ChainFault, ChainState, Fragment, Offers, Segments, SizeFault, TxReq, is_alone,
    only_fragment,
};

/// In which form the slots are held.
#[derive(Clone, Copy)]
pub enum SlotForm {
    /// There are none.
    Empty,
    /// The one that is the whole chain.
    Single,
    /// In the chain.
    Chained,
}

/// The slots of a chain. One that is a whole chain lies by itself, so that the room for more isn't touched. Contracts see the slots.
#[derive(Drop)]
pub struct Slots {
    pub(crate) form: SlotForm,
    /// Their number.
    pub(crate) count: usize,
    pub(crate) single: [u32; 3],
    pub(crate) chain: Chain,
}

impl Model for Slots {
    ghost use Rattle.std.specs.Prelude.{◌≡◌, ◌≤◌, List, ℕ, length};
    ghost use Rattle.xen_host.specs.SlotForms.{IsWhole, slots_held};

    ghost Value = { List (List ℕ) };

    ghost view = { λ s. slots_held s.form s.single s.chain };

    ghost invariant = { λ s. IsWhole s.form s.single × (s.count ≡ length (slots_held s.form s.single s.chain)) × (s.count ≤ 23) };
}

/// Puts a fragment that is all into the room for fragments. If one was before it is replaced, without a call that
/// clears the room.
#[inline(always)]
pub(crate) fn put_alone(room: &mut ArrayVec<Fragment, 18>, fragment: Fragment)
    ensures { room.new.items ≡ fragment ∷ [] }
{
    if room.len() == 1 {
        room[0] = fragment;
    } else {
        room.clear();
        room.push(fragment);
    }
}

/// Puts the fragment of a slot that is a whole chain into the room for fragments.
#[inline(always)]
fn place_single(slot: [u32; 3], room: &mut ArrayVec<Fragment, 18>) -> Result<(), SizeFault>
    requires plain { extra_info slot ≡ false }
    ensures answer { (offers : Offers) → MatchResult result (λ _. offered_fragments offers (slot ∷ []) ≡ Ok room.new.items)
        (λ fault. offered_fragments offers (slot ∷ []) ≡ Err fault) }
    ensures short { IfOk result (λ _. sum_by fragment_size room.new.items ≤ 65535) }
    ensures in_page { IfOk result (λ _. IsTrue (list_all is_in_page room.new.items)) }
{
    match only_fragment(slot) {
        Err(fault) => Err(fault),
        Ok(fragment) => {
            put_alone(room, fragment);
            Ok(())
        }
    }
}

/// Puts the fragments of a whole chain into the room for fragments. It is out of line, since a function pays at its entry for all
/// that is inlined into it.
#[inline(never)]
fn place_all(
    chain: &Chain,
    offers: Offers,
    room: &mut ArrayVec<Fragment, 18>,
) -> Result<(), SizeFault>
    requires { standing chain.now ≡ Some (Ok ChainState.Complete) }
    ensures answer { MatchResult result (λ _. offered_fragments offers chain.now ≡ Ok room.new.items)
        (λ fault. offered_fragments offers chain.now ≡ Err fault) }
    ensures short { IfOk result (λ _. sum_by fragment_size room.new.items ≤ 65535) }
    ensures in_page { IfOk result (λ _. IsTrue (list_all is_in_page room.new.items)) }
{
    match chain.offered_fragments(offers) {
        Err(fault) => Err(fault),
        Ok(fragments) => {
            *room = fragments;
            Ok(())
        }
    }
}

impl Slots {
    ghost use Rattle.std.specs.Prelude.{◌≡◌, ◌≢◌, ◌≤◌, ◌<◌, ◌↔◌, ◌++◌, ◌∷◌, [], length, sum_by, IfOk, IfSome};
    ghost use Rattle.std.specs.Prelude.{IsTrue, MatchResult, Ok, Err, OnErr, OnOk, Some, false, slice_get};
    ghost use Rattle.xen_netif.specs.Chain.{extra_info, more_data, requests_of};
    ghost use Rattle.std.specs.List.{list_all};
    ghost use Rattle.xen_netif.specs.Fragments.{fragment_size, is_in_page};
    ghost use Rattle.xen_netif.specs.Segments.{offered_fragments, segments_of};
    ghost use Rattle.xen_netif.specs.Standing.{standing};

    /// None.
    pub fn new() -> Slots
        ensures { result ≡ [] }
    {
        Slots {
            form: SlotForm::Empty,
            count: 0,
            single: [0; 3],
            chain: Chain::new(),
        }
    }

    /// Takes all slots out.
    pub fn clear(&mut self)
        ensures { self.new ≡ [] }
    {
        self.form = SlotForm::Empty;
        self.count = 0;
    }

    /// Returns their number.
    pub fn len(&self) -> usize
        ensures len { result ≡ length self.now }
        ensures few { result ≤ 23 }
    {
        self.count
    }

    /// Returns whether there is none.
    pub fn is_empty(&self) -> bool
        ensures { IsTrue result ↔ (self.now ≡ []) }
    {
        self.count == 0
    }

    /// The first slot of a chain that wants more.
    #[inline(never)]
    fn push_first(&mut self, words: [u32; 3]) -> Result<ChainState, ChainFault>
        requires { self.old ≡ [] }
        ensures standing { standing (words ∷ []) ≡ Some result }
        ensures ok { OnOk result (self.new ≡ words ∷ []) }
        ensures err { OnErr result (self.new ≡ []) }
    {
        self.chain = Chain::new();
        self.form = SlotForm::Chained;
        let pushed = self.chain.push(words);
        self.count = self.chain.len();
        pushed
    }

    /// Holds the slot of these three words, which is a whole chain, in place of none.
    #[inline(always)]
    pub(crate) fn hold(&mut self, words: [u32; 3])
        requires plain { extra_info words ≡ false }
        requires alone { more_data words ≡ false }
        ensures { self.new ≡ words ∷ [] }
    {
        self.single = words;
        self.form = SlotForm::Single;
        self.count = 1;
    }

    /// Adds the slot of these three words, and says what is wanted next, as [`Chain::push`] does.
    #[inline(always)]
    pub fn push(&mut self, words: [u32; 3]) -> Result<ChainState, ChainFault>
        requires { standing self.old ≢ Some (Ok ChainState.Complete) }
        ensures standing { standing (self.old ++ words ∷ []) ≡ Some result }
        ensures ok { OnOk result (self.new ≡ self.old ++ words ∷ []) }
        ensures err { OnErr result (self.new ≡ self.old) }
    {
        match self.form {
            SlotForm::Empty => {
                if is_alone(words) {
                    self.hold(words);
                    Ok(ChainState::Complete)
                } else {
                    self.push_first(words)
                }
            }
            SlotForm::Single => unreachable!(),
            SlotForm::Chained => {
                let pushed = self.chain.push(words);
                self.count = self.chain.len();
                pushed
            }
        }
    }

    /// Puts the fragments of a whole chain into their room, as [`Chain::offered_fragments`] gives them.
    #[inline(always)]
    pub fn place_fragments(
        &self,
        offers: Offers,
        room: &mut ArrayVec<Fragment, 18>,
    ) -> Result<(), SizeFault>
        requires { standing self.now ≡ Some (Ok ChainState.Complete) }
        ensures answer { MatchResult result (λ _. offered_fragments offers self.now ≡ Ok room.new.items)
            (λ fault. offered_fragments offers self.now ≡ Err fault) }
        ensures short { IfOk result (λ _. sum_by fragment_size room.new.items ≤ 65535) }
        ensures in_page { IfOk result (λ _. IsTrue (list_all is_in_page room.new.items)) }
    {
        match self.form {
            SlotForm::Empty => unreachable!(),
            SlotForm::Single => place_single(self.single, room),
            SlotForm::Chained => place_all(&self.chain, offers, room),
        }
    }

    /// Returns how the packet of a chain is to be segmented, as [`Chain::segments`] gives it.
    #[inline(always)]
    #[tactic(auto, using(crate::proofs::OffloadLemmas::single_says))]
    pub fn segments(&self, offers: Offers) -> Option<Segments>
        ensures { result ≡ segments_of offers self.now }
    {
        match self.form {
            SlotForm::Empty => None,
            SlotForm::Single => None,
            SlotForm::Chained => self.chain.segments(offers),
        }
    }

    /// The request of the slot that lies by itself, if it does.
    #[inline(always)]
    pub fn only_request(&self) -> Option<TxReq>
        ensures request { IfSome result (λ request. requests_of self.now ≡ Some request ∷ []) }
        ensures one { IfSome result (λ request. length self.now ≡ 1) }
    {
        match self.form {
            SlotForm::Single => Some(TxReq::of_words(self.single)),
            _ => None,
        }
    }

    /// The request in the slot of this number, as [`Chain::request`] gives it.
    #[inline(always)]
    #[tactic(auto, using(crate::proofs::ChainLemmas::request_alone))]
    pub fn request(&self, number: usize) -> Option<TxReq>
        requires { number < length self.now }
        ensures { slice_get (requests_of self.now) number ≡ Some result }
    {
        match self.form {
            SlotForm::Empty => unreachable!(),
            SlotForm::Single => Some(TxReq::of_words(self.single)),
            SlotForm::Chained => self.chain.request(number),
        }
    }
}
