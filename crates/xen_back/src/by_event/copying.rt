//! Copying a chain's fragments.

ghost use Rattle.std.specs.Prelude.{◌≡◌, ◌<◌, ◌≤◌, ◌+◌, ◌-◌, ◌/◌, ◌++◌, List, ℕ, suc, length, drop, sum_by, Ok, Some};
ghost use Rattle.xen_netif.specs.Copy.{Covers, bytes_in};
ghost use Rattle.xen_netif.specs.Fragments.{fragment_size};
ghost use Rattle.xen_netif.specs.Segments.{offered_fragments};
ghost use Rattle.xen_netif.specs.Standing.{standing};
ghost use Rattle.xen_netif.specs.declared.chain.ChainState.TheVariants.{Complete};
ghost use Rattle.xen_netif.specs.declared.status.Status.TheVariants.{Error};
ghost use Rattle.xen_page.specs.Entry.{entry_of};
ghost use Rattle.xen_page.specs.Grant.{checked};
ghost use Rattle.xen_page.specs.declared.entry.Rights.TheVariants.{ReadOnly};
ghost use Rattle.xen_turns.specs.Rest.{fragment_at};
ghost use Rattle.xen_back.specs.Rest.{rest_at, rest_in};
ghost use Rattle.xen_steps.specs.Pages.{HasRoom};
ghost use Rattle.xen_steps.specs.Steps.{bind};
ghost use Rattle.xen_rx_fill.specs.Entries.{entry_at};
ghost use Rattle.xen_turns.specs.Tree.{after_chain, after_copy, copy, entered, respond};
ghost use Rattle.xen_steps.specs.Pages.{copy_words, covered};
ghost use Rattle.xen_turns.specs.Turned.{Refused};
ghost use Rattle.xen_turns.specs.declared.state.State.{State as StateView};
ghost use Rattle.xen_turns.specs.declared.wiring.Wiring.{Wiring as WiringView};
ghost use Rattle.xen_back.specs.declared.by_event.stage.Stage.TheVariants as stages;

use crate::by_event::answering::begin_answers;
use crate::by_event::copy::{Entering, Paging};
use crate::by_event::executing::begin_run;
use crate::by_event::phase::Phase;
use crate::by_event::stage::Stage;
use crate::copy_buf::CopyBuf;
use arrayvec::ArrayVec;
use xen_host::Room;
use xen_netif::{Chain, Fragment, Status};
use xen_page::{Entry, Place, Rights, check};
use xen_turns::{Kind, PacketRefusal, State, Wiring};

/// After a whole chain.
pub(crate) fn begin_copy<'p, 'b>(
    wiring: &Wiring<'p>,
    state: &State,
    packet: CopyBuf<'b>,
    chain: Chain,
) -> Stage<'p, 'b>
    requires { standing chain ≡ Some (Ok Complete) }
    ensures { rest_in wiring.now state.now result ≡ after_chain wiring.now state.now chain (offered_fragments wiring.now.offers chain) }
{
    match chain.offered_fragments(wiring.offers) {
        Err(fault) => Stage::At(packet, refuse(state, &chain, PacketRefusal::Size(fault))),
        Ok(fragments) => {
            let mut packet = packet;
            packet.clear();
            next_fragment(wiring, state, packet, chain, fragments, 0)
        }
    }
}

/// The chain is answered with ERROR.
fn refuse(state: &State, chain: &Chain, cause: PacketRefusal) -> Phase
    ensures { (w : WiringView) (packet : List ℕ) → rest_at w state.now packet result
        ≡ respond w state.now chain.now Error (Refused cause 0 (length chain.now)) }
{
    let slots = chain.requests().len() as u32;
    let kind = Kind::Refused {
        cause,
        ops: 0,
        slots,
    };
    begin_answers(*state, chain, Status::Error, kind)
}

/// Before the i-th fragment, or after the last.
fn next_fragment<'p, 'b>(
    wiring: &Wiring<'p>,
    state: &State,
    packet: CopyBuf<'b>,
    chain: Chain,
    fragments: ArrayVec<Fragment, 18>,
    i: usize,
) -> Stage<'p, 'b>
    requires within { i ≤ length fragments.items }
    requires room { length packet + sum_by fragment_size (drop i fragments.items) ≤ 65535 }
    ensures { rest_in wiring.now state.now result
        ≡ bind (copy wiring.now (drop i fragments.items) packet.entry) (after_copy wiring.now state.now chain) }
{
    if i == fragments.len() {
        begin_run(wiring, packet, chain)
    } else {
        let fragment = fragments[i];
        match wiring.vif.table.place(fragment.gref) {
            None => Stage::At(packet, refuse(state, &chain, PacketRefusal::Grant)),
            Some(at) => Stage::EntryFlags(entering(packet, chain, fragments, i, at)),
        }
    }
}

/// Before the entry of the i-th fragment.
fn entering<'b>(
    packet: CopyBuf<'b>,
    chain: Chain,
    fragments: ArrayVec<Fragment, 18>,
    i: usize,
    at: Place,
) -> Entering<'b>
    requires word { at.word < 1023 }
    requires within { i < length fragments.items }
    requires room { length packet + sum_by fragment_size (drop i fragments.items) ≤ 65535 }
    ensures { (w : WiringView) (s : StateView) → rest_in w s (stages.EntryFlags result)
        ≡ bind (bind (entry_at w.vif ReadOnly (Some at))
        (entered (fragment_at fragments.items i) (copy w (drop (i + 1) fragments.items)) packet.entry)) (after_copy w s chain) }
{
    Entering {
        chain,
        fragments,
        packet,
        i,
        at,
    }
}

/// After an entry.
pub(crate) fn after_entry<'p, 'b>(
    wiring: &Wiring<'p>,
    state: &State,
    entry: Entering<'b>,
    flags_word: u32,
    frame_word: u32,
) -> Stage<'p, 'b>
    ensures { rest_in wiring.now state.now result
        ≡ bind (entered (fragment_at entry.entry.fragments.items entry.entry.i)
        (copy wiring.now (drop (entry.entry.i + 1) entry.entry.fragments.items)) entry.entry.packet
        (checked wiring.now.vif.owners.now wiring.now.vif.granter wiring.now.vif.user (entry_of flags_word frame_word) ReadOnly))
        (after_copy wiring.now state.now entry.entry.chain) }
{
    let Entering {
        chain,
        fragments,
        packet,
        i,
        at: _,
    } = entry;
    match check(
        wiring.vif.owners,
        wiring.vif.granter,
        wiring.vif.user,
        Entry::of_words(flags_word, frame_word),
        Rights::ReadOnly,
    ) {
        Err(_) => Stage::At(packet, refuse(state, &chain, PacketRefusal::Grant)),
        Ok(frame) => {
            let fragment = fragments[i];
            begin_page(
                wiring,
                state,
                packet,
                chain,
                fragments,
                i + 1,
                fragment,
                frame,
            )
        }
    }
}

/// Before the words of a fragment's page.
fn begin_page<'p, 'b>(
    wiring: &Wiring<'p>,
    state: &State,
    packet: CopyBuf<'b>,
    chain: Chain,
    fragments: ArrayVec<Fragment, 18>,
    i: usize,
    fragment: Fragment,
    frame: u32,
) -> Stage<'p, 'b>
    requires within { i ≤ length fragments.items }
    requires room { length packet + fragment.size + sum_by fragment_size (drop i fragments.items) ≤ 65535 }
    ensures { rest_in wiring.now state.now result
        ≡ bind (bind (copy_words fragment frame (fragment.offset / 4) (covered fragment) packet.entry)
        (copy wiring.now (drop i fragments.items))) (after_copy wiring.now state.now chain) }
{
    let words = fragment.covered_words();
    if words.start == words.end {
        next_fragment(wiring, state, packet, chain, fragments, i)
    } else {
        let place = words.start;
        let n = words.end - words.start - 1;
        Stage::Page(paging(packet, chain, fragments, i, fragment, frame, place, n))
    }
}

/// Before a word of a page.
fn paging<'b>(
    packet: CopyBuf<'b>,
    chain: Chain,
    fragments: ArrayVec<Fragment, 18>,
    i: usize,
    fragment: Fragment,
    frame: u32,
    place: u32,
    n: u32,
) -> Paging<'b>
    requires within { i ≤ length fragments.items }
    requires covers { Covers fragment place }
    requires last { place + n ≡ (fragment.offset + fragment.size - 1) / 4 }
    requires room { HasRoom (length packet) fragment place (sum_by fragment_size (drop i fragments.items)) }
    ensures { (w : WiringView) (s : StateView) → rest_in w s (stages.Page result)
        ≡ bind (bind (copy_words fragment frame place (suc n) packet.entry) (copy w (drop i fragments.items))) (after_copy w s chain) }
{
    Paging {
        chain,
        fragments,
        packet,
        i,
        fragment,
        frame,
        place,
        n,
    }
}

/// After a word of a page.
pub(crate) fn after_page<'p, 'b>(
    wiring: &Wiring<'p>,
    state: &State,
    page: Paging<'b>,
    word: u32,
) -> Stage<'p, 'b>
    ensures { rest_in wiring.now state.now result
        ≡ bind (bind (copy_words page.entry.fragment page.entry.frame (page.entry.place + 1) page.entry.n (page.entry.packet
        ++ bytes_in page.entry.fragment page.entry.place word)) (copy wiring.now (drop page.entry.i page.entry.fragments.items)))
        (after_copy wiring.now state.now page.entry.chain) }
{
    let Paging {
        chain,
        fragments,
        mut packet,
        i,
        fragment,
        frame,
        place,
        n,
    } = page;
    let bytes = fragment.bytes_in(place, word);
    packet.push_all(bytes.as_slice());
    if n == 0 {
        next_fragment(wiring, state, packet, chain, fragments, i)
    } else {
        Stage::Page(paging(
            packet,
            chain,
            fragments,
            i,
            fragment,
            frame,
            place + 1,
            n - 1,
        ))
    }
}
