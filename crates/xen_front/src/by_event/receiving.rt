//! A poll's packet: the responses of the rx ring, checked one by one, and their pages.

ghost use Rattle.std.specs.Prelude.{◌≡◌, ◌<◌, ◌≤◌, ◌+◌, ◌-◌, ◌/◌, ◌++◌, ◌∷◌, ℕ, List, [], ◌||◌, ◌&&◌, not, suc, length, if◌then◌else◌};
ghost use Rattle.xen_front.specs.Rest.{HasSpace, bytes_left, gathered, part_rest, rest_at};
ghost use Rattle.xen_front.specs.Slots.{covered_bytes as covered_bytes_spec, fault_of, in_flight, is_negative as is_negative_spec};
ghost use Rattle.xen_front.specs.Slots.{may_have_extra as may_have_extra_spec, part_of as part_of_spec, passes_page as passes_page_spec};
ghost use Rattle.xen_front.specs.Slots.{first_said as first_said_spec, said_by};
ghost use Rattle.xen_front.specs.Given as givens;
ghost use Rattle.xen_front.specs.Tree.{after_rx_look, checked, first_word, read_page, receive, seen};
ghost use Rattle.xen_netif.specs.Copy.{Covers, bytes_in};
ghost use Rattle.xen_netif.specs.Slots.{rx_rsp_of};
ghost use Rattle.xen_steps.specs.Pages.{copy_words};
ghost use Rattle.xen_steps.specs.Steps.{bind, done};

use crate::by_event::extras::extra_next;
use crate::by_event::phase::{Chained, Paging, Part, Phase};
use crate::by_event::taking::{halt, is_in_flight, land};
use crate::packet::Packet;
use crate::state::FrontState;
use crate::turn::{FrontHalt, Outcome};
use xen_buffers::{FrontWiring, GrantedPage, buffer_of};
use xen_netif::{Accepts, Fragment, RxFlags, RxOffload, RxRsp};

/// After the first look at the rx ring.
pub(crate) fn rx_first_looked(
    state: &mut FrontState,
    received: &mut Packet,
    n: Option<u32>,
) -> Phase
    ensures space { HasSpace result received.new }
    ensures rest { (w : FrontWiring) (p : List ℕ) → rest_at w state.new p received.new result
        ≡ bind (seen w.rx_frame state.old.rx n) (after_rx_look w state.old) }
{
    match n {
        None => rx_looked(state, received, None),
        Some(n) => {
            if n == 0 {
                Phase::RxAnnounce
            } else {
                rx_looked(state, received, Some(n))
            }
        }
    }
}

/// After the last look at the rx ring.
pub(crate) fn rx_looked(state: &mut FrontState, received: &mut Packet, n: Option<u32>) -> Phase
    ensures space { HasSpace result received.new }
    ensures rest { (w : FrontWiring) (p : List ℕ) → rest_at w state.new p received.new result ≡ after_rx_look w state.old n }
{
    match n {
        None => halt(state, FrontHalt::RxProducer),
        Some(n) => {
            if n == 0 {
                Phase::Ended(Outcome::Idle)
            } else {
                received.clear();
                before_response(Chained {
                    left: n - 1,
                    slots: 0,
                    bad: false,
                    offload: RxOffload::Whole,
                })
            }
        }
    }
}

/// The bytes that a response of this status covers.
fn covered_bytes(status: i16) -> u16
    ensures value { result ≡ covered_bytes_spec status }
    ensures most { result < 32768 }
{
    if status < 0 { 0 } else { status as u16 }
}

/// Returns whether a status is an error's.
fn is_negative(status: i16) -> bool
    ensures { result ≡ is_negative_spec status }
{
    status < 0
}

/// Returns whether offset and status, added as whole numbers, are above a page's 4,096 bytes.
fn passes_page(offset: u16, status: i16) -> bool
    ensures { result ≡ passes_page_spec offset status }
{
    i32::from(offset) + i32::from(status) > 4096
}

/// Returns whether an extra may lie behind the slot that comes after so many.
fn may_have_extra(accepts: &Accepts, slots: u32) -> bool
    ensures { result ≡ may_have_extra_spec accepts.now slots }
{
    slots == 0 && (accepts.segments.gso_tcpv4 || accepts.segments.gso_tcpv6)
}

/// Returns whether a response names no buffer in flight, or its flags ask for what may not come.
fn is_strange(state: &FrontState, slots: u32, response: &RxRsp) -> bool
    ensures { result ≡ (not (in_flight state.now.rx response.now.id)
        || (response.now.flags.extra_info && not (may_have_extra_spec state.now.accepts slots)) || response.now.flags.gso_prefix) }
{
    let RxFlags {
        extra_info,
        gso_prefix,
        ..
    } = response.flags;
    !is_in_flight(&state.rx, response.id)
        || extra_info && !may_have_extra(&state.accepts, slots)
        || gso_prefix
}

/// Returns why a response halts the front, if it does.
fn fault(state: &FrontState, slots: u32, bytes: u32, response: &RxRsp) -> Option<FrontHalt>
    requires { bytes ≤ 65535 }
    ensures { result ≡ fault_of state.now.accepts state.now.rx slots bytes response.now }
{
    if is_strange(state, slots, response) {
        return Some(FrontHalt::RxSlot);
    }
    if passes_page(response.offset, response.status) {
        return Some(FrontHalt::RxSize);
    }
    if slots == 15 && response.flags.more_data
        || bytes + u32::from(covered_bytes(response.status)) > 65535
    {
        return Some(FrontHalt::LongChain);
    }
    None
}

/// After a response's two words.
pub(crate) fn after_response(
    state: &mut FrontState,
    received: &Packet,
    chained: Chained,
    first: u32,
    second: u32,
) -> Phase
    ensures space { HasSpace result received.now }
    ensures rest { (w : FrontWiring) (p : List ℕ) → rest_at w state.new p received.now result
        ≡ checked w state.old (gathered chained received.now) (rx_rsp_of (first ∷ second ∷ []))
        (fault_of state.old.accepts state.old.rx chained.slots (length received.now) (rx_rsp_of (first ∷ second ∷ [])))
        (receive w chained.left) }
{
    let response = RxRsp::of_words([first, second]);
    match fault(
        state,
        chained.slots,
        received.bytes().len() as u32,
        &response,
    ) {
        Some(cause) => halt(state, cause),
        None => {
            land(&mut state.rx, response.id);
            Phase::RxEnd(Part { chained, response })
        }
    }
}

/// The part of the packet that a response describes.
fn part_of(buffer: &GrantedPage, response: &RxRsp) -> Fragment
    ensures { result ≡ part_of_spec buffer.now response.now }
{
    Fragment {
        gref: buffer.gref,
        offset: response.offset,
        size: covered_bytes(response.status),
    }
}

/// After the end of a response's grant.
pub(crate) fn grant_ended(wiring: &FrontWiring, state: &mut FrontState, part: Part) -> Phase
    ensures space { (q : List ℕ) → length q + covered_bytes_spec part.response.status ≤ 65535 → HasSpace result q }
    ensures rest { (p q : List ℕ) → rest_at wiring.now state.new p q result
        ≡ read_page wiring.now state.old (gathered part.chained q) part.response (receive wiring.now part.chained.left) }
{
    let buffer = buffer_of(wiring.rx, part.response.id);
    let fragment = part_of(&buffer, &part.response);
    let words = fragment.covered_words();
    if words.start == words.end {
        after_part(state, part)
    } else {
        let place = words.start;
        let more = words.end - words.start - 1;
        before_word(part, buffer.frame, fragment, place, more)
    }
}

/// Before a word of a part's page.
fn before_word(part: Part, frame: u32, fragment: Fragment, place: u32, more: u32) -> Phase
    requires covers { Covers fragment place }
    requires last { place + more ≡ (fragment.offset + fragment.size - 1) / 4 }
    ensures space { (q : List ℕ) → length q + bytes_left fragment place ≤ 65535 → HasSpace result q }
    ensures rest { (w : FrontWiring) (s : FrontState) (p q : List ℕ) → rest_at w s p q result
        ≡ bind (copy_words fragment frame place (suc more) q) (part_rest w s part) }
{
    Phase::RxPage(Paging {
        part,
        frame,
        fragment,
        place,
        more,
    })
}

/// Before a response of the chain.
fn before_response(chained: Chained) -> Phase
    ensures space { (q : List ℕ) → HasSpace result q }
    ensures rest { (w : FrontWiring) (s : FrontState) (p q : List ℕ) → rest_at w s p q result
        ≡ first_word w s (gathered chained q) (receive w chained.left) }
{
    Phase::RxFirst(chained)
}

/// Before a further response of the chain, or the halt if the producer showed none: here `left` counts that one too.
pub(crate) fn more_responses(state: &mut FrontState, chained: Chained) -> Phase
    ensures space { (q : List ℕ) → HasSpace result q }
    ensures rest { (w : FrontWiring) (p q : List ℕ) → rest_at w state.new p q result ≡ receive w chained.left state.old (gathered chained q) }
{
    if chained.left == 0 {
        halt(state, FrontHalt::ShortChain)
    } else {
        before_response(one_less(chained))
    }
}

/// The chain with one response less that is left.
pub(crate) fn one_less(chained: Chained) -> Chained
    requires { 0 < chained.left }
    ensures left { result.left ≡ chained.left - 1 }
    ensures gathered { (q : List ℕ) → gathered result q ≡ gathered chained q }
{
    Chained {
        left: chained.left - 1,
        slots: chained.slots,
        bad: chained.bad,
        offload: chained.offload,
    }
}

/// Returns what a whole chain gives.
pub(crate) fn given(bad: bool, offload: RxOffload) -> Phase
    ensures space { (q : List ℕ) → HasSpace result q }
    ensures rest { (w : FrontWiring) (s : FrontState) (p q : List ℕ) → rest_at w s p q result ≡ done (s, if bad then givens.Refused else givens.Packet offload q) }
{
    if bad {
        Phase::Ended(Outcome::Refused)
    } else {
        Phase::Ended(Outcome::Packet(offload))
    }
}

/// Returns whether a status was negative, that of a part among them.
fn is_bad(part: &Part) -> bool
    ensures { result ≡ (part.now.chained.bad || is_negative_spec part.now.response.status) }
{
    part.chained.bad || is_negative(part.response.status)
}

/// Returns what a response behind so many slots says of the packet's checksum, if it is the first; else what was known.
fn first_said(slots: u32, known: RxOffload, said: RxOffload) -> RxOffload
    ensures { result ≡ first_said_spec slots known said }
{
    if slots == 0 { said } else { known }
}

/// Returns what the packet leaves to the front, as far as this part and those before it say.
fn said(part: &Part) -> RxOffload
    ensures { result ≡ said_by part.now.response.flags part.now.chained.slots part.now.chained.offload }
{
    let RxFlags {
        csum_blank,
        data_validated,
        ..
    } = part.response.flags;
    let Chained { slots, offload, .. } = part.chained;
    if csum_blank {
        first_said(slots, offload, RxOffload::Blank)
    } else if data_validated {
        first_said(slots, offload, RxOffload::Validated)
    } else {
        offload
    }
}

/// After a part's page.
fn after_part(state: &mut FrontState, part: Part) -> Phase
    ensures space { (q : List ℕ) → HasSpace result q }
    ensures rest { (w : FrontWiring) (p q : List ℕ) → rest_at w state.new p q result ≡ part_rest w state.old part q }
{
    let bad = is_bad(&part);
    let offload = said(&part);
    let RxFlags {
        extra_info,
        more_data,
        ..
    } = part.response.flags;
    if !extra_info && !more_data {
        return given(bad, offload);
    }
    let chained = Chained {
        left: part.chained.left,
        slots: part.chained.slots + 1,
        bad,
        offload,
    };
    if extra_info {
        extra_next(state, chained, more_data)
    } else {
        more_responses(state, chained)
    }
}

/// After a word of a part's page.
pub(crate) fn after_word(
    state: &mut FrontState,
    received: &mut Packet,
    paging: Paging,
    word: u32,
) -> Phase
    requires { length received.old + bytes_left paging.fragment paging.place ≤ 65535 }
    ensures space { HasSpace result received.new }
    ensures rest { (w : FrontWiring) (p : List ℕ) → rest_at w state.new p received.new result
        ≡ bind (copy_words paging.fragment paging.frame (paging.place + 1) paging.more
        (received.old ++ bytes_in paging.fragment paging.place word)) (part_rest w state.old paging.part) }
{
    let bytes = paging.fragment.bytes_in(paging.place, word);
    push_all(received, bytes.as_slice());
    if paging.more == 0 {
        after_part(state, paging.part)
    } else {
        before_word(
            paging.part,
            paging.frame,
            paging.fragment,
            paging.place + 1,
            paging.more - 1,
        )
    }
}

/// Puts the bytes after those that were received.
fn push_all(received: &mut Packet, bytes: &[u8])
    requires { length received.old + length bytes.now ≤ 65535 }
    ensures { received.new ≡ received.old ++ bytes.now }
{
    for byte in bytes {
        received.push(*byte);
    }
}
