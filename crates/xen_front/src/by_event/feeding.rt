//! What a phase wants, and the phase after an answer.

ghost use Rattle.std.specs.Prelude.{◌≡◌, ◌≤◌, ℕ, List, length};
ghost use mathlib.Core.Option.{none};
ghost use Rattle.xen_front.specs.Fronts.{rest};
ghost use Rattle.xen_front.specs.Given.{Shows, given};
ghost use Rattle.xen_front.specs.Rest.{HasSpace, busy_in, rest_at};
ghost use Rattle.xen_front.specs.Slots.{ended};
ghost use Rattle.xen_front.specs.Tree.{take_all};
ghost use Rattle.xen_front.specs.declared.by_event.phase.Phase.TheVariants as phases;
ghost use Rattle.xen_ring.specs.Layout.{rsp_event};
ghost use Rattle.xen_steps.specs.Places.{add32, page_word};
ghost use Rattle.xen_steps.specs.Steps.{done, next_by, want_of};

use crate::by_event::extras::{after_extra, extra_ended};
use crate::by_event::phase::{Chained, Extra, Phase};
use crate::by_event::posting::{
    after_event, post_first, post_flags, post_frame, post_second, posted,
};
use crate::by_event::receiving::{
    after_response, after_word, grant_ended, rx_first_looked, rx_looked,
};
use crate::by_event::sending::{
    filled, filling_want, granted, piece_flags, piece_frame, slot_write, slot_written,
};
use crate::by_event::taking::{after_tx_response, shown, tx_first_looked, tx_looked};
use crate::packet::Packet;
use crate::state::{FrontState, Ring};
use crate::turn::{Outcome, RxTurn};
use xen_buffers::{FrontWiring, GrantedPage, buffer_of, grant_flags};
use xen_page::Place;
use xen_ring::{REQ_EVENT, REQ_PROD, RSP_EVENT, RSP_PROD};
use xen_steps::{Want, header, rx_entry, tx_entry};

/// The next tx response, or the rx ring's producer if none is left.
fn taking(wiring: &FrontWiring, state: &FrontState, n: u32) -> Want
    ensures { result ≡ want_of (take_all wiring.now n state.now) }
{
    if n == 0 {
        Want::Read(header(wiring.rx_frame, RSP_PROD))
    } else {
        Want::Read(tx_entry(wiring.tx_frame, state.tx.cons, 0))
    }
}

/// Asks for a notice of the next response on a ring.
fn announce(frame: u32, ring: &Ring) -> Want
    ensures { result ≡ Want.Write (page_word frame rsp_event) (add32 ring.now.cons 1) }
{
    Want::Write(header(frame, RSP_EVENT), ring.cons.wrapping_add(1))
}

/// Ends a buffer's grant.
fn end_grant(wiring: &FrontWiring, buffer: &GrantedPage) -> Want
    ensures { result ≡ Want.Write (ended wiring.now buffer.now).at 0 }
{
    Want::Write(grant_flags(wiring, buffer), 0)
}

/// Returns what a phase wants.
pub(crate) fn phase_want(
    wiring: &FrontWiring,
    state: &FrontState,
    sent: &[u8],
    phase: &Phase,
) -> Want
    requires { length sent.now ≤ 65535 }
    ensures { (q : List ℕ) → result ≡ want_of (rest_at wiring.now state.now sent.now q phase.now) }
{
    match phase {
        Phase::Ready => Want::Done,
        Phase::GrantFrame(piece) => piece_frame(wiring, piece),
        Phase::GrantFlags(piece) => piece_flags(wiring, piece),
        Phase::Fill(filling) => filling_want(wiring, sent, filling),
        Phase::Second(piece) => slot_write(wiring, sent, piece, 1),
        Phase::Third(piece) => slot_write(wiring, sent, piece, 2),
        Phase::PostFrame { id, .. } => post_frame(wiring, *id),
        Phase::PostFlags { id, .. } => post_flags(wiring, *id),
        Phase::PostFirst { id, start } => post_first(wiring, *id, *start),
        Phase::PostSecond { id, start } => post_second(wiring, *id, *start),
        Phase::Publish(push) => Want::Write(header(push.frame, REQ_PROD), push.new),
        Phase::ReadEvent(push) => Want::Read(header(push.frame, REQ_EVENT)),
        Phase::Notice => Want::Notify(wiring.port),
        Phase::TxLook | Phase::TxLookAgain => Want::Read(header(wiring.tx_frame, RSP_PROD)),
        Phase::TxAnnounce => announce(wiring.tx_frame, &state.tx),
        Phase::Take(left) => taking(wiring, state, *left),
        Phase::TxEnd { id, .. } => end_grant(wiring, &buffer_of(wiring.tx, *id)),
        Phase::RxAnnounce => announce(wiring.rx_frame, &state.rx),
        Phase::RxLookAgain => Want::Read(header(wiring.rx_frame, RSP_PROD)),
        Phase::RxFirst(_) => Want::Read(rx_entry(wiring.rx_frame, state.rx.cons, 0)),
        Phase::RxSecond { .. } => Want::Read(rx_entry(wiring.rx_frame, state.rx.cons, 1)),
        Phase::RxEnd(part) => end_grant(wiring, &buffer_of(wiring.rx, part.response.id)),
        Phase::RxPage(paging) => Want::Read(Place {
            frame: paging.frame,
            word: paging.place,
        }),
        Phase::ExtraFirst(_) => Want::Read(rx_entry(wiring.rx_frame, state.rx.cons, 0)),
        Phase::ExtraSecond { .. } => Want::Read(rx_entry(wiring.rx_frame, state.rx.cons, 1)),
        Phase::ExtraEnd { id, .. } => end_grant(wiring, &buffer_of(wiring.rx, *id)),
        Phase::Ended(_) => Want::Done,
    }
}

/// After the word of a tx response, or of the rx ring's producer if none was left.
fn taken(state: &mut FrontState, received: &mut Packet, n: u32, word: u32) -> Phase
    ensures space { HasSpace result received.new }
    ensures rest { (w : FrontWiring) (p : List ℕ) (counter : ℕ) → rest_at w state.new p received.new result
        ≡ next_by (take_all w n state.old) word counter }
{
    if n == 0 {
        let shown = shown(&state.rx, word);
        rx_first_looked(state, received, shown)
    } else {
        after_tx_response(state, n, word)
    }
}

/// After a response's first word.
fn response_begun(chained: Chained, first: u32) -> Phase
    ensures { result ≡ phases.RxSecond chained first }
{
    Phase::RxSecond { chained, first }
}

/// After an extra's first word.
fn extra_begun(extra: Extra, first: u32) -> Phase
    ensures { result ≡ phases.ExtraSecond extra first }
{
    Phase::ExtraSecond { extra, first }
}

/// The phase after an answer.
pub(crate) fn phase_fed(
    wiring: &FrontWiring,
    state: &mut FrontState,
    sent: &[u8],
    received: &mut Packet,
    phase: Phase,
    word: u32,
) -> Phase
    requires length { length sent.now ≤ 65535 }
    requires space { HasSpace phase received.old }
    ensures space { HasSpace result received.new }
    ensures rest { (counter : ℕ) → rest_at wiring.now state.new sent.now received.new result
        ≡ next_by (rest_at wiring.now state.old sent.now received.old phase) word counter }
{
    match phase {
        Phase::Ready => Phase::Ready,
        Phase::GrantFrame(piece) => Phase::GrantFlags(piece),
        Phase::GrantFlags(piece) => granted(piece),
        Phase::Fill(filling) => filled(sent, filling),
        Phase::Second(piece) => Phase::Third(piece),
        Phase::Third(piece) => slot_written(wiring, piece),
        Phase::PostFrame { id, start } => Phase::PostFlags { id, start },
        Phase::PostFlags { id, start } => Phase::PostFirst { id, start },
        Phase::PostFirst { id, start } => Phase::PostSecond { id, start },
        Phase::PostSecond { start, .. } => posted(wiring, start),
        Phase::Publish(push) => Phase::ReadEvent(push),
        Phase::ReadEvent(push) => after_event(push, word),
        Phase::Notice => Phase::Ended(Outcome::Idle),
        Phase::TxLook => {
            let shown = shown(&state.tx, word);
            tx_first_looked(state, shown)
        }
        Phase::TxAnnounce => Phase::TxLookAgain,
        Phase::TxLookAgain => {
            let shown = shown(&state.tx, word);
            tx_looked(state, shown)
        }
        Phase::Take(n) => taken(state, received, n, word),
        Phase::TxEnd { left, .. } => Phase::Take(left),
        Phase::RxAnnounce => Phase::RxLookAgain,
        Phase::RxLookAgain => {
            let shown = shown(&state.rx, word);
            rx_looked(state, received, shown)
        }
        Phase::RxFirst(chained) => response_begun(chained, word),
        Phase::RxSecond { chained, first } => after_response(state, received, chained, first, word),
        Phase::RxEnd(part) => grant_ended(wiring, state, part),
        Phase::RxPage(paging) => after_word(state, received, paging, word),
        Phase::ExtraFirst(extra) => extra_begun(extra, word),
        Phase::ExtraSecond { extra, first } => after_extra(state, extra, first, word),
        Phase::ExtraEnd { extra, .. } => extra_ended(state, extra),
        Phase::Ended(outcome) => Phase::Ended(outcome),
    }
}

/// Returns what the activity gave, without the packet's bytes.
pub(crate) fn ending(phase: Phase) -> Outcome
    requires { (w : FrontWiring) × (s : FrontState) × (p : List ℕ) × (q : List ℕ) × (want_of (rest_at w s p q phase) ≡ Want.Done) }
    ensures { (w : FrontWiring) (s : FrontState) (p q : List ℕ) → rest_at w s p q phase ≡ done (s, given result q) }
{
    match phase {
        Phase::Ended(outcome) => outcome,
        Phase::Ready => Outcome::Idle,
        _ => unreachable!(),
    }
}

/// Returns what an activity gave, as the host is shown it.
pub(crate) fn show<'t>(received: &'t Packet, outcome: Outcome) -> RxTurn<'t>
    ensures { Shows (given outcome received.now) result }
{
    match outcome {
        Outcome::Idle => RxTurn::Idle,
        Outcome::Packet(offload) => RxTurn::Packet {
            offload,
            bytes: received.bytes(),
        },
        Outcome::Refused => RxTurn::Refused,
        Outcome::Halted { cause } => RxTurn::Halted { cause },
    }
}

/// Returns whether the front is inside an activity, or nobody has yet asked what it gave.
pub(crate) fn is_busy(phase: &Phase) -> bool
    ensures { result ≡ busy_in phase.now }
{
    match phase {
        Phase::Ready => false,
        _ => true,
    }
}
