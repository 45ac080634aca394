//! A poll: looking for responses, and taking those of the tx ring.

ghost use Rattle.std.specs.Prelude.{◌≡◌, ◌<◌, ◌-◌, ◌∷◌, ℕ, List, [], true};
ghost use Rattle.xen_front.specs.Rest.{HasSpace, rest_at};
ghost use Rattle.xen_front.specs.Slots.{counted, in_flight as in_flight_spec, outstanding as outstanding_spec, taken, took as took_spec};
ghost use Rattle.xen_front.specs.Tree.{after_tx_look, halted, judged, poll, seen, take_all};
ghost use Rattle.xen_netif.specs.Slots.{tx_rsp_of};
ghost use Rattle.xen_steps.specs.Places.{fresh};
ghost use Rattle.xen_steps.specs.Steps.{bind};

use crate::by_event::phase::Phase;
use crate::state::{Counts, FrontState, Ring};
use crate::turn::{FrontHalt, Outcome};
use xen_buffers::FrontWiring;
use xen_netif::TxRsp;
use xen_steps::responses_shown;

/// Ends the activity and halts the front.
pub(crate) fn halt(state: &mut FrontState, cause: FrontHalt) -> Phase
    ensures space { (q : List ℕ) → HasSpace result q }
    ensures rest { (w : FrontWiring) (p q : List ℕ) → rest_at w state.new p q result ≡ halted state.old cause }
{
    state.halt = Some(cause);
    Phase::Ended(Outcome::Halted { cause })
}

/// The number of responses that a ring's producer shows, if that many are outstanding.
pub(crate) fn shown(ring: &Ring, producer: u32) -> Option<u32>
    ensures { result ≡ fresh ring.now.cons (outstanding_spec ring.now) producer }
{
    responses_shown(ring.cons, ring.prod.wrapping_sub(ring.cons), producer)
}

/// Before a poll.
pub(crate) fn begin_poll() -> Phase
    ensures space { (q : List ℕ) → HasSpace result q }
    ensures rest { (w : FrontWiring) (s : FrontState) (p q : List ℕ) → rest_at w s p q result ≡ poll w s }
{
    Phase::TxLook
}

/// After the first look at the tx ring.
pub(crate) fn tx_first_looked(state: &mut FrontState, n: Option<u32>) -> Phase
    ensures space { (q : List ℕ) → HasSpace result q }
    ensures rest { (w : FrontWiring) (p q : List ℕ) → rest_at w state.new p q result
        ≡ bind (seen w.tx_frame state.old.tx n) (after_tx_look w state.old) }
{
    match n {
        None => halt(state, FrontHalt::TxProducer),
        Some(n) => {
            if n == 0 {
                Phase::TxAnnounce
            } else {
                Phase::Take(n)
            }
        }
    }
}

/// After the last look at the tx ring.
pub(crate) fn tx_looked(state: &mut FrontState, n: Option<u32>) -> Phase
    ensures space { (q : List ℕ) → HasSpace result q }
    ensures rest { (w : FrontWiring) (p q : List ℕ) → rest_at w state.new p q result ≡ after_tx_look w state.old n }
{
    match n {
        None => halt(state, FrontHalt::TxProducer),
        Some(n) => Phase::Take(n),
    }
}

/// Counts a tx response's status.
fn count(counts: &mut Counts, status: i16)
    ensures { counts.new ≡ counted counts.old status }
{
    match status {
        0 => counts.okay = counts.okay.saturating_add(1),
        -2 => counts.dropped = counts.dropped.saturating_add(1),
        -1 => counts.error = counts.error.saturating_add(1),
        _ => counts.other = counts.other.saturating_add(1),
    }
}

/// Takes the response to an id in flight.
pub(crate) fn land(ring: &mut Ring, id: u16)
    requires { in_flight_spec ring.old id ≡ true }
    ensures { ring.new ≡ taken ring.old id }
{
    ring.cons = ring.cons.wrapping_add(1);
    ring.out[usize::from(id)] = false;
}

/// Returns whether a request with this id is open.
pub(crate) fn is_in_flight(ring: &Ring, id: u16) -> bool
    ensures { result ≡ in_flight_spec ring.now id }
{
    match ring.out.get(usize::from(id)) {
        Some(out) => *out,
        None => false,
    }
}

/// After a tx response.
pub(crate) fn after_tx_response(state: &mut FrontState, n: u32, word: u32) -> Phase
    requires { 0 < n }
    ensures space { (q : List ℕ) → HasSpace result q }
    ensures rest { (w : FrontWiring) (p q : List ℕ) → rest_at w state.new p q result
        ≡ judged w state.old (tx_rsp_of (word ∷ [])) (in_flight_spec state.old.tx (tx_rsp_of (word ∷ [])).id)
        (take_all w (n - 1) (took_spec state.old (tx_rsp_of (word ∷ [])))) }
{
    let response = TxRsp::of_words([word]);
    if is_in_flight(&state.tx, response.id) {
        land(&mut state.tx, response.id);
        count(&mut state.counts, response.status);
        Phase::TxEnd {
            id: response.id,
            left: n - 1,
        }
    } else {
        halt(state, FrontHalt::TxId)
    }
}
