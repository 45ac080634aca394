//! Answering a chain: one response per slot, the push, and a notice if one is due.

ghost use Rattle.std.specs.Prelude.{◌≡◌, ◌+◌, List, ℕ, length, drop};
ghost use Rattle.xen_steps.specs.Places.{add32};
ghost use Rattle.xen_back.specs.Rest.{rest_at};
ghost use Rattle.xen_steps.specs.Steps.{next_by, want_of};
ghost use Rattle.xen_turns.specs.Tree.{answer, answered, notice, respond, responses as responses_spec};
ghost use Rattle.xen_turns.specs.Turned.{Ending, turned};
ghost use Rattle.xen_ring.specs.Index.{is_due};
ghost use Rattle.xen_turns.specs.declared.state.State.{State as StateView};
ghost use Rattle.xen_turns.specs.declared.wiring.Wiring.{Wiring as WiringView};

use crate::by_event::phase::Phase;
use arrayvec::ArrayVec;
use xen_netif::{Chain, Status};
use xen_ring::{RSP_PROD, due};
use xen_steps::{Want, header, tx_entry};
use xen_turns::decisions::{after_answers, response};
use xen_turns::{Kind, State, Wiring};

/// The responses to a chain's slots.
fn responses(status: Status, chain: &Chain) -> ArrayVec<u32, 23>
    ensures words { result.items ≡ responses_spec status chain.now }
    ensures len { length result.items ≡ length chain.now }
{
    let requests = chain.requests();
    let mut words = ArrayVec::new();
    for request in requests.as_slice() {
        words.push(response(status, request));
    }
    words
}

/// Before the responses.
pub(crate) fn begin_answers(at: State, chain: &Chain, status: Status, kind: Kind) -> Phase
    ensures { (w : WiringView) (s : StateView) (packet : List ℕ) → rest_at w s packet result
        ≡ respond w at chain.now status (turned kind packet) }
{
    Phase::Answering {
        at,
        words: responses(status, chain),
        i: 0,
        kind,
    }
}

/// The next response, or the push if all are written.
pub(crate) fn answering_want(
    wiring: &Wiring,
    at: &State,
    words: &ArrayVec<u32, 23>,
    i: usize,
) -> Want
    ensures { (e : Ending) → result ≡ want_of (answer wiring.now at.now.tx_index (length words.now.items) i (drop i words.now.items) e) }
{
    match words.as_slice().get(i) {
        Some(word) => Want::Write(
            tx_entry(wiring.vif.tx, at.tx_index.wrapping_add(i as u32), 0),
            *word,
        ),
        None => Want::Write(
            header(wiring.vif.tx, RSP_PROD),
            at.tx_index.wrapping_add(words.len() as u32),
        ),
    }
}

/// After a response, or after the push if all responses were written.
pub(crate) fn answer_written(at: State, words: ArrayVec<u32, 23>, i: usize, kind: Kind) -> Phase
    ensures { (w : WiringView) (s : StateView) (packet : List ℕ) (word counter : ℕ) → rest_at w s packet result
        ≡ next_by (answer w at.tx_index (length words.items) i (drop i words.items) (
          answered at (length words.items),
          turned kind packet,
        )) word counter }
{
    if i < words.len() {
        Phase::Answering {
            at,
            words,
            i: i + 1,
            kind,
        }
    } else {
        let n = words.len() as u32;
        Phase::ReadEvent { at, n, kind }
    }
}

/// After the event index.
pub(crate) fn after_event(at: State, n: u32, kind: Kind, event: u32) -> Phase
    ensures { (w : WiringView) (s : StateView) (packet : List ℕ) → rest_at w s packet result
        ≡ notice w (is_due at.tx_index (add32 at.tx_index n) event) (answered at n, turned kind packet) }
{
    let after = after_answers(&at, n);
    if due(at.tx_index, at.tx_index.wrapping_add(n), event) {
        Phase::Notice { after, kind }
    } else {
        Phase::Ended { after, kind }
    }
}
